//! Lists the function symbols of an executable, a line each.

ghost use Rattle.std.specs.Prelude.{◌≡◌, ◌++◌, ◌<◌, ◌≤◌, ℕ, List, Bool, true, false, length, take, Option, Some, None, Ok, IfSome, IfNone, IfOk, OnOk};
ghost use Rattle.std.specs.String.{string_bytes};
ghost use Rattle.std.specs.Io.KnownBytes.{Keeps, Appends};
ghost use Rattle.binfarce.specs.SymbolViews.{section_function_view};
ghost use Rattle.binfarce.specs.declared.SymbolTable.{SymbolTable};
ghost use Rattle.binfarce_tools.specs.Answer.{selected_answer, MemoryIn};
ghost use Rattle.binfarce_tools.specs.Entries.{GetsIn};
ghost use Rattle.binfarce_tools.specs.Listing.{ListingFits};
ghost use Rattle.binfarce_tools.specs.ListWords.{outcome_of};
ghost use Rattle.binfarce_tools.specs.SectionAnswer.{readers_answer, NeedsMemory, IsListingOf};
ghost use Rattle.binfarce_tools.specs.SelectedTexts.{IsLineOfSelected, IsListingOfSelected, last_line, section_part, section_text};
ghost use Rattle.binfarce_tools.specs.Writing.{EndsAs, Takes, Fails, Leaves};
ghost use Rattle.binfarce_tools.specs.Tables.{AreTablesOf, given_by, section_names};

use crate::functions::{Selected, readers_functions};
use crate::tables::Tables;
use crate::writing::write_whole;
use binfarce::{ParseError, SectionFunction};
use binfarce_names::demangle::Demangler;
use binfarce_rows::head::push_head;
use std::alloc::{AllocError, Global};
use std::error::Error;
use std::fmt;
use std::io::Write;

/// A sink of bytes.
pub trait Sink {
    // The bytes that were taken so far, where they are known.
    ghost taken: { Self → Option (List ℕ) } = { λ _. None };

    // A write has failed.
    ghost has_failed: { Self → Bool };

    /// Takes some of the bytes, of which there is at least one.
    ///
    /// `Some(n)`: the first `n` were taken, `n` being from 1 to their number. `None`: none was taken, and from here
    /// on `failed` is true.
    fn write(&mut self, bytes: &[u8]) -> Option<usize>
        requires { 0 < length bytes.now }
        ensures count { IfSome result (λ n. (0 < n) × (n ≤ length bytes.now)) }
        ensures takes { IfSome result (λ n. Appends (taken self.old) (taken self.new) (take n bytes.now)) }
        ensures kept { IfSome result (λ _. has_failed self.new ≡ has_failed self.old) }
        ensures none { IfNone result (Keeps (taken self.old) (taken self.new)) }
        ensures fails { IfNone result (has_failed self.new ≡ true) };

    /// Whether a write has failed.
    fn failed(&self) -> bool
        ensures { result ≡ has_failed self.now };
}

/// A sink over a writer.
#[derive(Drop)]
pub struct Out<W> {
    writer: W,
    failed: bool,
}

impl<W: Write> Out<W> {
    ghost use Rattle.binfarce_tools.specs.Sink.{writer_of, has_failed};

    /// A sink over this writer, in which no write has failed.
    pub fn new(writer: W) -> Out<W>
        ensures writer { writer_of result ≡ writer }
        ensures failed { has_failed result ≡ false }
    {
        Out {
            writer,
            failed: false,
        }
    }

    /// The writer.
    pub fn into_inner(self) -> W
        ensures { result ≡ writer_of self }
    {
        self.writer
    }
}

impl<W: Write> Sink for Out<W> {
    ghost use Rattle.binfarce_tools.specs.Sink.{writer_of, has_failed};

    ghost taken = { λ s. W.contents (writer_of s) };

    ghost has_failed = { has_failed };

    /// `None` is the writer's error, of any kind, or its 0.
    fn write(&mut self, bytes: &[u8]) -> Option<usize> {
        match self.writer.write(bytes) {
            Ok(n) if n > 0 => Some(n),
            _ => {
                self.failed = true;
                None
            }
        }
    }

    fn failed(&self) -> bool {
        self.failed
    }
}

/// Why a file was not listed.
#[derive(Debug, PartialEq, Drop)]
pub enum ListError {
    /// The file's first bytes name no supported format.
    Unknown,
    /// The reader of the file's format refused it.
    Parse(ParseError),
    /// An allocation failed.
    OutOfMemory,
    /// A write of the sink failed. It took a beginning of the listing.
    Write,
}

impl fmt::Display for ListError {
    ghost use Rattle.binfarce_tools.specs.ListWords.{list_words};

    ghost output = { λ e. Some (list_words e) };

    fn fmt<W: fmt::Write>(&self, f: &mut fmt::Formatter<W>) -> fmt::Result {
        match self {
            ListError::Unknown => write!(f, "unknown file format"),
            ListError::Parse(e) => write!(f, "{e}"),
            ListError::OutOfMemory => write!(f, "out of memory"),
            ListError::Write => write!(f, "write failed"),
        }
    }
}

impl Error for ListError {}

impl From<AllocError> for ListError {
    ghost use Rattle.binfarce_tools.specs.declared.list.ListError.TheVariants.{OutOfMemory};

    ghost from_gives = { λ _ e. e ≡ OutOfMemory };

    fn from(_: AllocError) -> Self {
        ListError::OutOfMemory
    }
}

impl From<ParseError> for ListError {
    ghost use Rattle.binfarce_tools.specs.ListWords.{list_error_of};

    ghost from_gives = { λ e l. l ≡ list_error_of e };

    /// A failed allocation becomes `OutOfMemory`, and any other error becomes `Parse`.
    fn from(e: ParseError) -> Self {
        match e {
            ParseError::OutOfMemory => ListError::OutOfMemory,
            _ => ListError::Parse(e),
        }
    }
}

/// Lists the function symbols of a file's section: a line for each, and then the section's size.
///
/// The format is the one that the file's first bytes name; the section is that of an ELF file, and of a Mach-O or PE
/// file it is the text. A line is `{address:016x} {size:>10} {trimmed}`, the last one `text {size}`. The listing is
/// made before its first byte is written.
///
/// # Errors
///
/// `Unknown` if the format isn't supported; `Parse` if its reader refuses the file; `OutOfMemory` if an
/// allocation failed. Nothing is written then. `Write` if a write failed: a beginning of the listing may then be
/// written.
pub fn list<S: Sink>(
    alloc: Global,
    file: &[u8],
    section: &str,
    out: &mut S,
) -> Result<(), ListError>
    ensures outcome { EndsAs ListingFits (NeedsMemory file.now) (readers_answer file.now section.now)
        (outcome_of result) }
    ensures takes { Takes IsListingOf (readers_answer file.now section.now) (S.taken out.old)
        (S.taken out.new) (outcome_of result) }
    ensures fails { Fails (S.has_failed out.old) (S.has_failed out.new) (outcome_of result) }
    ensures leaves { Leaves out.old out.new (outcome_of result) }
{
    let selected = readers_functions(alloc, file, section)?;
    let text = listing(alloc, &Tables::whole(file, section), selected)?;
    write_whole(out, text.as_bytes())
}

/// Lists the function symbols of a file's tables, for the selection that they were read for, as `list` does for an ELF
/// file's section. In a Mach-O or PE file a section is the code section, and its function symbols are those that
/// `selected_functions` of a reader gives. For all sections a line is
/// `{address:016x} {size:>10} {section} {trimmed}`, with the section's name, or its number in brackets where it has
/// none; and there is no last line.
///
/// # Errors
///
/// As `list`.
pub fn list_tables<S: Sink>(
    alloc: Global,
    tables: &Tables<'_>,
    out: &mut S,
) -> Result<(), ListError>
    ensures outcome { (which : SymbolTable) (file : List ℕ) (section : Option (List ℕ))
        → AreTablesOf which file section tables.now
        → EndsAs ListingFits (MemoryIn file section) (selected_answer which section file) (outcome_of result) }
    ensures takes { (which : SymbolTable) (file : List ℕ) (section : Option (List ℕ))
        → AreTablesOf which file section tables.now → Takes IsListingOfSelected
        (selected_answer which section file) (S.taken out.old) (S.taken out.new) (outcome_of result) }
    ensures fails { Fails (S.has_failed out.old) (S.has_failed out.new) (outcome_of result) }
    ensures leaves { Leaves out.old out.new (outcome_of result) }
{
    let selected = tables.functions(alloc)?;
    list_selected(alloc, tables, selected, out)
}

/// As `list_tables`, of the function symbols that `Tables::functions` gave.
///
/// # Errors
///
/// `OutOfMemory` and `Write`, as `list`.
pub fn list_selected<S: Sink>(
    alloc: Global,
    tables: &Tables<'_>,
    selected: Selected<'_>,
    out: &mut S,
) -> Result<(), ListError>
    ensures outcome { (which : SymbolTable) (file : List ℕ) (section : Option (List ℕ))
        → GetsIn which file section (Ok selected.entry)
        → EndsAs ListingFits (MemoryIn file section) (selected_answer which section file) (outcome_of result) }
    ensures takes { (which : SymbolTable) (file : List ℕ) (section : Option (List ℕ))
        → AreTablesOf which file section tables.now → GetsIn which file section (Ok selected.entry)
        → Takes IsListingOfSelected (selected_answer which section file) (S.taken out.old) (S.taken out.new)
        (outcome_of result) }
    ensures fails { Fails (S.has_failed out.old) (S.has_failed out.new) (outcome_of result) }
    ensures leaves { Leaves out.old out.new (outcome_of result) }
{
    let text = listing(alloc, tables, selected)?;
    write_whole(out, text.as_bytes())
}

// The whole listing of a selection.
fn listing(alloc: Global, tables: &Tables<'_>, selected: Selected<'_>) -> Result<String, AllocError>
    ensures { IfOk result (λ t. IsListingOfSelected (given_by tables.now selected.entry) (string_bytes t)) }
{
    let Selected { functions, size } = selected;
    let mut text = String::new(alloc);
    let mut demangler = Demangler::new(alloc);
    for function in functions {
        push_line(&mut demangler, &mut text, tables, size, function)?;
    }
    push_last_line(&mut text, size)?;
    Ok(text)
}

// Appends the line of a function symbol to the text, with its section if there is no size.
fn push_line(
    demangler: &mut Demangler,
    text: &mut String,
    tables: &Tables<'_>,
    size: Option<u64>,
    function: SectionFunction<'_>,
) -> Result<(), AllocError>
    ensures { OnOk result
        ((line : List ℕ) × IsLineOfSelected (section_names tables.now) size (section_function_view function.entry) line
        × (string_bytes text.new ≡ string_bytes text.old ++ line)) }
{
    push_head(text, function.function.address, function.function.size)?;
    push_section_part(text, tables, size, function.section)?;
    demangler.push_trimmed(text, function.function.name)?;
    text.push_str("\n")
}

/// Appends a section and a blank to the text where all sections are selected, which have no size; else nothing.
///
/// # Errors
///
/// `AllocError` if an allocation failed. The text is then unspecified.
pub fn push_section_part(
    text: &mut String,
    tables: &Tables<'_>,
    size: Option<u64>,
    number: u32,
) -> Result<(), AllocError>
    ensures { OnOk result
        (string_bytes text.new ≡ string_bytes text.old ++ section_part (section_names tables.now) size number) }
{
    match size {
        Some(_) => Ok(()),
        None => {
            push_section(text, tables, number)?;
            text.push_str(" ")
        }
    }
}

/// Appends a section's name, or its number in brackets where it has none, to the text.
///
/// # Errors
///
/// `AllocError` if an allocation failed. The text is then unspecified.
pub fn push_section(text: &mut String, tables: &Tables<'_>, number: u32) -> Result<(), AllocError>
    ensures { OnOk result
        (string_bytes text.new ≡ string_bytes text.old ++ section_text (section_names tables.now number) number) }
{
    match tables.section_name(number) {
        Some(name) => text.push_str(name),
        None => write!(text, "[{number}]"),
    }
}

// Appends the last line to the text: that of the selected section's size; nothing if all sections are selected.
pub(crate) fn push_last_line(text: &mut String, size: Option<u64>) -> Result<(), AllocError>
    ensures { OnOk result (string_bytes text.new ≡ string_bytes text.old ++ last_line size) }
{
    match size {
        Some(size) => writeln!(text, "text {size}"),
        None => Ok(()),
    }
}
