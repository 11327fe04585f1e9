//! Hints on files: what a person may want to know beside the result. Standard output doesn't depend on them, and the
//! status on those alone that say that a limit is exceeded.

ghost use Rattle.std.specs.Prelude.{◌≡◌, ◌++◌, [], ℕ, List, None, Some, IfOk, OnOk, drop};
ghost use Rattle.std.specs.Option.{option_map};
ghost use Rattle.std.specs.String.{string_bytes};
ghost use Rattle.binfarce_jobs.specs.Hints.{IsOrNone, count_of, debug_in, debug_of, debug_path, dynamic_for, dynamic_in, has_none, lack_by, lack_in, lacks, lacks_descriptors, link_text, loaded_words, section_in, stripped_for, stripped_in, stripped_words, unknown_for, unknown_in, words_of};
ghost use Rattle.binfarce_jobs.specs.Show.{answer_taken, excess_of};

use crate::limit::above;
use crate::show::{Kind, Request, Seen, Symbols, tables_of};
use binfarce_bytes::ParseError;
use binfarce_bytes::format::Format;
use binfarce_bytes::functions::SectionFunction;
use binfarce_bytes::parser::up_to_nul;
use binfarce_bytes::source::Source;
use binfarce_figures::key::Key;
use binfarce_figures::sums::Sums;
use binfarce_io::fault::Fault;
use binfarce_io::message::push_byte;
use binfarce_limits::excess::Excess;
use binfarce_limits::rows::Finding;
use binfarce_sections::bytes::write_section_of;
use binfarce_sections::error::SectionError;
use binfarce_tables::format::read_format;
use binfarce_tools::SymbolTable;
use binfarce_tools::list::Out;
use binfarce_tools::tables::Selection;
use binfarce_words::takes::Limit;
use std::alloc::{AllocError, Global};
use std::fmt;

/// A hint on a file.
#[derive(Debug, Drop)]
pub enum Hint {
    /// The file has no function symbol.
    None,
    /// The dynamic symbol table of the file has no function symbol.
    NoneDynamic,
    /// The file has no undefined symbol.
    NoneNeeded,
    /// The section has no function symbol, and all sections have so many.
    Others(usize),
    /// The dynamic symbol table has so many function symbols.
    Dynamic(usize),
    /// The file has no symbol table, and function symbols are those of its dynamic one.
    Instead,
    /// The file is stripped, and its debug symbols may be there.
    Stripped(String),
    /// The descriptors of the functions of this file are in the program.
    Descriptors,
    /// None of so many addresses is in a function symbol.
    Missed(u64, Loaded),
    /// There is no address in a text, in which bare words may be some or are not.
    NoAddress(bool),
    /// No address in a text was found, and so many offsets are behind other names than those of the files.
    Offsets(u64),
    /// So many offsets in a text are behind a name that several files have.
    Unclear(u64),
    /// So many bytes of a sum of so many have no crate.
    Unknown(u64, u64),
    /// Its sum is more than is allowed, or grew by more.
    Excess(Excess, Limit),
    /// Nothing is counted that a limit could be on.
    Nothing,
    /// A row is above its limit, or there is none of this name.
    Row(Finding),
}

/// The hints on a file, in the order in which they are given.
#[derive(Debug, Drop)]
pub struct Hints {
    /// Why there is no function symbol; of a refused file how many dynamic ones there are.
    pub first: Option<Hint>,
    /// That many bytes have no crate; of a refused file where its debug symbols may be.
    pub second: Option<Hint>,
    /// That a sum exceeds its limit, or that there is none.
    pub excess: Option<Hint>,
    /// Which rows are above their limits, and which limits have no row.
    pub rows: Vec<Finding>,
}

/// What is known of where a file is loaded.
#[derive(Debug, Clone, Copy, PartialEq)]
pub enum Loaded {
    /// Nothing: addresses are the file's own.
    Unknown,
    /// A base.
    Base,
    /// Its mappings.
    Maps,
    /// Addresses are offsets in it.
    Offsets,
    /// One of the addresses is behind a function symbol, as a return address may be.
    Behind,
}

impl fmt::Display for Hint {
    ghost use Rattle.binfarce_jobs.specs.Hints.{hint_words};

    ghost output = { λ h. Some (hint_words h) };

    fn fmt<W: fmt::Write>(&self, f: &mut fmt::Formatter<W>) -> fmt::Result {
        match self {
            Hint::None => write!(f, "no function symbols"),
            Hint::NoneDynamic => write!(f, "no function symbols in .dynsym"),
            Hint::NoneNeeded => write!(f, "no undefined symbols"),
            Hint::Others(count) => write!(
                f,
                "no function symbols in the section; --all takes {count}"
            ),
            Hint::Dynamic(count) => write!(f, "--dynamic --all takes {count} function symbols"),
            Hint::Instead => write!(f, "no symbol table (.symtab): names are those of .dynsym"),
            Hint::Stripped(places) => write!(f, "its debug symbols may be in {places}"),
            Hint::Descriptors => write!(
                f,
                "its function descriptors (.opd) are in the program itself"
            ),
            Hint::Missed(count, loaded) => {
                let why = loaded.words();
                write!(f, "0 of {count} addresses are in a function symbol; {why}")
            }
            Hint::Unknown(bytes, sum) => write!(
                f,
                "{bytes} of {sum} bytes have no crate, as those of C, C++ and assembly; --by=function shows whose they are"
            ),
            Hint::Excess(excess, limit) => write!(f, "{excess}, and --fail-above allows {limit}"),
            Hint::Nothing => write!(f, "nothing is counted, so --fail-above can't be held"),
            Hint::Row(finding) => write!(f, "{finding}"),
            Hint::NoAddress(true) => write!(f, "no address in the text"),
            Hint::NoAddress(false) => write!(
                f,
                "no address in the text; --bare takes those without 0x, too"
            ),
            Hint::Offsets(count) => write!(
                f,
                "offsets ({count}) behind other names than the file's; if the file has one of them, --as=NAME says so"
            ),
            Hint::Unclear(count) => write!(
                f,
                "offsets ({count}) behind a name that several files have; --as=PATH tells them apart"
            ),
        }
    }
}

impl Loaded {
    // What would help where no address was found, in words.
    fn words(self) -> &'static str
        ensures { result.now ≡ loaded_words self }
    {
        match self {
            Loaded::Unknown => "--base or --maps is needed for addresses in memory",
            Loaded::Base => "is --base right?",
            Loaded::Maps => "are --maps and the addresses of one process?",
            Loaded::Behind => "--return looks each up as a return address, behind a call",
            Loaded::Offsets => "are they offsets in the file?",
        }
    }
}

/// The hint on sums by crate of which at least half is that of `[unknown]`.
pub(crate) fn unknown_in(key: Key, sums: Sums) -> Option<Hint>
    ensures { result ≡ unknown_in key sums }
{
    let Sums { total, unknown } = sums;
    let is_half = 2 * u128::from(unknown) >= u128::from(total);
    match key {
        Key::Crate | Key::Module if unknown > 0 && is_half => Some(Hint::Unknown(unknown, total)),
        _ => None,
    }
}

/// The hints on a file that was shown, in which this was found: the first one only if the file can be read again.
pub(crate) fn hints_on<S: Source<Log = ()>>(
    alloc: Global,
    source: &S,
    asked: &Request<'_>,
    seen: Seen,
) -> Hints
    ensures first { (file : List ℕ) → S.bytes source.now ≡ Some file
        → seen.is_empty ≡ has_none asked.now.symbols file
        → IsOrNone (words_of (lack_in asked.now.symbols file)) (words_of result.first) }
    ensures second { result.second ≡ unknown_for asked.now.kind seen.sums }
    ensures excess { result.excess ≡ excess_of asked.now.limit seen.sums }
    ensures rows { result.rows ≡ seen.rows }
{
    let Seen {
        is_empty,
        sums,
        rows,
    } = seen;
    let first = lack(alloc, source, &asked.symbols, is_empty).unwrap_or(None);
    let Some(sums) = sums else {
        return Hints {
            first,
            second: None,
            excess: None,
            rows,
        };
    };
    let second = match asked.kind {
        Kind::Figures(figures) => unknown_in(figures.grouping.key, sums),
        _ => None,
    };
    let excess = above(sums.total, asked.limit);
    Hints {
        first,
        second,
        excess,
        rows,
    }
}

/// The reason that a file has none of the function symbols that are taken: exactly if it has none.
///
/// # Errors
///
/// Where a read or an allocation fails, or the file is refused; never where there are some.
pub fn lack<S: Source<Log = ()>>(
    alloc: Global,
    source: &S,
    symbols: &Symbols<'_>,
    is_empty: bool,
) -> Result<Option<Hint>, Fault>
    ensures { (file : List ℕ) → S.bytes source.now ≡ Some file → is_empty ≡ has_none symbols.now file
        → IfOk result (λ hint. hint ≡ lack_in symbols.now file) }
{
    if !is_empty {
        return Ok(None);
    }
    let all = match symbols.selection {
        Selection::All => 0,
        Selection::Section(_) => count_of_all(alloc, source, symbols.which)?,
    };
    Ok(Some(lack_by(symbols.which, all)))
}

// The reason, by how many function symbols all sections have.
fn lack_by(which: SymbolTable, all: usize) -> Hint
    ensures { result ≡ lack_by which all }
{
    match which {
        _ if all > 0 => Hint::Others(all),
        SymbolTable::Dynsym => Hint::NoneDynamic,
        SymbolTable::Symtab => Hint::None,
    }
}

// How many function symbols all sections have.
fn count_of_all<S: Source<Log = ()>>(
    alloc: Global,
    source: &S,
    which: SymbolTable,
) -> Result<usize, Fault>
    ensures { (file : List ℕ) → S.bytes source.now ≡ Some file
        → IfOk result (λ count. count ≡ count_of (answer_taken which file None)) }
{
    let all = Symbols {
        which,
        selection: Selection::All,
    };
    let tables = tables_of(alloc, source, &all)?;
    let selected = tables.functions(alloc)?;
    let list: Vec<SectionFunction<'_>> = selected.functions.collect(alloc)?;
    Ok(list.len())
}

/// The hints on a file that is refused for this reason: of one without a symbol table or without function symbols how many
/// dynamic ones it has, and where its debug symbols may be, each only if the file can be read for it.
pub fn refusal_hints<S: Source<Log = ()>>(alloc: Global, source: &S, fault: &Fault) -> Hints
    ensures first { (file : List ℕ) → S.bytes source.now ≡ Some file
        → IsOrNone (words_of (dynamic_for fault.now file)) (words_of result.first) }
    ensures second { (file : List ℕ) → S.bytes source.now ≡ Some file
        → IsOrNone (stripped_for fault.now file) (words_of result.second) }
    ensures excess { result.excess ≡ None }
    ensures rows { result.rows.items ≡ [] }
{
    let is_bare = lacks(fault, "function symbols");
    if is_bare || lacks(fault, ".symtab") {
        return Hints {
            first: dynamic(alloc, source).unwrap_or(None),
            second: stripped(alloc, source, is_bare).unwrap_or(None),
            excess: None,
            rows: Vec::new(alloc),
        };
    }
    Hints {
        first: None,
        second: None,
        excess: None,
        rows: Vec::new(alloc),
    }
}

// Whether a file is refused since it has no such thing.
fn lacks(fault: &Fault, thing: &str) -> bool
    ensures { result ≡ lacks fault.now thing.now }
{
    match fault {
        Fault::Section(SectionError::Parse(ParseError::SectionIsMissing(name))) => *name == thing,
        _ => false,
    }
}

// How many dynamic function symbols the file has, if it has any.
fn dynamic<S: Source<Log = ()>>(alloc: Global, source: &S) -> Result<Option<Hint>, Fault>
    ensures { (file : List ℕ) → S.bytes source.now ≡ Some file
        → IfOk result (λ hint. hint ≡ dynamic_in file) }
{
    match count_of_all(alloc, source, SymbolTable::Dynsym)? {
        0 => Ok(None),
        count => Ok(Some(Hint::Dynamic(count))),
    }
}

// Where the debug symbols of a stripped file may be, or the function descriptors of a bare one, which has a symbol table.
fn stripped<S: Source<Log = ()>>(
    alloc: Global,
    source: &S,
    is_bare: bool,
) -> Result<Option<Hint>, Fault>
    ensures { (file : List ℕ) → S.bytes source.now ≡ Some file
        → IfOk result (λ hint. words_of hint ≡ stripped_in is_bare file) }
{
    if is_bare && lacks_descriptors(alloc, source)? {
        return Ok(Some(Hint::Descriptors));
    }
    debug_of(alloc, source)
}

// Whether the section of the function descriptors has no bytes.
fn lacks_descriptors<S: Source<Log = ()>>(alloc: Global, source: &S) -> Result<bool, Fault>
    ensures { (file : List ℕ) → S.bytes source.now ≡ Some file
        → IfOk result (λ lacks. lacks ≡ lacks_descriptors file) }
{
    let mut out = Out::new(Vec::new(alloc));
    match write_section_of(alloc, source, &mut (), ".opd", &mut out) {
        Ok(()) => Ok(false),
        Err(e) => match e {
            SectionError::NoBytes => Ok(true),
            SectionError::Unreadable | SectionError::OutOfMemory | SectionError::Write => {
                Err(Fault::from(e))
            }
            _ => Ok(false),
        },
    }
}

// Where the debug symbols of a file may be.
fn debug_of<S: Source<Log = ()>>(alloc: Global, source: &S) -> Result<Option<Hint>, Fault>
    ensures { (file : List ℕ) → S.bytes source.now ≡ Some file
        → IfOk result (λ hint. words_of hint ≡ stripped_words (debug_of file)) }
{
    let format = read_format(alloc, source, &mut ())?;
    let place = match format {
        Format::Elf32 { .. } | Format::Elf64 { .. } => return debug_files(alloc, source),
        Format::Macho => String::from_str(alloc, "its .dSYM bundle")?,
        _ => String::from_str(alloc, "a .pdb file, if it is an MSVC program")?,
    };
    Ok(Some(Hint::Stripped(place)))
}

// The files with the debug symbols: by the build ID, and by the debug link.
fn debug_files<S: Source<Log = ()>>(alloc: Global, source: &S) -> Result<Option<Hint>, Fault>
    ensures { (file : List ℕ) → S.bytes source.now ≡ Some file
        → IfOk result (λ hint. words_of hint ≡ stripped_words (debug_in file)) }
{
    let Some(note) = section_in(alloc, source, ".note.gnu.build-id")? else {
        return Ok(None);
    };
    let Some(mut text) = debug_path(alloc, &note)? else {
        return Ok(None);
    };
    let Some(link) = section_in(alloc, source, ".gnu_debuglink")? else {
        return Ok(Some(Hint::Stripped(text)));
    };
    push_link(&mut text, &link)?;
    Ok(Some(Hint::Stripped(text)))
}

// Where the debug file is whose build ID is in this note, after the 16 bytes of its head.
fn debug_path(alloc: Global, note: &[u8]) -> Result<Option<String>, AllocError>
    ensures { IfOk result (λ text. option_map (λ t. string_bytes t) text ≡ debug_path (drop 16 note.now)) }
{
    let Some(id) = note.get(16..) else {
        return Ok(None);
    };
    let Some((first, others)) = id.split_first() else {
        return Ok(None);
    };
    let mut text = String::from_str(alloc, "/usr/lib/debug/.build-id/")?;
    push_byte(&mut text, *first)?;
    text.push_str("/")?;
    for byte in others {
        push_byte(&mut text, *byte)?;
    }
    text.push_str(".debug")?;
    Ok(Some(text))
}

// Appends the name in a debug link, up to a NUL, if all of it is printable ASCII without blanks.
fn push_link(text: &mut String, link: &[u8]) -> Result<(), AllocError>
    ensures { OnOk result (string_bytes text.new ≡ string_bytes text.old ++ link_text link.now) }
{
    let name = up_to_nul(link);
    if !name.iter().all(|byte| matches!(*byte, b'!'..=b'~')) {
        return Ok(());
    }
    text.push_str(", or in a file ")?;
    text.push_str(std::str::from_utf8(name).unwrap())?;
    Ok(())
}

// The bytes of the first section of this name, if the file has them.
fn section_in<S: Source<Log = ()>>(
    alloc: Global,
    source: &S,
    name: &str,
) -> Result<Option<Vec<u8>>, Fault>
    ensures { (file : List ℕ) → S.bytes source.now ≡ Some file
        → IfOk result (λ bytes. option_map (λ v. v.items) bytes ≡ section_in file name.now) }
{
    let mut out = Out::new(Vec::new(alloc));
    match write_section_of(alloc, source, &mut (), name, &mut out) {
        Ok(()) => Ok(Some(out.into_inner())),
        Err(e) => match e {
            SectionError::Unreadable | SectionError::OutOfMemory | SectionError::Write => {
                Err(Fault::from(e))
            }
            _ => Ok(None),
        },
    }
}
