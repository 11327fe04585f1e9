//! Shows the function symbols of a file: as a listing, as sums, or as a picture.

ghost use Rattle.std.specs.Prelude.{◌≡◌, ℕ, List, Option, true, false, Ok, None, Some, map, IfErr, IfOk};
ghost use Rattle.binfarce_bytes.specs.Refusal.{refusal_of};
ghost use Rattle.binfarce_bytes.specs.Selection.{section_of};
ghost use Rattle.binfarce_rows.specs.Json.{style_of};
ghost use Rattle.binfarce.specs.SectionEntries.{SelectedSymbols};
ghost use Rattle.binfarce_figures.specs.Claimed.{AreClaimsIn};
ghost use Rattle.binfarce_limits.specs.Rows.{finding_view, limit_view};
ghost use Rattle.binfarce_tables.specs.Reading.{Reads};
ghost use Rattle.binfarce_tables.specs.declared.error.ReadError.TheVariants.{OutOfMemory};
ghost use Rattle.binfarce_tools.specs.Answer.{selected_answer, MemoryIn};
ghost use Rattle.binfarce_tools.specs.Tables.{AreTablesOf, ReadsAs, is_whole};
ghost use Rattle.binfarce_tools.specs.declared.SymbolTable.{SymbolTable};
ghost use Rattle.binfarce_tools.specs.Writing.{EndsAs, Takes, Fails, Leaves};
ghost use Rattle.binfarce_io.specs.Faults.{outcome_of};
ghost use Rattle.binfarce_jobs.specs.Show.{AreRowsIn, AreTablesFor, Fits, IsSeenOf, IsTextOf, MayEnd, TakesText, answer_for, has_functions, has_table, is_bare, is_taken, no_functions, style_for};

use crate::code::has_code;
use binfarce_bytes::ParseError;
use binfarce_bytes::format::Format;
use binfarce_bytes::functions::SectionFunction;
use binfarce_bytes::source::Source;
use binfarce_figures::claims::Claims;
use binfarce_figures::diff::sizes_of;
use binfarce_figures::key::Grouping;
use binfarce_figures::map::map_by;
use binfarce_figures::rows::{Shown, list_by};
use binfarce_figures::stacks::fold_claims;
use binfarce_figures::sums::{Figures, Numbers, Sums, sum_by};
use binfarce_io::fault::Fault;
use binfarce_limits::excess::Counted;
use binfarce_limits::rows::{Finding, RowLimit, Rows, judge};
use binfarce_rows::json::Form;
use binfarce_tables::ReadError;
use binfarce_tables::format::read_format;
use binfarce_tables::pe::has_symbols;
use binfarce_tools::SymbolTable;
use binfarce_tools::list::{ListError, Sink, list_selected};
use binfarce_tools::tables::{Selection, Tables, read, read_tables};
use binfarce_words::takes::Limit;
use std::alloc::{AllocError, Global};
use std::collections::BTreeMap;

/// How function symbols are shown.
#[derive(Debug, Clone, Copy, PartialEq)]
pub enum Kind {
    /// As a listing.
    Listing,
    /// As a listing in an order, of the first lines, or with other names.
    Rows(Shown),
    /// As sums by a key.
    Figures(Figures),
    /// As a picture of these sums: of the first ones, and of all others in one.
    Picture(Grouping, Option<usize>),
    /// As stacks; whether Rust's standard library is joined.
    Stacks(bool),
}

/// Which function symbols of a file are taken.
#[derive(Debug, Clone, Copy)]
pub struct Symbols<'a> {
    /// The symbol table that they are read by.
    pub which: SymbolTable,
    /// Those of a section, or of all sections.
    pub selection: Selection<'a>,
}

/// What is shown of a file.
#[derive(Debug, Clone, Copy)]
pub struct Request<'a> {
    /// How its function symbols are shown.
    pub kind: Kind,
    /// Which they are.
    pub symbols: Symbols<'a>,
    /// Whether they are shown as JSON objects.
    pub is_json: bool,
    /// The most that a file's sum may be, where sums are shown.
    pub limit: Option<Limit>,
    /// The most that rows of sums may be.
    pub limits: &'a [RowLimit<'a>],
}

/// What was found in a file that was shown.
#[derive(Debug, Drop)]
pub struct Seen {
    /// Whether there is none of the function symbols that are taken.
    pub is_empty: bool,
    /// The sum of all sizes, each byte counted once, and that of `[unknown]`, where sums are shown.
    pub sums: Option<Sums>,
    /// Which rows of these sums are above their limits, and which limits have no row.
    pub rows: Vec<Finding>,
}

/// The tables of the source for these function symbols.
///
/// # Errors
///
/// Those of `read`. In a Mach-O or PE file `.text` is the code section, and `SymbolsSectionIsMissing` refuses any other
/// name. A PE file without a symbol table is refused like an ELF file without one, by `SectionIsMissing` of `.symtab`, and
/// a file with code but no function symbol by `SectionIsMissing` of function symbols.
pub fn tables_of<S: Source<Log = ()>>(
    alloc: Global,
    source: &S,
    symbols: &Symbols<'_>,
) -> Result<Tables<'static>, ReadError>
    ensures reads { (file : List ℕ) → S.bytes source.now ≡ Some file → ReadsAs (AreTablesFor symbols.now file)
        (S.may_fail source.now ≡ true) (answer_for symbols.now file) result }
    ensures parts { IfOk result (λ tables. is_whole tables ≡ false) }
{
    let format = read_format(alloc, source, &mut ())?;
    if !is_taken(&format, symbols.selection) {
        return Err(ReadError::Refused(ParseError::SymbolsSectionIsMissing));
    }
    if !has_table(alloc, source, &format, symbols.which)? {
        return Err(ReadError::Refused(ParseError::SectionIsMissing(".symtab")));
    }
    let tables = read_tables(
        alloc,
        source,
        &mut (),
        format,
        symbols.which,
        symbols.selection,
    )?;
    if is_bare(alloc, source, symbols, &tables)? {
        return Err(ReadError::Refused(no_functions(symbols.which)));
    }
    Ok(tables)
}

// Whether the file, of which these are the tables, has code and no function symbol.
fn is_bare<S: Source<Log = ()>>(
    alloc: Global,
    source: &S,
    symbols: &Symbols<'_>,
    tables: &Tables<'_>,
) -> Result<bool, ReadError>
    ensures { (file : List ℕ) → S.bytes source.now ≡ Some file
        → AreTablesOf symbols.now.which file (section_of symbols.now.selection) tables.now
        → Reads (S.may_fail source.now) (λ bare. bare)
        (Ok (is_bare symbols.now.which file (section_of symbols.now.selection))) result }
{
    if has_functions(alloc, tables)? || has_any(alloc, source, symbols.which)? {
        return Ok(false);
    }
    has_code(alloc, source)
}

// Whether the sections of the file have a function symbol.
fn has_any<S: Source<Log = ()>>(
    alloc: Global,
    source: &S,
    which: SymbolTable,
) -> Result<bool, ReadError>
    ensures { (file : List ℕ) → S.bytes source.now ≡ Some file → Reads (S.may_fail source.now) (λ has. has)
        (Ok (has_functions (selected_answer which None file))) result }
{
    match read(alloc, source, &mut (), which, Selection::All) {
        Ok(tables) => has_functions(alloc, &tables),
        Err(ReadError::Refused(_)) => Ok(false),
        Err(e) => Err(e),
    }
}

/// Whether tables have a function symbol. Those of a Mach-O or PE file aren't sorted for it.
#[tactic(auto, unfolding(binfarce_tools::specs::Tables::AreTablesOf))]
pub(crate) fn has_functions(alloc: Global, tables: &Tables<'_>) -> Result<bool, ReadError>
    ensures has { (which : SymbolTable) (file : List ℕ) (section : Option (List ℕ))
        → AreTablesOf which file section tables.now
        → IfOk result (λ has. has ≡ has_functions (selected_answer which section file)) }
    ensures memory { IfErr result (λ e. e ≡ OutOfMemory) }
{
    match tables {
        Tables::Macho(parts) => Ok(parts.has_functions()),
        Tables::Pe(parts) => Ok(parts.has_functions()),
        _ => match tables.functions(alloc) {
            Ok(selected) => Ok(!selected.functions.is_empty()),
            Err(ListError::OutOfMemory) => Err(ReadError::OutOfMemory),
            Err(_) => Ok(false),
        },
    }
}

// The refusal of a file with code that has no function symbol by this symbol table.
fn no_functions(which: SymbolTable) -> ParseError
    ensures { refusal_of result ≡ no_functions which }
{
    match which {
        SymbolTable::Symtab => ParseError::SectionIsMissing("function symbols"),
        SymbolTable::Dynsym => ParseError::SectionIsMissing("function symbols in .dynsym"),
    }
}

// Whether the file has this symbol table: a PE file may have none. That of another file is found when its tables are
// read.
fn has_table<S: Source<Log = ()>>(
    alloc: Global,
    source: &S,
    format: &Format,
    which: SymbolTable,
) -> Result<bool, ReadError>
    ensures { (file : List ℕ) → S.bytes source.now ≡ Some file → Reads (S.may_fail source.now) (λ has. has)
        (has_table which format.now file) result }
{
    match (format, which) {
        (Format::PE, SymbolTable::Symtab) => has_symbols(alloc, source, &mut ()),
        _ => Ok(true),
    }
}

// Whether a file of this format has what is selected: a Mach-O or PE file has the section `.text` alone.
fn is_taken(format: &Format, selection: Selection<'_>) -> bool
    ensures { result ≡ is_taken (section_of selection.entry) format.now }
{
    match selection {
        Selection::Section(name) => match format {
            Format::Macho | Format::PE => name == ".text",
            _ => true,
        },
        Selection::All => true,
    }
}

// The form in which the file at this path is shown.
fn form_for<'a>(asked: &Request<'a>, path: &'a str) -> Form<'a>
    ensures { style_of result ≡ style_for asked.entry.now path.entry.now }
{
    match asked.symbols.selection {
        _ if !asked.is_json => Form::Lines,
        Selection::Section(section) => Form::Objects(path, section),
        Selection::All => Form::Objects(path, ""),
    }
}

/// Writes the requested function symbols of the source, and returns what was found; a picture's title is the path. Of
/// the source it reads the headers, the symbol table and the names alone.
///
/// # Errors
///
/// `Unreadable` if a read fails; `Unknown`, `Parse`, `OutOfMemory` and `Write` as in `list`, `TooLarge` as in
/// `sum_by`. Only after `Write` a beginning may be written.
pub fn show<S: Source<Log = ()>, K: Sink>(
    alloc: Global,
    asked: &Request<'_>,
    path: &str,
    source: &S,
    out: &mut K,
) -> Result<Seen, Fault>
    ensures outcome { (file : List ℕ) → S.bytes source.now ≡ Some file
        → MayEnd (S.may_fail source.now ≡ true) asked.now file (outcome_of result) }
    ensures takes { (file : List ℕ) → S.bytes source.now ≡ Some file
        → TakesText asked.now path.now file (K.taken out.old) (K.taken out.new) (outcome_of result) }
    ensures seen { (file : List ℕ) (selected : SelectedSymbols) → S.bytes source.now ≡ Some file
        → answer_for asked.now.symbols file ≡ Some (Ok selected)
        → IfOk result (IsSeenOf asked.now.kind (map limit_view asked.now.limits.now) selected) }
    ensures fails { Fails (K.has_failed out.old) (K.has_failed out.new) (outcome_of result) }
    ensures leaves { Leaves out.old out.new (outcome_of result) }
{
    let tables = tables_of(alloc, source, &asked.symbols)?;
    let form = form_for(asked, path);
    match asked.symbols.selection {
        Selection::Section(_) => {
            show_section(alloc, asked.kind, asked.limits, path, form, &tables, out)
        }
        Selection::All => show_tables(alloc, asked.kind, asked.limits, path, form, &tables, out),
    }
}

// Shows the function symbols of a section, which are made once.
fn show_section<K: Sink>(
    alloc: Global,
    kind: Kind,
    limits: &[RowLimit<'_>],
    path: &str,
    form: Form<'_>,
    tables: &Tables<'_>,
    out: &mut K,
) -> Result<Seen, Fault>
    ensures outcome { (which : SymbolTable) (file name : List ℕ) → AreTablesOf which file (Some name) tables.now
        → EndsAs (Fits kind) (MemoryIn file (Some name)) (selected_answer which (Some name) file) (outcome_of result) }
    ensures takes { (which : SymbolTable) (file name : List ℕ) → AreTablesOf which file (Some name) tables.now
        → Takes (IsTextOf kind path.now (style_of form.entry))
        (selected_answer which (Some name) file) (K.taken out.old) (K.taken out.new) (outcome_of result) }
    ensures seen { (which : SymbolTable) (file name : List ℕ) (selected : SelectedSymbols)
        → AreTablesOf which file (Some name) tables.now
        → selected_answer which (Some name) file ≡ Some (Ok selected)
        → IfOk result (IsSeenOf kind (map limit_view limits.now) selected) }
    ensures fails { Fails (K.has_failed out.old) (K.has_failed out.new) (outcome_of result) }
    ensures leaves { Leaves out.old out.new (outcome_of result) }
{
    let (functions, size) = tables.functions(alloc)?.into_list();
    let list: Vec<SectionFunction<'_>> = functions.all.collect(alloc)?;
    let made = Tables::Made {
        functions: list,
        size: size.unwrap_or(0),
        versions: tables.version_names(),
    };
    show_tables(alloc, kind, limits, path, form, &made, out)
}

// Shows the function symbols of these tables.
fn show_tables<K: Sink>(
    alloc: Global,
    kind: Kind,
    limits: &[RowLimit<'_>],
    path: &str,
    form: Form<'_>,
    tables: &Tables<'_>,
    out: &mut K,
) -> Result<Seen, Fault>
    ensures outcome { (which : SymbolTable) (file : List ℕ) (section : Option (List ℕ))
        → AreTablesOf which file section tables.now
        → EndsAs (Fits kind) (MemoryIn file section) (selected_answer which section file) (outcome_of result) }
    ensures takes { (which : SymbolTable) (file : List ℕ) (section : Option (List ℕ))
        → AreTablesOf which file section tables.now
        → Takes (IsTextOf kind path.now (style_of form.entry))
        (selected_answer which section file) (K.taken out.old) (K.taken out.new) (outcome_of result) }
    ensures seen { (which : SymbolTable) (file : List ℕ) (section : Option (List ℕ)) (selected : SelectedSymbols)
        → AreTablesOf which file section tables.now
        → selected_answer which section file ≡ Some (Ok selected)
        → IfOk result (IsSeenOf kind (map limit_view limits.now) selected) }
    ensures fails { Fails (K.has_failed out.old) (K.has_failed out.new) (outcome_of result) }
    ensures leaves { Leaves out.old out.new (outcome_of result) }
{
    match kind {
        Kind::Listing => {
            let selected = tables.functions(alloc)?;
            let is_empty = selected.functions.is_empty();
            list_selected(alloc, tables, selected, out)?;
            Ok(Seen {
                is_empty,
                sums: None,
                rows: Vec::new(alloc),
            })
        }
        Kind::Rows(shown) => {
            let found = list_by(alloc, tables, &shown, form, out)?;
            Ok(Seen {
                is_empty: found == 0,
                sums: None,
                rows: Vec::new(alloc),
            })
        }
        Kind::Figures(figures) => {
            let claims = Claims::of_tables(alloc, tables)?;
            let rows = rows_of(alloc, limits, &claims, figures.grouping)?;
            let sums = sum_by(alloc, &claims, &figures, form, out)?;
            Ok(Seen {
                is_empty: claims.is_empty(),
                sums: Some(sums),
                rows,
            })
        }
        Kind::Picture(grouping, first) => {
            let claims = Claims::of_tables(alloc, tables)?;
            map_by(alloc, path, &claims, grouping, first, out)?;
            Ok(Seen {
                is_empty: claims.is_empty(),
                sums: None,
                rows: Vec::new(alloc),
            })
        }
        Kind::Stacks(joins_std) => {
            let claims = Claims::of_tables(alloc, tables)?;
            fold_claims(alloc, &claims, joins_std, out)?;
            Ok(Seen {
                is_empty: claims.is_empty(),
                sums: None,
                rows: Vec::new(alloc),
            })
        }
    }
}

// Which of these rows are above their limits, and which limits have no row.
fn rows_of(
    alloc: Global,
    limits: &[RowLimit<'_>],
    claims: &Claims<'_, '_>,
    grouping: Grouping,
) -> Result<Vec<Finding>, AllocError>
    ensures { (which : SymbolTable) (file : List ℕ) (section : Option (List ℕ)) (selected : SelectedSymbols)
        → AreClaimsIn which file section claims.now
        → selected_answer which section file ≡ Some (Ok selected)
        → IfOk result (λ v. AreRowsIn (map limit_view limits.now) grouping selected (map finding_view v.items)) }
{
    if limits.is_empty() {
        return Ok(Vec::new(alloc));
    }
    let numbers = sizes_of(alloc, None, claims, grouping)?;
    judge(alloc, limits, &SumRows(&numbers))
}

// The rows of sums.
#[derive(Clone, Copy)]
struct SumRows<'a>(&'a BTreeMap<String, Numbers>);

impl Rows for SumRows<'_> {
    ghost use Rattle.std.specs.BTreeMap.{get_by_text};
    ghost use Rattle.std.specs.Option.{option_map};
    ghost use Rattle.binfarce_limits.specs.declared.excess.Counted.TheVariants.{Size};

    ghost counted = { λ rows name. option_map (λ n. Size n.other) (get_by_text rows.0.now name) };

    fn counted(&self, name: &str) -> Option<Counted> {
        match self.0.get(name) {
            Some(numbers) => Some(Counted::Size(numbers.other)),
            None => None,
        }
    }
}
