//! Reports how much of an executable's code each crate takes.

ghost use Rattle.std.specs.Prelude.{◌≡◌, ◌≢◌, ◌⊎◌, ◌+◌, ◌^◌, ◌<◌, ◌≤◌, ◌++◌, ℕ, List, Option, Some, MatchResult, IfOk, IfErr, OnOk};
ghost use Rattle.std.specs.List.{AllZip, sum_by};
ghost use Rattle.std.specs.String.{string_bytes};
ghost use Rattle.binfarce_names.specs.Name.{Name};
ghost use Rattle.binfarce_names.specs.Named.{IsNamed};
ghost use Rattle.binfarce.specs.SymbolViews.{function_view};
ghost use Rattle.binfarce.specs.declared.SymbolTable.{SymbolTable};
ghost use Rattle.binfarce_tools.specs.Answer.{selected_answer, MemoryIn};
ghost use Rattle.binfarce_tools.specs.Report.{Share, IsShareOf, IsReportOfShares, crate_text, crate_line};
ghost use Rattle.binfarce_tools.specs.ReportWords.{outcome_of};
ghost use Rattle.binfarce_tools.specs.SectionAnswer.{readers_answer, NeedsMemory, IsReportOf, ReportFits};
ghost use Rattle.binfarce_tools.specs.SelectedTexts.{IsReportOfSelected, SelectedReportFits, last_line};
ghost use Rattle.binfarce_tools.specs.Writing.{EndsAs, Takes, Fails, Leaves, WritesMade};
ghost use Rattle.binfarce_tools.specs.declared.report.ReportError.TheVariants.{OutOfMemory, TooLarge, Write};
ghost use Rattle.binfarce_tools.specs.Entries.{functions_left};
ghost use Rattle.binfarce_tools.specs.Tables.{AreTablesOf};
ghost use Rattle.binfarce_tools.specs.Sums.{AreSumsOf, sum_at, Adds};

use crate::functions::{Functions, readers_functions};
use crate::list::{ListError, Sink, push_last_line};
use crate::tables::Tables;
use crate::writing::write_whole;
use binfarce::{FunctionSymbol, ParseError};
use binfarce_names::demangle::push_crate;
use std::alloc::{AllocError, Global};
use std::collections::BTreeMap;
use std::error::Error;
use std::fmt;

// The label in a report for symbols without a crate.
const UNKNOWN_CRATE: &str = "[unknown]";

/// Why a report was not made.
#[derive(Debug, PartialEq, Drop)]
pub enum ReportError {
    /// The file's first bytes name no supported format.
    Unknown,
    /// The reader of the file's format refused it.
    Parse(ParseError),
    /// An allocation failed.
    OutOfMemory,
    /// The sum of all sizes is 2^64 or more.
    TooLarge,
    /// A write of the sink failed. It took a beginning of the report.
    Write,
}

impl fmt::Display for ReportError {
    ghost use Rattle.binfarce_tools.specs.ReportWords.{report_words};

    ghost output = { λ e. Some (report_words e) };

    /// The errors of `list` have its text.
    fn fmt<W: fmt::Write>(&self, f: &mut fmt::Formatter<W>) -> fmt::Result {
        match self {
            ReportError::Unknown => write!(f, "{}", ListError::Unknown),
            ReportError::Parse(e) => write!(f, "{}", ListError::Parse(*e)),
            ReportError::OutOfMemory => write!(f, "{}", ListError::OutOfMemory),
            ReportError::TooLarge => write!(f, "sizes are too large"),
            ReportError::Write => write!(f, "{}", ListError::Write),
        }
    }
}

impl Error for ReportError {}

impl From<AllocError> for ReportError {
    ghost use Rattle.binfarce_tools.specs.declared.report.ReportError.TheVariants.{OutOfMemory};

    ghost from_gives = { λ _ e. e ≡ OutOfMemory };

    fn from(_: AllocError) -> Self {
        ReportError::OutOfMemory
    }
}

impl From<ListError> for ReportError {
    ghost use Rattle.binfarce_tools.specs.ReportWords.{report_error_of};

    ghost from_gives = { λ l e. e ≡ report_error_of l };

    /// A file that can't be listed can't be reported, for the same reason.
    fn from(e: ListError) -> Self {
        match e {
            ListError::Unknown => ReportError::Unknown,
            ListError::Parse(e) => ReportError::Parse(e),
            ListError::OutOfMemory => ReportError::OutOfMemory,
            ListError::Write => ReportError::Write,
        }
    }
}

/// Reports how many bytes the function symbols of a file's section take: a line for each crate, in the byte order of
/// the crates' names, and two lines for the whole.
///
/// The symbols are those that `list` lists. The line of a crate is `{sum:>10} {name}`, with the sum of the sizes of its
/// symbols; after these come `sum {total}`, with the sum of all sizes, and `text {size}`, with that of the section. The
/// crate of a symbol is that of its v0 name, or the first part of the path of its legacy name, unless that begins with
/// `<`. All other symbols are counted for `[unknown]`. The report is made before its first byte is written.
///
/// # Errors
///
/// Those of `list`; `TooLarge` if the sum of all sizes is 2^64 or more. Only after `Write` a beginning of the report
/// may be written.
pub fn report<S: Sink>(
    alloc: Global,
    file: &[u8],
    section: &str,
    out: &mut S,
) -> Result<(), ReportError>
    ensures outcome { EndsAs ReportFits (NeedsMemory file.now) (readers_answer file.now section.now)
        (outcome_of result) }
    ensures takes { Takes IsReportOf (readers_answer file.now section.now) (S.taken out.old)
        (S.taken out.new) (outcome_of result) }
    ensures fails { Fails (S.has_failed out.old) (S.has_failed out.new) (outcome_of result) }
    ensures leaves { Leaves out.old out.new (outcome_of result) }
{
    let (functions, size) = readers_functions(alloc, file, section)?.into_list();
    let sums = crate_sums(alloc, functions)?;
    write_made(out, report_text(alloc, &sums, size))
}

/// As `report`, from the tables of a file: for the selection that they were read for. Of all sections there is no last
/// line.
///
/// # Errors
///
/// As `report`.
pub fn report_tables<S: Sink>(
    alloc: Global,
    tables: &Tables<'_>,
    out: &mut S,
) -> Result<(), ReportError>
    ensures outcome { (which : SymbolTable) (file : List ℕ) (section : Option (List ℕ))
        → AreTablesOf which file section tables.now
        → EndsAs SelectedReportFits (MemoryIn file section) (selected_answer which section file) (outcome_of result) }
    ensures takes { (which : SymbolTable) (file : List ℕ) (section : Option (List ℕ))
        → AreTablesOf which file section tables.now → Takes IsReportOfSelected
        (selected_answer which section file) (S.taken out.old) (S.taken out.new) (outcome_of result) }
    ensures fails { Fails (S.has_failed out.old) (S.has_failed out.new) (outcome_of result) }
    ensures leaves { Leaves out.old out.new (outcome_of result) }
{
    let (functions, size) = tables.functions(alloc)?.into_list();
    let sums = crate_sums(alloc, functions)?;
    write_made(out, report_text(alloc, &sums, size))
}

// How many bytes the function symbols of a selection take, by crate.
#[derive(Drop)]
struct CrateSums {
    // The sum of the sizes of each crate's symbols, by the crate's name.
    crates: BTreeMap<String, u64>,
    // The sum of all sizes.
    total: u64,
}

// The sums of the functions. `TooLarge` if the sum of all exceeds 64 bits.
fn crate_sums(alloc: Global, functions: Functions<'_>) -> Result<CrateSums, ReportError>
    ensures { MatchResult result
        (λ s. (shares : List Share) × AllZip IsShareOf (functions_left functions.entry) shares × AreSumsOf shares s)
        (λ e. (e ≡ OutOfMemory) ⊎ ((e ≡ TooLarge) × (2 ^ 64 ≤ sum_by (λ f. f.size) (functions_left functions.entry)))) }
{
    let mut crates = BTreeMap::new(alloc);
    let mut total = 0u64;
    let mut text = String::new(alloc);
    for function in functions {
        total = total
            .checked_add(function.size)
            .ok_or(ReportError::TooLarge)?;
        add_function(alloc, &mut crates, &mut text, function)?;
    }
    Ok(CrateSums { crates, total })
}

// Adds a function's size to the sum of its crate. The text is overwritten by the crate's name; it is reused for all
// functions, so a name that the sums already have allocates nothing.
fn add_function(
    alloc: Global,
    crates: &mut BTreeMap<String, u64>,
    text: &mut String,
    function: FunctionSymbol<'_>,
) -> Result<(), AllocError>
    requires { (name : List ℕ) → sum_at crates.old name + function.size < 2 ^ 64 }
    ensures { OnOk result
        ((share : Share) × IsShareOf (function_view function.entry) share × Adds crates.old share crates.new) }
{
    put_crate(alloc, text, function.name)?;
    add_size(alloc, crates, text.as_str(), function.size)
}

/// Adds a size to the sum of a name, up to 2^64 - 1. The name is copied if there is no sum yet.
///
/// # Errors
///
/// `AllocError` if an allocation failed. The sums are then unspecified.
pub fn add_size(
    alloc: Global,
    crates: &mut BTreeMap<String, u64>,
    name: &str,
    size: u64,
) -> Result<(), AllocError>
    ensures { sum_at crates.old name.now + size < 2 ^ 64
        → OnOk result (Adds crates.old (record { name = name.now; size = size }) crates.new) }
{
    match crates.get_mut(name) {
        Some(sum) => *sum = sum.saturating_add(size),
        None => {
            let _ = crates.insert(String::from_str(alloc, name)?, size)?;
        }
    }
    Ok(())
}

/// Overwrites the text by the crate that a function of this name is counted for.
///
/// # Errors
///
/// `AllocError` if an allocation failed. The text is then unspecified.
pub fn put_crate(alloc: Global, text: &mut String, name: &str) -> Result<(), AllocError>
    ensures { OnOk result ((n : Name) × IsNamed name.now n × (string_bytes text.new ≡ crate_text n)) }
{
    text.clear();
    if push_crate(alloc, text, name)? {
        Ok(())
    } else {
        text.push_str(UNKNOWN_CRATE)
    }
}

/// Writes a text whole, if it was made.
///
/// # Errors
///
/// `OutOfMemory` if it wasn't made, and `Write` if a write failed.
pub fn write_made<S: Sink>(out: &mut S, made: Result<String, AllocError>) -> Result<(), ReportError>
    ensures takes { WritesMade made (S.taken out.old) (S.taken out.new) (outcome_of result) }
    ensures fails { Fails (S.has_failed out.old) (S.has_failed out.new) (outcome_of result) }
    ensures leaves { Leaves out.old out.new (outcome_of result) }
{
    let text = made?;
    write_whole(out, text.as_bytes())?;
    Ok(())
}

// The whole report, where the selected section has this size.
fn report_text(alloc: Global, sums: &CrateSums, size: Option<u64>) -> Result<String, AllocError>
    ensures { IfOk result
        (λ t. (shares : List Share) → AreSumsOf shares sums.now → IsReportOfShares shares (last_line size) (string_bytes t)) }
{
    let mut text = String::new(alloc);
    for (name, sum) in sums.crates.iter() {
        push_crate_line(&mut text, name.as_str(), *sum)?;
    }
    writeln!(text, "sum {}", sums.total)?;
    push_last_line(&mut text, size)?;
    Ok(text)
}

// Appends `{sum:>10} {name}` and a line feed to the text.
#[tactic(auto, using(binfarce_rows::proofs::Pads::size_padded))]
fn push_crate_line(text: &mut String, name: &str, sum: u64) -> Result<(), AllocError>
    ensures { OnOk result (string_bytes text.new ≡ string_bytes text.old ++ crate_line name.now sum) }
{
    writeln!(text, "{sum:>10} {name}")
}
