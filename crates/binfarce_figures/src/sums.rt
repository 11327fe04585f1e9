//! Sums of sizes by a key, the greatest first.

ghost use Rattle.std.specs.Prelude.{◌≡◌, ◌⊎◌, ◌+◌, ◌^◌, ◌<◌, ◌++◌, ℕ, List, Option, Some, Ok, IfErr, IfOk, OnOk};
ghost use Rattle.std.specs.String.{string_bytes};
ghost use Rattle.binfarce.specs.SectionEntries.{SelectedSymbols};
ghost use Rattle.binfarce.specs.declared.SymbolTable.{SymbolTable};
ghost use Rattle.binfarce_rows.specs.Json.{style_of};
ghost use Rattle.binfarce_tools.specs.Report.{Share};
ghost use Rattle.binfarce_tools.specs.ReportWords.{outcome_of};
ghost use Rattle.binfarce_tools.specs.Answer.{selected_answer};
ghost use Rattle.binfarce_tools.specs.Writing.{Takes, Fails, Leaves};
ghost use Rattle.binfarce_tools.specs.declared.report.ReportError.TheVariants.{OutOfMemory, Write};
ghost use Rattle.binfarce_figures.specs.Claimed.{AreClaimsIn};
ghost use Rattle.binfarce_figures.specs.Figures.{AreFiguresBy, AreSumsBy, IsTextOfShares, ended, section_member, whole_text};
ghost use Rattle.binfarce_figures.specs.machine.Counts.{AddsNumbers, AddsShares, AreNumbersFor, counts, numbers_at};
ghost use Rattle.binfarce_figures.specs.machine.Shares.{AreFew, AreSharesWith};

use crate::claims::Claims;
use crate::figures::{Columns, Layout};
use crate::key::{Grouping, KeyMaker, put_key};
use binfarce_rows::json::{Form, push_number_member, push_start};
use binfarce_tools::list::Sink;
use binfarce_tools::report::{ReportError, write_made};
use std::alloc::{AllocError, Global};
use std::collections::BTreeMap;

/// How sums are shown.
#[derive(Debug, Clone, Copy, PartialEq)]
pub struct Figures {
    /// What they are summed by.
    pub grouping: Grouping,
    /// How many lines there are at most before the one that sums up all others.
    pub first: Option<usize>,
    /// Whether each line has its share of the whole, in per cent.
    pub has_percent: bool,
}

/// The sums of a file.
#[derive(Debug, Clone, Copy, PartialEq)]
pub struct Sums {
    /// The sum of all sizes, each byte counted once.
    pub total: u64,
    /// That of the key `[unknown]`; by crate or module, of the function symbols without a crate.
    pub unknown: u64,
}

/// Two numbers of a key.
#[derive(Debug, Clone, Copy)]
pub struct Numbers {
    /// The sum of the sizes of its function symbols; of two files, in the old one.
    pub sum: u64,
    /// How many function symbols have it; of two files, the sum of their sizes in the new one.
    pub other: u64,
}

/// What the two numbers of a key are.
#[derive(Debug, Clone, Copy)]
pub(crate) enum Counting {
    /// A sum of sizes and a number of function symbols.
    Symbols,
    /// The sums in two files: the function symbol is of the old one.
    Old,
    /// The same, and it is of the new one.
    New,
}

/// Writes a line for each key: the sum of what its function symbols add, the greatest first, those of one size in the
/// order of the keys' bytes; and the lines for the whole, as `report_tables` does. Each byte is counted once, for the
/// innermost symbol that has it (`Claims`). The sum of all is returned, and that of `[unknown]`.
///
/// A line is `{sum:>10} {key}`. Before the key it has the share of the section, or of all sections in the sum of all
/// sizes, as `{percent:>3}.{hundredths:02}% `, if that is wanted; and for `Key::Generic` the number of function symbols
/// as `{copies:>6} `. `[N others]` is the key of the line that sums up those past the first. An object has the members
/// `file`, `name`, `size`, `copies` and, if that is wanted, `percent`; the last one, for the whole, has `file`, `sum` and
/// of one section `text`, its size.
///
/// # Errors
///
/// `OutOfMemory` if an allocation failed: nothing is written. `Write` if a write of the sink failed: a beginning of
/// the text may be written.
pub fn sum_by<S: Sink>(
    alloc: Global,
    claims: &Claims<'_, '_>,
    figures: &Figures,
    form: Form<'_>,
    out: &mut S,
) -> Result<Sums, ReportError>
    ensures outcome { IfErr result (λ e. (e ≡ OutOfMemory) ⊎ (e ≡ Write)) }
    ensures takes { (which : SymbolTable) (file : List ℕ) (section : Option (List ℕ))
        → AreClaimsIn which file section claims.now
        → Takes (AreFiguresBy figures.now (style_of form.entry))
        (selected_answer which section file) (S.taken out.old) (S.taken out.new) (outcome_of (ended result)) }
    ensures sums { (which : SymbolTable) (file : List ℕ) (section : Option (List ℕ)) (selected : SelectedSymbols)
        → AreClaimsIn which file section claims.now
        → selected_answer which section file ≡ Some (Ok selected)
        → IfOk result (AreSumsBy figures.now.grouping selected) }
    ensures fails { Fails (S.has_failed out.old) (S.has_failed out.new) (outcome_of (ended result)) }
    ensures leaves { Leaves out.old out.new (outcome_of (ended result)) }
{
    let numbers = numbers_of(alloc, claims, figures.grouping)?;
    write_made(out, text_of(alloc, figures, form, claims, &numbers))?;
    Ok(Sums {
        total: claims.total,
        unknown: sum_at(&numbers, "[unknown]"),
    })
}

// The whole text.
fn text_of(
    alloc: Global,
    figures: &Figures,
    form: Form<'_>,
    claims: &Claims<'_, '_>,
    numbers: &BTreeMap<String, Numbers>,
) -> Result<String, AllocError>
    requires { AreNumbersFor figures.now.grouping claims.now numbers.now }
    ensures { IfOk result (λ t. (shares : List Share) × AreSharesWith figures.now.grouping claims.now shares
        × IsTextOfShares figures.now (style_of form.entry) claims.now.size shares (string_bytes t)) }
{
    let columns = Columns::Sums(claims.size.unwrap_or(claims.total));
    let layout = Layout {
        alloc,
        figures,
        form,
        columns,
    };
    let mut text = layout.rows(numbers)?;
    push_whole(&mut text, form, claims.total, claims.size)?;
    Ok(text)
}

/// The two numbers of each key of function symbols: the sum of what they add, and how many they are.
pub(crate) fn numbers_of(
    alloc: Global,
    claims: &Claims<'_, '_>,
    grouping: Grouping,
) -> Result<BTreeMap<String, Numbers>, AllocError>
    ensures { IfOk result (AreNumbersFor grouping claims.now) }
{
    let mut numbers = BTreeMap::new(alloc);
    add_claims(alloc, claims, grouping, Counting::Symbols, &mut numbers)?;
    Ok(numbers)
}

// The sum of a key, 0 if there is none.
fn sum_at(numbers: &BTreeMap<String, Numbers>, key: &str) -> u64
    ensures { result ≡ (numbers_at numbers.now key.now).sum }
{
    match numbers.get(key) {
        Some(found) => found.sum,
        None => 0,
    }
}

/// Adds what function symbols add to the numbers of their keys.
pub(crate) fn add_claims(
    alloc: Global,
    claims: &Claims<'_, '_>,
    grouping: Grouping,
    counting: Counting,
    numbers: &mut BTreeMap<String, Numbers>,
) -> Result<(), AllocError>
    ensures adds { OnOk result ((shares : List Share) × AreSharesWith grouping claims.now shares
        × AddsShares counting shares numbers.old numbers.new) }
    ensures few { OnOk result (AreFew claims.now) }
{
    let mut maker = KeyMaker::new(alloc);
    let mut key = String::new(alloc);
    for claim in &claims.list {
        put_key(
            &mut maker,
            &mut key,
            claims.tables,
            *claim,
            claims.size,
            grouping,
        )?;
        let more = counts(counting, claim.function.size);
        add(alloc, numbers, key.as_str(), more)?;
    }
    Ok(())
}

// What a function symbol that adds so many bytes adds to the numbers of its key.
fn counts(counting: Counting, size: u64) -> Numbers
    ensures { result ≡ counts counting size }
{
    let (sum, other) = match counting {
        Counting::Symbols => (size, 1),
        Counting::Old => (size, 0),
        Counting::New => (0, size),
    };
    Numbers { sum, other }
}

// Adds to the numbers of a key, each up to 2^64 - 1. The key is copied where it has none yet.
fn add(
    alloc: Global,
    numbers: &mut BTreeMap<String, Numbers>,
    key: &str,
    more: Numbers,
) -> Result<(), AllocError>
    ensures { (numbers_at numbers.old key.now).sum + more.sum < 2 ^ 64
        → (numbers_at numbers.old key.now).other + more.other < 2 ^ 64
        → OnOk result (AddsNumbers numbers.old key.now more numbers.new) }
{
    match numbers.get_mut(key) {
        Some(found) => {
            *found = Numbers {
                sum: found.sum.saturating_add(more.sum),
                other: found.other.saturating_add(more.other),
            };
        }
        None => {
            let _ = numbers.insert(String::from_str(alloc, key)?, more)?;
        }
    }
    Ok(())
}

// Appends the lines of the sum of all, and of the section's size; one object of both.
fn push_whole(
    text: &mut String,
    form: Form<'_>,
    total: u64,
    size: Option<u64>,
) -> Result<(), AllocError>
    ensures { OnOk result
        (string_bytes text.new ≡ string_bytes text.old ++ whole_text (style_of form.entry) size total) }
{
    match form {
        Form::Lines => {
            writeln!(text, "sum {total}")?;
            if let Some(size) = size {
                writeln!(text, "text {size}")?;
            }
            Ok(())
        }
        Form::Objects(file, _) => {
            push_start(text, file)?;
            push_number_member(text, "sum", total)?;
            push_section_member(text, size)?;
            text.push_str("}\n")
        }
    }
}

// Appends the member of the section's size, if there is one.
fn push_section_member(text: &mut String, size: Option<u64>) -> Result<(), AllocError>
    ensures { OnOk result (string_bytes text.new ≡ string_bytes text.old ++ section_member size) }
{
    match size {
        Some(size) => push_number_member(text, "text", size),
        None => Ok(()),
    }
}
