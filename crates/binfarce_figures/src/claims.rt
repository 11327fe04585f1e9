//! What each function symbol adds to a sum of sizes, each byte counted once.

ghost use Rattle.std.specs.Prelude.{◌≡◌, ◌≢◌, ◌<◌, ◌≤◌, ◌^◌, ℕ, List, Option, Some, Ok, length, map, nat_eq, IfErr, IfOk, MatchResult, OnOk, reverse};
ghost use Rattle.binfarce.specs.SectionEntries.{SelectedSymbols};
ghost use Rattle.binfarce.specs.SymbolViews.{section_function_view};
ghost use Rattle.binfarce.specs.declared.SymbolTable.{SymbolTable};
ghost use Rattle.binfarce_tools.specs.Answer.{selected_answer};
ghost use Rattle.binfarce_tools.specs.Tables.{AreTablesOf};
ghost use Rattle.binfarce_tools.specs.declared.report.ReportError.TheVariants.{Write};
ghost use Rattle.binfarce_figures.specs.Claims as once;
ghost use Rattle.binfarce_figures.specs.Claims.{AreClaimsOf, IsSumOf, sum_of_sizes};
ghost use Rattle.binfarce_figures.specs.Claimed.{AreClaimsIn, IsFaultOf};
ghost use Rattle.binfarce_figures.specs.machine.Falling.{Falls, inner_key};
ghost use Rattle.binfarce_figures.specs.machine.Spans.{Ascend, CoverMore, gaps};

use crate::rows::list_of;
use binfarce::{FunctionSymbol, SectionFunction};
use binfarce_tools::report::ReportError;
use binfarce_tools::tables::Tables;
use std::alloc::{AllocError, Global};
use std::cmp::Reverse;
use std::marker::Model;

// Addresses and their ends, from section to section.
const RANGE: u128 = 36893488147419103232;

/// What the function symbols of a selection add to a sum of sizes: the bytes that each has, without those that an inner
/// one has. If several symbols of a section have a byte, the innermost is the one that begins last; if several begin
/// there, the shortest; if several are, the one whose stored name comes first. The sum of all is below 2^64.
///
/// Contracts speak of the tables, of the size of the selected section, and of the entries: the function symbols, each
/// with the bytes that it adds as its size.
#[derive(Drop)]
pub struct Claims<'b, 'a> {
    // The tables that they were read from.
    pub(crate) tables: &'b Tables<'a>,
    // The section's size, if one is selected.
    pub(crate) size: Option<u64>,
    // The function symbols, each with the bytes that it adds as its size; inner ones come before outer ones.
    pub(crate) list: Vec<SectionFunction<'b>>,
    // The sum of these bytes.
    pub(crate) total: u64,
}

impl<'b, 'a> Model for Claims<'b, 'a> {
    ghost use mir.Syntax.{named};
    ghost use Rattle.std.specs.Coded.{codes};
    ghost use Rattle.std.specs.Prelude.{[], map};
    ghost use Rattle.binfarce.specs.SymbolViews.{section_function_view};
    ghost use Rattle.binfarce_tools.specs.contracts.tables.Tables as read;
    ghost use Rattle.binfarce_figures.specs.Claimed.{Claimed};
    ghost use Rattle.binfarce_figures.specs.machine.Shares.{AddUp};

    ghost Value = { Claimed };

    // By the code that tables have, which is the same for any lifetime.
    ghost coded = { Prim.hlevel (codes, (read.the_row (record { mir = named 0; lft = [] })).coded) };

    ghost view = { λ s. record {
      tables = s.tables.now;
      size = s.size;
      entries = map section_function_view s.list.items;
    } };

    ghost invariant = { λ s. AddUp s.list.items s.total };
}

impl<'b, 'a> Claims<'b, 'a> {
    /// What the function symbols add that the tables were read for.
    ///
    /// # Errors
    ///
    /// Those of `list_tables`, except `Write`; `TooLarge` if the sum of all, each byte counted once, is 2^64 or more.
    pub fn of_tables(alloc: Global, tables: &'b Tables<'a>) -> Result<Claims<'b, 'a>, ReportError>
        ensures made { (which : SymbolTable) (file : List ℕ) (section : Option (List ℕ))
            → AreTablesOf which file section tables.entry.now
            → MatchResult result (AreClaimsIn which file section) (IsFaultOf which file section) }
        ensures unwritten { IfErr result (λ e. e ≢ Write) }
    {
        let selected = tables.functions(alloc)?;
        let (functions, size) = list_of(alloc, selected)?;
        let list = claims_of(alloc, functions)?;
        let total = total_of(&list);
        if total > u128::from(u64::MAX) {
            return Err(ReportError::TooLarge);
        }
        Ok(Claims {
            tables,
            size,
            list,
            total: total as u64,
        })
    }

    /// How many bytes the function symbols have, each byte counted once.
    pub fn total(&self) -> u64
        ensures sum { result ≡ sum_of_sizes self.now.entries }
        ensures file { (which : SymbolTable) (file : List ℕ) (section : Option (List ℕ))
            (selected : SelectedSymbols)
            → AreClaimsIn which file section self.now
            → selected_answer which section file ≡ Some (Ok selected) → IsSumOf selected result }
    {
        self.total
    }

    /// How many function symbols there are, with those that add no bytes.
    pub fn len(&self) -> usize
        ensures entries { result ≡ length self.now.entries }
        ensures file { (which : SymbolTable) (file : List ℕ) (section : Option (List ℕ))
            (selected : SelectedSymbols)
            → AreClaimsIn which file section self.now
            → selected_answer which section file ≡ Some (Ok selected) → result ≡ length selected.entries }
    {
        self.list.len()
    }

    /// Whether there are no function symbols.
    pub fn is_empty(&self) -> bool
        ensures entries { result ≡ nat_eq (length self.now.entries) 0 }
        ensures file { (which : SymbolTable) (file : List ℕ) (section : Option (List ℕ))
            (selected : SelectedSymbols)
            → AreClaimsIn which file section self.now
            → selected_answer which section file ≡ Some (Ok selected) → result ≡ nat_eq (length selected.entries) 0 }
    {
        self.list.is_empty()
    }
}

// The sum of all sizes.
fn total_of(functions: &[SectionFunction<'_>]) -> u128
    ensures { result ≡ sum_of_sizes (map section_function_view functions.now) }
{
    let sizes = functions.iter().map(|it| u128::from(it.function.size));
    sizes.sum()
}

// Function symbols with the bytes that each adds as its size. Inner ones come before outer ones.
fn claims_of<'a>(
    alloc: Global,
    functions: Vec<SectionFunction<'a>>,
) -> Result<Vec<SectionFunction<'a>>, AllocError>
    ensures { IfOk result
        (λ v. AreClaimsOf (map section_function_view functions.entry.items) (map section_function_view v.items)) }
{
    let mut sorted = functions;
    sorted.sort_by_key(|function| inner_key(*function))?;
    claimed(alloc, &sorted)
}

// Where a function symbol begins.
fn place_of(function: SectionFunction<'_>) -> u128
    ensures is { result ≡ once.place_of (section_function_view function.entry) }
    ensures below { result < 2 ^ 98 }
{
    u128::from(function.section) * RANGE + u128::from(function.function.address)
}

// What function symbols are sorted by: inner ones come before outer ones.
fn inner_key<'a>(function: SectionFunction<'a>) -> (Reverse<u128>, u64, &'a str)
    ensures { result ≡ inner_key function.entry }
{
    let FunctionSymbol { name, size, .. } = function.function;
    (Reverse(place_of(function)), size, name)
}

// Bytes from one place up to another.
#[derive(Clone, Copy)]
struct Span {
    start: u128,
    end: u128,
}

// Function symbols with the bytes that each adds as its size.
fn claimed<'a>(
    alloc: Global,
    functions: &[SectionFunction<'a>],
) -> Result<Vec<SectionFunction<'a>>, AllocError>
    requires { Falls (map section_function_view functions.now) }
    ensures { IfOk result
        (λ v. map section_function_view v.items ≡ once.claimed (map section_function_view functions.now)) }
{
    let mut claims = Vec::with_capacity(alloc, functions.len())?;
    let mut spans = Vec::new(alloc);
    for function in functions {
        let place = place_of(*function);
        let end = place + u128::from(function.function.size);
        let added = cover(&mut spans, place, end)?;
        let size = added as u64;
        claims.push(SectionFunction {
            section: function.section,
            info: function.info,
            version: function.version,
            function: FunctionSymbol {
                size,
                ..function.function
            },
        })?;
    }
    Ok(claims)
}

// Adds the bytes from a place up to another to the spans of bytes, of which none begins before it, and of which the
// lowest is the last. Returns how many of these bytes are in none.
fn cover(spans: &mut Vec<Span>, place: u128, end: u128) -> Result<u128, AllocError>
    requires rising { Ascend place (reverse spans.old.items) }
    requires within { place ≤ end }
    requires fits { gaps (reverse spans.old.items) place end < 2 ^ 64 }
    ensures added { IfOk result (λ n. n ≡ gaps (reverse spans.old.items) place end) }
    ensures rises { OnOk result (Ascend place (reverse spans.new.items)) }
    ensures covered { OnOk result (CoverMore place end (reverse spans.old.items) (reverse spans.new.items)) }
{
    let mut added = 0u128;
    let mut from = place;
    while let Some(span) = spans.pop() {
        if span.start >= end {
            spans.push(span)?;
            break;
        }
        added += span.start.saturating_sub(from);
        from = span.end;
    }
    added += end.saturating_sub(from);
    spans.push(Span {
        start: place,
        end: end.max(from),
    })?;
    Ok(added)
}
