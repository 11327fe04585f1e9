//! Limits on rows: of two files, and of sections.

ghost use Rattle.std.specs.Prelude.{◌≡◌, map, IfOk};
ghost use Rattle.binfarce_bytes.specs.SectionEntries.{SelectedSymbols};
ghost use Rattle.binfarce_figures.specs.Claimed.{AreClaimsFor};
ghost use Rattle.binfarce_limits.specs.Rows.{finding_view, findings, limit_view};
ghost use Rattle.binfarce_calls.specs.RowLimits.{AreRowsBetween, sections_in, sized_in};

use binfarce_figures::claims::Claims;
use binfarce_figures::diff::{Growth, sizes_of};
use binfarce_figures::key::Grouping;
use binfarce_figures::sums::Numbers;
use binfarce_limits::excess::Counted;
use binfarce_limits::rows::{Finding, RowLimit, Rows, judge};
use binfarce_sections::rows::bytes_by_name;
use binfarce_sections::sums::SectionSums;
use std::alloc::{AllocError, Global};
use std::collections::BTreeMap;

// The name of the row of whole files.
const TOTAL: &str = "[total]";

/// Which rows of the changes between two files' function symbols are above their limits, and which limits have no row.
///
/// # Errors
///
/// `AllocError` if an allocation fails.
pub(crate) fn changed_rows(
    alloc: Global,
    limits: &[RowLimit<'_>],
    old: &Claims<'_, '_>,
    new: &Claims<'_, '_>,
    grouping: Grouping,
) -> Result<Vec<Finding>, AllocError>
    ensures { (was is : SelectedSymbols) → AreClaimsFor was old.now → AreClaimsFor is new.now
        → IfOk result (λ v. AreRowsBetween (map limit_view limits.now) grouping (was, is) (map finding_view v.items)) }
{
    if limits.is_empty() {
        return Ok(Vec::new(alloc));
    }
    let numbers = sizes_of(alloc, Some(old), new, grouping)?;
    let total = Growth {
        old: old.total(),
        new: new.total(),
    };
    let rows = KeyRows {
        numbers: &numbers,
        total,
    };
    judge(alloc, limits, &rows)
}

// The rows of changes by a key.
#[derive(Clone, Copy)]
struct KeyRows<'a> {
    numbers: &'a BTreeMap<String, Numbers>,
    total: Growth,
}

impl Rows for KeyRows<'_> {
    ghost use Rattle.std.specs.BTreeMap.{get_by_text};
    ghost use Rattle.std.specs.Option.{option_map};
    ghost use Rattle.binfarce_calls.specs.RowLimits.{or_total};

    ghost counted = { λ rows name. or_total rows.total name
        (option_map (λ n. (n.sum, n.other)) (get_by_text rows.numbers.now name)) };

    fn counted(&self, name: &str) -> Option<Counted> {
        if name == TOTAL {
            return Some(Counted::Growth(self.total.old, self.total.new));
        }
        match self.numbers.get(name) {
            Some(numbers) => Some(Counted::Growth(numbers.sum, numbers.other)),
            None => None,
        }
    }
}

/// Which rows of the bytes of a file's sections are above their limits, and which limits have no row.
///
/// # Errors
///
/// `AllocError` if an allocation fails.
pub(crate) fn section_rows(
    alloc: Global,
    limits: &[RowLimit<'_>],
    sums: &SectionSums<'_>,
) -> Result<Vec<Finding>, AllocError>
    ensures { IfOk result (λ v. map finding_view v.items ≡ findings (sized_in sums.now) (map limit_view limits.now)) }
{
    if limits.is_empty() {
        return Ok(Vec::new(alloc));
    }
    let empty = SectionSums::none(alloc);
    let bytes = bytes_by_name(alloc, &empty, sums)?;
    judge(alloc, limits, &SizeRows(bytes))
}

// The rows of sections by their names.
#[derive(Drop)]
struct SizeRows<'a>(BTreeMap<&'a str, (u64, u64)>);

impl Rows for SizeRows<'_> {
    ghost use Rattle.std.specs.Option.{option_map};
    ghost use Rattle.binfarce_limits.specs.declared.excess.Counted.TheVariants.{Size};
    ghost use Rattle.binfarce_sections.specs.ByName.{at_name};

    ghost counted = { λ rows name. option_map (λ n. Size n.1) (at_name rows.0 name) };

    fn counted(&self, name: &str) -> Option<Counted> {
        match self.0.get(name) {
            Some(bytes) => Some(Counted::Size(bytes.1)),
            None => None,
        }
    }
}

/// Which rows of the changes between the bytes of two files' sections are above their limits, and which limits have no row.
///
/// # Errors
///
/// `AllocError` if an allocation fails.
pub(crate) fn changed_sections(
    alloc: Global,
    limits: &[RowLimit<'_>],
    old: &SectionSums<'_>,
    new: &SectionSums<'_>,
) -> Result<Vec<Finding>, AllocError>
    ensures { IfOk result (λ v. map finding_view v.items
        ≡ findings (sections_in old.now new.now) (map limit_view limits.now)) }
{
    if limits.is_empty() {
        return Ok(Vec::new(alloc));
    }
    let bytes = bytes_by_name(alloc, old, new)?;
    let total = Growth {
        old: old.file_length(),
        new: new.file_length(),
    };
    judge(alloc, limits, &NameRows { bytes, total })
}

// The rows of changes of sections by their names.
#[derive(Drop)]
struct NameRows<'a> {
    bytes: BTreeMap<&'a str, (u64, u64)>,
    total: Growth,
}

impl Rows for NameRows<'_> {
    ghost use Rattle.binfarce_calls.specs.RowLimits.{or_total};
    ghost use Rattle.binfarce_sections.specs.ByName.{at_name};

    ghost counted = { λ rows name. or_total rows.total name (at_name rows.bytes name) };

    fn counted(&self, name: &str) -> Option<Counted> {
        if name == TOTAL {
            return Some(Counted::Growth(self.total.old, self.total.new));
        }
        match self.bytes.get(name) {
            Some(bytes) => Some(Counted::Growth(bytes.0, bytes.1)),
            None => None,
        }
    }
}
