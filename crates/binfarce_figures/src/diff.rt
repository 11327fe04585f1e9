//! How the sums of two files differ.

ghost use Rattle.std.specs.Prelude.{◌≡◌, ◌⊎◌, Option, Some, Ok, IfErr, IfOk};
ghost use Rattle.std.specs.Option.{option_map};
ghost use Rattle.std.specs.String.{string_bytes};
ghost use Rattle.binfarce.specs.SectionEntries.{SelectedSymbols};
ghost use Rattle.binfarce_rows.specs.Json.{style_of};
ghost use Rattle.binfarce_tools.specs.ReportWords.{outcome_of};
ghost use Rattle.binfarce_tools.specs.Writing.{Takes, Fails, Leaves};
ghost use Rattle.binfarce_tools.specs.declared.report.ReportError.TheVariants.{OutOfMemory, Write};
ghost use Rattle.binfarce_figures.specs.Changes.{AreChangesBy, AreClaimsAsked, AreClaimsIf, AreSizesFrom, Asked, IsGrowthBy, answer_for, both};
ghost use Rattle.binfarce_figures.specs.Claimed.{AreClaimsFor};
ghost use Rattle.binfarce_figures.specs.Figures.{ended};
ghost use Rattle.binfarce_figures.specs.machine.Compared.{IsTextWith};

use crate::claims::Claims;
use crate::figures::{Columns, Figure, Layout};
use crate::key::Grouping;
use crate::sums::{Counting, Figures, Numbers, add_claims};
use binfarce_rows::json::Form;
use binfarce_tools::list::Sink;
use binfarce_tools::report::{ReportError, write_made};
use std::alloc::{AllocError, Global};
use std::collections::BTreeMap;

/// The sums of all sizes of two files, each byte counted once.
#[derive(Debug, Clone, Copy, PartialEq)]
pub struct Growth {
    /// The old file's sum.
    pub old: u64,
    /// The new file's sum.
    pub new: u64,
}

/// Writes a line for each key whose sums in two files differ, the greatest difference first, those of one difference in
/// the order of the keys' bytes; and one for the sums of all sizes, of the key `[total]`. Each file is summed as
/// `sum_by` does. The sums of all sizes are returned.
///
/// A line is `{old:>10} {new:>10} {change:>11} {key}`; the change has its sign. Before the key it has, if that is
/// wanted, the change in per cent of the old sum, with two decimals and to the right of 10 columns, as `+12.50%`:
/// rounded toward zero, and `new` if the old sum is 0. `[N others]` is the key of the line that sums up the changes
/// past the first. An object has the members `file`, which is the new one's name, `name`, `old`, `new`, `change` and, if
/// that is wanted, `percent`, which is `null` if the old sum is 0.
///
/// # Errors
///
/// As `sum_by`.
pub fn diff<S: Sink>(
    alloc: Global,
    old: &Claims<'_, '_>,
    new: &Claims<'_, '_>,
    figures: &Figures,
    form: Form<'_>,
    out: &mut S,
) -> Result<Growth, ReportError>
    ensures outcome { IfErr result (λ e. (e ≡ OutOfMemory) ⊎ (e ≡ Write)) }
    ensures takes { (before after : Asked) → AreClaimsAsked before old.now → AreClaimsAsked after new.now
        → Takes (AreChangesBy figures.now (style_of form.entry))
        (both (answer_for before) (answer_for after))
        (S.taken out.old) (S.taken out.new) (outcome_of (ended result)) }
    ensures growth { (before after : Asked) (selected : SelectedSymbols × SelectedSymbols)
        → AreClaimsAsked before old.now → AreClaimsAsked after new.now
        → both (answer_for before) (answer_for after) ≡ Some (Ok selected)
        → IfOk result (IsGrowthBy selected) }
    ensures fails { Fails (S.has_failed out.old) (S.has_failed out.new) (outcome_of (ended result)) }
    ensures leaves { Leaves out.old out.new (outcome_of (ended result)) }
{
    write_made(out, text_of(alloc, figures, form, old, new))?;
    Ok(Growth {
        old: old.total,
        new: new.total,
    })
}

/// The sums of each key of function symbols: the first number in an old file, if there is one, and the other in a new one.
///
/// # Errors
///
/// `AllocError` if an allocation failed.
pub fn sizes_of(
    alloc: Global,
    old: Option<&Claims<'_, '_>>,
    new: &Claims<'_, '_>,
    grouping: Grouping,
) -> Result<BTreeMap<String, Numbers>, AllocError>
    ensures { (was : Option SelectedSymbols) (is : SelectedSymbols)
        → AreClaimsIf was (option_map (λ claims. claims.now) old.entry) → AreClaimsFor is new.now
        → IfOk result (AreSizesFrom grouping was is) }
{
    let mut numbers = BTreeMap::new(alloc);
    let Some(old) = old else {
        add_claims(alloc, new, grouping, Counting::New, &mut numbers)?;
        return Ok(numbers);
    };
    add_claims(alloc, old, grouping, Counting::Old, &mut numbers)?;
    add_claims(alloc, new, grouping, Counting::New, &mut numbers)?;
    Ok(numbers)
}

// The whole text.
fn text_of(
    alloc: Global,
    figures: &Figures,
    form: Form<'_>,
    old: &Claims<'_, '_>,
    new: &Claims<'_, '_>,
) -> Result<String, AllocError>
    ensures { IfOk result (λ t. IsTextWith figures.now (style_of form.entry) old.now new.now (string_bytes t)) }
{
    let mut numbers = BTreeMap::new(alloc);
    add_claims(alloc, old, figures.grouping, Counting::Old, &mut numbers)?;
    add_claims(alloc, new, figures.grouping, Counting::New, &mut numbers)?;
    let columns = Columns::Changes;
    let layout = Layout {
        alloc,
        figures,
        form,
        columns,
    };
    let mut text = layout.rows(&numbers)?;
    let total = Figure {
        name: "[total]",
        sum: old.total,
        other: new.total,
    };
    layout.push_row(&mut text, total)?;
    Ok(text)
}
