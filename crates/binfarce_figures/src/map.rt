//! Sums by a key as a picture.

ghost use Rattle.std.specs.Prelude.{◌≡◌, ◌⊎◌, ℕ, List, Option, map, unwrap_or, IfErr, IfOk};
ghost use Rattle.std.specs.String.{string_bytes};
ghost use Rattle.binfarce.specs.declared.SymbolTable.{SymbolTable};
ghost use Rattle.binfarce_chart.specs.Views.{bar_view};
ghost use Rattle.binfarce_tools.specs.Answer.{selected_answer};
ghost use Rattle.binfarce_figures.specs.Picture.{IsPictureOfShares, key_rows};
ghost use Rattle.binfarce_tools.specs.Report.{Share, AreCratesOf, total};
ghost use Rattle.binfarce_tools.specs.ReportWords.{outcome_of};
ghost use Rattle.binfarce_tools.specs.Writing.{Takes, Fails, Leaves};
ghost use Rattle.binfarce_tools.specs.declared.report.ReportError.TheVariants.{OutOfMemory, Write};
ghost use Rattle.binfarce_figures.specs.Claimed.{AreClaimsIn};
ghost use Rattle.binfarce_figures.specs.Figures.{IsPictureBy};
ghost use Rattle.binfarce_figures.specs.machine.Counts.{AreNumbersOf};
ghost use Rattle.binfarce_figures.specs.machine.Shares.{AreSharesWith};

use crate::claims::Claims;
use crate::key::Grouping;
use crate::sums::{Numbers, numbers_of};
use binfarce_chart::bars::Bar;
use binfarce_chart::svg::chart;
use binfarce_tools::list::Sink;
use binfarce_tools::report::{ReportError, write_made};
use std::alloc::{AllocError, Global};
use std::collections::BTreeMap;

/// Draws the sums of `sum_by`: an SVG document with this title, and a bar for each key, the greatest first. The picture
/// is that of `binfarce_chart::svg::chart`, of the first bars if there is a number, and is made before its first byte is
/// written.
///
/// # Errors
///
/// As `sum_by`.
pub fn map_by<S: Sink>(
    alloc: Global,
    title: &str,
    claims: &Claims<'_, '_>,
    grouping: Grouping,
    first: Option<usize>,
    out: &mut S,
) -> Result<(), ReportError>
    ensures outcome { IfErr result (λ e. (e ≡ OutOfMemory) ⊎ (e ≡ Write)) }
    ensures takes { (which : SymbolTable) (file : List ℕ) (section : Option (List ℕ))
        → AreClaimsIn which file section claims.now → Takes (IsPictureBy title.now grouping first)
        (selected_answer which section file) (S.taken out.old) (S.taken out.new) (outcome_of result) }
    ensures fails { Fails (S.has_failed out.old) (S.has_failed out.new) (outcome_of result) }
    ensures leaves { Leaves out.old out.new (outcome_of result) }
{
    write_made(out, picture_of(alloc, title, grouping, first, claims))
}

// The whole picture.
fn picture_of(
    alloc: Global,
    title: &str,
    grouping: Grouping,
    first: Option<usize>,
    claims: &Claims<'_, '_>,
) -> Result<String, AllocError>
    ensures { IfOk result (λ t. (shares : List Share) × AreSharesWith grouping claims.now shares
        × IsPictureOfShares title.now shares claims.now.size first (string_bytes t)) }
{
    let numbers = numbers_of(alloc, claims, grouping)?;
    let bars = bars_of(alloc, &numbers)?;
    chart(alloc, title, bars.as_slice(), claims.size, first)
}

// A bar for each key, in the order of the keys' bytes.
fn bars_of<'a>(
    alloc: Global,
    numbers: &'a BTreeMap<String, Numbers>,
) -> Result<Vec<Bar<'a>>, AllocError>
    ensures { IfOk result (λ v. (first second : List Share) → AreNumbersOf first second numbers.entry.now
        → (names : List (List ℕ)) × AreCratesOf first names × (map bar_view v.items ≡ key_rows first names)) }
{
    let mut bars = Vec::new(alloc);
    for (name, pair) in numbers.iter() {
        bars.push(Bar {
            name: name.as_str(),
            size: pair.sum,
        })?;
    }
    Ok(bars)
}
