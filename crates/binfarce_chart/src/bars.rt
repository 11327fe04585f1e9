//! The bars that a picture shows, their order, and their lengths.

ghost use Rattle.std.specs.Prelude.{◌≡◌, ◌+◌, ◌-◌, ◌<◌, ◌≤◌, ◌^◌, length, map, IfOk, IsPermutation};
ghost use Rattle.std.specs.String.{string_bytes};
ghost use Rattle.binfarce_chart.specs.Chart.{Falls, KeepsOrder, bar_length, count_of, largest, others_label, total, width, with_others};
ghost use Rattle.binfarce_chart.specs.Views.{bar_view};

use std::alloc::{AllocError, Global};

// The most bars that a picture shows where no number is asked for.
const MOST_BARS: usize = 40;

// All shares together, and the width of the largest bar, in hundredths of a per cent.
const WHOLE: u128 = 10_000;

// The least width of a bar of a size above 0, in hundredths of a per cent.
const LEAST_WIDTH: u64 = 30;

/// A size with a name.
#[derive(Debug, Clone, Copy)]
pub struct Bar<'a> {
    /// The name that the bar is labelled with: any text.
    pub name: &'a str,
    /// The size.
    pub size: u64,
}

// The bars by falling size; bars of one size keep their given order.
pub(crate) fn falling<'a>(alloc: Global, bars: &[Bar<'a>]) -> Result<Vec<Bar<'a>>, AllocError>
    ensures same { IfOk result (λ v. IsPermutation (map bar_view bars.now) (map bar_view v.items)) }
    ensures falls { IfOk result (λ v. Falls (map bar_view v.items)) }
    ensures keeps { IfOk result (λ v. KeepsOrder (map bar_view bars.now) (map bar_view v.items)) }
{
    let mut sorted = Vec::from_slice(alloc, bars)?;
    // The sort is stable, also in this falling order: equal sizes keep their order.
    sorted.reverse();
    sorted.sort_by_key(|bar| bar.size)?;
    sorted.reverse();
    Ok(sorted)
}

// How many of these bars are shown before that of the others.
pub(crate) fn count_of(first: Option<usize>, all: usize) -> usize
    ensures { result ≡ count_of first all }
{
    match first {
        Some(count) => count,
        None if all <= MOST_BARS => all,
        None => MOST_BARS - 1,
    }
}

// The label of the bar that sums up so many others.
pub(crate) fn others(alloc: Global, count: usize) -> Result<String, AllocError>
    ensures { IfOk result (λ t. string_bytes t ≡ others_label count) }
{
    let mut label = String::new(alloc);
    write!(label, "[{count} others]")?;
    Ok(label)
}

// The first bars, and if there are more, one with this label for the others.
pub(crate) fn shown_of<'a>(
    alloc: Global,
    bars: &[Bar<'a>],
    count: usize,
    label: &'a str,
) -> Result<Vec<Bar<'a>>, AllocError>
    requires sum { total (map bar_view bars.now) < 2 ^ 64 }
    requires label { label.now ≡ others_label (length bars.now - count) }
    ensures { IfOk result (λ v. map bar_view v.items ≡ with_others count (map bar_view bars.now)) }
{
    if bars.len() <= count {
        return Vec::from_slice(alloc, bars);
    }
    let (first, rest) = bars.split_at(count);
    let mut shown = Vec::from_slice(alloc, first)?;
    shown.push(Bar {
        name: label,
        size: size_of_all(rest),
    })?;
    Ok(shown)
}

// The sum of the sizes.
pub(crate) fn size_of_all(bars: &[Bar<'_>]) -> u64
    requires { total (map bar_view bars.now) < 2 ^ 64 }
    ensures { result ≡ total (map bar_view bars.now) }
{
    let mut sum = 0;
    for bar in bars {
        sum += bar.size;
    }
    sum
}

// The length of a bar of this size, with so much before it.
pub(crate) fn length_of(total: u64, before: u64, size: u64) -> u64
    requires { before + size ≤ total }
    ensures { result ≡ bar_length total before size }
{
    edge(total, before + size) - edge(total, before)
}

// The largest size.
pub(crate) fn largest_of(bars: &[Bar<'_>]) -> u64
    ensures { result ≡ largest (map bar_view bars.now) }
{
    let mut most = 0;
    for bar in bars {
        most = bar.size.max(most);
    }
    most
}

// The width of a bar of this size, if the largest has the size `most`.
pub(crate) fn width_of(most: u64, size: u64) -> u64
    requires { size ≤ most }
    ensures { result ≡ width most size }
{
    if size == 0 {
        return 0;
    }
    let part = (WHOLE * u128::from(size) / u128::from(most)) as u64;
    part.max(LEAST_WIDTH)
}

// The share of the whole before this point.
fn edge(total: u64, before: u64) -> u64
    requires { before ≤ total }
    ensures { result ≡ Rattle.binfarce_chart.specs.Chart.edge total before }
{
    if total == 0 {
        return 0;
    }
    (WHOLE * u128::from(before) / u128::from(total)) as u64
}
