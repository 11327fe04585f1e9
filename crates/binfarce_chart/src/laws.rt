//! Laws of pictures, proved from their definitions.

ghost use Rattle.std.specs.Prelude.{◌≡◌, ◌<◌, All, map};
ghost use Rattle.std.specs.List.{AllZip};
ghost use Rattle.binfarce_chart.specs.Chart.{lengths, total, whole, IsWithinOne};
ghost use Rattle.binfarce_chart.specs.Svg.{escaped, IsPlain};
ghost use Rattle.binfarce_chart.specs.Views.{bar_view};

use crate::bars::Bar;

/// The lengths of bars add up to the whole, and each is within one unit of its share, if any size is above 0.
pub fn lengths_add_up(bars: &[Bar<'_>])
    ensures sum { 0 < total (map bar_view bars.now)
        → Rattle.std.specs.List.sum_by
        (λ n. n) (lengths (total (map bar_view bars.now)) 0 (map bar_view bars.now)) ≡ whole }
    ensures shares { 0 < total (map bar_view bars.now)
        → AllZip (IsWithinOne (total (map bar_view bars.now))) (map bar_view bars.now)
        (lengths (total (map bar_view bars.now)) 0 (map bar_view bars.now)) }
{
    let _ = bars;
}

/// An escaped name has only printable ASCII characters, and none that begins or ends a tag or an attribute's value.
pub fn escaped_is_plain(name: &str)
    ensures { All IsPlain (escaped name.now) }
{
    let _ = name;
}
