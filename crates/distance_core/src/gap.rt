//! How far two intervals of one axis are apart.

ghost use Rattle.std.specs.Prelude.{◌≤◌};
ghost use Rattle.distance_core.specs.Limits.{greatest_gap};
ghost use Rattle.distance_core.specs.Gaps.{IsGap};

use geom_core::Span;

/// The least difference between a number of the one interval and a number of the other, in units:
/// 0 if they share a number.
#[inline(always)]
pub(crate) fn gap(a: &Span, b: &Span) -> u128
    ensures least { IsGap a.now b.now result }
    ensures bound { result ≤ greatest_gap }
{
    if a.hi < b.lo {
        (b.lo - a.hi) as u128
    } else if b.hi < a.lo {
        (a.lo - b.hi) as u128
    } else {
        0
    }
}
