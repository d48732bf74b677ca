//! The integers next to a coordinate of a point of an edge.

ghost use Rattle.std.specs.Prelude.{◌≡◌, pos, nat_abs, ◌<ℤ◌, ◌≤ℤ◌};
ghost use Rattle.plane_core.specs.Limits.{IsCoordinate};
ghost use Rattle.plane_core.specs.Meetings.{part_of_way};
ghost use Rattle.plane_core.specs.Spots.{IsFloor, IsCeiling};

use wide_core::divide_product;

/// The greatest integer that isn't above the coordinate `a + n / w (b - a)`, and the least that
/// isn't below.
#[inline]
pub(crate) fn next_to(a: i64, b: i64, n: i128, w: i128) -> (i64, i64)
    requires a { IsCoordinate a }
    requires b { IsCoordinate b }
    requires not_before { pos 0 ≤ℤ n }
    requires not_beyond { n ≤ℤ w }
    requires positive { pos 0 <ℤ w }
    ensures floor { IsFloor (nat_abs w) (part_of_way a b n w) result.0 }
    ensures ceiling { IsCeiling (nat_abs w) (part_of_way a b n w) result.1 }
{
    if w == 1 {
        let whole = end_at(a, b, n);
        (whole, whole)
    } else {
        divided(a, b, n, w)
    }
}

/// The first end of the way from `a` to `b` at the fraction 0, and the last one at 1.
#[inline]
fn end_at(a: i64, b: i64, n: i128) -> i64
    requires not_before { pos 0 ≤ℤ n }
    requires not_beyond { n ≤ℤ pos 1 }
    ensures { result ≡ part_of_way a b n (pos 1) }
{
    if n == 0 { a } else { b }
}

/// The integers next to the coordinate `a + n / w (b - a)`, by the quotient of `n (b - a)` and `w`.
fn divided(a: i64, b: i64, n: i128, w: i128) -> (i64, i64)
    requires a { IsCoordinate a }
    requires b { IsCoordinate b }
    requires not_before { pos 0 ≤ℤ n }
    requires not_beyond { n ≤ℤ w }
    requires positive { pos 0 <ℤ w }
    ensures floor { IsFloor (nat_abs w) (part_of_way a b n w) result.0 }
    ensures ceiling { IsCeiling (nat_abs w) (part_of_way a b n w) result.1 }
{
    let part = divide_product(n.unsigned_abs(), (b - a).unsigned_abs(), w.unsigned_abs());
    let (least, greatest) = (part.floor as i64, part.ceiling as i64);
    if a <= b {
        (a + least, a + greatest)
    } else {
        (a - greatest, a - least)
    }
}
