//! Comparing two products of a number of 256 bits and one of 128 bits.

ghost use Rattle.std.specs.Prelude.{◌≡◌, ◌*◌, ◌<◌, ◌^◌, IsTrue};
ghost use Rattle.std.specs.Ordering.{nat_cmp};
ghost use Rattle.wide_core.specs.Wides.{value_of};

use crate::wide::Wide;
use crate::wider::Wider;
use std::cmp::Ordering;

/// A number whose high part is below this has a product with each factor of at most `SMALL_FACTOR`
/// that fits into 256 bits.
const SMALL_HIGH: u128 = 1 << 44;

/// The greatest of these factors.
const SMALL_FACTOR: u128 = 1 << 84;

/// Compares `a * b` with `c * d`, without overflow.
#[inline]
pub fn compare_multiples(a: Wide, b: u128, c: Wide, d: u128) -> Ordering
    ensures { result ≡ nat_cmp (value_of a * b) (value_of c * d) }
{
    if is_small(a, b) && is_small(c, d) {
        a.times(b).compare(c.times(d))
    } else {
        compare_large(a, b, c, d)
    }
}

/// Whether both numbers are so small that their product fits into 256 bits.
#[inline]
fn is_small(n: Wide, factor: u128) -> bool
    ensures { IsTrue result → value_of n * factor < 2 ^ 256 }
{
    n.high < SMALL_HIGH && factor <= SMALL_FACTOR
}

/// Compares products of any such numbers, which fit into 384 bits.
fn compare_large(a: Wide, b: u128, c: Wide, d: u128) -> Ordering
    ensures { result ≡ nat_cmp (value_of a * b) (value_of c * d) }
{
    Wider::product(a, b).compare(Wider::product(c, d))
}
