//! Comparing two products.

ghost use Rattle.std.specs.Prelude.{◌≡◌, ◌*ℤ◌, IsTrue, FitsSigned};
ghost use Rattle.std.specs.Int.{w64};
ghost use Rattle.std.specs.Ordering.{int_cmp};
ghost use Rattle.wide_core.specs.Wides.{signed, value_of};

use crate::wide::Wide;
use std::cmp::Ordering;

/// 2^63, one more than the greatest signed number of 64 bits.
const NARROW: i128 = 1 << 63;

/// Compares `a * b` with `c * d`, without overflow.
#[inline]
pub fn compare_products(a: i128, b: i128, c: i128, d: i128) -> Ordering
    ensures { result ≡ int_cmp (a *ℤ b) (c *ℤ d) }
{
    if is_narrow(a) && is_narrow(b) && is_narrow(c) && is_narrow(d) {
        compare_narrow(a as i64, b as i64, c as i64, d as i64)
    } else {
        compare_wide(a, b, c, d)
    }
}

/// Whether 64 bits hold the number.
#[inline]
fn is_narrow(n: i128) -> bool
    ensures { IsTrue result → FitsSigned w64 n }
{
    -NARROW <= n && n < NARROW
}

/// Compares products of numbers of 64 bits, which the processor multiplies faster.
#[inline]
fn compare_narrow(a: i64, b: i64, c: i64, d: i64) -> Ordering
    ensures { result ≡ int_cmp (a *ℤ b) (c *ℤ d) }
{
    let left = i128::from(a) * i128::from(b);
    let right = i128::from(c) * i128::from(d);
    left.cmp(&right)
}

/// Compares products of any 128-bit numbers.
#[inline(never)]
fn compare_wide(a: i128, b: i128, c: i128, d: i128) -> Ordering
    ensures { result ≡ int_cmp (a *ℤ b) (c *ℤ d) }
{
    let left = Wide::product(a.unsigned_abs(), b.unsigned_abs());
    let right = Wide::product(c.unsigned_abs(), d.unsigned_abs());
    compare_signed((a < 0) != (b < 0), left, (c < 0) != (d < 0), right)
}

/// Compares two numbers that are given by sign and absolute value. The sign of 0 is ignored.
fn compare_signed(left_is_less: bool, left: Wide, right_is_less: bool, right: Wide) -> Ordering
    ensures { result ≡ int_cmp
        (signed left_is_less (value_of left))
        (signed right_is_less (value_of right)) }
{
    if left_is_less == right_is_less {
        if left_is_less {
            right.compare(left)
        } else {
            left.compare(right)
        }
    } else if left.is_zero() && right.is_zero() {
        Ordering::Equal
    } else if left_is_less {
        Ordering::Less
    } else {
        Ordering::Greater
    }
}
