//! The whole numbers next to the quotient of a product and a number.

ghost use Rattle.std.specs.Prelude.{◌≡◌, ◌≤◌, ◌<◌, ◌+◌, ◌*◌, ◌^◌};
ghost use Rattle.wide_core.specs.Quotients.{IsFloor, IsCeiling};

/// The greatest whole number that isn't above a quotient, and the least that isn't below.
#[derive(Clone, Copy, PartialEq, Eq)]
pub struct Quotient {
    pub floor: u64,
    pub ceiling: u64,
}

/// 2^64, one more than the greatest number of 64 bits.
const HALF: u128 = 1 << 64;

/// The quotient of `a * b` and `c`, rounded down and rounded up, without overflow.
#[inline]
pub fn divide_product(a: u128, b: u64, c: u128) -> Quotient
    requires part { a ≤ c }
    requires positive { 0 < c }
    requires factor { b < 2 ^ 61 }
    requires divisor { c < 2 ^ 127 }
    // the whole numbers next to the quotient
    ensures floor { IsFloor (a * b) c result.floor }
    ensures ceiling { IsCeiling (a * b) c result.ceiling }
{
    let factor = u128::from(b);
    if c >= HALF {
        divide_long(a, factor, c)
    } else {
        divide_short(a * factor, c)
    }
}

/// A quotient that is rounded down, and one more if anything is left.
#[inline]
fn rounded(floor: u64, rest: u128) -> Quotient
    requires { floor + 1 < 2 ^ 64 }
    ensures floor { result.floor ≡ floor }
    ensures whole { rest ≡ 0 → result.ceiling ≡ floor }
    ensures part { 0 < rest → result.ceiling ≡ floor + 1 }
{
    let ceiling = if rest == 0 { floor } else { floor + 1 };
    Quotient { floor, ceiling }
}

/// The quotient of two numbers, rounded down and rounded up.
#[inline]
fn divide_short(z: u128, c: u128) -> Quotient
    requires positive { 0 < c }
    requires narrow { c < 2 ^ 64 }
    requires small { z ≤ c * 2 ^ 61 }
    ensures floor { IsFloor z c result.floor }
    ensures ceiling { IsCeiling z c result.ceiling }
{
    if z < HALF {
        divide_narrow(z as u64, c as u64)
    } else {
        let floor = z / c;
        rounded(floor as u64, z - floor * c)
    }
}

/// The same for numbers of 64 bits, which the processor divides faster.
#[inline]
fn divide_narrow(z: u64, c: u64) -> Quotient
    requires positive { 0 < c }
    requires small { z ≤ c * 2 ^ 61 }
    ensures floor { IsFloor z c result.floor }
    ensures ceiling { IsCeiling z c result.ceiling }
{
    let floor = z / c;
    rounded(floor, u128::from(z % c))
}

/// The quotient of `a * b` and a divisor of more than 64 bits. That of the leading bits, of which
/// the divisor has 63, is the quotient rounded down or one less. What the product leaves is less
/// than twice the divisor, so its last 128 bits are all of it.
#[inline(never)]
fn divide_long(a: u128, b: u128, c: u128) -> Quotient
    requires part { a ≤ c }
    requires factor { b < 2 ^ 61 }
    requires long { 2 ^ 64 ≤ c }
    requires divisor { c < 2 ^ 127 }
    ensures floor { IsFloor (a * b) c result.floor }
    ensures ceiling { IsCeiling (a * b) c result.ceiling }
{
    let shift = 65 - c.leading_zeros();
    let low = (a >> shift) * b / ((c >> shift) + 1);
    let rest = a.wrapping_mul(b).wrapping_sub(low.wrapping_mul(c));
    if rest < c {
        rounded(low as u64, rest)
    } else {
        rounded(low as u64 + 1, rest - c)
    }
}
