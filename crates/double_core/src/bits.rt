//! The parts of a double.

ghost use Rattle.std.specs.Prelude.{◌≡◌, ◌<◌, ◌≤◌, ◌^◌};
ghost use Rattle.double_core.specs.Doubles.{is_negative, exponent, fraction, is_nan};
ghost use Rattle.double_core.specs.Doubles.{significand, place, denominator, is_edge};

/// The exponent of the infinities and of each NaN.
pub(crate) const NOT_FINITE: u64 = 2047;

/// The number of bits of the fraction.
const FRACTION_BITS: u32 = 52;

/// The place at which the step between doubles is 1.
pub(crate) const ONE: u64 = 1075;

pub(crate) fn is_negative(bits: u64) -> bool
    ensures { result ≡ is_negative bits }
{
    bits >> 63 == 1
}

pub(crate) fn exponent(bits: u64) -> u64
    ensures { result ≡ exponent bits }
{
    (bits >> FRACTION_BITS) % 2048
}

fn fraction(bits: u64) -> u64
    ensures bits { result ≡ fraction bits }
    ensures few { result < 2 ^ 52 }
{
    bits % (1 << FRACTION_BITS)
}

/// Whether the double is not a number.
pub fn is_nan(bits: u64) -> bool
    ensures { result ≡ is_nan bits }
{
    exponent(bits) == NOT_FINITE && fraction(bits) > 0
}

/// The size of the double in steps between the doubles of its place.
pub(crate) fn significand(bits: u64) -> u64
    ensures steps { result ≡ significand bits }
    ensures few { result < 2 ^ 53 }
{
    if exponent(bits) == 0 {
        fraction(bits)
    } else {
        (1 << FRACTION_BITS) + fraction(bits)
    }
}

/// The power of two that a step of the double is, plus 1075.
pub(crate) fn place(bits: u64) -> u64
    ensures { result ≡ place bits }
{
    if exponent(bits) == 0 {
        1
    } else {
        exponent(bits)
    }
}

/// Whether the double below is only half a step away.
pub(crate) fn is_edge(bits: u64) -> bool
    ensures { result ≡ is_edge bits }
{
    fraction(bits) == 0 && exponent(bits) > 1
}

/// The number of bits by which the size of the double is a whole number of steps moved down.
pub(crate) fn down(bits: u64) -> u64
    requires { 955 ≤ place bits }
    ensures power { 2 ^ result ≡ denominator bits }
    ensures few { result ≤ 120 }
{
    ONE.saturating_sub(place(bits))
}
