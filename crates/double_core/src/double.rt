//! A double in units of a scale.

ghost use Rattle.std.specs.Prelude.{◌≡◌, ◌≤◌, MatchResult};
ghost use Rattle.double_core.specs.Units.{IsReadAs, HasFault, IsRoundedTo, HasFaultRounded};
ghost use Rattle.double_core.specs.Units.{signed, most_decimals, greatest_units};

use crate::bits::{NOT_FINITE, exponent, is_negative, place};
use crate::rounded::rounded_size;
use crate::shortest::whole_size;

/// The greatest number of units.
const MOST: u128 = 1_000_000_000_000_000_000;

/// Above this place, each double is whole and out of range.
const HIGHEST: u64 = 1083;

/// Why a double has no units.
#[derive(Clone, Copy, Debug, PartialEq, Eq)]
pub enum Fault {
    /// It is infinite or a NaN.
    NotFinite,
    /// Its shortest decimal has more decimals than the scale.
    NotWhole,
    /// It is more than 10^18 units.
    OutOfRange,
}

/// The number of units of 10^-scale that the shortest decimal of a double has.
///
/// # Errors
/// - [`Fault::NotFinite`] if the bits are those of an infinity or a NaN.
/// - [`Fault::NotWhole`] if no decimal with at most `scale` decimals reads as the double.
/// - [`Fault::OutOfRange`] if it has more than 10^18 units.
pub fn units(bits: u64, scale: u8) -> Result<i64, Fault>
    requires { scale ≤ most_decimals }
    // the units of the scale that the double's shortest decimal has, or exactly the fault that it
    // isn't finite, isn't whole or is out of range
    ensures { MatchResult result
        (λ units. IsReadAs bits scale units)
        (λ fault. HasFault bits scale fault) }
{
    if exponent(bits) == NOT_FINITE {
        return Err(Fault::NotFinite);
    }
    if place(bits) > HIGHEST {
        return Err(Fault::OutOfRange);
    }
    match whole_size(bits, scale) {
        Some(size) if size <= MOST => Ok(signed(is_negative(bits), size)),
        Some(_) => Err(Fault::OutOfRange),
        None => Err(Fault::NotWhole),
    }
}

/// The number of units of 10^-scale nearest to the shortest decimal of a double, half a unit away
/// from zero.
///
/// # Errors
/// - [`Fault::NotFinite`] if the bits are those of an infinity or a NaN.
/// - [`Fault::OutOfRange`] if it is more than 10^18 units.
pub fn rounded_units(bits: u64, scale: u8) -> Result<i64, Fault>
    requires { scale ≤ most_decimals }
    // the units nearest to the shortest decimal, half a unit away from zero, or exactly the fault
    // that it isn't finite or is out of range
    ensures { MatchResult result
        (λ units. IsRoundedTo bits scale units)
        (λ fault. HasFaultRounded bits scale fault) }
{
    if exponent(bits) == NOT_FINITE {
        return Err(Fault::NotFinite);
    }
    if place(bits) > HIGHEST {
        return Err(Fault::OutOfRange);
    }
    let size = rounded_size(bits, scale);
    if size <= MOST {
        Ok(signed(is_negative(bits), size))
    } else {
        Err(Fault::OutOfRange)
    }
}

/// The number with this sign.
fn signed(negative: bool, size: u128) -> i64
    requires { size ≤ greatest_units }
    ensures { result ≡ signed negative size }
{
    let number = size as i64;
    if negative { -number } else { number }
}
