//! Numbers of units as text.

ghost use Rattle.std.specs.Prelude.{◌≡◌, ◌++◌, ◌<◌, ◌^◌, pos, OnOk};
ghost use Rattle.number_core.specs.CanonicalNumbers.{decimals, fraction, number};
ghost use Rattle.number_core.specs.Scales.{digits_of};

use itoa::Buffer;
use std::alloc::AllocError;
use wkt_core::Scale;

/// Adds a number of units of the scale, as coordinates are printed: 125 units of scale 2 as `1.25`.
#[tactic(auto, using(number_core::proofs::FractionLemmas::power_pos))]
pub(crate) fn push_amount(text: &mut Vec<u8>, units: u64, scale: Scale) -> Result<(), AllocError>
    ensures { OnOk result (text.new.items ≡ text.old.items ++ number scale (pos units)) }
{
    let one = units_in_one(scale);
    text.extend_from_slice(Buffer::new().format(units / one).as_bytes())?;
    push_fraction(text, units % one, scale)
}

/// Adds a fraction in units of the scale, with its dot, if it isn't 0.
fn push_fraction(text: &mut Vec<u8>, units: u64, scale: Scale) -> Result<(), AllocError>
    requires { units < 10 ^ digits_of scale }
    ensures { OnOk result
        (text.new.items ≡ text.old.items ++ fraction (digits_of scale) units) }
{
    if units == 0 {
        return Ok(());
    }
    text.push(b'.')?;
    push_decimals(text, units, scale)
}

/// Adds the digits of a fraction in units of the scale, up to the last that isn't 0.
fn push_decimals(text: &mut Vec<u8>, units: u64, scale: Scale) -> Result<(), AllocError>
    requires { units < 10 ^ digits_of scale }
    ensures { OnOk result
        (text.new.items ≡ text.old.items ++ decimals (digits_of scale) units) }
{
    let mut digits = Buffer::new();
    let mut place = units_in_one(scale);
    let mut rest = units;
    while rest > 0 {
        place /= 10;
        let digit = digits.format(rest / place);
        text.extend_from_slice(digit.as_bytes())?;
        rest %= place;
    }
    Ok(())
}

/// The number of units in 1.
fn units_in_one(scale: Scale) -> u64
    ensures { result ≡ 10 ^ digits_of scale }
{
    10_u64.pow(u32::from(scale.digits()))
}
