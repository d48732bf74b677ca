//! Printing one number.

ghost use Rattle.std.specs.Prelude.{◌≡◌, ◌++◌, ◌<◌, ◌^◌, OnOk};
ghost use Rattle.std.specs.String.{string_bytes};
ghost use Rattle.number_core.specs.CanonicalNumbers.{decimals, fraction, number};
ghost use Rattle.number_core.specs.Scales.{digits_of};

use crate::scale::Scale;
use itoa::Buffer;
use std::alloc::AllocError;

/// Adds the digits of a fraction in units of the scale, up to the last that isn't 0.
fn push_decimals(text: &mut String, units: u64, scale: Scale) -> Result<(), AllocError>
    requires { units < 10 ^ digits_of scale }
    ensures { OnOk result (string_bytes text.new
        ≡ string_bytes text.old ++ decimals (digits_of scale) units) }
{
    let mut digits = Buffer::new();
    let mut place = scale.units_in_one();
    let mut rest = units;
    while rest > 0 {
        place /= 10;
        let digit = digits.format(rest / place);
        text.push_str(digit)?;
        rest %= place;
    }
    Ok(())
}

/// Adds a fraction in units of the scale, with its dot, if it isn't 0.
fn push_fraction(text: &mut String, units: u64, scale: Scale) -> Result<(), AllocError>
    requires { units < 10 ^ digits_of scale }
    ensures { OnOk result (string_bytes text.new
        ≡ string_bytes text.old ++ fraction (digits_of scale) units) }
{
    if units == 0 {
        return Ok(());
    }
    text.push_str(".")?;
    push_decimals(text, units, scale)
}

/// Adds a number of units of the scale to a text, as a decimal number without superfluous zeros,
/// and with a dot only if its fraction isn't 0: at scale 2, 125 units are `1.25` and -5 are
/// `-0.05`.
///
/// # Errors
/// If an allocation fails; the text may then end with a part of the number.
pub fn push_number(text: &mut String, units: i64, scale: Scale) -> Result<(), AllocError>
    ensures { OnOk result (string_bytes text.new
        ≡ string_bytes text.old ++ number scale units) }
{
    if units < 0 {
        text.push_str("-")?;
    }
    let mut digits = Buffer::new();
    let one = scale.units_in_one();
    let magnitude = units.unsigned_abs();
    text.push_str(digits.format(magnitude / one))?;
    push_fraction(text, magnitude % one, scale)
}
