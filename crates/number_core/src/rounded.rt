//! Reading one number, rounded to the nearest unit of the scale.

ghost use Rattle.std.specs.Prelude.{◌≡◌, ◌<◌, ◌≤◌, ◌+◌, ◌*◌, ◌^◌, ◌++◌, ℕ, length, get_or};
ghost use Rattle.std.specs.Prelude.{if◌then◌else◌};
ghost use Rattle.std.specs.Str.Parse.{digits_value};
ghost use Rattle.number_core.specs.declared.scale.Rounding.TheVariants.{Nearest};
ghost use Rattle.number_core.specs.Numbers.{Digits};
ghost use Rattle.number_core.specs.ScaleLimits.{greatest_range};
ghost use Rattle.number_core.specs.Scales.{digits_of, rounding_of};
ghost use Rattle.number_core.specs.Values.{kept, nearest};
ghost use Rattle.number_core.specs.NumberSteps.{answer_view};
ghost use Rattle.number_core.specs.NumberSteps.{digits_at, after_digits, decimals_at, exponent_at};
ghost use Rattle.number_core.specs.NumberSteps.{number_at, number_answer, cut, has_digit};
ghost use Rattle.number_core.specs.NumberSteps.{IsCapped, IsSaturated};

use crate::number::{ReadNumber, rounded_up, sign, signed_number, with_digit};
use crate::scale::Scale;

/// A whole number other than 0 that is followed by this many zeros is out of range.
const MOST_ZEROS: usize = 19;

/// The digits at the start of the text, and the text after them.
fn split_digits(text: &[u8]) -> (&[u8], &[u8])
    ensures digits { result.0.now ≡ digits_at text.now }
    ensures rest { result.1.now ≡ after_digits text.now }
{
    let mut count = 0;
    while count < text.len() && text[count].is_ascii_digit() {
        count += 1;
    }
    text.split_at(count)
}

/// The digits after a dot at the start of the text, and the text after them.
fn split_decimals(text: &[u8]) -> (&[u8], &[u8])
    ensures digits { result.0.now ≡ (decimals_at text.now).0 }
    ensures rest { result.1.now ≡ (decimals_at text.now).1 }
{
    match text {
        [b'.', decimals @ ..] => split_digits(decimals),
        _ => (b"", text),
    }
}

/// Whether the exponent at the start of the text is negative, its digits, and the text after it.
/// Without a digit there is no exponent.
fn split_exponent(text: &[u8]) -> (bool, &[u8], &[u8])
    ensures lowers { result.0 ≡ (exponent_at text.now).0 }
    ensures digits { result.1.now ≡ (exponent_at text.now).1 }
    ensures rest { result.2.now ≡ (exponent_at text.now).2 }
{
    match text {
        [b'e' | b'E', after @ ..] => {
            let (lowers, unsigned) = sign(after);
            match split_digits(unsigned) {
                ([], _) => (false, b"", text),
                (digits, rest) => (lowers, digits, rest),
            }
        }
        _ => (false, b"", text),
    }
}

/// Whether there is a digit before the dot or after it.
#[tactic(auto, using(crate::proofs::FrontLemmas::some_digits))]
fn has_digit(digits: &[u8], decimals: &[u8]) -> bool
    ensures { result ≡ has_digit (digits.now ++ decimals.now) }
{
    match (digits, decimals) {
        ([], []) => false,
        _ => true,
    }
}

/// The number that these digits write, or the greatest one if it is greater than that.
fn amount(digits: &[u8]) -> u64
    requires { Digits digits.now }
    ensures { IsSaturated result (digits_value 10 digits.now) }
{
    let mut sum = 0_u64;
    for i in 0..digits.len() {
        let digit = u64::from(digits[i] - b'0');
        sum = sum.saturating_mul(10).saturating_add(digit);
    }
    sum
}

/// The digit at this place of the digits before and after the dot, or a 0 if there is none.
fn digit_at(digits: &[u8], decimals: &[u8], place: usize) -> u8
    ensures { result ≡ get_or (digits.now ++ decimals.now) place 48 }
{
    if place < digits.len() {
        return digits[place];
    }
    let behind = place - digits.len();
    if behind < decimals.len() {
        decimals[behind]
    } else {
        b'0'
    }
}

/// The number of the digits before this place, with a 0 for each missing one. If it is greater than
/// `LARGEST`, the result is some number greater than `LARGEST`.
fn digits_before(digits: &[u8], decimals: &[u8], place: usize) -> u64
    requires digits { Digits digits.now }
    requires decimals { Digits decimals.now }
    ensures { IsCapped result (digits_value 10 (kept place (digits.now ++ decimals.now))) }
{
    let mut sum = 0;
    for i in 0..place {
        sum = with_digit(sum, digit_at(digits, decimals, i));
    }
    sum
}

/// The same, with one added if the digit at this place is 5 or more.
fn rounded_at(digits: &[u8], decimals: &[u8], place: usize) -> u64
    requires digits { Digits digits.now }
    requires decimals { Digits decimals.now }
    ensures { IsCapped result (cut place (digits.now ++ decimals.now)) }
{
    let sum = digits_before(digits, decimals, place);
    let up = digit_at(digits, decimals, place) >= b'5';
    rounded_up(sum, up)
}

/// The units of the scale nearest to the number with these digits before and after the dot, which
/// ten to the power of `amount` lowers or raises. If they are out of range, some number that is.
fn nearest_units(digits: &[u8], decimals: &[u8], scale: Scale, lowers: bool, amount: u64) -> u64
    requires digits { Digits digits.now }
    requires decimals { Digits decimals.now }
    requires short { length digits.now + length decimals.now < 2 ^ 63 }
    ensures { (exponent : ℕ) → IsSaturated amount exponent → IsCapped result (nearest
        (digits_value 10 (digits.now ++ decimals.now)
        * 10 ^ (digits_of scale + (if lowers then 0 else exponent)))
        (10 ^ (length decimals.now + (if lowers then exponent else 0)))) }
{
    // The place of the digit behind the last unit.
    let unit = digits.len() + usize::from(scale.digits());
    let amount = amount as usize;
    if lowers {
        match unit.checked_sub(amount) {
            Some(place) => rounded_at(digits, decimals, place),
            None => 0,
        }
    } else {
        let raised = amount.min(decimals.len() + MOST_ZEROS);
        rounded_at(digits, decimals, unit + raised)
    }
}

/// Reads the number at the start of a text, rounded to the nearest unit, and returns it with the
/// text after it, or `None` if there is no number.
#[cold]
#[inline(never)]
pub(crate) fn read_rounded(text: &[u8], scale: Scale, most: u64) -> Option<(ReadNumber, &[u8])>
    requires nearest { rounding_of scale ≡ Nearest }
    requires most { most ≤ greatest_range }
    ensures { answer_view result ≡ number_answer most scale (number_at scale text.now) }
{
    let (negative, unsigned) = sign(text);
    let (digits, rest) = split_digits(unsigned);
    let (decimals, rest) = split_decimals(rest);
    if !has_digit(digits, decimals) {
        return None;
    }
    let (lowers, exponent, rest) = split_exponent(rest);
    let units = nearest_units(digits, decimals, scale, lowers, amount(exponent));
    let value = signed_number(negative, units, most);
    Some((ReadNumber { value, whole: true }, rest))
}
