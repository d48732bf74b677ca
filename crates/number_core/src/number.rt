//! Reading one number of a text.

ghost use Rattle.std.specs.Prelude.{◌≡◌, ◌==◌, ◌+◌, ◌*◌, ◌≤◌, ℕ, suc, ◌∷◌, drop, false};
ghost use Rattle.std.specs.Prelude.{IfSome, IfNone};
ghost use Rattle.std.specs.Prelude.{if◌then◌else◌};
ghost use Rattle.std.specs.Char.{digit_value};
ghost use Rattle.std.specs.List.{list_all};
ghost use Rattle.std.specs.Str.Parse.{digits_value, digits_value_after};
ghost use Rattle.number_core.specs.Numbers.{IsDigit};
ghost use Rattle.number_core.specs.ScaleLimits.{greatest_range, greatest_units};
ghost use Rattle.number_core.specs.Scales.{digits_of, limits_of};
ghost use Rattle.number_core.specs.Values.{kept};
ghost use Rattle.number_core.specs.NumberSteps.{digits_at, after_digits, sign_at, decimals_at};
ghost use Rattle.number_core.specs.NumberSteps.{has_letter, has_digit, rounds_up, ranged};
ghost use Rattle.number_core.specs.NumberSteps.{number_at, number_answer, answer_view};
ghost use Rattle.number_core.specs.NumberSteps.{IsCapped, IsPlainOf};

use crate::rounded::read_rounded;
use crate::scale::{Rounding, Scale};

/// The greatest absolute value that a number may be read up to: no two points of the plane are
/// this far apart.
pub(crate) const LARGEST: u64 = 4_000_000_000_000_000_000;

/// The number of digits that are read with one length check and no overflow check; their value
/// fits.
const FEW: usize = 6;

/// A number that was read.
#[derive(Drop)]
pub struct ReadNumber {
    /// The number in whole units of the scale, if it is in range.
    pub value: Option<i64>,
    /// Whether all digits after the decimals of the scale are 0, or the number was rounded to them.
    pub whole: bool,
}

/// A number that has a digit before its dot, cut off after the decimals of a scale.
#[derive(Clone, Copy)]
pub(crate) struct Plain {
    negative: bool,
    /// Its whole units without the sign, or some number greater than `LARGEST` if there are more.
    units: u64,
    /// Whether all digits after the decimals of the scale are 0.
    whole: bool,
    /// Whether the first of them is 5 or more.
    up: bool,
}

impl Plain {
    ghost use Rattle.std.specs.Prelude.{◌≡◌, ◌+◌, ◌≤◌, ℕ, true, if◌then◌else◌};
    ghost use Rattle.number_core.specs.ScaleLimits.{greatest_range};
    ghost use Rattle.number_core.specs.NumberSteps.{ranged, IsCapped};

    /// The number as it is read without rounding, if it is at most `most` units.
    #[inline(always)]
    fn exact(&self, most: u64) -> ReadNumber
        requires { most ≤ greatest_range }
        ensures value { result.value ≡ ranged most self.now.negative self.now.units }
        ensures whole { result.whole ≡ self.now.whole }
    {
        ReadNumber {
            value: signed_number(self.negative, self.units, most),
            whole: self.whole,
        }
    }

    /// The number rounded to the nearest unit, if it is at most `most` units.
    #[inline(always)]
    fn rounded(&self, most: u64) -> ReadNumber
        requires { most ≤ greatest_range }
        ensures value { (total : ℕ) → IsCapped self.now.units total → result.value
            ≡ ranged most self.now.negative (total + (if self.now.up then 1 else 0)) }
        ensures whole { result.whole ≡ true }
    {
        let units = rounded_up(self.units, self.up);
        ReadNumber {
            value: signed_number(self.negative, units, most),
            whole: true,
        }
    }
}

/// The number with one added if `up`.
#[inline(always)]
pub(crate) fn rounded_up(number: u64, up: bool) -> u64
    ensures { (total : ℕ) → IsCapped number total
        → IsCapped result (total + (if up then 1 else 0)) }
{
    if up && number <= LARGEST {
        number + 1
    } else {
        number
    }
}

/// Whether the text starts with a minus sign, and the text after the sign.
#[inline(always)]
pub(crate) fn sign(text: &[u8]) -> (bool, &[u8])
    ensures negative { result.0 ≡ (sign_at text.now).0 }
    ensures rest { result.1.now ≡ (sign_at text.now).1 }
{
    match text {
        // The text mostly starts with a digit, and both signs sort below the digits.
        [first, ..] if *first >= b'0' => (false, text),
        [b'+', rest @ ..] => (false, rest),
        [b'-', rest @ ..] => (true, rest),
        _ => (false, text),
    }
}

/// The number with one more digit. All numbers greater than `LARGEST` are represented by one of
/// them.
#[inline(always)]
pub(crate) fn with_digit(number: u64, digit: u8) -> u64
    requires { IsDigit digit }
    ensures { (total : ℕ)
        → IsCapped number total → IsCapped result (total * 10 + digit_value digit) }
{
    if number <= LARGEST / 10 {
        number * 10 + u64::from(digit - b'0')
    } else {
        LARGEST + 1
    }
}

/// The number with all the digits at the start of the text appended, and the text after them.
#[inline(always)]
fn with_digits(number: u64, text: &[u8]) -> (u64, &[u8])
    ensures value { (total : ℕ) → IsCapped number total
        → IsCapped result.0 (digits_value_after 10 total (digits_at text.now)) }
    ensures rest { result.1.now ≡ after_digits text.now }
{
    let mut sum = number;
    let mut rest = text;
    while let [digit @ b'0'..=b'9', after @ ..] = rest {
        sum = with_digit(sum, *digit);
        rest = after;
    }
    (sum, rest)
}

/// The number of the digits at the start of the text, and the text after them. If it is greater
/// than `LARGEST`, the result is some number greater than `LARGEST`, however many digits there are.
#[inline(always)]
fn magnitude(text: &[u8]) -> (u64, &[u8])
    ensures value { IsCapped result.0 (digits_value 10 (digits_at text.now)) }
    ensures rest { result.1.now ≡ after_digits text.now }
{
    if text.len() < FEW {
        return with_digits(0, text);
    }
    let mut sum = 0;
    for i in 0..FEW {
        if !text[i].is_ascii_digit() {
            return (sum, &text[i..]);
        }
        sum = sum * 10 + u64::from(text[i] - b'0');
    }
    with_digits(sum, &text[FEW..])
}

/// The digit at the start of the text, or a 0 if there is none, and the text after it.
#[inline(always)]
#[tactic(auto, using(crate::proofs::NumberLemmas::no_digit))]
fn next_decimal(text: &[u8]) -> (u8, &[u8])
    ensures digit { IsDigit result.0 }
    ensures kept { (k : ℕ)
        → kept (suc k) (digits_at text.now) ≡ result.0 ∷ kept k (digits_at result.1.now) }
    ensures digits { digits_at result.1.now ≡ drop 1 (digits_at text.now) }
    ensures rest { after_digits result.1.now ≡ after_digits text.now }
{
    match text {
        [digit @ b'0'..=b'9', rest @ ..] => (*digit, rest),
        _ => (b'0', text),
    }
}

/// The number with `count` more digits, those at the start of the text and a 0 for each missing
/// one, and the text after them.
#[inline(always)]
fn with_decimals(number: u64, count: u8, text: &[u8]) -> (u64, &[u8])
    ensures value { (total : ℕ) → IsCapped number total
        → IsCapped result.0 (digits_value_after 10 total (kept count (digits_at text.now))) }
    ensures digits { digits_at result.1.now ≡ drop count (digits_at text.now) }
    ensures rest { after_digits result.1.now ≡ after_digits text.now }
{
    let mut sum = number;
    let mut rest = text;
    for _ in 0..count {
        let (digit, after) = next_decimal(rest);
        sum = with_digit(sum, digit);
        rest = after;
    }
    (sum, rest)
}

/// Whether all digits at the start of the text are 0, and the text after the digits.
#[inline(always)]
fn zeros(text: &[u8]) -> (bool, &[u8])
    ensures zeros { result.0 ≡ list_all (λ d. d == 48) (digits_at text.now) }
    ensures rest { result.1.now ≡ after_digits text.now }
{
    let mut all = true;
    let mut rest = text;
    while let [digit @ b'0'..=b'9', after @ ..] = rest {
        all = all && *digit == b'0';
        rest = after;
    }
    (all, rest)
}

/// Whether the digit at the start of the text is 5 or more.
#[inline(always)]
fn starts_upper_half(text: &[u8]) -> bool
    ensures { result ≡ rounds_up 0 (digits_at text.now) }
{
    matches!(text, [b'5'..=b'9', ..])
}

/// The number with the decimals at the start of the text appended and cut off after those of the
/// scale, and the text after all of them.
#[inline(always)]
fn cut_off(negative: bool, whole_part: u64, scale: Scale, text: &[u8]) -> (Plain, &[u8])
    ensures negative { result.0.negative ≡ negative }
    ensures units { (total : ℕ) → IsCapped whole_part total → IsCapped result.0.units
        (digits_value_after 10 total (kept (digits_of scale) (decimals_at text.now).0)) }
    ensures zeros { result.0.whole
        ≡ list_all (λ d. d == 48) (drop (digits_of scale) (decimals_at text.now).0) }
    ensures up { result.0.up ≡ rounds_up (digits_of scale) (decimals_at text.now).0 }
    ensures rest { result.1.now ≡ (decimals_at text.now).1 }
{
    match text {
        [b'.', decimals @ ..] => {
            let (units, further) = with_decimals(whole_part, scale.digits(), decimals);
            let up = starts_upper_half(further);
            let (whole, rest) = zeros(further);
            (
                Plain {
                    negative,
                    units,
                    whole,
                    up,
                },
                rest,
            )
        }
        _ => {
            let (units, _) = with_decimals(whole_part, scale.digits(), b"");
            (
                Plain {
                    negative,
                    units,
                    whole: true,
                    up: false,
                },
                text,
            )
        }
    }
}

/// The number with this sign, if it is at most `most` units.
#[inline(always)]
pub(crate) fn signed_number(negative: bool, magnitude: u64, most: u64) -> Option<i64>
    requires { most ≤ greatest_range }
    ensures { result ≡ ranged most negative magnitude }
{
    if magnitude > most {
        return None;
    }
    let number = magnitude as i64;
    Some(if negative { -number } else { number })
}

/// Reads the number at the start of a text up to its exponent, if it has a digit before its dot,
/// and returns it with the text after it.
#[inline(always)]
fn read_plain(text: &[u8], scale: Scale) -> Option<(Plain, &[u8])>
    ensures some { IfSome result (λ r. IsPlainOf scale text.now r.0 r.1.now) }
    ensures none { IfNone result (has_digit (digits_at (sign_at text.now).1) ≡ false) }
{
    let (negative, unsigned) = sign(text);
    match unsigned {
        [b'0'..=b'9', ..] => {
            let (whole_part, rest) = magnitude(unsigned);
            Some(cut_off(negative, whole_part, scale, rest))
        }
        _ => None,
    }
}

/// Whether the text starts with the letter of an exponent.
#[inline(always)]
fn has_letter(text: &[u8]) -> bool
    ensures { result ≡ has_letter text.now }
{
    matches!(text, [b'e' | b'E', ..])
}

/// Reads the coordinate at the start of a text, and returns it with the text after it, or `None`
/// if there is no number.
#[inline(always)]
pub fn read_number(text: &[u8], scale: Scale) -> Option<(ReadNumber, &[u8])>
    ensures { answer_view result
        ≡ number_answer (greatest_units (limits_of scale)) scale (number_at scale text.now) }
{
    read_number_to(text, scale, scale.limits().units())
}

/// Reads the number at the start of a text, in range if its absolute value is at most `most` units,
/// and returns it with the text after it, or `None` if there is no number.
#[inline(always)]
pub fn read_number_to(text: &[u8], scale: Scale, most: u64) -> Option<(ReadNumber, &[u8])>
    requires { most ≤ greatest_range }
    // the number at the start of the text, its value in units of the scale if its absolute value is
    // at most that of the range, whether it is whole, and the text after it; or none if the text
    // begins with no number
    ensures { answer_view result ≡ number_answer most scale (number_at scale text.now) }
{
    let plain = read_plain(text, scale);
    match scale.rounding() {
        Rounding::Exact => match plain {
            Some((number, rest)) => Some((number.exact(most), rest)),
            None => None,
        },
        Rounding::Nearest => match plain {
            Some((number, rest)) if !has_letter(rest) => Some((number.rounded(most), rest)),
            _ => read_rounded(text, scale, most),
        },
    }
}
