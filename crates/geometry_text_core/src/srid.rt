//! The SRID that EWKT has before a text, which is read over.

ghost use Rattle.std.specs.Prelude.{◌≡◌, ℕ, List, IfSome, IfNone};
ghost use Rattle.number_core.specs.NumberSteps.{after_digits};
ghost use Rattle.wkt_core.specs.TokenSteps.{rest_view};
ghost use Rattle.geometry_text_core.specs.Texts.{digit_at, TakesSrid};

use wkt_core::{skip_blanks, skip_symbol, skip_word};

/// The text after its leading digits.
fn skip_digits(mut text: &[u8]) -> &[u8]
    ensures { result.now ≡ after_digits text.now }
{
    while let [first, rest @ ..] = text
        && first.is_ascii_digit()
    {
        text = rest;
    }
    text
}

/// The text after the digit at its start, if it has one.
fn skip_digit(text: &[u8]) -> Option<&[u8]>
    ensures { rest_view result ≡ digit_at text.now }
{
    match text {
        [first, rest @ ..] if first.is_ascii_digit() => Some(rest),
        _ => None,
    }
}

/// The text after the SRID at its start, if it has one.
pub(crate) fn skip_srid(text: &[u8]) -> Option<&[u8]>
    ensures some { IfSome result (λ rest. TakesSrid text.now rest.now) }
    ensures none { IfNone result ((rest : List ℕ) → TakesSrid text.now rest → ⊥) }
{
    let start = skip_blanks(text);
    let number = skip_word(start, b"srid=")?;
    let rest = skip_digit(number)?;
    let end = skip_digits(rest);
    skip_symbol(end, b';')
}
