//! Bytes as pairs of hexadecimal digits.

ghost use Rattle.std.specs.Prelude.{◌≡◌, ◌<◌, ℕ, List, IfOk, IfSome, IfNone};
ghost use Rattle.geometry_text_core.specs.Hexadecimal.{digit_value, TakesPair, SpellsBytes};

use std::alloc::{AllocError, Global};
use wkt_core::skip_blanks;

/// The value of each byte as a digit, in either case, or 255 if it is none.
const DIGITS: [u8; 256] = [
    255, 255, 255, 255, 255, 255, 255, 255, 255, 255, 255, 255, 255, 255, 255, 255, 255, 255, 255,
    255, 255, 255, 255, 255, 255, 255, 255, 255, 255, 255, 255, 255, 255, 255, 255, 255, 255, 255,
    255, 255, 255, 255, 255, 255, 255, 255, 255, 255, 0, 1, 2, 3, 4, 5, 6, 7, 8, 9, 255, 255, 255,
    255, 255, 255, 255, 10, 11, 12, 13, 14, 15, 255, 255, 255, 255, 255, 255, 255, 255, 255, 255,
    255, 255, 255, 255, 255, 255, 255, 255, 255, 255, 255, 255, 255, 255, 255, 255, 10, 11, 12, 13,
    14, 15, 255, 255, 255, 255, 255, 255, 255, 255, 255, 255, 255, 255, 255, 255, 255, 255, 255,
    255, 255, 255, 255, 255, 255, 255, 255, 255, 255, 255, 255, 255, 255, 255, 255, 255, 255, 255,
    255, 255, 255, 255, 255, 255, 255, 255, 255, 255, 255, 255, 255, 255, 255, 255, 255, 255, 255,
    255, 255, 255, 255, 255, 255, 255, 255, 255, 255, 255, 255, 255, 255, 255, 255, 255, 255, 255,
    255, 255, 255, 255, 255, 255, 255, 255, 255, 255, 255, 255, 255, 255, 255, 255, 255, 255, 255,
    255, 255, 255, 255, 255, 255, 255, 255, 255, 255, 255, 255, 255, 255, 255, 255, 255, 255, 255,
    255, 255, 255, 255, 255, 255, 255, 255, 255, 255, 255, 255, 255, 255, 255, 255, 255, 255, 255,
    255, 255, 255, 255, 255, 255, 255, 255, 255, 255, 255, 255, 255, 255, 255, 255, 255, 255, 255,
    255, 255, 255,
];

/// The value of a digit, in either case.
#[inline(always)]
fn digit_value(byte: u8) -> Option<u8>
    ensures value { result ≡ digit_value byte }
    ensures few { IfSome result (λ value. value < 16) }
{
    let value = DIGITS[byte as usize];
    if value < 16 { Some(value) } else { None }
}

/// The byte of the two digits at the start of a text, and the text after them.
#[inline(always)]
fn read_pair(text: &[u8]) -> Option<(u8, &[u8])>
    ensures some { IfSome result (λ r. TakesPair text.now r.0 r.1.now) }
    ensures none { IfNone result
        ((byte : ℕ) (rest : List ℕ) → TakesPair text.now byte rest → ⊥) }
{
    match text {
        [high, low, rest @ ..] => {
            let high = digit_value(*high)?;
            let low = digit_value(*low)?;
            Some((16 * high + low, rest))
        }
        _ => None,
    }
}

/// The bytes that a text of pairs of digits spells, or `None` if it is no such text.
pub(crate) fn decode(alloc: Global, text: &[u8]) -> Result<Option<Vec<u8>>, AllocError>
    ensures some { IfOk result (λ read. IfSome read (λ bytes. SpellsBytes text.now bytes.items)) }
    ensures none { IfOk result (λ read. IfNone read
        ((bytes : List ℕ) → SpellsBytes text.now bytes → ⊥)) }
{
    let mut rest = skip_blanks(text);
    let mut bytes = Vec::with_capacity(alloc, rest.len() / 2)?;
    while let Some((byte, behind)) = read_pair(rest) {
        bytes.push(byte)?;
        rest = behind;
    }
    let end = skip_blanks(rest);
    match end {
        [] => Ok(Some(bytes)),
        _ => Ok(None),
    }
}
