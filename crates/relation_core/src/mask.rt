//! Masks of the matrix: nine conditions, one on each entry.

use crate::extent::Extent;
use crate::matrix::Matrix;
use crate::part::Parts;
use crate::pattern_value::PatternValue;
use thiserror::Error;

/// A pattern of matrices (a pattern matrix, OGC 06-103r4, 6.1.15.2).
#[derive(Clone, Copy, PartialEq, Eq)]
pub struct Mask {
    pub rows: Parts<Parts<PatternValue>>,
}

/// Why a text is no mask.
#[derive(Clone, Copy, Debug, PartialEq, Eq, Error)]
pub enum MaskFault {
    /// The text doesn't have nine bytes.
    #[error("not a name or a mask of nine letters")]
    Length,
    /// The byte at this index is the first that is no letter of a mask.
    #[error("bad letter at place {0}")]
    Letter(u32),
}

impl MaskFault {
    ghost use Rattle.std.specs.Prelude.{◌≡◌};
    ghost use Rattle.relation_core.specs.FaultTexts.{mask_words};

    /// The text of the fault, as the user reads it, without the index.
    pub fn text(&self) -> &'static str
        ensures { result.now ≡ mask_words self.now }
    {
        match self {
            MaskFault::Length => "not a name or a mask of nine letters",
            MaskFault::Letter(_) => "bad letter at place ",
        }
    }
}

impl Mask {
    ghost use Rattle.std.specs.Prelude.{◌≡◌, ◌≢◌, ℕ, ◌↔◌, length, IsTrue};
    ghost use Rattle.relation_core.specs.Masks.{Fits, HasBadLetter, SpellsMask, text_of};

    /// Reads nine letters of `T`, `F`, `*`, `0`, `1` and `2`, in the order of
    /// [`Matrix::text`]; `T` and `F` may be lower case.
    ///
    /// # Errors
    /// `Length` if the text doesn't have nine bytes, else `Letter` with the index of the first bad
    /// byte.
    pub fn read(text: &[u8]) -> Result<Mask, MaskFault>
        // a mask exactly where the text spells it
        ensures ok { (mask : Mask) → (result ≡ Ok mask) ↔ SpellsMask text.now mask }
        // each fault exactly where it applies
        ensures length { (result ≡ Err MaskFault.Length) ↔ (length text.now ≢ 9) }
        ensures letter { (place : ℕ) →
            (result ≡ Err (MaskFault.Letter place)) ↔ HasBadLetter text.now place }
        // a mask's own text is read as that mask
        ensures text { (mask : Mask) → text.now ≡ text_of mask → result ≡ Ok mask }
    {
        if text.len() != 9 {
            return Err(MaskFault::Length);
        }
        let rows = read_rows(text)?;
        Ok(Mask { rows })
    }

    /// The nine letters, with `T` and `F` in upper case.
    pub fn text(&self) -> [u8; 9]
        ensures { result ≡ text_of self.now }
    {
        let Parts {
            interior,
            boundary,
            exterior,
        } = self.rows;
        [
            interior.interior.letter(),
            interior.boundary.letter(),
            interior.exterior.letter(),
            boundary.interior.letter(),
            boundary.boundary.letter(),
            boundary.exterior.letter(),
            exterior.interior.letter(),
            exterior.boundary.letter(),
            exterior.exterior.letter(),
        ]
    }

    /// Whether each of the nine conditions allows its entry.
    #[inline(always)]
    pub fn fits(&self, matrix: &Matrix) -> bool
        ensures { IsTrue result ↔ Fits self.now matrix.now }
    {
        row_fits(self.rows.interior, matrix.rows.interior)
            && row_fits(self.rows.boundary, matrix.rows.boundary)
            && row_fits(self.rows.exterior, matrix.rows.exterior)
    }
}

impl Default for Mask {
    ghost use Rattle.std.specs.Prelude.{◌≡◌};
    ghost use Rattle.relation_core.specs.Masks.{asks_nothing};

    ghost is_default = { λ mask. mask ≡ asks_nothing };

    /// Nine `*`, which fits every matrix.
    fn default() -> Mask {
        let row = Parts {
            interior: PatternValue::Any,
            boundary: PatternValue::Any,
            exterior: PatternValue::Any,
        };
        Mask {
            rows: Parts {
                interior: row,
                boundary: row,
                exterior: row,
            },
        }
    }
}

ghost use Rattle.std.specs.Prelude.{◌≡◌, ℕ, ◌+◌, ◌<◌, ◌≤◌, ◌↔◌, length, slice_index, IfOk, IfErr};
ghost use Rattle.std.specs.Prelude.{IsTrue};
ghost use Rattle.relation_core.specs.Masks.{FitsRow, IsLetterOf, SpellsRow, SpellsRows, TellsBad};

/// The conditions that the nine bytes stand for, row by row.
fn read_rows(text: &[u8]) -> Result<Parts<Parts<PatternValue>>, MaskFault>
    requires { length text.now ≡ 9 }
    ensures ok { IfOk result (SpellsRows text.now) }
    ensures err { IfErr result (TellsBad text.now 0 9) }
{
    let interior = read_row(text, 0)?;
    let boundary = read_row(text, 3)?;
    let exterior = read_row(text, 6)?;
    Ok(Parts {
        interior,
        boundary,
        exterior,
    })
}

/// The conditions that the three bytes from index `first` stand for.
fn read_row(text: &[u8], first: u32) -> Result<Parts<PatternValue>, MaskFault>
    requires within { first + 3 ≤ length text.now }
    requires short { length text.now ≡ 9 }
    ensures ok { IfOk result (SpellsRow text.now first) }
    ensures err { IfErr result (TellsBad text.now first (first + 3)) }
{
    let interior = read_value(text, first)?;
    let boundary = read_value(text, first + 1)?;
    let exterior = read_value(text, first + 2)?;
    Ok(Parts {
        interior,
        boundary,
        exterior,
    })
}

/// The condition that the byte at an index stands for.
fn read_value(text: &[u8], place: u32) -> Result<PatternValue, MaskFault>
    requires { place < length text.now }
    ensures ok { IfOk result (λ value. IsLetterOf value (slice_index text.now place)) }
    ensures err { IfErr result (TellsBad text.now place (place + 1)) }
{
    PatternValue::of_letter(text[place as usize]).ok_or(MaskFault::Letter(place))
}

#[inline(always)]
fn row_fits(row: Parts<PatternValue>, entries: Parts<Extent>) -> bool
    ensures { IsTrue result ↔ FitsRow row entries }
{
    row.interior.allows(entries.interior)
        && row.boundary.allows(entries.boundary)
        && row.exterior.allows(entries.exterior)
}
