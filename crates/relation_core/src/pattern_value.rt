//! The values of a mask: conditions on one entry of a matrix.

use crate::extent::Extent;

/// The condition of a mask on one entry (a pattern value, OGC 06-103r4, 6.1.15.2).
#[derive(Clone, Copy, PartialEq, Eq)]
pub enum PatternValue {
    /// `*`: anything.
    Any,
    /// `T`: the intersection isn't empty.
    NotEmpty,
    /// `F`, `0`, `1` or `2`: exactly this entry.
    Exactly(Extent),
}

impl PatternValue {
    ghost use Rattle.std.specs.Prelude.{◌≡◌, ◌↔◌, MatchOption, IsTrue};
    ghost use Rattle.relation_core.specs.Masks.{Allows, IsLetter, IsLetterOf, letter_of_value};

    /// The condition of a letter, with `T` and `F` in either case.
    pub(crate) fn of_letter(letter: u8) -> Option<PatternValue>
        ensures { MatchOption result (¬ (IsLetter letter)) (λ value. IsLetterOf value letter) }
    {
        match letter {
            b'*' => Some(PatternValue::Any),
            b'T' | b't' => Some(PatternValue::NotEmpty),
            b'F' | b'f' => Some(PatternValue::Exactly(Extent::Empty)),
            b'0' => Some(PatternValue::Exactly(Extent::Point)),
            b'1' => Some(PatternValue::Exactly(Extent::Line)),
            b'2' => Some(PatternValue::Exactly(Extent::Area)),
            _ => None,
        }
    }

    /// The letter, with `T` and `F` in upper case.
    pub(crate) fn letter(self) -> u8
        ensures { result ≡ letter_of_value self }
    {
        match self {
            PatternValue::Any => b'*',
            PatternValue::NotEmpty => b'T',
            PatternValue::Exactly(extent) => extent.letter(),
        }
    }

    /// Whether the condition holds for an entry.
    #[inline(always)]
    pub(crate) fn allows(self, extent: Extent) -> bool
        ensures { IsTrue result ↔ Allows self extent }
    {
        match self {
            PatternValue::Any => true,
            PatternValue::NotEmpty => extent != Extent::Empty,
            PatternValue::Exactly(wanted) => extent == wanted,
        }
    }
}
