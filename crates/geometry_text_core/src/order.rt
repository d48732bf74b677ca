//! The order of the bytes of numbers, and the numbers at the start of bytes.

use double_core::is_nan;

/// The order of the bytes of a number.
#[derive(Clone, Copy, PartialEq, Eq)]
pub(crate) enum Order {
    /// The greatest byte first.
    Big,
    /// The least byte first.
    Little,
}

impl Order {
    ghost use Rattle.std.specs.Prelude.{ℕ, List, IfSome, IfNone};
    ghost use Rattle.geometry_text_core.specs.declared.order.Order.{Order};
    ghost use Rattle.geometry_text_core.specs.Binary.{TakesOrder, TakesNumber, TakesDouble};

    /// The order at the start of bytes, and the bytes after it.
    pub(crate) fn read(bytes: &[u8]) -> Option<(Order, &[u8])>
        ensures some { IfSome result (λ r. TakesOrder bytes.now r.0 r.1.now) }
        ensures none { IfNone result
            ((order : Order) (rest : List ℕ) → TakesOrder bytes.now order rest → ⊥) }
    {
        match bytes {
            [0, rest @ ..] => Some((Order::Big, rest)),
            [1, rest @ ..] => Some((Order::Little, rest)),
            _ => None,
        }
    }

    /// The number of 4 bytes at the start of bytes, and the bytes after it.
    pub(crate) fn read_number(self, bytes: &[u8]) -> Option<(u32, &[u8])>
        ensures some { IfSome result (λ r. TakesNumber self bytes.now r.0 r.1.now) }
        ensures none { IfNone result
            ((n : ℕ) (rest : List ℕ) → TakesNumber self bytes.now n rest → ⊥) }
    {
        let (front, rest) = bytes.split_first_chunk::<4>()?;
        let number = match self {
            Order::Big => u32::from_be_bytes(*front),
            Order::Little => u32::from_le_bytes(*front),
        };
        Some((number, rest))
    }

    /// The bits of the double at the start of bytes, and the bytes after it. There is none if they
    /// are those of a NaN.
    pub(crate) fn read_double(self, bytes: &[u8]) -> Option<(u64, &[u8])>
        ensures some { IfSome result (λ r. TakesDouble self bytes.now r.0 r.1.now) }
        ensures none { IfNone result
            ((bits : ℕ) (rest : List ℕ) → TakesDouble self bytes.now bits rest → ⊥) }
    {
        let (front, rest) = bytes.split_first_chunk::<8>()?;
        let bits = match self {
            Order::Big => u64::from_be_bytes(*front),
            Order::Little => u64::from_le_bytes(*front),
        };
        if is_nan(bits) {
            None
        } else {
            Some((bits, rest))
        }
    }
}
