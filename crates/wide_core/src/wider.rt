//! A number of 384 bits.

use crate::wide::Wide;
use std::cmp::Ordering;

/// The number `high * 2^128 + low`.
#[derive(Clone, Copy, PartialEq, Eq)]
pub(crate) struct Wider {
    pub(crate) high: Wide,
    pub(crate) low: u128,
}

impl Wider {
    ghost use Rattle.std.specs.Prelude.{◌≡◌, ◌*◌};
    ghost use Rattle.std.specs.Ordering.{nat_cmp};
    ghost use Rattle.wide_core.specs.Wides.{value_of};
    ghost use Rattle.wide_core.specs.Widers.{total_of};

    /// The product of a number of 256 bits and one of 128 bits.
    pub(crate) fn product(n: Wide, factor: u128) -> Wider
        ensures { total_of result ≡ value_of n * factor }
    {
        let low = Wide::product(n.low, factor);
        let high = Wide::product(n.high, factor);
        Wider {
            high: high.plus(low.high),
            low: low.low,
        }
    }

    /// The order of the numbers.
    pub(crate) fn compare(self, other: Wider) -> Ordering
        ensures { result ≡ nat_cmp (total_of self) (total_of other) }
    {
        if self.high == other.high {
            self.low.cmp(&other.low)
        } else {
            self.high.compare(other.high)
        }
    }
}
