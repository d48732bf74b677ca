//! A closed interval of integers: the extent of a shape along one axis.

ghost use Rattle.std.specs.Prelude.{◌≤ℤ◌, pos, neg_ℤ};
ghost use Rattle.geom_core.specs.Limits.{greatest_coordinate};

use crate::shape::Area;

/// The greatest absolute value of a coordinate.
pub const LIMIT: i64 = 1_000_000_000_000_000_000;

/// A closed interval of one axis, within `-LIMIT` to `LIMIT`.
#[derive(Clone, Copy, Debug, PartialEq, Eq)]
pub struct Span {
    pub lo: i64,
    pub hi: i64,
    ghost ordered: { lo ≤ℤ hi },
    ghost above: { neg_ℤ (pos greatest_coordinate) ≤ℤ lo },
    ghost below: { hi ≤ℤ pos greatest_coordinate },
}

impl Span {
    ghost use Rattle.std.specs.Prelude.{◌≡◌, ℤ, ◌-ℤ◌, ◌↔◌, nat_abs, IsTrue, IsSome, IfSome};
    ghost use Rattle.geom_core.specs.Cells.{IsWithin};
    ghost use Rattle.geom_core.specs.Shapes.{AreEnds, joined, span_dim};

    /// The interval from `lo` to `hi`, or `None` if these are out of order or out of range.
    pub fn new(lo: i64, hi: i64) -> Option<Span>
        // Some exactly for ends in order and in range
        ensures some { IsSome result ↔ AreEnds lo hi }
        // the interval has these
        ensures lo { IfSome result (λ s. s.lo ≡ lo) }
        ensures hi { IfSome result (λ s. s.hi ≡ hi) }
    {
        if -LIMIT <= lo && lo <= hi && hi <= LIMIT {
            Some(Span { lo, hi })
        } else {
            None
        }
    }

    /// 1 if the ends differ, otherwise 0.
    #[inline(always)]
    pub fn dim(&self) -> u8
        ensures { result ≡ span_dim self.now }
    {
        if self.lo < self.hi { 1 } else { 0 }
    }

    /// Whether the closed intervals share a number.
    #[inline(always)]
    #[tactic(auto, using(crate::proofs::SetLaws::meeting))]
    pub fn meets(&self, other: &Span) -> bool
        ensures { IsTrue result ↔ ((u : ℤ) × IsWithin self.now u × IsWithin other.now u) }
    {
        self.lo <= other.hi && other.lo <= self.hi
    }

    /// The smallest interval that contains both.
    #[inline(always)]
    pub fn joined(&self, other: &Span) -> Span
        ensures { result ≡ joined self.now other.now }
    {
        let lo = self.lo.min(other.lo);
        let hi = self.hi.max(other.hi);
        Span { lo, hi }
    }

    /// The difference of the two ends.
    #[inline(always)]
    pub fn length(&self) -> Area
        ensures { result ≡ nat_abs (self.now.hi -ℤ self.now.lo) }
    {
        (self.hi - self.lo) as Area
    }
}
