//! The relations of two shapes as sets of points: containment, and whether their interiors meet.

use crate::shape::Shape;
use crate::span::Span;

impl Span {
    ghost use Rattle.std.specs.Prelude.{◌≡◌, ◌<ℤ◌, ℤ, ◌↔◌, IsTrue};
    ghost use Rattle.geom_core.specs.Cells.{IsInner, IsWithin};

    /// Whether each number of the interval is in the other.
    #[inline(always)]
    #[tactic(auto, using(crate::proofs::SetLaws::inside))]
    fn is_in(&self, other: &Span) -> bool
        ensures { IsTrue result ↔ ((u : ℤ) → IsWithin self.now u → IsWithin other.now u) }
    {
        other.lo <= self.lo && self.hi <= other.hi
    }

    /// Whether each starts before the other ends.
    #[inline(always)]
    fn interleaves(&self, other: &Span) -> bool
        ensures { IsTrue result
            ↔ ((self.now.lo <ℤ other.now.hi) × (other.now.lo <ℤ self.now.hi)) }
    {
        self.lo < other.hi && other.lo < self.hi
    }

    /// Whether both have the same ends.
    #[inline(always)]
    fn is_same(&self, other: &Span) -> bool
        ensures { IsTrue result
            ↔ ((self.now.lo ≡ other.now.lo) × (self.now.hi ≡ other.now.hi)) }
    {
        self.lo == other.lo && self.hi == other.hi
    }

    /// Whether the inner parts share a number; a single number is its own inner part.
    #[inline(always)]
    #[tactic(auto, using(crate::proofs::SetLaws::inner_meeting))]
    fn inner_meets(&self, other: &Span) -> bool
        ensures { IsTrue result ↔ ((u : ℤ) × IsInner self.now u × IsInner other.now u) }
    {
        self.interleaves(other) || self.is_same(other)
    }

    /// Whether both ends are between those of the other.
    #[inline(always)]
    fn is_between(&self, other: &Span) -> bool
        ensures { IsTrue result
            ↔ ((other.now.lo <ℤ self.now.lo) × (self.now.hi <ℤ other.now.hi)) }
    {
        other.lo < self.lo && self.hi < other.hi
    }

    /// Whether both are the same single number.
    #[inline(always)]
    fn is_same_number(&self, other: &Span) -> bool
        ensures { IsTrue result ↔ ((self.now.lo ≡ self.now.hi)
            × (self.now.lo ≡ other.now.lo) × (self.now.hi ≡ other.now.hi)) }
    {
        self.lo == self.hi && self.is_same(other)
    }

    /// Whether each number of the interval is in the inner part of the other.
    #[inline(always)]
    #[tactic(auto, using(crate::proofs::SetLaws::inside_inner))]
    fn is_inside(&self, other: &Span) -> bool
        ensures { IsTrue result ↔ ((u : ℤ) → IsWithin self.now u → IsInner other.now u) }
    {
        self.is_between(other) || self.is_same_number(other)
    }
}

impl Shape {
    ghost use Rattle.std.specs.Prelude.{◌↔◌, IsTrue};
    ghost use Rattle.geom_core.specs.Cells.{IsIn};
    ghost use Rattle.geom_core.specs.Sets.{AreSameSet, AreTouching, InteriorsMeet, LiesInside};
    ghost use Rattle.geom_core.specs.Sets.{LiesWithin};

    /// Whether the closed shapes share a point, and their interiors share none.
    #[inline(always)]
    pub fn touches(&self, other: &Shape) -> bool
        ensures { IsTrue result ↔ AreTouching self.now other.now }
    {
        self.meets(other) && !self.interiors_meet(other)
    }

    /// Whether the shape lies in the other, and their interiors share a point.
    #[inline(always)]
    pub fn is_within(&self, other: &Shape) -> bool
        ensures { IsTrue result ↔ LiesWithin self.now other.now }
    {
        let inside = self.is_in(other);
        inside && self.interiors_meet(other)
    }

    /// Whether each of the two closed shapes lies in the other.
    #[inline(always)]
    pub fn is_same_set(&self, other: &Shape) -> bool
        ensures { IsTrue result ↔ AreSameSet self.now other.now }
    {
        let inside = self.is_in(other);
        inside && other.is_in(self)
    }

    /// Whether each point of the closed shape is a point of the other.
    #[inline(always)]
    #[tactic(auto, using(crate::proofs::SetLaws::axes_in))]
    pub fn is_in(&self, other: &Shape) -> bool
        ensures { IsTrue result ↔ IsIn self.now other.now }
    {
        self.x().is_in(other.x()) && self.y().is_in(other.y())
    }

    /// Whether each point of the closed shape is in the interior of the other.
    #[inline(always)]
    pub fn is_inside(&self, other: &Shape) -> bool
        ensures { IsTrue result ↔ LiesInside self.now other.now }
    {
        let across = self.x().is_inside(other.x());
        across && self.y().is_inside(other.y())
    }

    /// Whether the interiors share a point.
    #[inline(always)]
    fn interiors_meet(&self, other: &Shape) -> bool
        ensures { IsTrue result ↔ InteriorsMeet self.now other.now }
    {
        self.x().inner_meets(other.x()) && self.y().inner_meets(other.y())
    }
}
