//! A point, axis-parallel segment or rectangle, given by its corners.

use crate::span::{LIMIT, Span};

/// An area, in square units of the grid: at most the square of twice [`LIMIT`].
pub type Area = u128;

/// The closed set of points from the corner `(x1, y1)` to the corner `(x2, y2)`.
///
/// It is a point if the corners are equal, an axis-parallel segment if they share one coordinate,
/// and otherwise a rectangle (OGC 06-103r4, 6.1.4, 6.1.7 and 6.1.11, for these three kinds).
/// Each coordinate is an integer from `-LIMIT` to `LIMIT`.
#[derive(Clone, Copy, Debug, PartialEq, Eq)]
pub struct Shape {
    x: Span,
    y: Span,
}

impl Shape {
    ghost use Rattle.std.specs.Prelude.{◌≡◌, ℕ, ◌+◌, ◌*◌, ◌≤◌, ◌-ℤ◌, ◌↔◌, IsTrue, IsSome, IfSome};
    ghost use Rattle.geom_core.specs.Cells.{Meets, IsIn};
    ghost use Rattle.geom_core.specs.Shapes.{x1, y1, x2, y2, AreCorners, HasCorners, area_of};
    ghost use Rattle.geom_core.specs.Shapes.{greatest_area, cover_of, dim_of};

    /// The shape from `(x1, y1)` to `(x2, y2)`, or `None` if these are out of order or a coordinate
    /// is out of range.
    pub fn new(x1: i64, y1: i64, x2: i64, y2: i64) -> Option<Shape>
        // Some exactly for corners in order and in range
        ensures some { IsSome result ↔ AreCorners x1 y1 x2 y2 }
        // the shape has these
        ensures corners { IfSome result (HasCorners x1 y1 x2 y2) }
    {
        let x = Span::new(x1, x2)?;
        let y = Span::new(y1, y2)?;
        Some(Shape { x, y })
    }

    /// The extent of the shape along the first axis.
    #[inline(always)]
    pub fn x(&self) -> &Span
        ensures { result.now ≡ self.now.x }
    {
        &self.x
    }

    /// The extent of the shape along the second axis.
    #[inline(always)]
    pub fn y(&self) -> &Span
        ensures { result.now ≡ self.now.y }
    {
        &self.y
    }

    /// The lower coordinate along the first axis.
    pub fn x1(&self) -> i64
        ensures { result ≡ x1 self.now }
    {
        self.x.lo
    }

    /// The lower coordinate along the second axis.
    pub fn y1(&self) -> i64
        ensures { result ≡ y1 self.now }
    {
        self.y.lo
    }

    /// The higher coordinate along the first axis.
    pub fn x2(&self) -> i64
        ensures { result ≡ x2 self.now }
    {
        self.x.hi
    }

    /// The higher coordinate along the second axis.
    pub fn y2(&self) -> i64
        ensures { result ≡ y2 self.now }
    {
        self.y.hi
    }

    /// The dimension: 0 for a point, 1 for a segment, 2 for a rectangle.
    pub fn dim(&self) -> u8
        ensures { result ≡ dim_of self.now }
    {
        self.x.dim() + self.y.dim()
    }

    /// Whether the closed shapes share a point.
    #[inline(always)]
    pub fn meets(&self, other: &Shape) -> bool
        ensures { IsTrue result ↔ Meets self.now other.now }
    {
        self.x.meets(&other.x) && self.y.meets(&other.y)
    }

    /// The smallest shape that contains both.
    pub fn cover(&self, other: &Shape) -> Shape
        // it contains both
        ensures first { IsIn self.now result }
        ensures second { IsIn other.now result }
        // no smaller shape does
        ensures least { (s : Shape) → IsIn self.now s → IsIn other.now s → IsIn result s }
        // names its corners
        ensures corners { result ≡ cover_of self.now other.now }
    {
        let x = self.x.joined(&other.x);
        let y = self.y.joined(&other.y);
        Shape { x, y }
    }

    /// Width times height, which is 0 for a point and for a segment.
    pub fn area(&self) -> Area
        // width times height
        ensures product { result ≡ area_of self.now }
        // at most 4,000,000,000,000,000,000,000,000,000,000,000,000
        ensures bound { result ≤ greatest_area }
    {
        self.x.length() * self.y.length()
    }
}
