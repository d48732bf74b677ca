//! How far two shapes are apart.

ghost use Rattle.std.specs.Prelude.{◌≤◌, ◌↔◌, IsTrue};
ghost use Rattle.distance_core.specs.Limits.{greatest_square};
ghost use Rattle.distance_core.specs.Units.{units_of};
ghost use Rattle.distance_core.specs.Distances.{AreWithin, IsSquaredDistance};
ghost use Rattle.distance_core.specs.ShapePoints.{HasPoint};

use crate::distance::Distance;
use crate::gap::gap;
use geom_core::Shape;

/// The square of a distance, in square units of the grid: at most twice the square of twice
/// [`LIMIT`](geom_core::LIMIT).
pub type SquaredDistance = u128;

/// The square of the distance of two closed shapes, which is the least squared distance of a point
/// of the one and a point of the other: 0 if they share a point (OGC 06-103r4, 6.1.2.4).
#[inline(always)]
pub fn squared_distance(a: &Shape, b: &Shape) -> SquaredDistance
    // the least squared distance of a point of the one closed shape and a point of the other: two
    // points reach it, and no two are nearer
    ensures least { IsSquaredDistance result (HasPoint a.now) (HasPoint b.now) }
    // at most 8,000,000,000,000,000,000,000,000,000,000,000,000
    ensures bound { result ≤ greatest_square }
{
    let dx = gap(a.x(), b.x());
    let dy = gap(a.y(), b.y());
    dx * dx + dy * dy
}

/// Whether two closed shapes are at most a distance apart.
#[inline(always)]
pub fn is_within(a: &Shape, b: &Shape, distance: Distance) -> bool
    ensures { IsTrue result ↔ AreWithin (units_of distance) (HasPoint a.now) (HasPoint b.now) }
{
    let units = distance.units() as u128;
    squared_distance(a, b) <= units * units
}
