//! Geometries with the distance within which others are sought, as layers hold them.

ghost use Rattle.std.specs.Prelude.{◌≡◌, ◌≤◌};
ghost use Rattle.distance_core.specs.Limits.{greatest_distance};
ghost use Rattle.near_core.specs.Growth.{grown, grown_shape};

use distance_core::Distance;
use geom_core::{LIMIT, Shape, Span};
use layer_core::Geometry;

/// A geometry, and the distance within which other geometries are near it.
///
/// A layer holds it by its box, grown on all sides by half of the distance, rounded up. So the
/// boxes of two geometries that are at most the distance of each apart meet.
#[derive(Drop)]
pub struct Grown<G> {
    pub geometry: G,
    pub distance: Distance,
}

impl<G: Geometry> Geometry for Grown<G> {
    ghost use Rattle.near_core.specs.Growth.{grown_box};

    ghost box_of = { grown_box G.box_of };

    ghost dim_of = { λ g. G.dim_of g.geometry };

    #[inline(always)]
    fn bounds(&self) -> Shape {
        grow_shape(&self.geometry.bounds(), self.distance)
    }

    #[inline(always)]
    fn dim(&self) -> u8 {
        self.geometry.dim()
    }
}

/// The shape, grown by half of the distance, as far as the plane goes.
fn grow_shape(shape: &Shape, distance: Distance) -> Shape
    ensures { result ≡ grown_shape distance shape.now }
{
    let by = distance.units().div_ceil(2);
    let x = grow(shape.x(), by);
    let y = grow(shape.y(), by);
    match Shape::new(x.lo, y.lo, x.hi, y.hi) {
        Some(shape) => shape,
        None => unreachable!(),
    }
}

/// The interval, grown at both ends as far as the plane goes.
fn grow(span: &Span, by: u64) -> Span
    requires { by ≤ greatest_distance }
    ensures { result ≡ grown by span.now }
{
    let lo = (span.lo - by as i64).max(-LIMIT);
    let hi = (span.hi + by as i64).min(LIMIT);
    Span { lo, hi }
}
