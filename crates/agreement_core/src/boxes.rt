//! Geometries that are a point, a segment along an axis or a rectangle, and their matrix.

ghost use Rattle.std.specs.Prelude.{◌≡◌, IfSome, IsTrue, ◌∷◌, []};
ghost use Rattle.geom_core.specs.Shapes.{dim_of};
ghost use Rattle.plane_core.specs.Figures.{Points, Lines, Areas};
ghost use Rattle.plane_core.specs.PlaneMatrices.{IsPlaneMatrix};
ghost use Rattle.agreement_core.specs.Agreement.{HasPartsOf};
ghost use Rattle.agreement_core.specs.BoxFigures.{AreOpposite, GoesRound};
ghost use Rattle.agreement_core.specs.BoxFigures.{AreLevelFirst, AreUprightFirst};

use geom_core::Shape;
use plane_core::{Geometry, Vertex};
use relation_core::{Matrix, relate};

/// The matrix of two geometries that are boxes, by their shapes, which takes constant time and no
/// memory; `None` if one of them is no box.
#[tactic(auto, using(crate::proofs::AgreementLemmas::agreement))]
pub fn relate_boxes(first: &Geometry, second: &Geometry) -> Option<Matrix>
    ensures { IfSome result (IsPlaneMatrix first.now second.now) }
{
    let (a, b) = (as_box(first)?, as_box(second)?);
    Some(relate(&a, &b))
}

/// The shape with the same interior, boundary and exterior as a geometry, if the geometry is a
/// point, a segment along an axis, or the ring of a rectangle through its four corners alone.
pub fn as_box(geometry: &Geometry) -> Option<Shape>
    // a shape has the same interior, boundary and exterior as the geometry, point by point. That it
    // finds each box is only tested
    ensures { IfSome result (λ s. HasPartsOf s geometry.now) }
{
    if geometry.path_count() != 1 {
        return None;
    }
    let path = geometry.path(0);
    let dim = geometry.dim();
    if dim == 0 {
        as_point(path)
    } else if dim == 1 {
        as_segment(path)
    } else {
        as_rectangle(path)
    }
}

/// The shape of a list of points, if it is a single point.
fn as_point(points: &[Vertex]) -> Option<Shape>
    ensures { IfSome result (λ s. HasPartsOf s (Points points.now)) }
{
    match points {
        [a] => between(a, a, 0),
        _ => None,
    }
}

/// The shape of a polyline, if it is a single segment along an axis.
fn as_segment(path: &[Vertex]) -> Option<Shape>
    ensures { IfSome result (λ s. HasPartsOf s (Lines (path.now ∷ []))) }
{
    match path {
        [a, b] => between(a, b, 1),
        _ => None,
    }
}

/// The shape of a ring, if it goes through the four corners of a rectangle and no other vertex.
fn as_rectangle(ring: &[Vertex]) -> Option<Shape>
    ensures { IfSome result (λ s. HasPartsOf s (Areas (ring.now ∷ []))) }
{
    match ring {
        [a, b, c, d, e] if goes_round(a, b, c, d, e) => between(a, c, 2),
        _ => None,
    }
}

/// Whether a ring through these vertices has sides along the two axes in turn.
fn goes_round(a: &Vertex, b: &Vertex, c: &Vertex, d: &Vertex, e: &Vertex) -> bool
    ensures { IsTrue result → GoesRound a.now b.now c.now d.now e.now }
{
    let is_closed = a.x == e.x && a.y == e.y;
    is_closed && (is_level_first(a, b, c, d) || is_upright_first(a, b, c, d))
}

/// Whether the first and the third side lie along the first axis, and the others along the second.
fn is_level_first(a: &Vertex, b: &Vertex, c: &Vertex, d: &Vertex) -> bool
    ensures { IsTrue result → AreLevelFirst a.now b.now c.now d.now }
{
    a.y == b.y && b.x == c.x && c.y == d.y && d.x == a.x
}

/// Whether the first and the third side lie along the second axis, and the others along the first.
fn is_upright_first(a: &Vertex, b: &Vertex, c: &Vertex, d: &Vertex) -> bool
    ensures { IsTrue result → AreUprightFirst a.now b.now c.now d.now }
{
    a.x == b.x && b.y == c.y && c.x == d.x && d.y == a.y
}

/// The shape of which these are two opposite corners, if it has this dimension.
fn between(a: &Vertex, b: &Vertex, dim: u8) -> Option<Shape>
    ensures corners { IfSome result (λ s. AreOpposite s a.now b.now) }
    ensures dim { IfSome result (λ s. dim_of s ≡ dim) }
{
    let shape = Shape::new(a.x.min(b.x), a.y.min(b.y), a.x.max(b.x), a.y.max(b.y))?;
    if shape.dim() == dim {
        Some(shape)
    } else {
        None
    }
}
