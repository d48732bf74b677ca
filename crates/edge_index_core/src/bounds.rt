//! The bounding box of an edge.

ghost use Rattle.edge_index_core.specs.Bounds.{IsBoxOf};

use geom_core::Shape;
use plane_core::Edge;

/// The smallest shape that contains an edge.
pub fn bounds_of(e: &Edge) -> Shape
    ensures { IsBoxOf e.now result }
{
    let (a, b) = (&e.a, &e.b);
    match Shape::new(a.x.min(b.x), a.y.min(b.y), a.x.max(b.x), a.y.max(b.y)) {
        Some(shape) => shape,
        None => unreachable!(),
    }
}
