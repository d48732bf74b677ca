//! The bounding box of vertices.

ghost use Rattle.std.specs.Prelude.{◌<◌, All, length};
ghost use Rattle.geom_core.specs.declared.shape.Shape.{Shape};
ghost use Rattle.geom_core.specs.Cells.{IsIn};
ghost use Rattle.geom_core.specs.Shapes.{HasCorners};
ghost use Rattle.plane_core.specs.Vertices.{HoldsVertex};

use crate::vertex::Vertex;
use geom_core::Shape;

/// A vertex as a shape.
fn shape_at(v: &Vertex) -> Shape
    ensures { HasCorners v.now.x v.now.y v.now.x v.now.y result }
{
    match Shape::new(v.x, v.y, v.x, v.y) {
        Some(shape) => shape,
        None => unreachable!(),
    }
}

/// The smallest shape that contains the vertices.
pub(crate) fn envelope_of(vertices: &[Vertex]) -> Shape
    requires { 0 < length vertices.now }
    ensures holds { All (HoldsVertex result) vertices.now }
    ensures least { (s : Shape) → All (HoldsVertex s) vertices.now → IsIn result s }
{
    let mut envelope = shape_at(&vertices[0]);
    for v in vertices {
        let shape = shape_at(v);
        envelope = envelope.cover(&shape);
    }
    envelope
}
