//! Points outside the box of a geometry, which are in its exterior.

ghost use Rattle.std.specs.Prelude.{◌≡◌, IsTrue};
ghost use Rattle.edge_index_core.specs.Beyond.{is_beyond};
ghost use Rattle.plane_core.specs.Places.{point_of};
ghost use Rattle.arrangement_core.specs.Seen.{IsOutside};

use edge_index_core::is_beyond;
use geom_core::Shape;
use plane_core::{Edge, Place, Vertex};

/// Whether a vertex lies on one side of a box.
#[inline]
pub(crate) fn is_outside(v: &Vertex, bounds: &Shape) -> bool
    ensures { result ≡ is_beyond bounds.now (record { a = v.now; b = v.now }) }
{
    is_beyond(&Edge { a: *v, b: *v }, bounds)
}

/// Whether a point is an end of an edge that lies on one side of a box.
pub(crate) fn is_end_outside(e: &Edge, p: &Place, bounds: &Shape) -> bool
    ensures { IsTrue result → IsOutside bounds.now (point_of p.now) }
{
    if p.is_at(&e.a) {
        is_outside(&e.a, bounds)
    } else if p.is_at(&e.b) {
        is_outside(&e.b, bounds)
    } else {
        false
    }
}
