//! Edges that two geometries share. Once the matrix has the edges of the one, those of the other
//! with the same ends add nothing.

ghost use Rattle.std.specs.Prelude.{◌≡◌, IsTrue};
ghost use Rattle.arrangement_core.specs.Shared.{is_same_vertex, is_same, is_shared};

use crate::pair::Pair;
use plane_core::{Edge, Vertex};

#[inline]
pub(crate) fn is_same_vertex(u: &Vertex, v: &Vertex) -> bool
    ensures { result ≡ is_same_vertex u.now v.now }
{
    u.x == v.x && u.y == v.y
}

/// Whether two edges have the same ends, in the same order or the other.
#[inline]
fn is_same(e: &Edge, f: &Edge) -> bool
    ensures { result ≡ is_same e.now f.now }
{
    let forth = is_same_vertex(&e.a, &f.a) && is_same_vertex(&e.b, &f.b);
    let back = is_same_vertex(&e.a, &f.b) && is_same_vertex(&e.b, &f.a);
    forth | back
}

/// Whether an edge is one of some edges, in either direction.
fn is_shared(e: &Edge, near: &[Edge]) -> bool
    ensures { result ≡ is_shared e.now near.now }
{
    near.iter().any(|f| is_same(e, f))
}

/// Whether an edge of the first geometry adds nothing, since it is one of the edges of the second
/// near it, which the matrix has.
pub(crate) fn adds_none_shared(pair: &Pair, e: &Edge, near: &[Edge]) -> bool
    ensures marked { IsTrue result → IsTrue pair.now.has_second }
    ensures shared { IsTrue result → IsTrue (is_shared e.now near.now) }
{
    if pair.has_second {
        is_shared(e, near)
    } else {
        false
    }
}
