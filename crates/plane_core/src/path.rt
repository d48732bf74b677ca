//! The edges and the ends of a path.

ghost use Rattle.std.specs.Prelude.{◌≡◌, ◌<◌, ◌≤◌, length};
ghost use Rattle.plane_core.specs.Figures.{last_or};
ghost use Rattle.plane_core.specs.Paths.{IsEdgeAt};

use crate::edge::Edge;
use crate::vertex::Vertex;

/// The edge to the vertex at this index from the one before it.
pub(crate) fn edge_at(path: &[Vertex], i: usize) -> Edge
    requires after { 1 ≤ i }
    requires within { i < length path.now }
    ensures { IsEdgeAt path.now i result }
{
    let a = path[i - 1];
    let b = path[i];
    Edge { a, b }
}

/// The last of the vertices, or `first` if there are none.
pub(crate) fn last_or(first: Vertex, rest: &[Vertex]) -> Vertex
    ensures { result ≡ last_or first rest.now }
{
    let mut last = first;
    for v in rest {
        last = *v;
    }
    last
}
