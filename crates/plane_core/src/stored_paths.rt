//! The paths of a stored geometry, by their indexes.

ghost use Rattle.std.specs.Prelude.{◌≡◌, ◌<◌, List, length};
ghost use Rattle.std.specs.List.{slice_index_or};
ghost use Rattle.plane_core.specs.declared.vertex.Vertex.{Vertex};
ghost use Rattle.plane_core.specs.Stored.{paths_of, stored_figure, AreCuts, AreCutsFor};
ghost use Rattle.plane_core.specs.Vertices.{paths_in, start_of};

use crate::outline::Kind;
use crate::vertex::Vertex;

/// The start of the path at this index.
fn start_at(ends: &[u32], i: usize) -> usize
    requires { i < length ends.now }
    ensures { result ≡ start_of ends.now i }
{
    if i == 0 { 0 } else { ends[i - 1] as usize }
}

/// The path at this index, between two ends.
fn part_at<'a>(ends: &[u32], vertices: &'a [Vertex], i: usize) -> &'a [Vertex]
    requires cuts { AreCuts 0 ends.now (length vertices.now) }
    requires within { i < length ends.now }
    ensures { (none : List Vertex)
        → result.now ≡ slice_index_or (paths_of 0 ends.now vertices.now) i none }
{
    let start = start_at(ends, i);
    let end = ends[i] as usize;
    &vertices[start..end]
}

/// The number of paths of a geometry of a kind.
pub(crate) fn path_count(kind: Kind, ends: &[u32], vertices: &[Vertex]) -> usize
    ensures { result ≡ length (paths_in (stored_figure kind ends.now vertices.now)) }
{
    match kind {
        Kind::Points => 1,
        Kind::Lines => ends.len(),
        Kind::Areas => ends.len(),
    }
}

/// The path at this index of a geometry of a kind.
pub(crate) fn path_at<'a>(
    kind: Kind,
    ends: &[u32],
    vertices: &'a [Vertex],
    i: usize,
) -> &'a [Vertex]
    requires cuts { AreCutsFor kind ends.now (length vertices.now) }
    requires within { i < length (paths_in (stored_figure kind ends.now vertices.now)) }
    ensures { (none : List Vertex)
        → result.now ≡ slice_index_or (paths_in (stored_figure kind ends.now vertices.now)) i none }
{
    match kind {
        Kind::Points => vertices,
        Kind::Lines => part_at(ends, vertices, i),
        Kind::Areas => part_at(ends, vertices, i),
    }
}
