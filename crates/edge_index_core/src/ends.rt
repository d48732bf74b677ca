//! Vertices in order, by which those at a point or on an edge are found.

ghost use Rattle.std.specs.Prelude.{◌≡◌, ◌≤◌, IsSorted, IfOk, length};
ghost use Rattle.std.specs.List.{list_any};
ghost use Rattle.plane_core.specs.Points.{at, is_on};
ghost use Rattle.plane_core.specs.Places.{point_of};
ghost use Rattle.plane_core.specs.Outlines.{count_at};
ghost use Rattle.edge_index_core.specs.Ends.{vertex_order, AreInOrder, IsParted, is_before};
ghost use Rattle.edge_index_core.specs.Ends.{is_up_to, is_left_of, is_left_to, AreAlong};

use plane_core::{Edge, Place, Vertex};
use std::alloc::{AllocError, Global};
use std::cmp::Ordering;

/// The order by x, and then by y.
#[inline]
fn compare(u: &Vertex, v: &Vertex) -> Ordering
    ensures { result ≡ vertex_order u.now v.now }
{
    let across = u.x.cmp(&v.x);
    let upward = u.y.cmp(&v.y);
    across.then(upward)
}

/// Vertices in this order.
pub(crate) fn in_order(alloc: Global, vertices: &[Vertex]) -> Result<Vec<Vertex>, AllocError>
    ensures { IfOk result (λ v. AreInOrder vertices.now v.items) }
{
    let mut ordered = Vec::from_slice(alloc, vertices)?;
    ordered.sort_unstable_by(|u, v| compare(u, v));
    Ok(ordered)
}

/// The number of vertices before a point.
fn count_before(ordered: &[Vertex], p: &Place) -> usize
    requires { IsSorted vertex_order ordered.now }
    ensures bound { result ≤ length ordered.now }
    ensures parted { IsParted (is_before (point_of p.now)) ordered.now result }
{
    ordered.partition_point(|v| p.compare(v).is_gt())
}

/// The number of vertices before a point and at it.
fn count_up_to(ordered: &[Vertex], p: &Place) -> usize
    requires { IsSorted vertex_order ordered.now }
    ensures bound { result ≤ length ordered.now }
    ensures parted { IsParted (is_up_to (point_of p.now)) ordered.now result }
{
    ordered.partition_point(|v| p.compare(v).is_ge())
}

/// The number of vertices that equal a point.
pub(crate) fn count_at(ordered: &[Vertex], p: &Place) -> usize
    requires { IsSorted vertex_order ordered.now }
    ensures { result ≡ count_at ordered.now (point_of p.now) }
{
    let before = count_before(ordered, p);
    let up_to = count_up_to(ordered, p);
    up_to - before
}

/// Whether a vertex is left of both ends of an edge.
#[inline]
fn is_left_of(v: &Vertex, e: &Edge) -> bool
    ensures { result ≡ is_left_of e.now v.now }
{
    v.x < e.a.x && v.x < e.b.x
}

/// Whether a vertex isn't right of both ends of an edge.
#[inline]
fn is_left_to(v: &Vertex, e: &Edge) -> bool
    ensures { result ≡ is_left_to e.now v.now }
{
    v.x <= e.a.x || v.x <= e.b.x
}

/// The number of vertices left of an edge.
fn count_left_of(ordered: &[Vertex], e: &Edge) -> usize
    requires { IsSorted vertex_order ordered.now }
    ensures bound { result ≤ length ordered.now }
    ensures parted { IsParted (is_left_of e.now) ordered.now result }
{
    ordered.partition_point(|v| is_left_of(v, e))
}

/// The number of vertices left of an edge, and above, below and on it.
fn count_left_to(ordered: &[Vertex], e: &Edge) -> usize
    requires { IsSorted vertex_order ordered.now }
    ensures bound { result ≤ length ordered.now }
    ensures parted { IsParted (is_left_to e.now) ordered.now result }
{
    ordered.partition_point(|v| is_left_to(v, e))
}

/// The vertices that are neither left nor right of an edge.
pub(crate) fn between<'a>(ordered: &'a [Vertex], e: &Edge) -> &'a [Vertex]
    requires { IsSorted vertex_order ordered.now }
    ensures { AreAlong e.now ordered.now result.now }
{
    let start = count_left_of(ordered, e);
    let end = count_left_to(ordered, e);
    &ordered[start..end]
}

/// Whether one of some vertices is on an edge.
pub(crate) fn is_any_on(vertices: &[Vertex], e: &Edge) -> bool
    ensures { result ≡ list_any (λ v. is_on e.now (at v)) vertices.now }
{
    vertices.iter().any(|v| e.is_on_vertex(v))
}

/// The same of vertices in order. Those left or right of the edge aren't looked at.
pub(crate) fn is_any_between(ordered: &[Vertex], e: &Edge) -> bool
    requires { IsSorted vertex_order ordered.now }
    ensures { result ≡ list_any (λ v. is_on e.now (at v)) ordered.now }
{
    is_any_on(between(ordered, e), e)
}
