//! The nodes of an edge in order: its ends, and the points where edges or single points meet it.

ghost use Rattle.std.specs.Prelude.{◌≡◌, pos, map, All, OnOk, IsTrue};
ghost use Rattle.std.specs.Ordering.{int_eq};
ghost use Rattle.std.specs.List.Sorted.{IsPermutation};
ghost use Rattle.plane_core.specs.Points.{at, side};
ghost use Rattle.plane_core.specs.Figures.{HasLength};
ghost use Rattle.plane_core.specs.Places.{node_point};
ghost use Rattle.noding_core.specs.Nodes.{Ascend, AreNodesOf};
ghost use Rattle.noding_core.specs.Gathered.{Extends, IsOn, HasVertex, HasMeeting, HasMeetings};
ghost use Rattle.noding_core.specs.Gathered.{HasEnds, is_same, is_end, IsJoint, is_aside};

use plane_core::{Edge, Node, Vertex};
use std::alloc::AllocError;

/// Adds a vertex if it lies on the edge.
fn push_vertex(nodes: &mut Vec<Node>, e: &Edge, v: &Vertex) -> Result<(), AllocError>
    requires { All (IsOn e.now) nodes.old.items }
    ensures kept { OnOk result (Extends nodes.old.items nodes.new.items) }
    ensures on { OnOk result (All (IsOn e.now) nodes.new.items) }
    ensures here { OnOk result (HasVertex e.now nodes.new.items v.now) }
{
    if e.is_on_vertex(v) {
        let node = Node::on(e, v);
        nodes.push(node)?;
    }
    Ok(())
}

/// Adds the point where another edge meets the edge, unless they are parallel.
fn push_meeting(nodes: &mut Vec<Node>, e: &Edge, f: &Edge) -> Result<(), AllocError>
    requires { All (IsOn e.now) nodes.old.items }
    ensures kept { OnOk result (Extends nodes.old.items nodes.new.items) }
    ensures on { OnOk result (All (IsOn e.now) nodes.new.items) }
    ensures here { OnOk result (HasMeeting e.now nodes.new.items f.now) }
{
    if let Some(node) = Node::meeting(e, f) {
        nodes.push(node)?;
    }
    Ok(())
}

/// Whether two vertices are one point.
#[inline]
fn is_same(u: &Vertex, v: &Vertex) -> bool
    ensures { result ≡ is_same u.now v.now }
{
    u.x == v.x && u.y == v.y
}

/// Whether a vertex is an end of an edge.
#[inline]
fn is_end(e: &Edge, v: &Vertex) -> bool
    ensures { result ≡ is_end e.now v.now }
{
    is_same(&e.a, v) || is_same(&e.b, v)
}

/// Whether two edges that aren't parallel have an end in common, and so no other point.
#[inline]
fn is_joint(e: &Edge, f: &Edge) -> bool
    ensures { IsTrue result → IsJoint e.now f.now }
{
    let joined = is_end(e, &f.a) || is_end(e, &f.b);
    joined && e.turn_to(f) != 0
}

/// Whether both ends of another edge are ends of the edge, so that it is the same one from either
/// end.
#[inline]
fn is_same_edge(e: &Edge, f: &Edge) -> bool
    ensures first { IsTrue result → IsTrue (is_end e.now f.now.a) }
    ensures last { IsTrue result → IsTrue (is_end e.now f.now.b) }
{
    is_end(e, &f.a) && is_end(e, &f.b)
}

/// Whether another edge lies strictly on one side of the edge's line, so that they share no point.
#[inline]
pub fn is_aside(e: &Edge, f: &Edge) -> bool
    // both ends of the second edge lie strictly to the left of the line of the first, or both
    // strictly to the right
    ensures { result ≡ is_aside e.now f.now }
{
    let first = e.side_of(&f.a);
    let last = e.side_of(&f.b);
    first < 0 && last < 0 || 0 < first && 0 < last
}

/// Whether a vertex is on the edge's line.
#[inline]
fn is_level(e: &Edge, v: &Vertex) -> bool
    ensures { result ≡ int_eq (side e.now (at v.now)) (pos 0) }
{
    e.side_of(v) == 0
}

/// Adds a vertex where it lies on the edge and is none of its ends, which are among the points. One
/// product tells that most vertices aren't on the edge's line.
#[inline]
fn push_inner(nodes: &mut Vec<Node>, e: &Edge, v: &Vertex) -> Result<(), AllocError>
    requires on { All (IsOn e.now) nodes.old.items }
    requires ends { HasEnds e.now nodes.old.items }
    ensures kept { OnOk result (Extends nodes.old.items nodes.new.items) }
    ensures on { OnOk result (All (IsOn e.now) nodes.new.items) }
    ensures here { OnOk result (HasVertex e.now nodes.new.items v.now) }
{
    if !is_level(e, v) {
        return Ok(());
    }
    if is_end(e, v) {
        return Ok(());
    }
    push_vertex(nodes, e, v)
}

/// Adds the ends of another edge that lie on the edge, and the point where the two meet, except
/// for the ends of the edge, which are among the points.
fn push_meetings(nodes: &mut Vec<Node>, e: &Edge, f: &Edge) -> Result<(), AllocError>
    requires on { All (IsOn e.now) nodes.old.items }
    requires ends { HasEnds e.now nodes.old.items }
    ensures kept { OnOk result (Extends nodes.old.items nodes.new.items) }
    ensures on { OnOk result (All (IsOn e.now) nodes.new.items) }
    ensures meetings { OnOk result (HasMeetings e.now nodes.new.items f.now) }
{
    if is_same_edge(e, f) {
        return Ok(());
    }
    if is_joint(e, f) {
        return Ok(());
    }
    if is_aside(e, f) {
        return Ok(());
    }
    push_inner(nodes, e, &f.a)?;
    push_inner(nodes, e, &f.b)?;
    push_meeting(nodes, e, f)?;
    Ok(())
}

/// Adds the ends of other edges that lie on the edge, and the points where those edges meet it.
fn push_each_meetings(nodes: &mut Vec<Node>, e: &Edge, edges: &[Edge]) -> Result<(), AllocError>
    requires on { All (IsOn e.now) nodes.old.items }
    requires ends { HasEnds e.now nodes.old.items }
    ensures kept { OnOk result (Extends nodes.old.items nodes.new.items) }
    ensures on { OnOk result (All (IsOn e.now) nodes.new.items) }
    ensures meetings { OnOk result (All (HasMeetings e.now nodes.new.items) edges.now) }
{
    for f in edges {
        push_meetings(nodes, e, f)?;
    }
    Ok(())
}

/// Adds the vertices that lie on the edge.
fn push_vertices(nodes: &mut Vec<Node>, e: &Edge, vertices: &[Vertex]) -> Result<(), AllocError>
    requires { All (IsOn e.now) nodes.old.items }
    ensures kept { OnOk result (Extends nodes.old.items nodes.new.items) }
    ensures on { OnOk result (All (IsOn e.now) nodes.new.items) }
    ensures here { OnOk result (All (HasVertex e.now nodes.new.items) vertices.now) }
{
    for v in vertices {
        push_vertex(nodes, e, v)?;
    }
    Ok(())
}

/// Sorts points of an edge by (x, y), which is the order along the edge or against it.
fn sort_nodes(nodes: &mut Vec<Node>, e: &Edge) -> Result<(), AllocError>
    requires { All (IsOn e.now) nodes.old.items }
    ensures permutation { IsPermutation nodes.old.items nodes.new.items }
    ensures sorted { OnOk result (Ascend (map node_point nodes.new.items)) }
{
    if e.direction().is_gt() {
        nodes.sort_by(|a, b| b.compare_along(a))?;
        return Ok(());
    }
    nodes.sort_by(|a, b| a.compare_along(b))?;
    Ok(())
}

/// Replaces points by the nodes of an edge among some edges and single points, from the least by
/// (x, y) to the greatest.
///
/// Nodes at the same point may occur more than once.
pub fn gather_nodes(
    nodes: &mut Vec<Node>,
    e: &Edge,
    near: &[Edge],
    points: &[Vertex],
) -> Result<(), AllocError>
    requires { HasLength e.now }
    // the points of the edge at which nodes lie, in order
    ensures nodes { let gathered = map node_point nodes.new.items in
        OnOk result (AreNodesOf near.now points.now e.now gathered) }
    // all are places of the edge
    ensures on { OnOk result (All (IsOn e.now) nodes.new.items) }
{
    nodes.clear();
    push_vertex(nodes, e, &e.a)?;
    push_vertex(nodes, e, &e.b)?;
    push_each_meetings(nodes, e, near)?;
    push_vertices(nodes, e, points)?;
    sort_nodes(nodes, e)?;
    Ok(())
}
