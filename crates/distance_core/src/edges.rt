//! The distances of vertices and edges.

ghost use Rattle.std.specs.Prelude.{◌≡◌, ◌⊎◌, ◌≤◌, ◌<ℤ◌, ◌≤ℤ◌, pos, nat_abs, ◌↔◌, IsTrue};
ghost use Rattle.plane_core.specs.Limits.{greatest_turn};
ghost use Rattle.plane_core.specs.Points.{at};
ghost use Rattle.distance_core.specs.Units.{units_of};
ghost use Rattle.distance_core.specs.Distances.{AreWithin};
ghost use Rattle.distance_core.specs.Frames.{along, reach};
ghost use Rattle.distance_core.specs.Fractions.{IsSquareOf, IsAtVertex, IsOnEdge, IsNoMore};

use crate::Distance;
use crate::fraction::SquaredFraction;
use crate::vector::Vector;
use plane_core::{Edge, Node, Vertex};
use wide_core::Wide;

/// The dot product of an edge and the vector from its first end to a vertex.
fn along(e: &Edge, v: &Vertex) -> i128
    ensures value { result ≡ along e.now (at v.now) }
    ensures bound { nat_abs result ≤ greatest_turn }
{
    Vector::between(&e.a, &e.b).dot(Vector::between(&e.a, v))
}

/// The squared distance of two vertices.
pub fn vertex_to_vertex(v: &Vertex, w: &Vertex) -> SquaredFraction
    ensures { IsSquareOf result (IsAtVertex v.now) (IsAtVertex w.now) }
{
    SquaredFraction::whole(Vector::between(v, w).square())
}

/// The squared distance of a vertex and an edge: that of the vertex and the nearer end, or, if the
/// foot of the perpendicular is between the ends, that of the vertex and the foot.
pub fn vertex_to_edge(v: &Vertex, e: &Edge) -> SquaredFraction
    ensures { IsSquareOf result (IsAtVertex v.now) (IsOnEdge e.now) }
{
    let length = Vector::between(&e.a, &e.b).square();
    let along = along(e, v);
    if along <= 0 {
        return vertex_to_vertex(v, &e.a);
    }
    if along.unsigned_abs() >= length {
        return vertex_to_vertex(v, &e.b);
    }
    vertex_to_foot(v, e, length)
}

/// The squared distance of a vertex and the foot of the perpendicular on an edge: the square of the
/// cross product over that of the length.
fn vertex_to_foot(v: &Vertex, e: &Edge, length: u128) -> SquaredFraction
    requires length { pos length ≡ reach e.now }
    requires after { pos 0 <ℤ along e.now (at v.now) }
    requires before { along e.now (at v.now) ≤ℤ reach e.now }
    ensures { IsSquareOf result (IsAtVertex v.now) (IsOnEdge e.now) }
{
    let side = e.side_of(v).unsigned_abs();
    SquaredFraction {
        numerator: Wide::product(side, side),
        denominator: length,
    }
}

/// The lesser of two squares.
pub fn lesser(first: SquaredFraction, second: SquaredFraction) -> SquaredFraction
    // one of the two fractions
    ensures one { (result ≡ first) ⊎ (result ≡ second) }
    // no more than either
    ensures first { IsNoMore result first }
    ensures second { IsNoMore result second }
{
    if first.compare(&second).is_le() {
        first
    } else {
        second
    }
}

/// The squared distance of two edges: 0 if they share a point, else that of the nearest end and the
/// other edge.
pub fn edge_to_edge(e: &Edge, f: &Edge) -> SquaredFraction
    ensures { IsSquareOf result (IsOnEdge e.now) (IsOnEdge f.now) }
{
    match Node::meeting(e, f) {
        Some(_) => SquaredFraction::whole(0),
        None => {
            let first = lesser(vertex_to_edge(&e.a, f), vertex_to_edge(&e.b, f));
            let second = lesser(vertex_to_edge(&f.a, e), vertex_to_edge(&f.b, e));
            lesser(first, second)
        }
    }
}

/// Whether two edges are at most a distance apart.
pub fn are_edges_within(e: &Edge, f: &Edge, distance: Distance) -> bool
    ensures { IsTrue result
        ↔ AreWithin (units_of distance) (IsOnEdge e.now) (IsOnEdge f.now) }
{
    edge_to_edge(e, f).is_within(distance)
}
