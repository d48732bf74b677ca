//! Edges between two vertices, and how they lie to vertices and to other edges.

ghost use Rattle.std.specs.Prelude.{◌≡◌, ◌≤◌, ◌↔◌, ◌&&◌, pos, nat_abs, IsTrue};
ghost use Rattle.std.specs.Ordering.{int_eq};
ghost use Rattle.plane_core.specs.Limits.{greatest_turn};
ghost use Rattle.plane_core.specs.Points.{at, run, side, turn_of, is_between, is_on};
ghost use Rattle.plane_core.specs.Places.{place_order};
ghost use Rattle.plane_core.specs.Boxes.{does_reach, do_overlap, do_boxes_meet};

use crate::cross::cross;
use crate::vertex::Vertex;
use std::cmp::Ordering;

/// The segment from `a` to `b`.
#[derive(Clone, Copy, PartialEq, Eq)]
pub struct Edge {
    pub a: Vertex,
    pub b: Vertex,
}

/// Whether a number is between two others, inclusive.
#[inline]
fn is_between(a: i64, b: i64, z: i64) -> bool
    ensures { result ≡ is_between a b 1 z }
{
    a <= z && z <= b || b <= z && z <= a
}

/// Whether the greater of the first two numbers is at least the lesser of the last two.
#[inline]
fn reaches(a: i64, b: i64, c: i64, d: i64) -> bool
    ensures { result ≡ does_reach a b c d }
{
    c <= a || c <= b || d <= a || d <= b
}

/// Whether two intervals, each given by its ends in any order, share a number.
#[inline]
fn overlap(a: i64, b: i64, c: i64, d: i64) -> bool
    ensures { result ≡ do_overlap a b c d }
{
    let is_up = reaches(a, b, c, d);
    let is_down = reaches(c, d, a, b);
    is_up & is_down
}

impl Edge {
    /// Whether the edge is vertical.
    #[inline]
    pub fn is_vertical(&self) -> bool
        ensures { IsTrue result ↔ (run self.now ≡ pos 0) }
    {
        self.a.x == self.b.x
    }

    /// The order of the ends by first coordinate, and then by second.
    #[inline]
    pub fn direction(&self) -> Ordering
        ensures { result ≡ place_order (at self.now.a) (at self.now.b) }
    {
        let across = self.a.x.cmp(&self.b.x);
        let upward = self.a.y.cmp(&self.b.y);
        across.then(upward)
    }

    /// The cross product of the edge and the vector from `a` to a vertex: positive if the vertex is
    /// to the left of the edge, seen from `a` to `b`, and 0 if it is on its line.
    #[inline]
    pub fn side_of(&self, v: &Vertex) -> i128
        // the cross product of the edge and the way to a vertex, and of the directions of two edges
        ensures value { result ≡ side self.now (at v.now) }
        // its size
        ensures bound { nat_abs result ≤ greatest_turn }
    {
        let run = self.a.run_to(&self.b);
        let rise = self.a.rise_to(&self.b);
        let across = self.a.run_to(v);
        let up = self.a.rise_to(v);
        cross(run, up, rise, across)
    }

    /// The cross product of the directions of two edges: 0 if they are parallel.
    #[inline]
    pub fn turn_to(&self, other: &Edge) -> i128
        // as of `Edge::side_of`
        ensures value { result ≡ turn_of self.now other.now }
        ensures bound { nat_abs result ≤ greatest_turn }
    {
        let run = self.a.run_to(&self.b);
        let rise = self.a.rise_to(&self.b);
        let other_run = other.a.run_to(&other.b);
        let other_rise = other.a.rise_to(&other.b);
        cross(run, other_rise, other_run, rise)
    }

    /// Whether a vertex lies on the edge's line.
    #[inline]
    fn is_level(&self, v: &Vertex) -> bool
        ensures { result ≡ int_eq (side self.now (at v.now)) (pos 0) }
    {
        self.side_of(v) == 0
    }

    /// Whether a vertex lies on the edge, including its ends.
    #[inline]
    pub fn is_on_vertex(&self, v: &Vertex) -> bool
        ensures { result ≡ is_on self.now (at v.now) }
    {
        let along_x = is_between(self.a.x, self.b.x, v.x);
        let along_y = is_between(self.a.y, self.b.y, v.y);
        let level = self.is_level(v);
        level & along_x & along_y
    }

    /// Whether a vertex is in the edge's closed bounding box.
    #[inline]
    pub(crate) fn is_around(&self, v: &Vertex) -> bool
        ensures { let e = self.now in
            result ≡ (is_between e.a.x e.b.x 1 v.now.x && is_between e.a.y e.b.y 1 v.now.y) }
    {
        let across = is_between(self.a.x, self.b.x, v.x);
        let up = is_between(self.a.y, self.b.y, v.y);
        across & up
    }

    /// Whether the closed bounding boxes of two edges share a point.
    #[inline]
    pub fn is_box_meeting(&self, other: &Edge) -> bool
        ensures { result ≡ do_boxes_meet self.now other.now }
    {
        let along_x = overlap(self.a.x, self.b.x, other.a.x, other.b.x);
        let along_y = overlap(self.a.y, self.b.y, other.a.y, other.b.y);
        along_x & along_y
    }
}
