//! A point at which edges end or meet, and the order of such points of one edge.

ghost use Rattle.std.specs.Prelude.{◌≡◌, ◌≤◌, IsTrue, IfSome, IfNone, true};
ghost use Rattle.std.specs.Prelude.{◌*ℤ◌, ◌<ℤ◌, ◌≤ℤ◌, int_lt, pos, nat_abs};
ghost use Rattle.std.specs.Ordering.{int_cmp};
ghost use Rattle.plane_core.specs.Limits.{greatest_turn};
ghost use Rattle.plane_core.specs.Crossings.{is_zero_between, is_not_zero, do_cross};

use crate::edge::Edge;
use crate::place::Place;
use crate::vertex::Vertex;
use std::cmp::Ordering;
use wide_core::compare_products;

/// A vertex on an edge, or the intersection of an edge with another that isn't parallel.
#[derive(Clone, Copy)]
pub struct Node {
    pub place: Place,
    ghost narrow: { nat_abs place.w ≤ greatest_turn },
}

/// Whether 0 is between two numbers, inclusive.
#[inline]
fn is_zero_between(a: i128, b: i128) -> bool
    ensures { result ≡ is_zero_between a b }
{
    a <= 0 && 0 <= b || b <= 0 && 0 <= a
}

/// Whether a number isn't 0.
#[inline]
fn is_some(a: i128) -> bool
    ensures { result ≡ is_not_zero a }
{
    a < 0 || 0 < a
}

/// Whether a number is negative.
#[inline]
fn is_low(a: i128) -> bool
    ensures { result ≡ int_lt a (pos 0) }
{
    a < 0
}

/// Whether two edges aren't parallel and share a point: the ends of each lie on different sides of
/// the other, or on its line.
fn do_cross(e: &Edge, f: &Edge) -> bool
    ensures { result ≡ do_cross e.now f.now }
{
    let turn = e.turn_to(f);
    let first = f.side_of(&e.a);
    let last = f.side_of(&e.b);
    let other_first = e.side_of(&f.a);
    let other_last = e.side_of(&f.b);
    let is_turning = is_some(turn);
    let is_crossed = is_zero_between(first, last);
    let is_crossing = is_zero_between(other_first, other_last);
    is_turning & is_crossed & is_crossing
}

/// Compares `x / w` with `z / v`. The denominators are positive, and equal for two vertices.
fn compare_fractions(x: i128, w: i128, z: i128, v: i128) -> Ordering
    requires { pos 0 <ℤ w }
    ensures { result ≡ int_cmp (x *ℤ v) (z *ℤ w) }
{
    if w == v {
        x.cmp(&z)
    } else {
        compare_products(x, v, z, w)
    }
}

impl Node {
    ghost use Rattle.plane_core.specs.Points.{at, mix, is_on, IsSamePlace};
    ghost use Rattle.plane_core.specs.Places.{point_of, node_point, place_order};
    ghost use Rattle.plane_core.specs.Meetings.{IsMeeting, HaveNoMeeting};

    /// A vertex on an edge.
    pub fn on(e: &Edge, v: &Vertex) -> Node
        requires { is_on e.now (at v.now) ≡ true }
        // a place of the edge
        ensures edge { result.place.edge ≡ e.now }
        // that of the vertex
        ensures same { IsSamePlace (node_point result) (at v.now) }
    {
        if e.is_vertical() {
            Node::reduced(e, e.a.rise_to(v).abs(), e.a.rise_to(&e.b).abs())
        } else {
            Node::reduced(e, e.a.run_to(v).abs(), e.a.run_to(&e.b).abs())
        }
    }

    /// The same as `along`, where an end of the edge has the least denominator.
    #[inline]
    fn reduced(e: &Edge, n: i128, w: i128) -> Node
        requires not_before { pos 0 ≤ℤ n }
        requires not_beyond { n ≤ℤ w }
        requires narrow { nat_abs w ≤ greatest_turn }
        ensures edge { result.place.edge ≡ e.now }
        ensures fraction { result.place.n *ℤ w ≡ n *ℤ result.place.w }
    {
        if n == 0 {
            Node::along(e, 0, 1)
        } else if n == w {
            Node::along(e, 1, 1)
        } else {
            Node::along(e, n, w)
        }
    }

    /// The point that two edges share, if they aren't parallel and share one.
    pub fn meeting(e: &Edge, f: &Edge) -> Option<Node>
        // the point that two edges share which aren't parallel
        ensures some { IfSome result (λ n. IsMeeting e.now f.now (node_point n)) }
        // a place of the first edge
        ensures edge { IfSome result (λ n. n.place.edge ≡ e.now) }
        // they share none, or are parallel
        ensures none { IfNone result (HaveNoMeeting e.now f.now) }
    {
        if do_cross(e, f) {
            Some(Node::crossing(e, f))
        } else {
            None
        }
    }

    /// The intersection of two edges that cross.
    fn crossing(e: &Edge, f: &Edge) -> Node
        requires { IsTrue (do_cross e.now f.now) }
        ensures meeting { IsMeeting e.now f.now (node_point result) }
        ensures edge { result.place.edge ≡ e.now }
    {
        let side = f.side_of(&e.a);
        let turn = e.turn_to(f);
        if is_low(turn) {
            Node::along(e, -side, -turn)
        } else {
            Node::along(e, side, turn)
        }
    }

    /// The point of an edge at the fraction `n / w` of its length from `a`.
    #[inline]
    fn along(e: &Edge, n: i128, w: i128) -> Node
        requires not_before { pos 0 ≤ℤ n }
        requires not_beyond { n ≤ℤ w }
        requires positive { pos 0 <ℤ w }
        requires narrow { nat_abs w ≤ greatest_turn }
        ensures edge { result.place.edge ≡ e.now }
        ensures n { result.place.n ≡ n }
        ensures w { result.place.w ≡ w }
    {
        Node {
            place: Place { edge: *e, n, w },
        }
    }

    /// The mediant of two nodes of one edge, by the sums of their numerators and of their
    /// denominators: a point strictly between them if they differ.
    pub fn middle(&self, other: &Node) -> Place
        requires { self.now.place.edge ≡ other.now.place.edge }
        ensures { point_of result ≡ mix 1 (node_point self.now) 1 (node_point other.now) }
    {
        let (k, l) = (&self.place, &other.place);
        Place {
            edge: k.edge,
            n: k.n + l.n,
            w: k.w + l.w,
        }
    }

    /// The order by first coordinate, and then by second, of two nodes of one edge.
    pub fn compare(&self, other: &Node) -> Ordering
        requires { self.now.place.edge ≡ other.now.place.edge }
        ensures { result ≡ place_order (node_point self.now) (node_point other.now) }
    {
        match self.place.edge.direction() {
            Ordering::Less => self.compare_along(other),
            Ordering::Equal => Ordering::Equal,
            Ordering::Greater => other.compare_along(self),
        }
    }

    /// The order of the fractions of two nodes. For nodes of one edge it is that from `a` to `b`.
    #[inline]
    pub fn compare_along(&self, other: &Node) -> Ordering
        ensures { let p = self.now.place in
            let q = other.now.place in
            result ≡ int_cmp (p.n *ℤ q.w) (q.n *ℤ p.w) }
    {
        compare_fractions(self.place.n, self.place.w, other.place.n, other.place.w)
    }
}
