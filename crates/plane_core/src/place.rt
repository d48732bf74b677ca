//! A point of an edge, by its place on the edge, and the side of another edge on which it lies.

ghost use Rattle.std.specs.Prelude.{◌≡◌, ◌≤◌, pos, nat_abs, ◌<ℤ◌, ◌≤ℤ◌};
ghost use Rattle.plane_core.specs.Limits.{greatest_width};

use crate::edge::Edge;
use crate::vertex::Vertex;
use std::cmp::Ordering;
use wide_core::compare_products;

/// The point of an edge at the fraction `n / w` of its length from `a`.
#[derive(Clone, Copy)]
pub struct Place {
    pub edge: Edge,
    pub n: i128,
    pub w: i128,
    ghost positive: { pos 0 <ℤ w },
    ghost not_before: { pos 0 ≤ℤ n },
    ghost not_beyond: { n ≤ℤ w },
    ghost w_in_range: { nat_abs w ≤ greatest_width },
}

/// How an edge lies to a point.
#[derive(Clone, Copy, PartialEq, Eq)]
pub struct Lie {
    /// The point is on the edge.
    pub is_on: bool,
    /// The edge passes strictly below the point, excluding the edge's right end.
    pub is_below: bool,
    /// The same, or the edge passes through the point.
    pub is_at_or_below: bool,
}

impl Place {
    ghost use Rattle.std.specs.Prelude.{◌*ℤ◌};
    ghost use Rattle.std.specs.Ordering.{int_cmp};
    ghost use Rattle.plane_core.specs.Points.{at, side, is_at};
    ghost use Rattle.plane_core.specs.Places.{point_of, place_order};

    /// A vertex, as an edge without length.
    #[inline]
    pub fn at(v: &Vertex) -> Place
        ensures { point_of result ≡ at v.now }
    {
        Place {
            edge: Edge { a: *v, b: *v },
            n: 0,
            w: 1,
        }
    }

    /// Whether the point equals a vertex. No product is computed for a vertex that isn't in the box
    /// of the point's edge.
    pub fn is_at(&self, v: &Vertex) -> bool
        ensures { result ≡ is_at v.now (point_of self.now) }
    {
        if !self.edge.is_around(v) {
            return false;
        }
        let level_x = self.compare_x(v).is_eq();
        let level_y = self.compare_y(v).is_eq();
        level_x & level_y
    }

    /// The order of the point and a vertex along the first axis.
    #[inline]
    fn compare_x(&self, v: &Vertex) -> Ordering
        ensures { let p = point_of self.now in
            let q = at v.now in
            result ≡ int_cmp (p.x *ℤ pos q.w) (q.x *ℤ pos p.w) }
    {
        let run = self.edge.a.run_to(&self.edge.b);
        let across = self.edge.a.run_to(v);
        compare_products(self.n, run, self.w, across)
    }

    /// The order of the point and a vertex along the second axis.
    #[inline]
    fn compare_y(&self, v: &Vertex) -> Ordering
        ensures { let p = point_of self.now in
            let q = at v.now in
            result ≡ int_cmp (p.y *ℤ pos q.w) (q.y *ℤ pos p.w) }
    {
        let rise = self.edge.a.rise_to(&self.edge.b);
        let up = self.edge.a.rise_to(v);
        compare_products(self.n, rise, self.w, up)
    }

    /// The order of the point and a vertex by first coordinate, and then by second.
    pub fn compare(&self, v: &Vertex) -> Ordering
        ensures { result ≡ place_order (point_of self.now) (at v.now) }
    {
        match self.compare_x(v) {
            Ordering::Less => Ordering::Less,
            Ordering::Equal => self.compare_y(v),
            Ordering::Greater => Ordering::Greater,
        }
    }

    /// The side of an edge on which the point lies: `Greater` is left, seen from `a` to `b`. That
    /// of a vertex takes no product beyond 128 bits.
    pub fn side_of(&self, e: &Edge) -> Ordering
        ensures { result ≡ int_cmp (side e.now (point_of self.now)) (pos 0) }
    {
        let side = e.side_of(&self.edge.a);
        if self.n == 0 {
            side.cmp(&0)
        } else {
            compare_products(self.w, side, self.n, self.edge.turn_to(e))
        }
    }
}
