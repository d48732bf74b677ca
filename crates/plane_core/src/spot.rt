//! A point with the integers next to its coordinates, by which most edges lie to it.

ghost use Rattle.std.specs.Prelude.{◌≡◌, ◌*ℤ◌, pos, nat_abs, IsTrue};
ghost use Rattle.geom_core.specs.Shapes.{x1, y1, x2, y2};
ghost use Rattle.plane_core.specs.Places.{point_of};
ghost use Rattle.plane_core.specs.Spots.{IsFloor, IsCeiling};

use crate::edge::Edge;
use crate::next::next_to;
use crate::place::{Lie, Place};
use crate::vertex::Vertex;
use geom_core::Shape;

/// A point with the greatest integers that aren't above its coordinates, and the least that aren't
/// below. A vertex lies to the point as it lies to these, so that no product is computed; an edge
/// is compared with the point by products only if the point is within its box.
#[derive(Clone, Copy)]
pub struct Spot {
    pub place: Place,
    left: i64,
    right: i64,
    low: i64,
    high: i64,
    ghost left_is: { IsFloor (nat_abs place.w) (point_of place).x left },
    ghost right_is: { IsCeiling (nat_abs place.w) (point_of place).x right },
    ghost low_is: { IsFloor (nat_abs place.w) (point_of place).y low },
    ghost high_is: { IsCeiling (nat_abs place.w) (point_of place).y high },
}

/// The corner of a shape with its least coordinates.
#[inline]
fn least_corner(s: &Shape) -> Vertex
    ensures x { result.x ≡ x1 s.now }
    ensures y { result.y ≡ y1 s.now }
{
    Vertex {
        x: s.x1(),
        y: s.y1(),
    }
}

/// The corner of a shape with its greatest coordinates.
#[inline]
fn greatest_corner(s: &Shape) -> Vertex
    ensures x { result.x ≡ x2 s.now }
    ensures y { result.y ≡ y2 s.now }
{
    Vertex {
        x: s.x2(),
        y: s.y2(),
    }
}

impl Spot {
    ghost use Rattle.std.specs.Prelude.{int_le, int_lt, true};
    ghost use Rattle.plane_core.specs.Points.{is_at, is_between, is_from_to};
    ghost use Rattle.plane_core.specs.Places.{IsLie};
    ghost use Rattle.plane_core.specs.Boxes.{is_over};
    ghost use Rattle.plane_core.specs.Spots.{are_above, are_below};

    /// A point with the integers next to its coordinates.
    pub fn of(place: &Place) -> Spot
        ensures { result.place ≡ place.now }
    {
        let (a, b) = (&place.edge.a, &place.edge.b);
        let (left, right) = next_to(a.x, b.x, place.n, place.w);
        let (low, high) = next_to(a.y, b.y, place.n, place.w);
        Spot {
            place: *place,
            left,
            right,
            low,
            high,
        }
    }

    /// Whether the first coordinate is at least that of a vertex.
    #[inline]
    fn is_from_x(&self, v: &Vertex) -> bool
        ensures { let p = point_of self.now.place in result ≡ int_le (pos p.w *ℤ v.now.x) p.x }
    {
        v.x <= self.left
    }

    /// Whether the first coordinate is at most that of a vertex.
    #[inline]
    fn is_to_x(&self, v: &Vertex) -> bool
        ensures { let p = point_of self.now.place in result ≡ int_le p.x (pos p.w *ℤ v.now.x) }
    {
        self.right <= v.x
    }

    /// Whether the first coordinate is less than that of a vertex.
    #[inline]
    fn is_left_of(&self, v: &Vertex) -> bool
        ensures { let p = point_of self.now.place in result ≡ int_lt p.x (pos p.w *ℤ v.now.x) }
    {
        self.left < v.x
    }

    /// Whether the second coordinate is at least that of a vertex.
    #[inline]
    fn is_from_y(&self, v: &Vertex) -> bool
        ensures { let p = point_of self.now.place in result ≡ int_le (pos p.w *ℤ v.now.y) p.y }
    {
        v.y <= self.low
    }

    /// Whether the second coordinate is at most that of a vertex.
    #[inline]
    fn is_to_y(&self, v: &Vertex) -> bool
        ensures { let p = point_of self.now.place in result ≡ int_le p.y (pos p.w *ℤ v.now.y) }
    {
        self.high <= v.y
    }

    /// Whether the second coordinate is greater than that of a vertex.
    #[inline]
    fn is_above(&self, v: &Vertex) -> bool
        ensures { let p = point_of self.now.place in result ≡ int_lt (pos p.w *ℤ v.now.y) p.y }
    {
        v.y < self.high
    }

    /// Whether the second coordinate is less than that of a vertex.
    #[inline]
    fn is_below(&self, v: &Vertex) -> bool
        ensures { let p = point_of self.now.place in result ≡ int_lt p.y (pos p.w *ℤ v.now.y) }
    {
        self.low < v.y
    }

    /// Whether the point equals a vertex. One comparison tells it from most vertices.
    #[inline]
    pub fn is_at(&self, v: &Vertex) -> bool
        ensures { result ≡ is_at v.now (point_of self.now.place) }
    {
        if v.x != self.left {
            return false;
        }
        let along_x = self.is_from_x(v) & self.is_to_x(v);
        let along_y = self.is_from_y(v) & self.is_to_y(v);
        along_x & along_y
    }

    /// Whether the point is within the extent of a shape along the first axis, and not below it.
    #[inline]
    pub fn is_over_box(&self, s: &Shape) -> bool
        ensures { result ≡ is_over s.now (point_of self.now.place) }
    {
        let (least, greatest) = (least_corner(s), greatest_corner(s));
        self.is_from_x(&least) && self.is_to_x(&greatest) && self.is_from_y(&least)
    }

    /// Whether the point is within the extent of an edge along the first axis.
    #[inline]
    fn is_along_x(&self, e: &Edge) -> bool
        ensures { let p = point_of self.now.place in
            result ≡ is_between e.now.a.x e.now.b.x p.w p.x }
    {
        let (from_a, to_b) = (self.is_from_x(&e.a), self.is_to_x(&e.b));
        let (from_b, to_a) = (self.is_from_x(&e.b), self.is_to_x(&e.a));
        from_a & to_b | from_b & to_a
    }

    /// Whether the point is within the extent of an edge along the second axis.
    #[inline]
    fn is_along_y(&self, e: &Edge) -> bool
        ensures { let p = point_of self.now.place in
            result ≡ is_between e.now.a.y e.now.b.y p.w p.y }
    {
        let (from_a, to_b) = (self.is_from_y(&e.a), self.is_to_y(&e.b));
        let (from_b, to_a) = (self.is_from_y(&e.b), self.is_to_y(&e.a));
        from_a & to_b | from_b & to_a
    }

    /// Whether the point is above both ends of an edge.
    #[inline]
    fn is_above_both(&self, e: &Edge) -> bool
        ensures { result ≡ are_above e.now (point_of self.now.place) }
    {
        self.is_above(&e.a) && self.is_above(&e.b)
    }

    /// Whether the point is below both ends of an edge.
    #[inline]
    fn is_below_both(&self, e: &Edge) -> bool
        ensures { result ≡ are_below e.now (point_of self.now.place) }
    {
        self.is_below(&e.a) && self.is_below(&e.b)
    }

    /// Whether the first coordinate is from that of `a` to less than that of `b`.
    #[inline]
    fn is_over(&self, a: &Vertex, b: &Vertex) -> bool
        ensures { let p = point_of self.now.place in result ≡ is_from_to a.now.x b.now.x p.w p.x }
    {
        let from_a = self.is_from_x(a);
        let before_b = self.is_left_of(b);
        from_a & before_b
    }

    /// How an edge lies to the point.
    #[inline]
    pub fn lie_of(&self, e: &Edge) -> Lie
        ensures { IsLie e.now (point_of self.now.place) result }
    {
        if self.is_along_x(e) {
            self.lie_along(e)
        } else {
            Lie {
                is_on: false,
                is_below: false,
                is_at_or_below: false,
            }
        }
    }

    /// The same, for a point within the extent of the edge along the first axis.
    #[inline]
    fn lie_along(&self, e: &Edge) -> Lie
        requires { let p = point_of self.now.place in
            IsTrue (is_between e.now.a.x e.now.b.x p.w p.x) }
        ensures { IsLie e.now (point_of self.now.place) result }
    {
        if self.is_above_both(e) {
            self.lie_under(e)
        } else if self.is_below_both(e) {
            Lie {
                is_on: false,
                is_below: false,
                is_at_or_below: false,
            }
        } else {
            self.lie_within(e)
        }
    }

    /// The same, for a point above both ends of the edge.
    #[inline]
    fn lie_under(&self, e: &Edge) -> Lie
        requires { are_above e.now (point_of self.now.place) ≡ true }
        ensures { IsLie e.now (point_of self.now.place) result }
    {
        let forth = self.is_over(&e.a, &e.b);
        let back = self.is_over(&e.b, &e.a);
        Lie {
            is_on: false,
            is_below: forth | back,
            is_at_or_below: forth | back,
        }
    }

    /// The same, by the side of the edge on which the point lies.
    #[inline(never)]
    fn lie_within(&self, e: &Edge) -> Lie
        requires { let p = point_of self.now.place in
            IsTrue (is_between e.now.a.x e.now.b.x p.w p.x) }
        ensures { IsLie e.now (point_of self.now.place) result }
    {
        let side = self.place.side_of(e);
        let along_y = self.is_along_y(e);
        let forth = self.is_over(&e.a, &e.b);
        let back = self.is_over(&e.b, &e.a);
        Lie {
            is_on: side.is_eq() & along_y,
            is_below: forth & side.is_gt() | back & side.is_lt(),
            is_at_or_below: forth & side.is_ge() | back & side.is_le(),
        }
    }
}
