//! The edges that end at the outermost vertices of an outline.

ghost use Rattle.std.specs.Prelude.{ℕ, ◌≤◌, length};
ghost use Rattle.edge_index_core.specs.Starts.{AreWithin};

use geom_core::Shape;
use plane_core::{Edge, Kind, Outline};

/// A side of a box.
#[derive(Clone, Copy)]
pub(crate) enum Side {
    Low,
    Left,
    Right,
}

/// The index of an edge that ends at the lowest vertex, of one that ends at the leftmost, and of
/// one that ends at the rightmost; 0 if there are no edges.
#[derive(Clone, Copy, Drop)]
pub(crate) struct Starts {
    low: usize,
    left: usize,
    right: usize,
}

/// The index of the edge for which a number is least, or 0 if there are no edges.
fn least_by<F: Fn(&Edge) -> i64>(edges: &[Edge], number: F) -> usize
    requires { F.IsAlwaysCallable number }
    ensures { result ≤ length edges.now }
{
    let mut place = 0;
    let mut least = i64::MAX;
    for (i, e) in edges.iter().enumerate() {
        let here = number(e);
        if here < least {
            least = here;
            place = i;
        }
    }
    place
}

/// The index of an edge that ends at the outermost vertex on a side, or 0 if there are no edges.
pub(crate) fn outermost(edges: &[Edge], side: Side) -> usize
    ensures { result ≤ length edges.now }
{
    match side {
        Side::Low => least_by(edges, |e| e.b.y),
        Side::Left => least_by(edges, |e| e.b.x),
        Side::Right => least_by(edges, |e| -e.b.x),
    }
}

/// The side on which a box extends beyond another, or the lower one.
pub(crate) fn side_beyond(own: &Shape, other: &Shape) -> Side {
    if own.y1() < other.y1() {
        Side::Low
    } else if own.x1() < other.x1() {
        Side::Left
    } else if other.x2() < own.x2() {
        Side::Right
    } else {
        Side::Low
    }
}

impl Starts {
    /// The outermost edges of rings; of other geometries the first edge, at which none begins.
    pub(crate) fn of(outline: &Outline) -> Starts
        ensures { AreWithin (length outline.now.edges.items) result }
    {
        match outline.kind {
            Kind::Areas => Starts::outermost(&outline.edges),
            Kind::Points | Kind::Lines => Starts {
                low: 0,
                left: 0,
                right: 0,
            },
        }
    }

    /// The outermost edges of a list.
    fn outermost(edges: &[Edge]) -> Starts
        ensures { AreWithin (length edges.now) result }
    {
        Starts {
            low: outermost(edges, Side::Low),
            left: outermost(edges, Side::Left),
            right: outermost(edges, Side::Right),
        }
    }

    /// The edge that ends at the outermost vertex on a side.
    pub(crate) fn at(&self, side: Side) -> usize
        ensures { (n : ℕ) → AreWithin n self.now → result ≤ n }
    {
        match side {
            Side::Low => self.low,
            Side::Left => self.left,
            Side::Right => self.right,
        }
    }
}
