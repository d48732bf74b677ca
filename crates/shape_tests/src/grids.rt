//! Each two edges of a small grid, compared with a count of the points that they share.

use plane_core::{Edge, Vertex};
use ring_core::meet_properly;

/// The number of parts into which an edge is divided. Two edges of a grid of 3 by 3 vertices that
/// cross do so at a whole number of parts, since the cross product of their directions is at most
/// 8.
const PARTS: i64 = 840;

/// A vertex of the grid.
fn vertex(n: u16) -> Vertex {
    Vertex {
        x: i64::from(n % 3),
        y: i64::from(n / 3 % 3),
    }
}

/// An edge of the grid, which may have length 0.
fn grid_edge(n: u16) -> Edge {
    Edge {
        a: vertex(n % 9),
        b: vertex(n / 9),
    }
}

/// A point of the grid, in units of 1 / `PARTS`.
#[derive(Clone, Copy, PartialEq, Eq)]
struct Spot {
    x: i64,
    y: i64,
}

fn spot_of(v: &Vertex) -> Spot {
    Spot {
        x: v.x.wrapping_mul(PARTS),
        y: v.y.wrapping_mul(PARTS),
    }
}

/// The point after `part` parts of an edge.
fn along(e: &Edge, part: i64) -> Spot {
    let rest = PARTS.wrapping_sub(part);
    let x = e
        .a
        .x
        .wrapping_mul(rest)
        .wrapping_add(e.b.x.wrapping_mul(part));
    let y = e
        .a
        .y
        .wrapping_mul(rest)
        .wrapping_add(e.b.y.wrapping_mul(part));
    Spot { x, y }
}

fn is_on(f: &Edge, s: Spot) -> bool {
    let (a, b) = (spot_of(&f.a), spot_of(&f.b));
    let rightward = b.x.wrapping_sub(a.x).wrapping_mul(s.y.wrapping_sub(a.y));
    let upward = b.y.wrapping_sub(a.y).wrapping_mul(s.x.wrapping_sub(a.x));
    let is_beside = a.x.min(b.x) <= s.x && s.x <= a.x.max(b.x);
    let is_level = a.y.min(b.y) <= s.y && s.y <= a.y.max(b.y);
    rightward == upward && is_beside && is_level
}

fn is_end(e: &Edge, s: Spot) -> bool {
    s == spot_of(&e.a) || s == spot_of(&e.b)
}

/// Whether two edges share at most one point, which is an end of one of them.
fn share_an_end_at_most(e: &Edge, f: &Edge) -> bool {
    let mut found: Option<Spot> = None;
    for part in 0..841i64 {
        let s = along(e, part);
        if !is_on(f, s) {
            continue;
        }
        let is_other = found.is_some_and(|first| first != s);
        if is_other || !(is_end(e, s) || is_end(f, s)) {
            return false;
        }
        found = Some(s);
    }
    true
}

/// The first edge of the grid for which `meet_properly` gives the wrong result, if any.
fn first_mistake(e: &Edge) -> Option<u16> {
    for n in 0..81u16 {
        let f = grid_edge(n);
        if meet_properly(e, &f) != share_an_end_at_most(e, &f) {
            return Some(n);
        }
    }
    None
}

#[test]
fn each_two_edges_of_a_grid(rt: HostRuntime) {
    for n in 0..81u16 {
        assert!(&rt; first_mistake(&grid_edge(n)).is_none());
    }
}
