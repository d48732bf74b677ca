//! Edges of a geometry that cross an edge of the other at a node, and the part of an area beyond
//! them.

ghost use Rattle.std.specs.Prelude.{◌≡◌, ◌≢◌, pos, count_by, IsTrue, IfSome};
ghost use Rattle.plane_core.specs.Figures.{is_odd};
ghost use Rattle.plane_core.specs.Points.{at, side, is_on};
ghost use Rattle.plane_core.specs.Places.{point_of};
ghost use Rattle.arrangement_core.specs.Crossed.{IsMet, IsCrossing, IsAcross, is_equal, beyond};

use crate::shared::is_same_vertex;
use crate::walk::is_on;
use plane_core::{Edge, Part, Spot};

/// The greatest number of edges among which an edge is counted.
const MOST_COUNTED: usize = 64;

/// On which of some edges a point is: on none, on one alone, or on some.
#[derive(Clone, Copy)]
pub(crate) enum Met {
    Nowhere,
    Once(Edge),
    Often,
}

/// On which of some edges a point is. Whether it is on one alone is found out only if asked for.
pub(crate) fn edge_at(near: &[Edge], p: &Spot, is_asked: bool) -> Met
    ensures { IsMet near.now (point_of p.now.place) result }
{
    let mut met = Met::Nowhere;
    for f in near {
        let here = is_on(f, p);
        if !here {
            continue;
        }
        if !is_asked {
            return Met::Often;
        }
        match met {
            Met::Nowhere => met = Met::Once(*f),
            _ => return Met::Often,
        }
    }
    met
}

#[inline]
fn is_equal(f: &Edge, g: &Edge) -> bool
    ensures { result ≡ is_equal f.now g.now }
{
    is_same_vertex(&f.a, &g.a) && is_same_vertex(&f.b, &g.b)
}

/// Whether an edge stands an odd number of times in a list.
fn is_odd_in(f: &Edge, edges: &[Edge]) -> bool
    ensures { result ≡ is_odd (count_by (is_equal f.now) edges.now) }
{
    edges.iter().filter(|g| is_equal(f, g)).count() % 2 == 1
}

/// Whether neither of two edges is vertical, and no end of the second is on the line of the first.
fn is_across(e: &Edge, f: &Edge) -> bool
    ensures first { IsTrue result → side e.now (at f.now.a) ≢ pos 0 }
    ensures last { IsTrue result → side e.now (at f.now.b) ≢ pos 0 }
{
    let first = e.side_of(&f.a);
    let last = e.side_of(&f.b);
    first != 0 && last != 0
}

/// Whether an edge crosses another of some few edges wherever it has a point of it, and none of
/// the two is vertical.
fn is_crossing(e: &Edge, f: &Edge, edges: &[Edge]) -> bool
    ensures { IsTrue result → IsCrossing edges.now e.now f.now }
{
    if edges.len() > MOST_COUNTED || e.is_vertical() || f.is_vertical() {
        return false;
    }
    if !is_across(e, f) {
        return false;
    }
    is_odd_in(f, edges)
}

/// The part on the other side of an area's boundary.
fn beyond(part: Part) -> Part
    ensures { result ≡ beyond part }
{
    match part {
        Part::Interior => Part::Exterior,
        Part::Boundary => Part::Boundary,
        Part::Exterior => Part::Interior,
    }
}

/// The part of an area from a node on at which an edge is crossed by one of the area's edges, where
/// the part before it is known and the crossing tells.
pub(crate) fn part_across(part: Option<Part>, e: &Edge, f: &Edge, edges: &[Edge]) -> Option<Part>
    ensures { IfSome result (IsAcross edges.now e.now f.now part) }
{
    let before = part?;
    if is_crossing(e, f, edges) {
        Some(beyond(before))
    } else {
        None
    }
}
