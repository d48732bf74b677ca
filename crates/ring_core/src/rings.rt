//! Whether the edges of rings pairwise meet properly.

ghost use Rattle.std.specs.Prelude.{◌↔◌, All, IsTrue, IfOk};
ghost use Rattle.rtree_core.specs.Trees.{entries_in};
ghost use Rattle.plane_core.specs.ProperRings.{MeetProperly, AreProper, HasProperRings};
ghost use Rattle.edge_index_core.specs.Entries.{HasEntriesOf};
ghost use Rattle.edge_index_core.specs.Runs.{AreRunBoxes};
ghost use Rattle.ring_core.specs.Candidates.{MeetsLater};

use crate::pair::meet_properly;
use edge_index_core::{bounds_of, entries_of, first_run, run_boxes};
use geom_core::Shape;
use plane_core::{Edge, Geometry, Kind};
use rtree_core::RTree;
use std::alloc::{AllocError, Global};

/// The greatest number of edges of which all pairs are compared.
const FEW: usize = 16;

/// The greatest number of edges that have no tree: so few are compared in less time by the boxes of
/// their runs.
const MAX_IN_RUNS: usize = 1024;

/// Whether an edge meets each of the others properly.
fn meets_all(e: &Edge, others: &[Edge]) -> bool
    ensures { IsTrue result ↔ All (MeetProperly e.now) others.now }
{
    others.iter().all(|f| meet_properly(e, f))
}

/// Whether each two edges meet properly, by comparing all pairs.
fn are_all_proper(edges: &[Edge]) -> bool
    ensures { IsTrue result ↔ AreProper edges.now }
{
    for (i, e) in edges.iter().enumerate() {
        if !meets_all(e, &edges[i + 1..]) {
            return false;
        }
    }
    true
}

/// Whether an edge meets each of some edges in runs properly. A run whose box doesn't meet the
/// edge's is skipped.
fn meets_runs(e: &Edge, edges: &[Edge], boxes: &[Shape]) -> bool
    requires { AreRunBoxes edges.now boxes.now }
    ensures { IsTrue result ↔ All (MeetProperly e.now) edges.now }
{
    let bounds = bounds_of(e);
    let mut rest = edges;
    for shape in boxes {
        let (run, after) = first_run(rest);
        rest = after;
        let meets = shape.meets(&bounds);
        if !meets {
            continue;
        }
        if !meets_all(e, run) {
            return false;
        }
    }
    true
}

/// Whether each edge of a run meets each edge of later runs properly.
fn meets_later_runs(run: &[Edge], edges: &[Edge], boxes: &[Shape]) -> bool
    requires { AreRunBoxes edges.now boxes.now }
    ensures { IsTrue result ↔ All (λ e. All (MeetProperly e) edges.now) run.now }
{
    for e in run {
        if !meets_runs(e, edges, boxes) {
            return false;
        }
    }
    true
}

/// Whether each two edges meet properly, by the boxes of their runs.
fn are_runs_proper(edges: &[Edge], boxes: &[Shape]) -> bool
    requires { AreRunBoxes edges.now boxes.now }
    ensures { IsTrue result ↔ AreProper edges.now }
{
    let mut rest = edges;
    for i in 0..boxes.len() {
        let (run, after) = first_run(rest);
        if !are_all_proper(run) {
            return false;
        }
        if !meets_later_runs(run, after, &boxes[i + 1..]) {
            return false;
        }
        rest = after;
    }
    true
}

/// Whether an edge, which has index `i`, properly meets the one with index `k`, if `k` is greater.
fn meets_later(edges: &[Edge], e: &Edge, i: usize, k: usize) -> bool
    ensures { IsTrue result ↔ MeetsLater edges.now e.now i k }
{
    if i < k && k < edges.len() {
        meet_properly(e, &edges[k])
    } else {
        true
    }
}

/// The same for each of several indexes.
fn meets_each_later(edges: &[Edge], e: &Edge, i: usize, places: &[u32]) -> bool
    ensures { IsTrue result ↔ All (MeetsLater edges.now e.now i) places.now }
{
    for k in places {
        if !meets_later(edges, e, i, *k as usize) {
            return false;
        }
    }
    true
}

/// Whether each two edges meet properly, by comparing each edge with those whose boxes meet its
/// own.
fn are_near_proper(alloc: Global, tree: &RTree, edges: &[Edge]) -> Result<bool, AllocError>
    requires { HasEntriesOf edges.now (entries_in tree.now) }
    ensures { IfOk result (λ is_proper. IsTrue is_proper ↔ AreProper edges.now) }
{
    for (i, e) in edges.iter().enumerate() {
        let near = tree.window(alloc, &bounds_of(e))?;
        if !meets_each_later(edges, e, i, &near) {
            return Ok(false);
        }
    }
    Ok(true)
}

/// Whether each two edges, at different indexes of the list, share at most one point, which is an
/// end of one of them.
pub fn is_proper(alloc: Global, edges: &[Edge]) -> Result<bool, AllocError>
    ensures { IfOk result (λ is_proper. IsTrue is_proper ↔ AreProper edges.now) }
{
    if edges.len() <= FEW {
        return Ok(are_all_proper(edges));
    }
    if edges.len() <= MAX_IN_RUNS || edges.len() > u32::MAX as usize {
        let boxes = run_boxes(alloc, edges)?;
        return Ok(are_runs_proper(edges, &boxes));
    }
    let tree = RTree::pack(alloc, entries_of(alloc, edges)?)?;
    are_near_proper(alloc, &tree, edges)
}

/// Whether the rings of a geometry neither cross nor run along each other or themselves: each two
/// of their edges share at most one point, which is an end of one of them. Points and polylines
/// have no rings.
pub fn has_proper_rings(alloc: Global, geometry: &Geometry) -> Result<bool, AllocError>
    ensures { IfOk result (λ is_proper. IsTrue is_proper ↔ HasProperRings geometry.now) }
{
    let outline = geometry.outline(alloc)?;
    match outline.kind {
        Kind::Points | Kind::Lines => Ok(true),
        Kind::Areas => is_proper(alloc, &outline.edges),
    }
}
