//! Runs of consecutive edges with their boxes, by which the edges near a place are found.

ghost use Rattle.std.specs.Prelude.{◌≡◌, ◌<◌, ◌++◌, List, length, take, drop, All, IfOk};
ghost use Rattle.plane_core.specs.declared.edge.Edge.{Edge};
ghost use Rattle.plane_core.specs.Places.{point_of};
ghost use Rattle.plane_core.specs.Outlines.{IsScan};
ghost use Rattle.edge_index_core.specs.Runs.{run_len, HoldsEdge, AreRunBoxes};

use crate::bounds::bounds_of;
use geom_core::Shape;
use plane_core::{Edge, Scan, Spot};
use std::alloc::{AllocError, Global};

/// The number of edges of a run; the last run may have fewer.
const RUN: usize = 8;

/// The first run of some edges, and the edges after it.
pub fn first_run(edges: &[Edge]) -> (&[Edge], &[Edge])
    // the first eight edges of a list, or all where it has fewer
    ensures run { result.0.now ≡ take run_len edges.now }
    // the others
    ensures after { result.1.now ≡ drop run_len edges.now }
{
    edges.split_at(RUN.min(edges.len()))
}

/// The smallest shape that contains some edges.
fn bounds_of_run(edges: &[Edge]) -> Shape
    requires { 0 < length edges.now }
    ensures { All (HoldsEdge result) edges.now }
{
    let mut bounds = bounds_of(&edges[0]);
    for e in edges {
        let shape = bounds_of(e);
        bounds = bounds.cover(&shape);
    }
    bounds
}

/// The boxes of the runs of edges.
pub fn run_boxes(alloc: Global, edges: &[Edge]) -> Result<Vec<Shape>, AllocError>
    ensures { IfOk result (λ boxes. AreRunBoxes edges.now boxes.items) }
{
    let mut boxes = Vec::with_capacity(alloc, edges.len().div_ceil(RUN))?;
    let mut rest = edges;
    while !rest.is_empty() {
        let (run, after) = first_run(rest);
        let bounds = bounds_of_run(run);
        boxes.push(bounds)?;
        rest = after;
    }
    Ok(boxes)
}

/// Adds edges to a scan.
fn scan_all(edges: &[Edge], p: &Spot, scan: Scan) -> Scan
    ensures { let q = point_of p.now.place in
        (es : List Edge) → IsScan es q scan → IsScan (es ++ edges.now) q result }
{
    let mut grown = scan;
    for e in edges {
        grown = grown.with(e, p);
    }
    grown
}

/// The scan of edges at a point, by the boxes of their runs. A run is skipped unless the point is
/// over its box.
pub(crate) fn scan_runs(boxes: &[Shape], edges: &[Edge], p: &Spot) -> Scan
    requires { AreRunBoxes edges.now boxes.now }
    ensures { IsScan edges.now (point_of p.now.place) result }
{
    let mut scan = Scan::empty();
    let mut rest = edges;
    for shape in boxes {
        let (run, after) = first_run(rest);
        rest = after;
        let is_over = p.is_over_box(shape);
        if !is_over {
            continue;
        }
        scan = scan_all(run, p, scan);
    }
    scan
}
