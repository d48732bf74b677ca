//! The edges of an outline around a box.

ghost use Rattle.std.specs.Prelude.{◌≡◌, ◌<◌, length, map, All, IfOk, OnOk};
ghost use Rattle.std.specs.List.{slice_index_or};
ghost use Rattle.plane_core.specs.declared.edge.Edge.{Edge};
ghost use Rattle.rtree_core.specs.Trees.{entries_in};
ghost use Rattle.edge_index_core.specs.Around.{AreAround, AddsAround};
ghost use Rattle.edge_index_core.specs.Runs.{AreRunBoxes};
ghost use Rattle.edge_index_core.specs.Trees.{HoldsEdges};

use crate::beyond::is_beyond;
use crate::runs::first_run;
use geom_core::Shape;
use plane_core::Edge;
use rtree_core::RTree;
use std::alloc::{AllocError, Global};

/// Adds the edges of a list that don't lie on one side of a box.
fn push_around(near: &mut Vec<Edge>, edges: &[Edge], bounds: &Shape) -> Result<(), AllocError>
    ensures { let old = near.old.items in let new = near.new.items in
        OnOk result (AddsAround bounds.now edges.now old new) }
{
    for e in edges {
        let beyond = is_beyond(e, bounds);
        if beyond {
            continue;
        }
        near.push(*e)?;
    }
    Ok(())
}

/// The edges of a list that don't lie on one side of a box.
pub(crate) fn scan_around(
    alloc: Global,
    edges: &[Edge],
    bounds: &Shape,
) -> Result<Vec<Edge>, AllocError>
    ensures { IfOk result (λ v. AreAround bounds.now edges.now v.items) }
{
    let mut near = Vec::with_capacity(alloc, edges.len())?;
    push_around(&mut near, edges, bounds)?;
    Ok(near)
}

/// The edges of runs that don't lie on one side of a box. A run whose box doesn't meet that box is
/// skipped.
pub(crate) fn runs_around(
    alloc: Global,
    boxes: &[Shape],
    edges: &[Edge],
    bounds: &Shape,
) -> Result<Vec<Edge>, AllocError>
    requires { AreRunBoxes edges.now boxes.now }
    ensures { IfOk result (λ v. AreAround bounds.now edges.now v.items) }
{
    let mut near = Vec::new(alloc);
    let mut rest = edges;
    for shape in boxes {
        let (run, after) = first_run(rest);
        rest = after;
        let meets = shape.meets(bounds);
        if !meets {
            continue;
        }
        push_around(&mut near, run, bounds)?;
    }
    Ok(near)
}

/// The edges at some indexes.
fn edges_at(alloc: Global, edges: &[Edge], indexes: &[u32]) -> Result<Vec<Edge>, AllocError>
    requires { All (λ k. k < length edges.now) indexes.now }
    ensures { IfOk result (λ v. (d : Edge)
        → v.items ≡ map (λ k. slice_index_or edges.now k d) indexes.now) }
{
    let mut found = Vec::with_capacity(alloc, indexes.len())?;
    for k in indexes {
        let e = &edges[*k as usize];
        found.push(*e)?;
    }
    Ok(found)
}

/// Some edges of a list, among them all whose bounding boxes meet a box, by a tree over the boxes.
pub(crate) fn find_around(
    alloc: Global,
    tree: &RTree,
    edges: &[Edge],
    bounds: &Shape,
) -> Result<Vec<Edge>, AllocError>
    requires { HoldsEdges edges.now (entries_in tree.now) }
    ensures { IfOk result (λ v. AreAround bounds.now edges.now v.items) }
{
    let indexes = tree.window(alloc, bounds)?;
    edges_at(alloc, edges, &indexes)
}
