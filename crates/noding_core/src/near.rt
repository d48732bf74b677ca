//! The edges of a geometry that may meet an edge: those whose boxes meet the edge's box.

ghost use Rattle.std.specs.Prelude.{All, OnOk};
ghost use Rattle.std.specs.List.{flat_map};
ghost use Rattle.plane_core.specs.declared.edge.Edge.{Edge};
ghost use Rattle.rtree_core.specs.Nodes.{entries_of, IsLawful};
ghost use Rattle.edge_index_core.specs.Bounds.{IsBoxOf};
ghost use Rattle.edge_index_core.specs.Runs.{AreRunBoxes};
ghost use Rattle.edge_index_core.specs.Trees.{IsEntryIn};
ghost use Rattle.noding_core.specs.Gathered.{Extends};
ghost use Rattle.noding_core.specs.Near.{IsFound, IsEntryFound, AddsAmong};

use edge_index_core::{IndexedOutline, bounds_of, first_run, is_beyond};
use geom_core::Shape;
use plane_core::Edge;
use rtree_core::{Entry, Node as TreeNode};
use std::alloc::AllocError;

/// Adds the edges of a leaf whose boxes meet an edge's box.
fn push_entries(
    near: &mut Vec<Edge>,
    bounds: &Shape,
    edges: &[Edge],
    entries: &[Entry],
) -> Result<(), AllocError>
    requires { All (IsEntryIn edges.now) entries.now }
    ensures kept { OnOk result (Extends near.old.items near.new.items) }
    ensures own { OnOk result (AddsAmong edges.now near.old.items near.new.items) }
    ensures found { let near = near.new.items in
        OnOk result ((e : Edge) → IsBoxOf e bounds.now
        → All (IsEntryFound e edges.now near) entries.now) }
{
    for entry in entries {
        let meets = entry.shape.meets(bounds);
        if !meets {
            continue;
        }
        let f = &edges[entry.number as usize];
        near.push(*f)?;
    }
    Ok(())
}

/// Adds those of the edges below some nodes of a tree. Below a node whose cover doesn't meet the
/// edge's box there are none.
#[cycle(near)]
fn push_nodes(
    near: &mut Vec<Edge>,
    bounds: &Shape,
    edges: &[Edge],
    tree: &[TreeNode],
) -> Result<(), AllocError>
    requires lawful { All IsLawful tree.now }
    requires entries { All (IsEntryIn edges.now) (flat_map entries_of tree.now) }
    ensures kept { OnOk result (Extends near.old.items near.new.items) }
    ensures own { OnOk result (AddsAmong edges.now near.old.items near.new.items) }
    ensures found { let near = near.new.items in
        OnOk result ((e : Edge) → IsBoxOf e bounds.now
        → All (IsEntryFound e edges.now near) (flat_map entries_of tree.now)) }
{
    for node in tree {
        let cover = node.cover();
        let meets = cover.meets(bounds);
        if !meets {
            continue;
        }
        push_node(near, bounds, edges, node)?;
    }
    Ok(())
}

/// Adds those of the edges below a node of a tree.
#[cycle(near)]
fn push_node(
    near: &mut Vec<Edge>,
    bounds: &Shape,
    edges: &[Edge],
    node: &TreeNode,
) -> Result<(), AllocError>
    requires lawful { IsLawful node.now }
    requires entries { All (IsEntryIn edges.now) (entries_of node.now) }
    ensures kept { OnOk result (Extends near.old.items near.new.items) }
    ensures own { OnOk result (AddsAmong edges.now near.old.items near.new.items) }
    ensures found { let near = near.new.items in
        OnOk result ((e : Edge) → IsBoxOf e bounds.now
        → All (IsEntryFound e edges.now near) (entries_of node.now)) }
{
    let leaf = node.is_leaf();
    if leaf {
        let entries = node.entries();
        push_entries(near, bounds, edges, entries)
    } else {
        let children = node.children();
        push_nodes(near, bounds, edges, children)
    }
}

/// Adds the edges of a list whose boxes meet an edge's box.
pub fn push_few(near: &mut Vec<Edge>, e: &Edge, edges: &[Edge]) -> Result<(), AllocError>
    // as of `push_near`
    ensures kept { OnOk result (Extends near.old.items near.new.items) }
    ensures own { OnOk result (AddsAmong edges.now near.old.items near.new.items) }
    ensures found { let near = near.new.items in OnOk result (All (IsFound e.now near) edges.now) }
{
    let bounds = bounds_of(e);
    for f in edges {
        let beyond = is_beyond(f, &bounds);
        if beyond {
            continue;
        }
        near.push(*f)?;
    }
    Ok(())
}

/// Adds those of edges in runs. A run whose box doesn't meet the edge's is skipped.
fn push_runs(
    near: &mut Vec<Edge>,
    e: &Edge,
    edges: &[Edge],
    boxes: &[Shape],
) -> Result<(), AllocError>
    requires { AreRunBoxes edges.now boxes.now }
    ensures kept { OnOk result (Extends near.old.items near.new.items) }
    ensures own { OnOk result (AddsAmong edges.now near.old.items near.new.items) }
    ensures found { let near = near.new.items in OnOk result (All (IsFound e.now near) edges.now) }
{
    let bounds = bounds_of(e);
    let mut rest = edges;
    for shape in boxes {
        let (run, after) = first_run(rest);
        rest = after;
        let meets = shape.meets(&bounds);
        if !meets {
            continue;
        }
        push_few(near, e, run)?;
    }
    Ok(())
}

/// Adds the edges of an outline whose boxes meet an edge's box.
pub fn push_near(near: &mut Vec<Edge>, e: &Edge, outline: &IndexedOutline) -> Result<(), AllocError>
    // the list begins as before
    ensures kept { OnOk result (Extends near.old.items near.new.items) }
    // what was added are edges of the outline, or of the list
    ensures own { OnOk result (AddsAmong outline.now.edges.items near.old.items near.new.items) }
    // each of these is in it, or its box doesn't meet that of the edge
    ensures found { let near = near.new.items in
        OnOk result (All (IsFound e.now near) outline.now.edges.items) }
{
    let edges = outline.edges();
    if let Some(root) = outline.root() {
        let bounds = bounds_of(e);
        push_node(near, &bounds, edges, root)?;
        return Ok(());
    }
    match outline.run_boxes() {
        Some(boxes) => push_runs(near, e, edges, boxes),
        None => push_few(near, e, edges),
    }
}
