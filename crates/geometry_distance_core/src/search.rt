//! The search of the edges of an outline that are nearest to an edge, by the boxes of an index.

ghost use Rattle.std.specs.Prelude.{All};
ghost use Rattle.std.specs.List.{flat_map};
ghost use Rattle.rtree_core.specs.Nodes.{entries_of, IsLawful};
ghost use Rattle.edge_index_core.specs.Bounds.{IsBoxOf};
ghost use Rattle.edge_index_core.specs.Runs.{AreRunBoxes};
ghost use Rattle.edge_index_core.specs.Trees.{IsEntryIn, IsTreeOf};
ghost use Rattle.geometry_distance_core.specs.NearestPairs.{AddsPairs, AddsEntries, of_each};

use crate::nearest::Nearest;
use distance_core::squared_distance;
use edge_index_core::{IndexedOutline, first_run};
use geom_core::Shape;
use plane_core::Edge;
use rtree_core::{Entry, Node};

/// Adds an edge, with its box, and each of some others.
pub(crate) fn with_each(nearest: Nearest, e: &Edge, bounds: &Shape, fs: &[Edge]) -> Nearest
    requires { IsBoxOf e.now bounds.now }
    ensures { AddsPairs (of_each e.now fs.now) nearest result }
{
    let mut found = nearest;
    for f in fs {
        found = found.with_edges(e, bounds, f);
    }
    found
}

/// Adds an edge and those of a leaf. An edge is skipped if its box is too far away.
fn with_entries(
    nearest: Nearest,
    e: &Edge,
    bounds: &Shape,
    entries: &[Entry],
    fs: &[Edge],
) -> Nearest
    requires bounds { IsBoxOf e.now bounds.now }
    requires entries { All (IsEntryIn fs.now) entries.now }
    ensures { AddsEntries e.now fs.now entries.now nearest result }
{
    let mut found = nearest;
    for entry in entries {
        let f = &fs[entry.number as usize];
        found = found.with_edges(e, bounds, f);
    }
    found
}

/// Adds an edge and those below nodes of a tree. A node is skipped if its cover is too far away.
#[cycle(search)]
fn with_nodes(nearest: Nearest, e: &Edge, bounds: &Shape, nodes: &[Node], fs: &[Edge]) -> Nearest
    requires bounds { IsBoxOf e.now bounds.now }
    requires lawful { All IsLawful nodes.now }
    requires entries { All (IsEntryIn fs.now) (flat_map entries_of nodes.now) }
    ensures { AddsEntries e.now fs.now (flat_map entries_of nodes.now) nearest result }
{
    let mut found = nearest;
    for node in nodes {
        let is_far = found.is_past(squared_distance(bounds, &node.cover()));
        if is_far {
            continue;
        }
        found = with_node(found, e, bounds, node, fs);
    }
    found
}

/// Adds an edge and those below a node of a tree.
#[cycle(search)]
fn with_node(nearest: Nearest, e: &Edge, bounds: &Shape, node: &Node, fs: &[Edge]) -> Nearest
    requires bounds { IsBoxOf e.now bounds.now }
    requires lawful { IsLawful node.now }
    requires entries { All (IsEntryIn fs.now) (entries_of node.now) }
    ensures { AddsEntries e.now fs.now (entries_of node.now) nearest result }
{
    let leaf = node.is_leaf();
    if leaf {
        with_entries(nearest, e, bounds, node.entries(), fs)
    } else {
        with_nodes(nearest, e, bounds, node.children(), fs)
    }
}

/// Adds an edge and those of a tree.
fn with_tree(nearest: Nearest, e: &Edge, bounds: &Shape, root: &Node, fs: &[Edge]) -> Nearest
    requires bounds { IsBoxOf e.now bounds.now }
    requires tree { IsTreeOf fs.now root.now }
    ensures { AddsPairs (of_each e.now fs.now) nearest result }
{
    with_node(nearest, e, bounds, root, fs)
}

/// Adds an edge and others, by the boxes of their runs. A run is skipped if its box is too far
/// away.
fn with_runs(nearest: Nearest, e: &Edge, bounds: &Shape, boxes: &[Shape], fs: &[Edge]) -> Nearest
    requires bounds { IsBoxOf e.now bounds.now }
    requires boxes { AreRunBoxes fs.now boxes.now }
    ensures { AddsPairs (of_each e.now fs.now) nearest result }
{
    let mut found = nearest;
    let mut rest = fs;
    for shape in boxes {
        let (run, after) = first_run(rest);
        rest = after;
        let is_far = found.is_past(squared_distance(bounds, shape));
        if is_far {
            continue;
        }
        found = with_each(found, e, bounds, run);
    }
    found
}

/// Adds an edge, with its box, and those of an outline.
pub(crate) fn with_outline(
    nearest: Nearest,
    e: &Edge,
    bounds: &Shape,
    others: &IndexedOutline,
) -> Nearest
    requires { IsBoxOf e.now bounds.now }
    ensures { AddsPairs (of_each e.now others.now.edges.items) nearest result }
{
    if let Some(root) = others.root() {
        return with_tree(nearest, e, bounds, root, others.edges());
    }
    match others.run_boxes() {
        Some(boxes) => with_runs(nearest, e, bounds, boxes, others.edges()),
        None => with_each(nearest, e, bounds, others.edges()),
    }
}
