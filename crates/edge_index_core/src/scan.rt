//! Scanning edges at a point, by a tree over their boxes.

ghost use Rattle.std.specs.Prelude.{All};
ghost use Rattle.std.specs.List.{flat_map};
ghost use Rattle.plane_core.specs.Places.{point_of};
ghost use Rattle.rtree_core.specs.Nodes.{entries_of, IsLawful};
ghost use Rattle.edge_index_core.specs.Trees.{IsEntryIn};
ghost use Rattle.edge_index_core.specs.Scans.{AddsScan};

use plane_core::{Edge, Scan, Spot};
use rtree_core::{Entry, Node};

/// Adds the edges of a leaf to a scan. An edge is skipped unless the point is over its box.
fn scan_entries(entries: &[Entry], edges: &[Edge], p: &Spot, scan: Scan) -> Scan
    requires { All (IsEntryIn edges.now) entries.now }
    ensures { AddsScan edges.now (point_of p.now.place) entries.now scan result }
{
    let mut grown = scan;
    for entry in entries {
        let is_over = p.is_over_box(&entry.shape);
        if !is_over {
            continue;
        }
        let e = &edges[entry.number as usize];
        grown = grown.with(e, p);
    }
    grown
}

/// Adds the edges below nodes of a tree to a scan. A node is skipped unless the point is over its
/// cover.
#[cycle(scan)]
fn scan_nodes(nodes: &[Node], edges: &[Edge], p: &Spot, scan: Scan) -> Scan
    requires lawful { All IsLawful nodes.now }
    requires entries { All (IsEntryIn edges.now) (flat_map entries_of nodes.now) }
    ensures { let entries = flat_map entries_of nodes.now in
        AddsScan edges.now (point_of p.now.place) entries scan result }
{
    let mut grown = scan;
    for node in nodes {
        let cover = node.cover();
        let is_over = p.is_over_box(&cover);
        if !is_over {
            continue;
        }
        grown = scan_node(node, edges, p, grown);
    }
    grown
}

/// Adds the edges below a node of a tree to a scan.
#[cycle(scan)]
pub(crate) fn scan_node(node: &Node, edges: &[Edge], p: &Spot, scan: Scan) -> Scan
    requires lawful { IsLawful node.now }
    requires entries { All (IsEntryIn edges.now) (entries_of node.now) }
    ensures { AddsScan edges.now (point_of p.now.place) (entries_of node.now) scan result }
{
    let leaf = node.is_leaf();
    if leaf {
        let entries = node.entries();
        scan_entries(entries, edges, p, scan)
    } else {
        let children = node.children();
        scan_nodes(children, edges, p, scan)
    }
}
