//! The outline of a geometry, with the boxes of runs of its edges, or a tree over the boxes of its
//! edges if they are many, and its points or ends in order if these are many.

ghost use Rattle.std.specs.Prelude.{◌≡◌, ◌≤◌, length, IfOk, IfSome};
ghost use Rattle.std.specs.List.{list_any};
ghost use Rattle.plane_core.specs.Points.{at, is_on};
ghost use Rattle.plane_core.specs.Places.{point_of};
ghost use Rattle.plane_core.specs.Outlines.{outline_part, outline_above, IsScan, count_at};
ghost use Rattle.edge_index_core.specs.Around.{AreAround};
ghost use Rattle.edge_index_core.specs.Ends.{AreInOrder, AreAlong};
ghost use Rattle.edge_index_core.specs.Indexes.{IsIndexOf};
ghost use Rattle.edge_index_core.specs.Runs.{AreRunBoxes};
ghost use Rattle.edge_index_core.specs.Starts.{AreWithin};
ghost use Rattle.edge_index_core.specs.Trees.{IsTreeOf};

use crate::around::{find_around, runs_around, scan_around};
use crate::ends::{between, count_at, in_order, is_any_between, is_any_on};
use crate::entries::entries_of;
use crate::runs::{run_boxes, scan_runs};
use crate::scan::scan_node;
use crate::starts::{Starts, outermost, side_beyond};
use geom_core::Shape;
use plane_core::{Edge, Outline, Place, Scan, Spot, Standing, Vertex};
use rtree_core::{Node, RTree};
use std::alloc::{AllocError, Global};
use std::marker::Model;

/// The greatest number of edges, and of points or ends, that are looked at one by one.
const MAX_SCANNED: usize = 16;

/// The greatest number of edges that have no tree. The boxes of their runs take a sixteenth of a
/// tree's memory and are made in less time, and so few are quickly looked at one by one.
const MAX_IN_RUNS: usize = 256;

/// How edges are found.
#[derive(Drop)]
pub(crate) enum EdgeIndex {
    /// One by one.
    None,
    /// By the boxes of their runs.
    Runs(Vec<Shape>),
    /// By a tree over their boxes.
    Tree(RTree),
}

/// An outline that finds its edges by their boxes, and its points, or the ends of its polylines, by
/// their order if they are many. Its outermost edges are known if it has an index, and else are
/// sought where they are needed. In contracts its value is the outline.
#[derive(Drop)]
pub struct IndexedOutline {
    outline: Outline,
    index: EdgeIndex,
    starts: Option<Starts>,
    ordered_ends: Option<Vec<Vertex>>,
}

impl Model for IndexedOutline {
    ghost use Rattle.std.specs.Prelude.{length, IfSome};
    ghost use Rattle.plane_core.specs.declared.outline.Outline.{Outline};
    ghost use Rattle.edge_index_core.specs.Starts.{AreWithin};
    ghost use Rattle.edge_index_core.specs.Indexes.{IsIndexOf};
    ghost use Rattle.edge_index_core.specs.Ends.{AreInOrder};

    ghost Value = { Outline };

    ghost view = { λ i. i.outline };

    ghost invariant = { λ i. IsIndexOf i.outline.edges.items i.index
        × IfSome i.starts (AreWithin (length i.outline.edges.items))
        × IfSome i.ordered_ends (λ v. AreInOrder i.outline.ends.items v.items) };
}

/// How edges are found, by their number.
fn index_of(alloc: Global, edges: &[Edge]) -> Result<EdgeIndex, AllocError>
    ensures { IfOk result (IsIndexOf edges.now) }
{
    if edges.len() <= MAX_SCANNED || edges.len() > u32::MAX as usize {
        return Ok(EdgeIndex::None);
    }
    if edges.len() <= MAX_IN_RUNS {
        let boxes = run_boxes(alloc, edges)?;
        return Ok(EdgeIndex::Runs(boxes));
    }
    let entries = entries_of(alloc, edges)?;
    let tree = RTree::pack(alloc, entries)?;
    Ok(EdgeIndex::Tree(tree))
}

/// The outermost edges of an outline, if it has an index.
fn starts_of(outline: &Outline, index: &EdgeIndex) -> Option<Starts>
    ensures { IfSome result (AreWithin (length outline.now.edges.items)) }
{
    match index {
        EdgeIndex::None => None,
        EdgeIndex::Runs(_) | EdgeIndex::Tree(_) => Some(Starts::of(outline)),
    }
}

/// Points or ends in order, if they are many.
fn ordered_if_many(alloc: Global, ends: &[Vertex]) -> Result<Option<Vec<Vertex>>, AllocError>
    ensures { IfOk result (λ o. IfSome o (λ v. AreInOrder ends.now v.items)) }
{
    if ends.len() <= MAX_SCANNED {
        return Ok(None);
    }
    let ordered = in_order(alloc, ends)?;
    Ok(Some(ordered))
}

/// The scan of the edges below the root of a tree at a point.
fn scan_of(root: &Node, edges: &[Edge], p: &Place) -> Scan
    requires { IsTreeOf edges.now root.now }
    ensures { IsScan edges.now (point_of p.now) result }
{
    let spot = Spot::of(p);
    let none = Scan::empty();
    scan_node(root, edges, &spot, none)
}

/// The scan of edges at a point, by the boxes of their runs.
fn scan_by_runs(boxes: &[Shape], edges: &[Edge], p: &Place) -> Scan
    requires { AreRunBoxes edges.now boxes.now }
    ensures { IsScan edges.now (point_of p.now) result }
{
    let spot = Spot::of(p);
    scan_runs(boxes, edges, &spot)
}

impl IndexedOutline {
    /// Indexes the edges and the points or ends of an outline.
    pub fn new(alloc: Global, outline: Outline) -> Result<IndexedOutline, AllocError>
        ensures { IfOk result (λ i. i ≡ outline) }
    {
        let index = index_of(alloc, &outline.edges)?;
        let starts = starts_of(&outline, &index);
        let ordered_ends = ordered_if_many(alloc, &outline.ends)?;
        Ok(IndexedOutline {
            outline,
            index,
            starts,
            ordered_ends,
        })
    }

    /// Takes an outline without an index, so that its edges, and its points or ends, are looked at
    /// one by one.
    pub fn plain(outline: Outline) -> IndexedOutline
        ensures { result ≡ outline }
    {
        IndexedOutline {
            outline,
            index: EdgeIndex::None,
            starts: None,
            ordered_ends: None,
        }
    }

    /// The outline without the index.
    pub fn outline(&self) -> &Outline
        ensures { result.now ≡ self.now }
    {
        &self.outline
    }

    /// The edges of the outline.
    pub fn edges(&self) -> &[Edge]
        ensures { result.now ≡ self.now.edges.items }
    {
        &self.outline.edges
    }

    /// The boxes of the runs of the edges, if these are found by them.
    pub fn run_boxes(&self) -> Option<&[Shape]>
        ensures { IfSome result (λ boxes. AreRunBoxes self.now.edges.items boxes.now) }
    {
        match &self.index {
            EdgeIndex::Runs(boxes) => Some(boxes.as_slice()),
            _ => None,
        }
    }

    /// The root of the tree over the boxes of the edges, or `None` if they aren't many.
    pub fn root(&self) -> Option<&Node>
        ensures { IfSome result (λ n. IsTreeOf self.now.edges.items n.now) }
    {
        match &self.index {
            EdgeIndex::Tree(tree) => tree.root(),
            _ => None,
        }
    }

    /// The index of an edge that ends at an outermost vertex, on a side where the box of the
    /// outline, the first, extends beyond another.
    pub fn start(&self, own: &Shape, other: &Shape) -> usize
        ensures { result ≤ length self.now.edges.items }
    {
        let side = side_beyond(own, other);
        match &self.starts {
            Some(starts) => starts.at(side),
            None => outermost(&self.outline.edges, side),
        }
    }

    /// Edges of the outline, in order, among them all that don't lie on one side of a box.
    pub fn edges_around(&self, alloc: Global, bounds: &Shape) -> Result<Vec<Edge>, AllocError>
        ensures { IfOk result (λ v. AreAround bounds.now self.now.edges.items v.items) }
    {
        match &self.index {
            EdgeIndex::Tree(tree) => find_around(alloc, tree, &self.outline.edges, bounds),
            EdgeIndex::Runs(boxes) => runs_around(alloc, boxes, &self.outline.edges, bounds),
            EdgeIndex::None => scan_around(alloc, &self.outline.edges, bounds),
        }
    }

    /// The scan of all edges at a point.
    fn scan_at(&self, p: &Place) -> Scan
        ensures { IsScan self.now.edges.items (point_of p.now) result }
    {
        if let Some(root) = self.root() {
            return scan_of(root, &self.outline.edges, p);
        }
        match self.run_boxes() {
            Some(boxes) => scan_by_runs(boxes, &self.outline.edges, p),
            None => self.outline.scan_at(p),
        }
    }

    /// The number of the points, or of the ends of polylines, that equal a point.
    pub fn count_at(&self, p: &Place) -> usize
        ensures { result ≡ count_at self.now.ends.items (point_of p.now) }
    {
        match &self.ordered_ends {
            Some(ordered) => count_at(ordered, p),
            None => self.outline.count_at(p),
        }
    }

    /// Some of the points, or of the ends of polylines, among them all that are on an edge.
    pub fn ends_along(&self, e: &Edge) -> &[Vertex]
        ensures { AreAlong e.now self.now.ends.items result.now }
    {
        match &self.ordered_ends {
            Some(ordered) => between(ordered, e),
            None => &self.outline.ends,
        }
    }

    /// Whether one of the points, or of the ends of polylines, is on an edge.
    pub fn has_end_on(&self, e: &Edge) -> bool
        ensures { result ≡ list_any (λ v. is_on e.now (at v)) self.now.ends.items }
    {
        match &self.ordered_ends {
            Some(ordered) => is_any_between(ordered, e),
            None => is_any_on(&self.outline.ends, e),
        }
    }

    /// The part in which a point lies, and the part just above it.
    pub fn standing_at(&self, p: &Place) -> Standing
        // those of the outline
        ensures part { result.part ≡ outline_part self.now (point_of p.now) }
        ensures above { result.above ≡ outline_above self.now (point_of p.now) }
    {
        let scan = self.scan_at(p);
        self.outline.standing_by(scan, self.count_at(p))
    }
}
