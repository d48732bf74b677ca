//! Packing by Sort-Tile-Recursive: building a tree from all its entries at once.
//!
//! The items of a level, initially the entries, are divided into P pages of at most eight. They are
//! cut into slices of √P pages, rounded up, by the centres of their covers along the first axis;
//! each slice is sorted along the second axis and cut into its pages. Page sizes differ by at most
//! one, larger ones first. The pages are the items of the next level, until there is only one, the
//! root (Leutenegger, Lopez and Edgington 1997, 2.2). Ties are broken by number, and among nodes by
//! their positions.

ghost use Rattle.std.specs.Prelude.{◌≡◌, ℕ, ◌+◌, ◌<◌, ◌≤◌, ◌++◌, map, length};
ghost use Rattle.std.specs.Prelude.{vec_len, vec_capacity, count_by, All, IfOk, OnOk};
ghost use Rattle.std.specs.List.{enumerate_from};
ghost use Rattle.std.specs.Vec.Iter.{into_iter_items, into_iter_len};
ghost use Rattle.rtree_core.specs.Items.{FitsInner};
ghost use Rattle.rtree_core.specs.Nodes.{children_of, entries_of};
ghost use Rattle.rtree_core.specs.Packed.{AreNodesOf, FitsPacked, IsNextPage, IsPackedTree};
ghost use Rattle.rtree_core.specs.Packed.{IsShare};
ghost use Rattle.rtree_core.specs.Packings.{pages_of, AreTilesOf};
ghost use Rattle.rtree_core.specs.Trees.{has_number};
ghost use Rattle.split_core.specs.Limits.{most};
ghost use Rattle.split_core.specs.Tiles.{items_before, IsTileOrder};

use crate::item::Item;
use crate::node::{Entry, Node};
use geom_core::Shape;
use split_core::measures::Covered;
use split_core::split::MOST;
use split_core::tile::{Ranked, items_in, tile};
use std::alloc::{AllocError, Global};
use std::vec::IntoIter;

/// An item that is packed into a level: an entry, or a node of the level below.
pub(crate) trait Packable: Ranked + Drop {
    ghost use Rattle.std.specs.Prelude.{◌≡◌};

    /// The part of the item that the node of the level holds.
    type Held: Item;

    ghost held: { Self → Self.Held };

    /// The numbers of a value of the type are in the ranges of their types.
    ghost in_range: { Self.Held → Type 0 };

    /// Drops the data that only the sorts read.
    fn into_held(self) -> Self::Held
        ensures held { result ≡ held self }
        ensures in_range { in_range (held self) };
}

impl Ranked for Entry {
    ghost rank_of = { λ e. e.number };

    #[inline(always)]
    fn rank(&self) -> usize {
        self.number as usize
    }
}

impl Packable for Entry {
    ghost use Rattle.rtree_core.specs.Packed.{HasU32};

    type Held = Entry;

    ghost held = { λ e. e };

    ghost in_range = { HasU32 };

    #[inline(always)]
    fn into_held(self) -> Entry {
        self
    }
}

/// A node with its position in the list of its level.
#[derive(Drop)]
pub(crate) struct Placed {
    node: Node,
    place: usize,
}

impl Covered for Placed {
    ghost cover = { λ p. p.node.cover };

    #[inline(always)]
    fn cover(&self) -> Shape {
        self.node.cover
    }
}

impl Ranked for Placed {
    ghost rank_of = { λ p. p.place };

    #[inline(always)]
    fn rank(&self) -> usize {
        self.place
    }
}

impl Packable for Placed {
    type Held = Node;

    ghost held = { λ p. p.node };

    ghost in_range = { λ _. Unit {0} };

    #[inline(always)]
    fn into_held(self) -> Node {
        self.node
    }
}

/// The size of the first of `pages` pages that share `items` items.
fn page_size(items: usize, pages: usize) -> usize
    requires { 0 < pages }
    ensures value { result ≡ items_before 1 pages items }
    ensures share { IsShare result items pages }
{
    items_in(1, pages, items)
}

/// Moves the first `size` items into a list with a capacity one more than the greatest node size.
fn next_page<T: Packable>(
    alloc: Global,
    items: &mut IntoIter<T, Global>,
    size: usize,
) -> Result<Vec<T::Held>, AllocError>
    requires enough { size ≤ into_iter_len items.old }
    requires few { size ≤ most }
    ensures page { let old = into_iter_items items.old in
        let new = into_iter_items items.new in
        IfOk result (IsNextPage T.held T.in_range size old new) }
    ensures rest { OnOk result (into_iter_len items.new + size ≡ into_iter_len items.old) }
{
    let mut page = Vec::with_capacity(alloc, MOST + 1)?;
    for _ in 0..size {
        let Some(item) = items.next() else {
            unreachable!()
        };
        let held = item.into_held();
        page.push_reserved(held);
    }
    Ok(page)
}

/// The nodes of a level, made of their items in the order of their pages.
fn nodes_of<T: Packable>(alloc: Global, items: Vec<T>) -> Result<Vec<Placed>, AllocError>
    ensures nodes { let held = map T.held items.items in
        let AreNodes = AreNodesOf T.Held.entries T.Held.fits T.Held.fits_packed held in
        IfOk result (λ v. AreNodes (map (λ p. p.node) v.items)) }
    ensures pages { let pages = pages_of (map T.held items.items) in
        IfOk result (λ v. map T.Held.list_of (map (λ p. p.node) v.items) ≡ pages) }
    ensures places { IfOk result (λ v.
        map (λ p. (p.place, p.node)) v.items ≡ enumerate_from 0 (map (λ p. p.node) v.items)) }
    ensures in_range { OnOk result (All T.in_range (map T.held items.items)) }
{
    let count = items.len();
    let pages = count.div_ceil(MOST);
    let mut rest = items.into_iter();
    let mut nodes = Vec::with_capacity(alloc, pages)?;
    for place in 0..pages {
        let left = rest.len();
        let size = page_size(left, pages - place);
        let page = next_page(alloc, &mut rest, size)?;
        let node = T::Held::node_of(page);
        nodes.push_reserved(Placed { node, place });
    }
    Ok(nodes)
}

/// The nodes of the level above some nodes.
fn level_above(alloc: Global, mut nodes: Vec<Placed>) -> Result<Vec<Placed>, AllocError>
    ensures nodes { let held = map (λ p. p.node) nodes.items in
        let AreNodes = AreNodesOf entries_of FitsInner FitsPacked held in
        IfOk result (λ v. AreNodes (map (λ p. p.node) v.items)) }
    ensures tiles { let AreTiles = AreTilesOf (λ p. p.node.cover) (λ p. p.place) (λ p. p.node)
        children_of nodes.items in
        IfOk result (λ v. AreTiles (map (λ p. p.node) v.items)) }
    ensures places { IfOk result (λ v.
        map (λ p. (p.place, p.node)) v.items ≡ enumerate_from 0 (map (λ p. p.node) v.items)) }
{
    tile(&mut nodes);
    nodes_of(alloc, nodes)
}

/// The root of the packed tree of entries in the order of their pages, and its height.
pub(crate) fn pack_entries(alloc: Global, entries: Vec<Entry>) -> Result<(Node, u32), AllocError>
    requires some { 0 < vec_len entries }
    requires distinct { (k : ℕ) → count_by (has_number k) entries.items ≤ 1 }
    requires order { IsTileOrder (λ e. e.shape) (λ e. e.number) entries.items }
    ensures { IfOk result (λ r. IsPackedTree entries.items r.0 r.1) }
{
    let mut nodes = nodes_of(alloc, entries)?;
    let mut height = 1;
    while nodes.len() > 1 {
        let above = level_above(alloc, nodes)?;
        nodes = above;
        height += 1;
    }
    match nodes.pop() {
        Some(root) => Ok((root.into_held(), height)),
        None => unreachable!(),
    }
}
