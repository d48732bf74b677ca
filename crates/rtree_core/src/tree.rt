//! The tree: its root, and the edits and queries of the whole.

ghost use Rattle.std.specs.Prelude.{◌≡◌, ◌+◌, ◌≤◌, [], ◌∷◌, length, vec_len, IsSome, OnOk, OnErr};
ghost use Rattle.std.specs.Prelude.{option_copied};

use crate::editable_tree::EditableTree;
use crate::free_lists::FreeLists;
use crate::node::{Entry, Node};
use crate::pack::pack_entries;
use crate::window::{Window, collect};
use split_core::split::MOST;
use split_core::tile::{tile, tile_by_threads};
use std::alloc::{AllocError, Global};
use std::marker::Model;
use std::thread::Threads;

/// Guttman's R-tree over entries with distinct numbers.
///
/// Every node other than the root has 3 to 8 entries or children. A root that is a leaf has 1 to 8
/// entries, and an inner root has 2 to 8 children. All leaves are on one level (Guttman 1984, 2).
#[derive(Drop)]
pub struct RTree {
    tree: EditableTree,
    len: usize,
    /// The nodes that a removal has set aside; there are none between edits.
    aside: Vec<Node>,
}

impl Model for RTree {
    ghost use Rattle.std.specs.Prelude.{Option};
    ghost use Rattle.rtree_core.specs.declared.node.Node.{Node};
    ghost use Rattle.std.specs.Coded.{coded_option};
    ghost use Rattle.rtree_core.specs.contracts.node.Node as node;

    ghost Value = { Option Node };

    ghost coded = { coded_option node.the_row.coded };

    ghost use Rattle.rtree_core.specs.TreeInvariant.{IsConsistent};

    ghost view = { λ t. t.tree.root };

    ghost invariant = { IsConsistent };
}

impl RTree {
    ghost use Rattle.std.specs.Prelude.{◌≡◌, ◌↔◌, ℕ, ◌≤◌, None, count_by, length, IsTrue, IsFalse};
    ghost use Rattle.std.specs.Prelude.{Contains, OnOk, OnErr, IfOk, IfSome, option_copied};
    ghost use Rattle.split_core.specs.Collections.{HasSame, Gains};
    ghost use Rattle.split_core.specs.Tiles.{IsTileOrder};
    ghost use Rattle.rtree_core.specs.Packed.{IsPacked};
    ghost use Rattle.rtree_core.specs.Packings.{IsPackingOf, IsPackedHeight};
    ghost use Rattle.rtree_core.specs.Trees.{entries_in, height_of, has_number, IsTree, IsFresh};
    ghost use Rattle.rtree_core.specs.Windows.{AllMet, AllFound};
    ghost use Rattle.std.specs.List.Sorted.{IsStrictlyIncreasing};

    /// The empty tree.
    pub fn new(alloc: Global) -> RTree
        ensures { result ≡ None }
    {
        RTree {
            tree: EditableTree::new(alloc),
            len: 0,
            aside: Vec::new(alloc),
        }
    }

    /// Packs entries with distinct numbers by Sort-Tile-Recursive (Leutenegger, Lopez and Edgington
    /// 1997).
    ///
    /// Each node below the root has 4 to 8 entries or children. On an error, the entries are
    /// dropped.
    pub fn pack(alloc: Global, mut entries: Vec<Entry>) -> Result<RTree, AllocError>
        requires distinct { (k : ℕ) → count_by (has_number k) entries.items ≤ 1 }
        // exactly those of the list
        ensures entries { IfOk result (λ t. HasSame entries.items (entries_in t)) }
        // the tree of Sort-Tile-Recursive, by any number of threads: the entries in tile order,
        // ranked by number, are cut into the lists of the leaves, and the nodes of a level in tile
        // order, ranked by place, into those of the nodes above, until there is one
        ensures packing { IfOk result (λ t. IfSome t (IsPackingOf entries.items)) }
        // each node below the root has at least 4 entries or children
        ensures packed { IfOk result (λ t. IfSome t IsPacked) }
        // it has no more levels than its entries need
        ensures height { IfOk result (λ t. IsPackedHeight (length entries.items) (height_of t)) }
    {
        tile(&mut entries);
        RTree::from_pages(alloc, entries)
    }

    /// Packs entries into the same tree as `pack` does, with at most `threads` threads.
    ///
    /// 0 and 1 start no thread. On an error, the entries are dropped.
    pub fn pack_by_threads<R: Threads + Sync>(
        alloc: Global,
        mut entries: Vec<Entry>,
        threads: u32,
        rt: &R,
    ) -> Result<RTree, AllocError>
        requires distinct { (k : ℕ) → count_by (has_number k) entries.items ≤ 1 }
        // as of `RTree::pack`
        ensures entries { IfOk result (λ t. HasSame entries.items (entries_in t)) }
        ensures packing { IfOk result (λ t. IfSome t (IsPackingOf entries.items)) }
        ensures packed { IfOk result (λ t. IfSome t IsPacked) }
        ensures height { IfOk result (λ t. IsPackedHeight (length entries.items) (height_of t)) }
    {
        tile_by_threads(rt, threads, &mut entries);
        RTree::from_pages(alloc, entries)
    }

    /// The height of the tree packed from `entries` entries.
    pub fn packed_height(entries: u32) -> u32
        ensures { IsPackedHeight entries result }
    {
        if entries == 0 {
            return 0;
        }
        let mut height = 1;
        // The greatest number of entries of a tree of `height` levels.
        let mut room = MOST as u64;
        while room < u64::from(entries) {
            room *= MOST as u64;
            height += 1;
        }
        height
    }

    /// The packed tree of entries in the order of their pages.
    fn from_pages(alloc: Global, entries: Vec<Entry>) -> Result<RTree, AllocError>
        requires distinct { (k : ℕ) → count_by (has_number k) entries.items ≤ 1 }
        requires order { IsTileOrder (λ e. e.shape) (λ e. e.number) entries.items }
        ensures entries { IfOk result (λ t. HasSame entries.items (entries_in t)) }
        ensures packing { IfOk result (λ t. IfSome t (IsPackingOf entries.items)) }
        ensures packed { IfOk result (λ t. IfSome t IsPacked) }
        ensures height { IfOk result (λ t. IsPackedHeight (length entries.items) (height_of t)) }
    {
        if entries.is_empty() {
            return Ok(RTree::new(alloc));
        }
        let len = entries.len();
        let (root, height) = pack_entries(alloc, entries)?;
        let tree = EditableTree {
            root: Some(root),
            height,
            free: FreeLists::new(alloc),
        };
        Ok(RTree {
            tree,
            len,
            aside: Vec::new(alloc),
        })
    }

    /// The root, or `None` if the tree is empty.
    pub fn root(&self) -> Option<&Node>
        // the root, or none where the tree is empty
        ensures root { option_copied result ≡ self.now }
        // every tree keeps Guttman's bounds of 3 and 8, tight bounding boxes, and its leaves on one
        // level
        ensures lawful { IsTree self.now }
    {
        self.tree.root.as_ref()
    }

    /// The number of entries.
    pub fn len(&self) -> usize
        ensures { result ≡ length (entries_in self.now) }
    {
        self.len
    }

    /// Whether the tree holds no entry.
    pub fn is_empty(&self) -> bool
        ensures { IsTrue result ↔ (self.now ≡ None) }
    {
        self.tree.root.is_none()
    }

    /// The number of levels: 0 for the empty tree, 1 if the root is a leaf.
    pub fn height(&self) -> u32
        ensures { result ≡ height_of self.now }
    {
        self.tree.height
    }

    /// Inserts an entry whose number the tree doesn't hold.
    ///
    /// On an error, the tree is unchanged.
    pub fn insert(&mut self, entry: Entry) -> Result<(), AllocError>
        requires { IsFresh entry.number self.old }
        // the entries gain exactly this one
        ensures ok { OnOk result (Gains entry (entries_in self.old) (entries_in self.new)) }
        // where memory is refused, the tree is as it was
        ensures err { OnErr result (self.new ≡ self.old) }
    {
        self.tree.reserve_lists(1)?;
        self.tree.insert_entry(entry);
        self.len += 1;
        Ok(())
    }

    /// Removes the entry with this shape and number, and returns whether the tree held it.
    ///
    /// On an error, the tree is unchanged.
    pub fn remove(&mut self, entry: &Entry) -> Result<bool, AllocError>
        // true exactly where an equal entry was held
        ensures held { let there = Contains (entries_in self.old) entry.now in
            IfOk result (λ removed. IsTrue removed ↔ there) }
        // then the entries lose exactly that one
        ensures loses { let lost = Gains entry.now (entries_in self.new) (entries_in self.old) in
            IfOk result (λ removed. IsTrue removed → lost) }
        // otherwise the tree is as it was
        ensures unchanged { IfOk result (λ removed. IsFalse removed → self.new ≡ self.old) }
        ensures err { OnErr result (self.new ≡ self.old) }
    {
        let levels = self.tree.height.saturating_sub(1);
        self.aside.reserve(levels as usize)?;
        self.tree.reserve_lists(2 * levels)?;
        let removed = self.tree.remove(entry, &mut self.aside);
        if removed {
            self.len -= 1;
        }
        Ok(removed)
    }

    /// The numbers of the entries whose shapes meet the window, ascending. A `Shape` is a window.
    pub fn window<W: Window>(&self, alloc: Global, window: &W) -> Result<Vec<u32>, AllocError>
        // exactly the numbers of the entries that meet the window, ascending
        ensures rising { IfOk result (λ v. IsStrictlyIncreasing v.items) }
        ensures met { let window = W.shape_of window.now in
            IfOk result (λ v. AllMet window (entries_in self.now) v.items) }
        ensures all { let window = W.shape_of window.now in
            IfOk result (λ v. AllFound window (entries_in self.now) v.items) }
    {
        let mut found = Vec::new(alloc);
        let Some(root) = &self.tree.root else {
            return Ok(found);
        };
        collect(root, window, &mut found)?;
        found.sort_unstable();
        Ok(found)
    }
}
