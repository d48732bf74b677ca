//! A root with its height and the free lists that edits use, and insertion into it.

use crate::free_lists::{FreeLists, fill, take_list};
use crate::insert::{Insertable, insert_into};
use crate::item::Item;
use crate::node::{Entry, Node};
use std::alloc::{AllocError, Global};

/// A root with its height, and the free lists that edits use.
#[derive(Drop)]
pub(crate) struct EditableTree {
    pub(crate) root: Option<Node>,
    pub(crate) height: u32,
    pub(crate) free: FreeLists,
}

impl EditableTree {
    ghost use Rattle.std.specs.Prelude.{◌≡◌, ◌+◌, ◌^◌, ◌<◌, ◌≤◌, [], ◌∷◌, suc, None, vec_len};
    ghost use Rattle.std.specs.Prelude.{IsSomeAnd, OnOk};
    ghost use Rattle.rtree_core.specs.Items.{FitsInner};
    ghost use Rattle.rtree_core.specs.Nodes.{level_of};
    ghost use Rattle.rtree_core.specs.FreeLists.{AreFree};
    ghost use Rattle.rtree_core.specs.EditableTrees.{IsSound, CanTake, HasTakenIn, HasGrownBy};

    /// A tree without a root.
    pub(crate) fn new(alloc: Global) -> EditableTree
        ensures sound { IsSound result }
        ensures empty { result.root ≡ None }
    {
        EditableTree {
            root: None,
            height: 0,
            free: FreeLists::new(alloc),
        }
    }

    /// Reserves the lists that `count` insertions may need.
    ///
    /// Each insertion may split a node on every level and add a level above the root; the list of a
    /// node that is split is returned to the free lists. A tree has at most 32 levels, so the
    /// required bound on the height is never reached.
    pub(crate) fn reserve_lists(&mut self, count: u32) -> Result<(), AllocError>
        requires sound { IsSound self.old }
        requires small { self.old.height + count ≤ 1000 }
        ensures sound { IsSound self.new }
        ensures root { self.new.root ≡ self.old.root }
        ensures height { self.new.height ≡ self.old.height }
        ensures can_take { OnOk result (CanTake count self.new) }
    {
        fill(&mut self.free.leaves, count as usize + 1)?;
        fill(
            &mut self.free.inners,
            (count * (self.height + count)) as usize,
        )
    }

    /// Inserts an entry.
    pub(crate) fn insert_entry(&mut self, entry: Entry)
        requires sound { IsSound self.old }
        requires can_take { CanTake 1 self.old }
        ensures { HasTakenIn 1 (entry ∷ []) self.old self.new }
    {
        if self.root.is_none() {
            self.make_root(entry);
        } else {
            self.insert(entry, 0);
        }
    }

    /// Makes a leaf of one entry the root.
    fn make_root(&mut self, entry: Entry)
        requires sound { IsSound self.old }
        requires can_take { CanTake 1 self.old }
        requires empty { self.old.root ≡ None }
        ensures { HasTakenIn 1 (entry ∷ []) self.old self.new }
    {
        let mut entries = take_list(&mut self.free.leaves);
        entries.push_reserved(entry);
        self.root = Some(Item::node_of(entries));
        self.height = 1;
    }

    /// Inserts an item into a node of a level of the tree.
    pub(crate) fn insert<T: Insertable>(&mut self, item: T, level: u32)
        requires sound { IsSound self.old }
        requires can_take { CanTake 1 self.old }
        requires fits { T.fits level item }
        requires level { level < self.old.height }
        ensures { HasTakenIn 1 (T.entries item) self.old self.new }
    {
        let steps = self.height - 1 - level;
        match &mut self.root {
            None => unreachable!(),
            Some(root) => {
                let split = insert_into(root, item, steps, &mut self.free);
                if let Some(second) = split {
                    self.add_level(second);
                }
            }
        }
    }

    /// Makes the root and its second half the children of a new root.
    fn add_level(&mut self, second: Node)
        requires first { IsSomeAnd self.old.root (FitsInner (suc (level_of second))) }
        requires second { FitsInner (suc (level_of second)) second }
        requires low { self.old.height + 1 < 2 ^ 32 }
        requires some { 0 < vec_len self.old.free.inners }
        requires lists { AreFree self.old.free }
        ensures { HasGrownBy second self.old self.new }
    {
        let first = self.root.take().unwrap();
        let mut children = take_list(&mut self.free.inners);
        children.push_reserved(first);
        children.push_reserved(second);
        self.root = Some(Item::node_of(children));
        self.height += 1;
    }
}
