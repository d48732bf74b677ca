//! Removal of an entry from a tree and a subtree; nodes left with too few items are set aside.

ghost use Rattle.std.specs.Prelude.{◌≡◌, ◌+◌, ◌≤◌, ◌↔◌, [], vec_len, vec_capacity, All, Contains};
ghost use Rattle.std.specs.Prelude.{IsTrue, IsFalse, IsSome, IfSome, IfNone};
ghost use Rattle.std.specs.List.{flat_map};
ghost use Rattle.rtree_core.specs.Items.{leaf_node, inner_node};
ghost use Rattle.rtree_core.specs.Nodes.{entries_of, level_of, size_of, IsPage, IsLawful};
ghost use Rattle.rtree_core.specs.Removals.{CanTakeOut, IsPlaceOf, IsTakenBelow, IsTakenOut};

use crate::editable_tree::EditableTree;
use crate::node::{Below, Entry, Node};
use geom_core::Shape;
use split_core::measures::cover_all;
use split_core::split::FEWEST;

impl EditableTree {
    ghost use Rattle.std.specs.Prelude.{◌≡◌, ◌+◌, ◌-◌, ◌*◌, ◌≤◌, ◌↔◌, [], ◌∷◌, None, vec_capacity};
    ghost use Rattle.std.specs.Prelude.{Contains, IsTrue, IsFalse, IsSomeAnd};
    ghost use Rattle.split_core.specs.Collections.{Gains};
    ghost use Rattle.rtree_core.specs.Nodes.{size_of, IsLawfulAt};
    ghost use Rattle.rtree_core.specs.Trees.{entries_in};
    ghost use Rattle.rtree_core.specs.EditableTrees.{IsRooted, CanRemove};

    /// Removes an entry, and returns whether it was there.
    pub(crate) fn remove(&mut self, entry: &Entry, aside: &mut Vec<Node>) -> bool
        requires { CanRemove self.old aside.old }
        ensures rooted { IsRooted self.new }
        ensures held { IsTrue result ↔ Contains (entries_in self.old.root) entry.now }
        ensures loses { let old = entries_in self.old.root in
            let new = entries_in self.new.root in
            IsTrue result → Gains entry.now new old }
        ensures unchanged { IsFalse result → self.new.root ≡ self.old.root }
        ensures none_aside { aside.new.items ≡ [] }
    {
        let Some(node) = &mut self.root else {
            return false
        };
        if node.size() < 2 {
            return self.remove_last(entry);
        }
        if !take_out(node, entry, aside) {
            return false;
        }
        self.reinsert(aside);
        self.collapse();
        true
    }

    /// Empties a tree whose only entry is this one.
    fn remove_last(&mut self, entry: &Entry) -> bool
        requires leaf { IsSomeAnd self.old.root (λ n. IsLawfulAt 0 n × (size_of n ≡ 1)) }
        ensures held { IsTrue result ↔ Contains (entries_in self.old.root) entry.now }
        ensures last { IsTrue result → entries_in self.old.root ≡ entry.now ∷ [] }
        ensures emptied { IsTrue result → self.new ≡ record self.old { root = None; height = 0 } }
        ensures unchanged { IsFalse result → self.new ≡ self.old }
    {
        let Some(leaf) = &self.root else { return false };
        if leaf.entries()[0] != *entry {
            return false;
        }
        self.root = None;
        self.height = 0;
        true
    }
}

/// Removes an entry from the subtree of a node that has at least two items, and returns whether it
/// was there.
///
/// Nodes below it that are left with fewer than three items are moved to `aside`, lowest level
/// first.
#[cycle(removal)]
pub(crate) fn take_out(node: &mut Node, entry: &Entry, aside: &mut Vec<Node>) -> bool
    requires can_take_out { CanTakeOut (vec_capacity aside.old) node.old }
    requires none_aside { aside.old.items ≡ [] }
    ensures held { IsTrue result ↔ Contains (entries_of node.old) entry.now }
    ensures taken { IsTrue result → IsTakenOut entry.now node.old node.new aside.new.items }
    ensures unchanged { IsFalse result → (node.new ≡ node.old) × (aside.new.items ≡ []) }
    ensures capacity { vec_capacity aside.new ≡ vec_capacity aside.old }
{
    match &mut node.below {
        Below::Entries(entries) => take_from_leaf(&mut node.cover, entries, entry),
        Below::Children(children) => take_from_inner(&mut node.cover, children, entry, aside),
    }
}

/// Removes an entry from a leaf's list, and returns whether it was there.
fn take_from_leaf(cover: &mut Shape, entries: &mut Vec<Entry>, entry: &Entry) -> bool
    requires lawful { IsPage (λ e. e.shape) cover.old entries.old }
    requires two { 2 ≤ vec_len entries.old }
    ensures held { let old = leaf_node cover.old entries.old in
        IsTrue result ↔ Contains (entries_of old) entry.now }
    ensures taken { let old = leaf_node cover.old entries.old in
        IsTrue result → IsTakenOut entry.now old (leaf_node cover.new entries.new) [] }
    ensures unchanged { IsFalse result → (cover.new ≡ cover.old) × (entries.new ≡ entries.old) }
{
    let Some(place) = place_of(entries, entry) else {
        return false;
    };
    let _ = entries.remove(place);
    *cover = cover_all(entries);
    true
}

/// Removes an entry from the subtree of one of a node's children, and that child from the list if
/// it is left with fewer than three items. Returns whether the entry was there.
#[cycle(removal)]
fn take_from_inner(
    cover: &mut Shape,
    children: &mut Vec<Node>,
    entry: &Entry,
    aside: &mut Vec<Node>,
) -> bool
    requires can_take_out { let old = inner_node cover.old children.old in
        CanTakeOut (vec_capacity aside.old) old }
    requires none_aside { aside.old.items ≡ [] }
    ensures held { let old = inner_node cover.old children.old in
        IsTrue result ↔ Contains (entries_of old) entry.now }
    ensures taken { let old = inner_node cover.old children.old in
        let new = inner_node cover.new children.new in
        IsTrue result → IsTakenOut entry.now old new aside.new.items }
    ensures unchanged { IsFalse result →
        (cover.new ≡ cover.old) × (children.new ≡ children.old) × (aside.new.items ≡ []) }
    ensures capacity { vec_capacity aside.new ≡ vec_capacity aside.old }
{
    let found = take_from_one(children, entry, aside);
    let Some(place) = found else {
        return false;
    };
    let node = &children[place];
    let is_short = node.size() < FEWEST;
    if is_short {
        let child = children.remove(place);
        aside.push_reserved(child);
    }
    *cover = cover_all(children);
    true
}

/// Removes an entry from the subtree of one of these nodes, and returns the index of that node.
#[cycle(removal)]
fn take_from_one(nodes: &mut [Node], entry: &Entry, aside: &mut Vec<Node>) -> Option<usize>
    requires can_take_out { All (CanTakeOut (vec_capacity aside.old)) nodes.old }
    requires none_aside { aside.old.items ≡ [] }
    ensures held { IsSome result ↔ Contains (flat_map entries_of nodes.old) entry.now }
    ensures taken { IfSome result (IsTakenBelow entry.now nodes.old nodes.new aside.new.items) }
    ensures unchanged { IfNone result ((nodes.new ≡ nodes.old) × (aside.new.items ≡ [])) }
    ensures capacity { vec_capacity aside.new ≡ vec_capacity aside.old }
{
    for (place, node) in nodes.iter_mut().enumerate() {
        let may_hold = entry.shape.is_in(&node.cover);
        if may_hold && take_out(node, entry, aside) {
            return Some(place);
        }
    }
    None
}

/// The index of an entry in a list.
fn place_of(entries: &[Entry], entry: &Entry) -> Option<usize>
    ensures found { IfSome result (IsPlaceOf entries.now entry.now) }
    ensures none { IfNone result (Contains entries.now entry.now → ⊥) }
{
    for (place, other) in entries.iter().enumerate() {
        if other == entry {
            return Some(place);
        }
    }
    None
}
