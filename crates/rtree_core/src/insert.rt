//! Insertion of an item into a subtree: descending by least enlargement, and ascending with the
//! nodes split off.

ghost use Rattle.std.specs.Prelude.{◌≡◌, ◌+◌, ◌-◌, ◌≤◌, ◌++◌, ◌∷◌, [], vec_len, MatchOption};
ghost use Rattle.rtree_core.specs.Insertions.{IsHalved, IsInserted};
ghost use Rattle.rtree_core.specs.Items.{leaf_node, inner_node, FitsInner, IsNodeList};
ghost use Rattle.split_core.specs.Limits.{most};
ghost use Rattle.rtree_core.specs.Nodes.{entries_of, level_of, IsPage, IsLawful};
ghost use Rattle.rtree_core.specs.FreeLists.{HasFree, HasSpent, IsReady, IsSpent};

use crate::free_lists::{FreeLists, take_list};
use crate::item::Item;
use crate::node::{Below, Entry, Node};
use geom_core::Shape;
use split_core::choices::choose;
use split_core::measures::cover_all;
use split_core::split::{MOST, split};
use std::mem;

/// An item that can be inserted into the list of a node.
pub(crate) trait Insertable: Item {
    ghost use Rattle.rtree_core.specs.Insertions.{IsInserted};
    ghost use Rattle.rtree_core.specs.Nodes.{level_of, IsLawful};
    ghost use Rattle.rtree_core.specs.FreeLists.{IsReady, IsSpent};

    /// Appends the item to a node's list, and returns the node's second half if it was split.
    fn add_to(self, node: &mut Node, free: &mut FreeLists) -> Option<Node>
        requires lawful { IsLawful node.old }
        requires fits { Self.fits (level_of node.old) self }
        requires ready { IsReady (level_of node.old) free.old }
        ensures inserted { let added = Self.entries self in
            IsInserted added (Self.cover self) node.old node.new result }
        ensures spent { IsSpent (level_of node.old) free.old free.new };
}

impl Insertable for Entry {
    fn add_to(self, node: &mut Node, free: &mut FreeLists) -> Option<Node> {
        match &mut node.below {
            Below::Entries(entries) => add_entry(&mut node.cover, entries, self, &mut free.leaves),
            Below::Children(_) => unreachable!(),
        }
    }
}

impl Insertable for Node {
    fn add_to(self, node: &mut Node, free: &mut FreeLists) -> Option<Node> {
        match &mut node.below {
            Below::Entries(_) => unreachable!(),
            Below::Children(children) => add_child(
                &mut node.cover,
                children,
                self,
                &mut free.inners,
            ),
        }
    }
}

/// Appends an entry to a leaf's list, and returns the leaf's second half if it was split.
fn add_entry(
    cover: &mut Shape,
    entries: &mut Vec<Entry>,
    entry: Entry,
    free: &mut Vec<Vec<Entry>>,
) -> Option<Node>
    requires lawful { IsPage (λ e. e.shape) cover.old entries.old }
    requires free { HasFree 2 free.old }
    ensures inserted { let old = leaf_node cover.old entries.old in
        IsInserted (entry ∷ []) entry.shape old (leaf_node cover.new entries.new) result }
    ensures spent { HasSpent 1 free.old free.new }
{
    add(cover, entries, entry, free)
}

/// Appends a node to its parent's list, and returns the parent's second half if it was split.
fn add_child(
    cover: &mut Shape,
    children: &mut Vec<Node>,
    child: Node,
    free: &mut Vec<Vec<Node>>,
) -> Option<Node>
    requires lawful { IsLawful (inner_node cover.old children.old) }
    requires fits { FitsInner (level_of (inner_node cover.old children.old)) child }
    requires free { HasFree (level_of (inner_node cover.old children.old) + 1) free.old }
    ensures inserted { let old = inner_node cover.old children.old in
        IsInserted (entries_of child) child.cover old (inner_node cover.new children.new) result }
    ensures spent { HasSpent 1 free.old free.new }
{
    add(cover, children, child, free)
}

/// Appends an item to a node's list, and returns the node's second half if it was split.
fn add<T: Item>(
    cover: &mut Shape,
    list: &mut Vec<T>,
    item: T,
    free: &mut Vec<Vec<T>>,
) -> Option<Node>
    requires list { IsNodeList list.old }
    requires free { HasFree 2 free.old }
    ensures page { IsPage T.cover cover.new list.new }
    ensures items { let all = list.old.items ++ item ∷ [] in
        MatchOption result (list.new.items ≡ all)
        (IsHalved T.cover T.entries T.fits all list.new.items) }
    ensures spent { HasSpent 1 free.old free.new }
{
    list.push_reserved(item);
    let second = if list.len() <= MOST {
        None
    } else {
        Some(halve(list, free))
    };
    *cover = cover_all(list);
    second
}

/// Splits a list of nine, which keeps the first group, and returns the node of the second.
fn halve<T: Item>(list: &mut Vec<T>, free: &mut Vec<Vec<T>>) -> Node
    requires nine { vec_len list.old ≡ most + 1 }
    requires free { HasFree 2 free.old }
    ensures list { IsNodeList list.new }
    ensures halved { IsHalved T.cover T.entries T.fits list.old.items list.new.items result }
    ensures spent { HasSpent 1 free.old free.new }
{
    let mut one = take_list(free);
    let mut two = take_list(free);
    split(list, &mut one, &mut two);
    let second = T::node_of(two);
    let emptied = mem::replace(list, one);
    free.push_reserved(emptied);
    second
}

/// Inserts an item into a node that is `steps` levels below this one, or into this one if `steps`
/// is 0, and returns the second half of this one if it was split.
#[cycle(insertion)]
pub(crate) fn insert_into<T: Insertable>(
    node: &mut Node,
    item: T,
    steps: u32,
    free: &mut FreeLists,
) -> Option<Node>
    requires lawful { IsLawful node.old }
    requires steps { steps ≤ level_of node.old }
    requires fits { T.fits (level_of node.old - steps) item }
    requires ready { IsReady (level_of node.old) free.old }
    ensures inserted { IsInserted (T.entries item) (T.cover item) node.old node.new result }
    ensures spent { IsSpent (level_of node.old) free.old free.new }
{
    if steps == 0 {
        return item.add_to(node, free);
    }
    match &mut node.below {
        Below::Entries(_) => unreachable!(),
        Below::Children(children) => insert_below(&mut node.cover, children, item, steps - 1, free),
    }
}

/// Inserts an item into the subtree of the child that needs the least enlargement to include it,
/// `steps` levels below that child.
#[cycle(insertion)]
fn insert_below<T: Insertable>(
    cover: &mut Shape,
    children: &mut Vec<Node>,
    item: T,
    steps: u32,
    free: &mut FreeLists,
) -> Option<Node>
    requires lawful { IsLawful (inner_node cover.old children.old) }
    requires steps { steps + 1 ≤ level_of (inner_node cover.old children.old) }
    requires fits { T.fits (level_of (inner_node cover.old children.old) - (steps + 1)) item }
    requires ready { IsReady (level_of (inner_node cover.old children.old)) free.old }
    ensures inserted { let old = inner_node cover.old children.old in
        IsInserted (T.entries item) (T.cover item) old (inner_node cover.new children.new) result }
    ensures spent { IsSpent (level_of (inner_node cover.old children.old)) free.old free.new }
{
    let shape = item.cover();
    let place = choose(children, &shape);
    let child = &mut children[place];
    let split = insert_into(child, item, steps, free);
    match split {
        None => {
            *cover = cover.cover(&shape);
            None
        }
        Some(second) => add(cover, children, second, &mut free.inners),
    }
}
