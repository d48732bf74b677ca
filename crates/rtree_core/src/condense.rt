//! Condensing after a removal: the items of nodes set aside are inserted again, and a root with a
//! single child is replaced by it.

use crate::editable_tree::EditableTree;
use crate::insert::Insertable;
use crate::node::{Below, Node};

impl EditableTree {
    ghost use Rattle.std.specs.Prelude.{◌≡◌, ◌+◌, ◌*◌, ◌<◌, ◌≤◌, [], length, vec_len, All};
    ghost use Rattle.std.specs.List.{flat_map};
    ghost use Rattle.rtree_core.specs.Nodes.{entries_of, size_of, IsLawfulAt};
    ghost use Rattle.rtree_core.specs.Removals.{AreAside};
    ghost use Rattle.rtree_core.specs.Trees.{entries_in};
    ghost use Rattle.rtree_core.specs.EditableTrees.{IsSound, IsRooted, CanTake, HasTakenIn};

    /// Inserts the items of the nodes set aside again, lowest level first (Guttman 1984, 3.3, CT6).
    pub(crate) fn reinsert(&mut self, aside: &mut Vec<Node>)
        requires sound { IsSound self.old }
        requires are_aside { AreAside aside.old.items }
        requires above { length aside.old.items + 1 ≤ self.old.height }
        requires can_take { CanTake (2 * length aside.old.items) self.old }
        ensures taken_in { let added = flat_map entries_of aside.old.items in
            HasTakenIn (2 * length aside.old.items) added self.old self.new }
        ensures none_aside { aside.new.items ≡ [] }
    {
        let mut level = 0;
        while !aside.is_empty() {
            let node = aside.remove(0);
            self.reinsert_node(node, level);
            level += 1;
        }
    }

    /// Inserts the items of a node of a level again.
    fn reinsert_node(&mut self, node: Node, level: u32)
        requires sound { IsSound self.old }
        requires lawful { IsLawfulAt level node }
        requires level { level < self.old.height }
        requires can_take { CanTake (size_of node) self.old }
        ensures { HasTakenIn (size_of node) (entries_of node) self.old self.new }
    {
        let below = node.below;
        match below {
            Below::Entries(entries) => self.insert_all(entries, level),
            Below::Children(children) => self.insert_all(children, level),
        }
    }

    /// Inserts items in turn, each into a node of a level of the tree.
    fn insert_all<T: Insertable>(&mut self, items: Vec<T>, level: u32)
        requires sound { IsSound self.old }
        requires fit { All (T.fits level) items.items }
        requires level { level < self.old.height }
        requires can_take { CanTake (vec_len items) self.old }
        ensures { HasTakenIn (vec_len items) (flat_map T.entries items.items) self.old self.new }
    {
        for item in items {
            self.insert(item, level);
        }
    }

    /// If the root is an inner node with a single child, makes the child the root.
    pub(crate) fn collapse(&mut self)
        requires { IsSound self.old }
        ensures rooted { IsRooted self.new }
        ensures entries { entries_in self.new.root ≡ entries_in self.old.root }
    {
        let Some(root) = &mut self.root else { return };
        if let Some(child) = root.take_lone_child() {
            self.root = Some(child);
            self.height -= 1;
        }
    }
}
