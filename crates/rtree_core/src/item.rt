//! The items of a node: entries, or the nodes of the level below.

use crate::node::{Below, Entry, Node};
use split_core::measures::{Covered, cover_all};

/// An item of a node: an entry, or a node of the level below.
pub(crate) trait Item: Covered + Drop {
    ghost use Rattle.std.specs.Prelude.{◌≡◌, ℕ, List};
    ghost use Rattle.rtree_core.specs.declared.node.Entry.{Entry};
    ghost use Rattle.rtree_core.specs.declared.node.Node.{Node};
    ghost use Rattle.rtree_core.specs.Items.{IsNodeList, IsNodeOf};
    ghost use Rattle.rtree_core.specs.Packed.{IsPackedOf};

    /// The entries of the item's subtree.
    ghost entries: { Self → List Entry };

    /// The list of items of a node of their type.
    ghost list_of: { Node → List Self };

    /// Whether a node of this level may hold the item.
    ghost fits: { ℕ → Self → Type 0 };

    /// Whether a node of this level may hold the item in a packed tree.
    ghost fits_packed: { ℕ → Self → Type 0 };

    /// The node with this list.
    fn node_of(page: Vec<Self>) -> Node
        requires { IsNodeList page }
        ensures node { IsNodeOf Self.cover entries fits page.items result }
        ensures list { list_of result ≡ page.items }
        ensures packed { IsPackedOf fits_packed page.items result };
}

impl Item for Entry {
    ghost use Rattle.std.specs.Prelude.{◌≡◌};
    ghost use Rattle.rtree_core.specs.Items.{entry_alone, FitsLeaf, IsNodeList, IsNodeOf};
    ghost use Rattle.rtree_core.specs.Nodes.{own_entries};
    ghost use Rattle.rtree_core.specs.Packed.{IsPackedOf};

    ghost entries = { entry_alone };

    ghost list_of = { own_entries };

    ghost fits = { FitsLeaf };

    ghost fits_packed = { λ _ _. Unit {0} };

    fn node_of(page: Vec<Entry>) -> Node
        requires { IsNodeList page }
        ensures node { IsNodeOf (λ e. e.shape) entry_alone FitsLeaf page.items result }
        ensures list { own_entries result ≡ page.items }
        ensures packed { IsPackedOf (λ _ _. Unit {0}) page.items result }
    {
        Node {
            cover: cover_all(&page),
            below: Below::Entries(page),
        }
    }
}

impl Item for Node {
    ghost use Rattle.std.specs.Prelude.{◌≡◌};
    ghost use Rattle.rtree_core.specs.Items.{FitsInner, IsNodeList, IsNodeOf};
    ghost use Rattle.rtree_core.specs.Nodes.{entries_of, children_of};
    ghost use Rattle.rtree_core.specs.Packed.{FitsPacked, IsPackedOf};

    ghost entries = { entries_of };

    ghost list_of = { children_of };

    ghost fits = { FitsInner };

    ghost fits_packed = { FitsPacked };

    fn node_of(page: Vec<Node>) -> Node
        requires { IsNodeList page }
        ensures node { IsNodeOf (λ n. n.cover) entries_of FitsInner page.items result }
        ensures list { children_of result ≡ page.items }
        ensures packed { IsPackedOf FitsPacked page.items result }
    {
        Node {
            cover: cover_all(&page),
            below: Below::Children(page),
        }
    }
}
