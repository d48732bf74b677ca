//! The nodes one level below a node on the way to its entries.

ghost use Rattle.std.specs.Prelude.{◌≡◌};
ghost use Rattle.rtree_core.specs.Nodes.{IsLawful};
ghost use Rattle.descent_core.specs.Depths.{lower};
ghost use Rattle.descent_core.specs.Steps.{IsOneLower};

use rtree_core::Node;
use std::slice;

/// The children of a node, or the node itself if it is a leaf.
///
/// So one rule covers all four cases of a pair of nodes, by which of the two are leaves.
pub(crate) fn lower(node: &Node) -> &[Node]
    requires { IsLawful node.now }
    ensures nodes { result.now ≡ lower node.now }
    ensures step { IsOneLower node.now result.now }
{
    let leaf = node.is_leaf();
    if leaf {
        slice::from_ref(node)
    } else {
        node.children()
    }
}
