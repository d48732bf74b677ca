//! Trees as text, node by node.

ghost use Rattle.rtree_core.specs.Nodes.{IsLawful};

use rtree_core::{Entry, Node, RTree};
use std::alloc::{AllocError, Global};
use std::fmt::Write;

/// The nodes of a tree from left to right, each before the nodes below it: its cover, its number of
/// children or that it is a leaf, and the shapes and numbers of a leaf's entries.
pub fn outline(alloc: Global, tree: &RTree) -> Result<String, AllocError> {
    let mut text = String::new(alloc);
    if let Some(root) = tree.root() {
        push_node(&mut text, root)?;
    }
    Ok(text)
}

/// Adds a node and the nodes below it.
fn push_node(text: &mut String, node: &Node) -> Result<(), AllocError>
    requires { IsLawful node.now }
{
    let cover = node.cover();
    if node.is_leaf() {
        writeln!(text, "leaf {cover:?}")?;
        return push_entries(text, node.entries());
    }
    let count = node.children().len();
    writeln!(text, "{count} children {cover:?}")?;
    for child in node.children() {
        push_node(text, child)?;
    }
    Ok(())
}

/// Adds the entries of a leaf.
fn push_entries(text: &mut String, entries: &[Entry]) -> Result<(), AllocError> {
    for entry in entries {
        writeln!(text, "{entry:?}")?;
    }
    Ok(())
}
