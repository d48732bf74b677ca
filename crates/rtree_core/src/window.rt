//! The search for the entries that meet a window.

ghost use Rattle.std.specs.Prelude.{All, OnOk};
ghost use Rattle.std.specs.List.{flat_map};
ghost use Rattle.rtree_core.specs.Nodes.{entries_of, IsLawful};
ghost use Rattle.rtree_core.specs.Windows.{Adds};

use crate::node::{Below, Entry, Node};
use geom_core::Shape;
use std::alloc::AllocError;

/// The query of a search: the shapes that meet a window. `admits` is called once for the bounding
/// box of each child of a visited node, and once for each entry of a visited leaf.
pub trait Window {
    ghost use Rattle.std.specs.Prelude.{◌↔◌, IsTrue};
    ghost use Rattle.geom_core.specs.declared.shape.Shape.{Shape};
    ghost use Rattle.geom_core.specs.Cells.{Meets};

    /// The closed shape of the window.
    ghost shape_of: { Self → Shape };

    /// Whether a shape meets the window.
    fn admits(&self, shape: &Shape) -> bool
        ensures { IsTrue result ↔ Meets shape.now (shape_of self.now) };
}

impl Window for Shape {
    ghost shape_of = { λ s. s };

    #[inline(always)]
    fn admits(&self, shape: &Shape) -> bool {
        shape.meets(self)
    }
}

/// Adds the numbers of the entries below a node that meet the window, from left to right.
#[cycle(window)]
pub(crate) fn collect<W: Window>(
    node: &Node,
    window: &W,
    found: &mut Vec<u32>,
) -> Result<(), AllocError>
    requires { IsLawful node.now }
    ensures { let window = W.shape_of window.now in
        OnOk result (Adds window (entries_of node.now) found.old.items found.new.items) }
{
    match &node.below {
        Below::Entries(entries) => collect_entries(entries, window, found),
        Below::Children(children) => collect_children(children, window, found),
    }
}

/// Descends into the children whose covers meet the window.
#[cycle(window)]
fn collect_children<W: Window>(
    children: &[Node],
    window: &W,
    found: &mut Vec<u32>,
) -> Result<(), AllocError>
    requires { All IsLawful children.now }
    ensures { let entries = flat_map entries_of children.now in
        OnOk result (Adds (W.shape_of window.now) entries found.old.items found.new.items) }
{
    for child in children {
        let meets = window.admits(&child.cover);
        if !meets {
            continue;
        }
        collect(child, window, found)?;
    }
    Ok(())
}

/// Adds the numbers of those entries that meet the window.
fn collect_entries<W: Window>(
    entries: &[Entry],
    window: &W,
    found: &mut Vec<u32>,
) -> Result<(), AllocError>
    ensures { let window = W.shape_of window.now in
        OnOk result (Adds window entries.now found.old.items found.new.items) }
{
    for entry in entries {
        let meets = window.admits(&entry.shape);
        if !meets {
            continue;
        }
        found.push(entry.number)?;
    }
    Ok(())
}
