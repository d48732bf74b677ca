//! A node of the tree: its cover, and the entries or the children below it.

use geom_core::Shape;
use split_core::measures::Covered;

/// A shape, and the number that identifies it.
#[derive(Clone, Copy, Debug, PartialEq, Eq)]
pub struct Entry {
    /// The indexed shape.
    pub shape: Shape,
    /// The number, which no other entry of the tree has.
    pub number: u32,
}

impl Covered for Entry {
    ghost cover = { λ e. e.shape };

    #[inline(always)]
    fn cover(&self) -> Shape {
        self.shape
    }
}

/// A node of an R-tree.
#[cycle(node)]
#[derive(Drop)]
pub struct Node {
    pub(crate) cover: Shape,
    pub(crate) below: Below,
}

#[cycle(node)]
#[derive(Drop)]
pub(crate) enum Below {
    Entries(Vec<Entry>),
    Children(Vec<Node>),
}

impl Node {
    ghost use Rattle.std.specs.Prelude.{◌≡◌, ◌≢◌, ◌<◌, ◌↔◌, [], ◌∷◌, length};
    ghost use Rattle.std.specs.Prelude.{IsTrue, IfSome, IfNone};
    ghost use Rattle.std.specs.List.{flat_map};
    ghost use Rattle.geom_core.specs.Cells.{Meets};
    ghost use Rattle.rtree_core.specs.Nodes.{entries_of, children_of, level_of, size_of};
    ghost use Rattle.rtree_core.specs.Nodes.{node_cover, IsLeaf, IsLawful, AreLawfulChildren};
    ghost use Rattle.split_core.specs.Covers.{IsLeastCover};

    /// Whether the node holds entries and no children: it is on level 0.
    pub fn is_leaf(&self) -> bool
        // true exactly where it holds entries
        ensures leaf { IsTrue result ↔ IsLeaf self.now }
        // which is where it is on level 0
        ensures level { IsTrue result ↔ (level_of self.now ≡ 0) }
    {
        matches!(self.below, Below::Entries(_))
    }

    /// The entries of a leaf, at least one.
    pub fn entries(&self) -> &[Entry]
        requires { IsLeaf self.now }
        // those of a leaf
        ensures entries { result.now ≡ entries_of self.now }
        // a lawful one has at least one
        ensures some { IsLawful self.now → 0 < length result.now }
    {
        match &self.below {
            Below::Entries(entries) => entries,
            Below::Children(_) => unreachable!(),
        }
    }

    /// The children of an inner node, at least one.
    pub fn children(&self) -> &[Node]
        requires { IsLeaf self.now → ⊥ }
        // those of an inner node
        ensures children { result.now ≡ children_of self.now }
        // which together have its entries
        ensures entries { entries_of self.now ≡ flat_map entries_of result.now }
        // are lawful where it is
        ensures lawful { IsLawful self.now → AreLawfulChildren self.now result.now }
    {
        match &self.below {
            Below::Entries(_) => unreachable!(),
            Below::Children(children) => children,
        }
    }

    /// Takes the child of an inner node that has no other.
    pub(crate) fn take_lone_child(&mut self) -> Option<Node>
        ensures taken { IfSome result (λ child. children_of self.old ≡ child ∷ []) }
        ensures same { IfNone result (self.new ≡ self.old) }
        ensures several { IfNone result (length (children_of self.old) ≢ 1) }
    {
        let Below::Children(children) = &mut self.below else {
            return None
        };
        if children.len() != 1 {
            return None;
        }
        children.pop()
    }

    /// The number of entries or children.
    pub(crate) fn size(&self) -> usize
        ensures { result ≡ size_of self.now }
    {
        match &self.below {
            Below::Entries(entries) => entries.len(),
            Below::Children(children) => children.len(),
        }
    }

    /// The smallest shape that contains the shapes of its entries, or the covers of its children.
    #[inline(always)]
    pub fn cover(&self) -> Shape
        // the bounding box that the node keeps
        ensures value { result ≡ node_cover self.now }
        // the smallest that contains its entries
        ensures tight { let entries = entries_of self.now in
            IsLawful self.now → IsLeastCover (λ e. e.shape) entries result }
    {
        self.cover
    }

    /// Whether this shape shares a point with the cover; nothing below meets it where it doesn't.
    #[inline(always)]
    pub fn meets(&self, shape: &Shape) -> bool
        ensures { IsTrue result ↔ Meets shape.now (node_cover self.now) }
    {
        shape.meets(&self.cover)
    }
}

impl Covered for Node {
    ghost cover = { λ n. n.cover };

    #[inline(always)]
    fn cover(&self) -> Shape {
        self.cover
    }
}
