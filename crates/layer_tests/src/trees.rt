//! Trees of squares in simple rows, and the entries of their leaves.
//!
//! The proof of a function that owns a tree grows with the square of its length, so trees are
//! examined by functions that borrow them.

ghost use Rattle.std.specs.Prelude.{◌≡◌, ℕ, ◌≤◌, IfOk, count_by, vec_len};
ghost use Rattle.rtree_core.specs.Trees.{has_number, IsFresh};

use geom_core::Shape;
use rtree_core::{Entry, Node, RTree};
use std::alloc::{AllocError, Global};

/// Squares near the origin by their numbers; a square of side 0 is a point.
#[derive(Clone, Copy)]
pub(crate) enum Squares {
    /// The points (0, 0), (1, 0) and so on.
    Row,
    /// The points (15, 0), (14, 0) and so on.
    Backward,
    /// The points (0, 19), (1, 18) and so on.
    Diagonal,
    /// The points (0, 0), (1, 1), (2, 0) and so on.
    Zigzag,
    /// The points (0, 0) to (8, 0), and then (4, 0) repeatedly.
    Crowd,
    /// The unit squares at (0, 0), (1, 0) and so on to (7, 0), and then one far away.
    Outlier,
}

impl Squares {
    /// The lower left corner of a square, and its side.
    fn place(self, number: u8) -> (u8, u8, u8) {
        match self {
            Squares::Row => (number, 0, 0),
            Squares::Backward => (15u8.saturating_sub(number), 0, 0),
            Squares::Diagonal => (number, 19u8.saturating_sub(number), 0),
            Squares::Zigzag => (number, number % 2, 0),
            Squares::Crowd => (if number < 9 { number } else { 4 }, 0, 0),
            Squares::Outlier if number < 8 => (number, 0, 1),
            Squares::Outlier => (100, 100, 1),
        }
    }

    /// The entry of a square.
    pub(crate) fn entry(self, number: u8) -> Entry
        ensures { result.number ≡ number }
    {
        let (x, y, side) = self.place(number);
        let number = u32::from(number);
        let shape = square(x, y, side);
        Entry { shape, number }
    }

    /// The entries of the first squares.
    pub(crate) fn listed(self, alloc: Global, count: u8) -> Result<Vec<Entry>, AllocError>
        ensures distinct { IfOk result (λ v. (k : ℕ) → count_by (has_number k) v.items ≤ 1) }
        ensures len { IfOk result (λ v. vec_len v ≡ count) }
    {
        let mut entries = Vec::new(alloc);
        for number in 0..count {
            entries.push(self.entry(number))?;
        }
        Ok(entries)
    }

    /// The tree into which the first squares were inserted in turn.
    pub(crate) fn grown(self, alloc: Global, count: u8) -> Result<RTree, AllocError>
        ensures { IfOk result (λ t. (k : ℕ) → count ≤ k → IsFresh k t) }
    {
        let mut tree = RTree::new(alloc);
        for number in 0..count {
            tree.insert(self.entry(number))?;
        }
        Ok(tree)
    }

    /// The packed tree of the first squares.
    pub(crate) fn packed(self, alloc: Global, count: u8) -> Result<RTree, AllocError> {
        RTree::pack(alloc, self.listed(alloc, count)?)
    }

    /// Removes squares from a tree in turn, and returns whether it held all of them.
    pub(crate) fn removed(self, tree: &mut RTree, numbers: &[u8]) -> Result<bool, AllocError> {
        for number in numbers {
            if !tree.remove(&self.entry(*number))? {
                return Ok(false);
            }
        }
        Ok(true)
    }
}

/// The square with this lower left corner and side.
pub(crate) fn square(x: u8, y: u8, side: u8) -> Shape {
    let (x, y, side) = (i64::from(x), i64::from(y), i64::from(side));
    Shape::new(x, y, x + side, y + side).unwrap()
}

/// Whether a tree of at most two levels has these leaves, in this order.
pub(crate) fn has_leaves(tree: &RTree, leaves: &[&[u32]]) -> bool {
    match tree.root() {
        None => leaves.is_empty(),
        Some(root) => {
            if root.is_leaf() {
                leaves.len() == 1 && leaves.iter().all(|numbers| has_numbers(root, numbers))
            } else {
                are_leaves(root.children(), leaves)
            }
        }
    }
}

/// Whether the nodes are leaves with these numbers, in this order.
fn are_leaves(nodes: &[Node], leaves: &[&[u32]]) -> bool {
    nodes.len() == leaves.len()
        && nodes
            .iter()
            .zip(leaves)
            .all(|(node, numbers)| has_numbers(node, numbers))
}

/// Whether a node is a leaf with these numbers, in this order.
fn has_numbers(node: &Node, numbers: &[u32]) -> bool {
    node.is_leaf()
        && node
            .entries()
            .iter()
            .map(|e| e.number)
            .eq(numbers.iter().copied())
}
