//! Whichever allocation fails, a tree is unchanged, and the same call with memory then succeeds.

ghost use Rattle.std.specs.Prelude.{ℕ, ◌≤◌};
ghost use Rattle.std.specs.Bool.{OnTrue};
ghost use Rattle.rtree_core.specs.Collections.{Gains};
ghost use Rattle.rtree_core.specs.Trees.{IsFresh, entries_in};

use crate::trees::{Squares, has_leaves};
use geom_core::Shape;
use rtree_core::{Entry, RTree};
use std::alloc::Global;
use test_data::outline;

/// The leaves of nine points.
const NINE: [&[u32]; 2] = [&[0, 2, 4, 6, 8], &[1, 3, 5, 7]];

/// The leaves of nine of the squares with an outlier.
const OUTLIER: [&[u32]; 2] = [&[0, 1, 2, 3, 4, 5], &[8, 6, 7]];

/// The leaf that is left after one of them was removed.
const ONE_LEAF: &[&[u32]] = &[&[0, 1, 2, 3, 4, 5, 8, 7]];

/// The leaves of a crowd of twelve, without one of them, and without a second.
const TWELVE: &[&[u32]] = &[&[0, 2, 4, 6, 8, 9, 10, 11], &[1, 3, 5, 7]];

const ELEVEN: &[&[u32]] = &[&[0, 2, 4, 6, 8, 9, 10, 11], &[3, 5, 7]];

const TEN: &[&[u32]] = &[&[0, 4, 8, 10, 5, 7], &[2, 6, 9, 11]];

/// A tree as text, made again if an allocation fails, or `None` if it fails again.
fn outline_at_last(alloc: Global, tree: &RTree) -> Option<String> {
    for _ in 0..10 {
        if let Ok(text) = outline(alloc, tree) {
            return Some(text);
        }
    }
    None
}

/// Whether a tree has the nodes and entries of this text, in its order.
fn is_as(alloc: Global, tree: &RTree, text: &str) -> bool {
    outline_at_last(alloc, tree).is_some_and(|now| now.as_str() == text)
}

/// Inserts the entry, again if an allocation fails, and returns whether the failure left all nodes
/// unchanged.
fn insert_at_last(alloc: Global, tree: &mut RTree, entry: Entry) -> bool
    requires { IsFresh entry.number tree.old }
    ensures { OnTrue result (Gains entry (entries_in tree.old) (entries_in tree.new)) }
{
    let Some(before) = outline_at_last(alloc, tree) else {
        return false;
    };
    for _ in 0..10 {
        if tree.insert(entry).is_ok() {
            return true;
        }
        if !is_as(alloc, tree, before.as_str()) {
            return false;
        }
    }
    false
}

/// Whether nine points of a crowd are inserted into an empty tree.
fn grows_to_nine(alloc: Global, tree: &mut RTree) -> bool
    requires { (k : ℕ) → IsFresh k tree.old }
{
    for number in 0..9u8 {
        if !insert_at_last(alloc, tree, Squares::Crowd.entry(number)) {
            return false;
        }
    }
    has_leaves(tree, &NINE) && tree.height() == 2
}

/// The last of the nine insertions splits the root.
#[test]
fn refused_1(rt: HostRuntime) {
    assert!(rt; grows_to_nine(rt.alloc(), &mut RTree::new(rt.alloc())));
}

/// The result of `see` on the tree into which the first squares were inserted, again if an
/// allocation fails.
fn on_grown<F: FnOnce(&mut RTree) -> bool>(
    alloc: Global,
    squares: Squares,
    count: u8,
    see: F,
) -> bool
    requires { F.IsAlwaysCallable see }
{
    grown_at_last(alloc, squares, count).is_some_and(|mut tree| see(&mut tree))
}

/// Inserts the first squares in turn, again if an allocation fails.
fn grown_at_last(alloc: Global, squares: Squares, count: u8) -> Option<RTree> {
    for _ in 0..10 {
        if let Ok(tree) = squares.grown(alloc, count) {
            return Some(tree);
        }
    }
    None
}

/// Removes an entry, again if an allocation fails, and returns whether the tree held it and the
/// failure left all nodes unchanged.
fn remove_at_last(alloc: Global, tree: &mut RTree, entry: &Entry) -> bool {
    let Some(before) = outline_at_last(alloc, tree) else {
        return false;
    };
    for _ in 0..10 {
        if let Ok(removed) = tree.remove(entry) {
            return removed;
        }
        if !is_as(alloc, tree, before.as_str()) {
            return false;
        }
    }
    false
}

/// Whether a tree of nine squares from which one is removed becomes a single leaf.
fn loses_a_leaf(alloc: Global, tree: &mut RTree) -> bool {
    has_leaves(tree, &OUTLIER)
        && remove_at_last(alloc, tree, &Squares::Outlier.entry(6))
        && has_leaves(tree, ONE_LEAF)
        && tree.height() == 1
}

/// The removal sets a node aside.
#[test]
fn removal_refused(rt: HostRuntime) {
    let alloc = rt.alloc();
    assert!(rt; on_grown(alloc, Squares::Outlier, 9, |tree| loses_a_leaf(alloc, tree)));
}

/// Whether a tree of twelve points from which two are removed has the others in two leaves.
fn loses_two(alloc: Global, tree: &mut RTree) -> bool {
    has_leaves(tree, TWELVE)
        && remove_at_last(alloc, tree, &Squares::Crowd.entry(1))
        && has_leaves(tree, ELEVEN)
        && remove_at_last(alloc, tree, &Squares::Crowd.entry(3))
        && has_leaves(tree, TEN)
}

/// The second removal sets a node aside, and a node is split again.
#[test]
fn refused_2(rt: HostRuntime) {
    let alloc = rt.alloc();
    assert!(rt; on_grown(alloc, Squares::Crowd, 12, |tree| loses_two(alloc, tree)));
}

/// Packs the first points of the row, again if an allocation fails.
fn packed_at_last(alloc: Global, count: u8) -> Option<RTree> {
    for _ in 0..10 {
        if let Ok(tree) = Squares::Row.packed(alloc, count) {
            return Some(tree);
        }
    }
    None
}

/// The numbers in a window, found again if an allocation fails.
fn window_at_last(alloc: Global, tree: &RTree, window: &Shape) -> Option<Vec<u32>> {
    for _ in 0..10 {
        if let Ok(numbers) = tree.window(alloc, window) {
            return Some(numbers);
        }
    }
    None
}

/// Whether a tree finds exactly these numbers in a window.
fn finds(alloc: Global, tree: &RTree, window: &Shape, numbers: &[u32]) -> bool {
    window_at_last(alloc, tree, window).is_some_and(|found| found.as_slice() == numbers)
}

/// The leaves of twenty packed points.
const TWENTY: [&[u32]; 3] = [
    &[0, 1, 2, 3, 4, 5, 6],
    &[7, 8, 9, 10, 11, 12, 13],
    &[14, 15, 16, 17, 18, 19],
];

/// Whether a tree has the leaves of twenty packed points, and finds some of them in one window and
/// none in another.
fn is_twenty(alloc: Global, tree: &RTree) -> bool {
    let (Some(four), Some(none)) = (Shape::new(5, 0, 8, 0), Shape::new(20, 0, 21, 5)) else {
        return false;
    };
    let is_packed = has_leaves(tree, &TWENTY) && tree.height() == 2;
    is_packed && finds(alloc, tree, &four, &[5, 6, 7, 8]) && finds(alloc, tree, &none, &[])
}

#[test]
fn refused_4(rt: HostRuntime) {
    let alloc = rt.alloc();
    assert!(rt; packed_at_last(alloc, 20).is_some_and(|tree| is_twenty(alloc, &tree)));
}
