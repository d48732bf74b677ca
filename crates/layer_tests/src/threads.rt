//! Packing by several threads gives the same tree as packing by one.

ghost use Rattle.std.specs.Prelude.{◌≡◌, ℕ, ◌≤◌, IfOk, count_by};
ghost use Rattle.rtree_core.specs.Nodes.{IsLawful};
ghost use Rattle.rtree_core.specs.Trees.{has_number};

use geom_core::Shape;
use rtree_core::{Entry, Node, RTree};
use std::alloc::{AllocError, Global};
use std::test::Fail;
use std::thread::Threads;
use test_data::Random;

/// The mark after the numbers below a node.
pub(crate) const END: u32 = u32::MAX;

/// An entry near one of nine centres.
fn entry(random: &mut Random, number: u32) -> Entry
    ensures { result.number ≡ number }
{
    let shape = random.shape().unwrap_or(Shape::new(0, 0, 0, 0).unwrap());
    Entry { shape, number }
}

/// `count` entries, always the same ones.
pub(crate) fn listed(alloc: Global, count: u32) -> Result<Vec<Entry>, AllocError>
    ensures { IfOk result (λ v. (k : ℕ) → count_by (has_number k) v.items ≤ 1) }
{
    let mut random = Random::new(1);
    let mut entries = Vec::new(alloc);
    for number in 0..count {
        entries.push(entry(&mut random, number))?;
    }
    Ok(entries)
}

/// Adds the numbers of the entries below a node, leaf by leaf, with `END` after each node.
fn outline(node: &Node, numbers: &mut Vec<u32>) -> Result<(), AllocError>
    requires { IsLawful node.now }
{
    if node.is_leaf() {
        for entry in node.entries() {
            numbers.push(entry.number)?;
        }
    } else {
        for child in node.children() {
            outline(child, numbers)?;
        }
    }
    numbers.push(END)?;
    Ok(())
}

/// The outline of a tree.
fn outline_of(alloc: Global, tree: &RTree) -> Result<Vec<u32>, AllocError> {
    let mut numbers = Vec::new(alloc);
    if let Some(root) = tree.root() {
        outline(root, &mut numbers)?;
    }
    Ok(numbers)
}

/// The outline of the tree that one thread packs.
pub(crate) fn packed_alone(alloc: Global, count: u32) -> Result<Vec<u32>, AllocError> {
    outline_of(alloc, &RTree::pack(alloc, listed(alloc, count)?)?)
}

/// The outline of the tree that `threads` threads pack.
pub(crate) fn packed_by<R: Threads + Sync>(
    rt: &R,
    alloc: Global,
    count: u32,
    threads: u32,
) -> Result<Vec<u32>, AllocError> {
    outline_of(
        alloc,
        &RTree::pack_by_threads(alloc, listed(alloc, count)?, threads, rt)?,
    )
}

/// Whether up to five threads pack `count` entries into the same tree as one does.
fn packs_alike<R: Threads + Sync>(rt: &R, alloc: Global, count: u32) -> Result<bool, AllocError> {
    let plain = packed_alone(alloc, count)?;
    for threads in 0..=5 {
        if packed_by(rt, alloc, count, threads)?.as_slice() != plain.as_slice() {
            return Ok(false);
        }
    }
    Ok(true)
}

#[test]
fn packed_by_threads(rt: HostRuntime) -> Result<(), Fail> {
    for count in [0, 1, 9, 100, 3000] {
        assert!(rt; packs_alike(&rt, rt.alloc(), count)?);
    }
    Ok(())
}
