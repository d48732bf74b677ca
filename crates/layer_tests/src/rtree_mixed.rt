//! A long mixed list of edits of a tree, compared with a plain list of its entries.

ghost use Rattle.std.specs.Prelude.{ℕ, ◌+◌, ◌<◌, ◌≤◌, IfOk};
ghost use Rattle.rtree_core.specs.Nodes.{IsLeaf, IsLawful};
ghost use Rattle.rtree_core.specs.Trees.{IsFresh};

use geom_core::Shape;
use rtree_core::{Entry, Node, RTree};
use std::alloc::{AllocError, Global};
use std::test::Fail;
use test_data::Random;

/// A point, a segment or a rectangle near one of nine centres.
fn shape(random: &mut Random) -> Result<Shape, Fail> {
    Ok(random.shape().ok_or("a shape")?)
}

/// A window over all shapes, one far away, two others, and one that covers these; never `None`.
fn windows(random: &mut Random) -> Option<[Shape; 5]> {
    let all = Shape::new(-1000, -1000, 2000, 2000)?;
    let far = Shape::new(5000, 5000, 6000, 6000)?;
    let (one, two) = (random.shape()?, random.shape()?);
    Some([all, far, one, two, one.cover(&two)])
}

/// A random entry of the list, or `None` if there is none.
fn one_of(random: &mut Random, entries: &[Entry]) -> Option<Entry> {
    let place = random.below(entries.len().max(1));
    entries.get(place).copied()
}

/// With probability 1/4 the shape of one of the entries, else another shape.
fn shape_beside(random: &mut Random, entries: &[Entry]) -> Result<Shape, Fail> {
    match one_of(random, entries) {
        Some(entry) if random.below(4) == 0 => Ok(entry.shape),
        _ => shape(random),
    }
}

/// One of the entries, or sometimes one with an absent number or shape.
fn entry_beside(random: &mut Random, entries: &[Entry], absent: u32) -> Result<Entry, Fail> {
    let shape = shape(random)?;
    let number = absent;
    Ok(match (one_of(random, entries), random.below(16)) {
        (None, _) => Entry { shape, number },
        (Some(entry), 0) => Entry { number, ..entry },
        (Some(entry), 1) => Entry { shape, ..entry },
        (Some(entry), _) => entry,
    })
}

/// A tree, and a plain list of its entries in ascending order of their numbers.
#[derive(Drop)]
struct Trial {
    tree: RTree,
    list: Vec<Entry>,
}

impl Trial {
    /// Inserts an entry with this number, whose shape is often that of another entry.
    fn insert(&mut self, random: &mut Random, number: u32) -> Result<(), Fail>
        requires { (k : ℕ) → number ≤ k → IsFresh k self.old.tree }
        ensures { IfOk result (λ _. (k : ℕ) → number < k → IsFresh k self.new.tree) }
    {
        let shape = shape_beside(random, &self.list)?;
        let entry = Entry { shape, number };
        self.tree.insert(entry)?;
        self.list.push(entry)?;
        Ok(())
    }

    /// Removes an entry, sometimes one with an absent number or shape, and returns whether tree and
    /// list agree on it.
    fn remove(&mut self, random: &mut Random, absent: u32) -> Result<bool, Fail>
        ensures { IfOk result (λ _. (k : ℕ) → IsFresh k self.old.tree → IsFresh k self.new.tree) }
    {
        let entry = entry_beside(random, &self.list, absent)?;
        let removed = self.tree.remove(&entry)?;
        Ok(removed == remove_from(&mut self.list, &entry))
    }

    /// Edits with these numbers, of which about `insertions` in nine are insertions, and compares
    /// tree and list on the way.
    fn edit(
        &mut self,
        alloc: Global,
        random: &mut Random,
        first: u32,
        end: u32,
        insertions: usize,
    ) -> Result<(), Fail>
        requires order { first ≤ end }
        requires fresh { (k : ℕ) → first ≤ k → IsFresh k self.old.tree }
        ensures { IfOk result (λ _. (k : ℕ) → end ≤ k → IsFresh k self.new.tree) }
    {
        for number in first..end {
            if random.below(9) < insertions {
                self.insert(random, number)?;
            } else if !self.remove(random, number)? {
                return Err(Fail::new("a removal differs"));
            }
            if number % 50 == 0 || self.list.len() < 20 {
                self.compare(alloc, random)?;
            }
        }
        Ok(())
    }

    /// Checks that entries and some windows agree and that the tree is lawful.
    fn compare(&self, alloc: Global, random: &mut Random) -> Result<(), Fail> {
        let windows = windows(random).ok_or("five windows")?;
        if self.is_lawful(alloc)? && self.agrees_at_all(alloc, &windows)? {
            return Ok(());
        }
        Err(Fail::new("the tree is unlawful, or its entries or a window differ"))
    }

    /// Whether the tree finds the entries of the list that meet each of these windows.
    fn agrees_at_all(&self, alloc: Global, windows: &[Shape]) -> Result<bool, AllocError> {
        for window in windows {
            if !self.agrees_at(alloc, window)? {
                return Ok(false);
            }
        }
        Ok(true)
    }

    /// Whether the tree is lawful and has the entries of the list.
    fn is_lawful(&self, alloc: Global) -> Result<bool, AllocError> {
        let height = self.tree.height();
        let mut entries = Vec::new(alloc);
        let lawful = match self.tree.root() {
            None => height == 0,
            Some(root) if root.is_leaf() => visit(root, height, 1, &mut entries)?,
            Some(root) => visit(root, height, 2, &mut entries)?,
        };
        entries.sort_unstable_by_key(|entry| entry.number);
        Ok(
            lawful
                && self.tree.len() == self.list.len()
                && entries.as_slice() == self.list.as_slice(),
        )
    }

    /// Whether the tree finds the entries of the list that meet a window.
    fn agrees_at(&self, alloc: Global, window: &Shape) -> Result<bool, AllocError> {
        let mut numbers = Vec::new(alloc);
        for entry in &self.list {
            if entry.shape.meets(window) {
                numbers.push(entry.number)?;
            }
        }
        let found = self.tree.window(alloc, window)?;
        Ok(found.as_slice() == numbers.as_slice())
    }
}

/// Removes an entry from a list, and returns whether the list held it.
fn remove_from(list: &mut Vec<Entry>, entry: &Entry) -> bool {
    for (place, held) in list.iter().enumerate() {
        if held == entry {
            let _ = list.remove(place);
            return true;
        }
    }
    false
}

/// Adds a node's entries, and returns whether the node, of `levels` levels, is lawful and has at
/// least `fewest` entries or children.
fn visit(
    node: &Node,
    levels: u32,
    fewest: usize,
    entries: &mut Vec<Entry>,
) -> Result<bool, AllocError>
    requires { IsLawful node.now }
{
    if node.is_leaf() {
        let lawful = visit_leaf(node, fewest, entries)?;
        return Ok(lawful && levels == 1);
    }
    let children = node.children();
    let mut cover = children[0].cover();
    let mut lawful = levels > 1 && fewest <= children.len() && children.len() <= 8;
    for child in children {
        cover = cover.cover(&child.cover());
        lawful &= visit(child, levels.saturating_sub(1), 3, entries)?;
    }
    Ok(lawful && cover == node.cover())
}

/// Adds a leaf's entries, and returns whether they are at least `fewest` and at most eight, and the
/// cover is tight.
fn visit_leaf(leaf: &Node, fewest: usize, entries: &mut Vec<Entry>) -> Result<bool, AllocError>
    requires lawful { IsLawful leaf.now }
    requires leaf { IsLeaf leaf.now }
{
    let held = leaf.entries();
    let mut cover = held[0].shape;
    for entry in held {
        cover = cover.cover(&entry.shape);
        entries.push(*entry)?;
    }
    Ok(fewest <= held.len() && held.len() <= 8 && cover == leaf.cover())
}

/// Makes 2000 edits that are mostly insertions, then 2000 that are mostly removals, with numbers
/// from `first`, and returns whether the tree is first high and then low.
fn rises_and_falls(
    trial: &mut Trial,
    alloc: Global,
    random: &mut Random,
    first: u32,
) -> Result<bool, Fail>
    requires few { first ≤ 4000 }
    requires fresh { (k : ℕ) → first ≤ k → IsFresh k trial.old.tree }
    ensures { IfOk result (λ _. (k : ℕ) → first + 4000 ≤ k → IsFresh k trial.new.tree) }
{
    trial.edit(alloc, random, first, first + 2000, 6)?;
    let is_high = trial.tree.height() == 4;
    trial.edit(alloc, random, first + 2000, first + 4000, 2)?;
    Ok(is_high && trial.tree.height() < 2)
}

/// Whether a tree that is empty at first grows and shrinks twice.
fn rises_and_falls_twice(alloc: Global, random: &mut Random) -> Result<bool, Fail> {
    let mut trial = Trial {
        tree: RTree::new(alloc),
        list: Vec::new(alloc),
    };
    let once = rises_and_falls(&mut trial, alloc, random, 0)?;
    Ok(once && rises_and_falls(&mut trial, alloc, random, 4000)?)
}

#[test]
fn mixed_edits(rt: HostRuntime) -> Result<(), Fail> {
    assert!(rt; rises_and_falls_twice(rt.alloc(), &mut Random::new(1))?);
    Ok(())
}
