//! Packed trees of points on a line.

ghost use Rattle.std.specs.Prelude.{◌≡◌, ℕ, ◌≤◌, IfOk, count_by};
ghost use Rattle.rtree_core.specs.Trees.{has_number};

use geom_core::Shape;
use rtree_core::{Entry, RTree};
use std::alloc::{AllocError, Global};

/// Calls `see` with two packed trees of points, each given by the number of points and the step
/// between them. If an allocation fails, the tree is packed once more.
pub fn on_packed<T, F: FnOnce(&RTree, &RTree) -> T>(
    alloc: Global,
    left: (u16, u16),
    right: (u16, u16),
    see: F,
) -> Result<T, AllocError>
    requires { F.IsAlwaysCallable see }
{
    let left = packed_at_last(alloc, left)?;
    let right = packed_at_last(alloc, right)?;
    Ok(see(&left, &right))
}

/// The packed tree of points, packed once more if an allocation fails.
fn packed_at_last(alloc: Global, points: (u16, u16)) -> Result<RTree, AllocError> {
    match packed(alloc, points) {
        Ok(tree) => Ok(tree),
        Err(AllocError) => packed(alloc, points),
    }
}

/// The packed tree of `count` points, each `step` to the right of the one before.
fn packed(alloc: Global, (count, step): (u16, u16)) -> Result<RTree, AllocError> {
    RTree::pack(alloc, listed(alloc, count, step)?)
}

/// The points (0, 0), (step, 0), (2 step, 0) and so on, with their indexes as numbers.
fn listed(alloc: Global, count: u16, step: u16) -> Result<Vec<Entry>, AllocError>
    ensures { IfOk result (λ v. (k : ℕ) → count_by (has_number k) v.items ≤ 1) }
{
    let mut entries = Vec::new(alloc);
    for number in 0..count {
        entries.push(entry(number, step))?;
    }
    Ok(entries)
}

/// The point with this number.
fn entry(number: u16, step: u16) -> Entry
    ensures { result.number ≡ number }
{
    let shape = point(i64::from(number) * i64::from(step));
    let number = u32::from(number);
    Entry { shape, number }
}

/// A point on the first axis, or the origin if `x` is out of range.
fn point(x: i64) -> Shape {
    Shape::new(x, 0, x, 0).unwrap_or(Shape::new(0, 0, 0, 0).unwrap())
}
