//! The choices of insertion: which child takes a shape, and which items a split assigns first.

ghost use Rattle.std.specs.Prelude.{◌+◌, ◌<◌, ◌≤◌, length};
ghost use Rattle.split_core.specs.Choices.{IsChoice, IsNext, AreSeeds};
ghost use Rattle.split_core.specs.Seeds.{IsBestBefore};

use crate::measures::{AreaDifference, Covered, Need, difference, waste};
use geom_core::Shape;

/// The index of the item whose cover needs the least enlargement to include a shape.
///
/// Ties go to the smallest area, and then to the lowest index (Guttman 1984, ChooseLeaf).
pub fn choose<T: Covered>(items: &[T], shape: &Shape) -> usize
    requires { 0 < length items.now }
    ensures { IsChoice T.cover items.now shape.now result }
{
    let mut best = 0;
    let mut least = Need::of(&items[0].cover(), shape);
    for place in 1..items.len() {
        let cover = items[place].cover();
        let need = Need::of(&cover, shape);
        let is_less = need.is_less(&least);
        if is_less {
            best = place;
            least = need;
        }
    }
    best
}

/// The index of the item for which the choice between two covers matters most.
///
/// It is the item for which the enlargements of the two covers differ most; ties go to the lowest
/// index (Guttman 1984, PickNext).
pub fn pick_next<T: Covered>(rest: &[T], one: &Shape, two: &Shape) -> usize
    requires { 0 < length rest.now }
    ensures { IsNext T.cover rest.now one.now two.now result }
{
    let mut best = 0;
    let mut greatest = difference(one, two, &rest[0].cover());
    for place in 1..rest.len() {
        let cover = rest[place].cover();
        let difference = difference(one, two, &cover);
        let is_greater = difference > greatest;
        if is_greater {
            best = place;
            greatest = difference;
        }
    }
    best
}

/// A pair of indexes and the waste of the items there.
#[derive(Clone, Copy)]
struct Seeds {
    first: usize,
    second: usize,
    waste: AreaDifference,
}

impl Seeds {
    ghost use Rattle.std.specs.Prelude.{◌≡◌, ◌<◌, length, int_lt, if◌then◌else◌};
    ghost use Rattle.split_core.specs.Choices.{waste_at};

    #[inline(always)]
    fn at<T: Covered>(items: &[T], first: usize, second: usize) -> Seeds
        requires first { first < length items.now }
        requires second { second < length items.now }
        ensures first { result.first ≡ first }
        ensures second { result.second ≡ second }
        ensures waste { (d : T) → result.waste ≡ waste_at T.cover items.now d first second }
    {
        let waste = waste(&items[first].cover(), &items[second].cover());
        Seeds {
            first,
            second,
            waste,
        }
    }

    #[inline(always)]
    fn or_better(self, other: Seeds) -> Seeds
        ensures { result ≡ (if int_lt self.waste other.waste then other else self) }
    {
        if other.waste > self.waste {
            other
        } else {
            self
        }
    }
}

/// The indexes of the two items that would waste the most area together, the lower one first.
///
/// Ties go to the first pair, by the first index and then by the second (Guttman 1984, PickSeeds).
pub fn pick_seeds<T: Covered>(items: &[T]) -> (usize, usize)
    requires { 2 ≤ length items.now }
    ensures { AreSeeds T.cover items.now result.0 result.1 }
{
    let mut best = Seeds::at(items, 0, 1);
    for first in 0..items.len() {
        best = best_of_row(items, first, best);
    }
    (best.first, best.second)
}

/// The best of `best` and the pairs whose first index is `first`.
fn best_of_row<T: Covered>(items: &[T], first: usize, mut best: Seeds) -> Seeds
    requires in_range { first < length items.now }
    requires best { IsBestBefore T.cover items.now first 0 best }
    ensures { IsBestBefore T.cover items.now (first + 1) 0 result }
{
    for second in first + 1..items.len() {
        let other = Seeds::at(items, first, second);
        best = best.or_better(other);
    }
    best
}
