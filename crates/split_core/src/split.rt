//! The quadratic split of a full node.

ghost use Rattle.std.specs.Prelude.{◌≡◌, ◌+◌, ◌≤◌, ◌↔◌, [], ◌++◌, vec_len, vec_capacity, IsTrue};
ghost use Rattle.split_core.specs.Dealing.{dealing, EndsWith, CanDeal, CanDealOne, HasDealtOne};
ghost use Rattle.split_core.specs.Limits.{most};
ghost use Rattle.split_core.specs.Splits.{CanChoose, CanSplit, AreGroups};

use crate::choices::{pick_next, pick_seeds};
use crate::measures::{Covered, Need};
use geom_core::Shape;

/// The least number of items in a group, and in a node other than the root (Guttman's m).
pub const FEWEST: usize = 3;

/// The greatest number of entries or children of a node (Guttman's M).
pub const MOST: usize = 8;

/// The cost for a group of a split to take an item: by enlargement, then area, then size.
#[derive(Clone, Copy, PartialEq, Eq, PartialOrd, Ord)]
struct Cost {
    need: Need,
    size: usize,
}

impl Cost {
    ghost use Rattle.std.specs.Prelude.{◌≡◌};
    ghost use Rattle.geom_core.specs.Shapes.{area_of};
    ghost use Rattle.split_core.specs.Choices as choices;
    ghost use Rattle.split_core.specs.Orders.{is_less_cost};

    #[inline(always)]
    fn of(cover: &Shape, size: usize, shape: &Shape) -> Cost
        ensures enlargement { result.need.enlargement ≡ choices.enlargement cover.now shape.now }
        ensures area { result.need.area ≡ area_of cover.now }
        ensures size { result.size ≡ size }
    {
        Cost {
            need: Need::of(cover, shape),
            size,
        }
    }

    #[inline(always)]
    fn is_less(&self, other: &Cost) -> bool
        ensures { result ≡ is_less_cost self.now other.now }
    {
        self < other
    }
}

/// The covers of the two groups of a split.
#[derive(Clone, Copy)]
struct Covers {
    one: Shape,
    two: Shape,
}

/// Splits nine items into two groups of 3 to 6, by Guttman's quadratic split.
///
/// The two items that waste the most area together start the groups. Then the item for which the
/// choice matters most goes to the group that needs less enlargement, then to the one of smaller
/// area, then to the one with fewer items, then to the first. If a group needs all remaining items
/// to have 3, they go to it in order. Afterwards `rest` is empty, and each group has its items in
/// the order of assignment (Guttman 1984, QuadraticSplit).
pub fn split<T: Covered>(rest: &mut Vec<T>, one: &mut Vec<T>, two: &mut Vec<T>)
    requires { CanSplit rest.old one.old two.old }
    // the lawful quadratic split of nine items into groups of 3 to 6, together exactly the items
    ensures groups { AreGroups T.cover rest.old.items one.new.items two.new.items }
    // the list given is empty
    ensures emptied { rest.new.items ≡ [] }
    // no list loses its room
    ensures rest_capacity { vec_capacity rest.new ≡ vec_capacity rest.old }
    ensures one_capacity { vec_capacity one.old ≤ vec_capacity one.new }
    ensures two_capacity { vec_capacity two.old ≤ vec_capacity two.new }
{
    let (first, second) = pick_seeds(rest);
    let later = rest.remove(second);
    let earlier = rest.remove(first);
    let covers = Covers {
        one: earlier.cover(),
        two: later.cover(),
    };
    one.push_reserved(earlier);
    two.push_reserved(later);
    deal(rest, one, two, covers);
}

/// Assigns the remaining items to the two groups, given their covers.
fn deal<T: Covered>(rest: &mut Vec<T>, one: &mut Vec<T>, two: &mut Vec<T>, mut covers: Covers)
    requires { CanDeal (dealing rest.old one.old two.old covers) }
    ensures dealt { let start = dealing rest.old one.old two.old covers in
        EndsWith T.cover start one.new.items two.new.items }
    ensures emptied { rest.new.items ≡ [] }
    ensures rest_capacity { vec_capacity rest.new ≡ vec_capacity rest.old }
    ensures one_capacity { vec_capacity one.old ≤ vec_capacity one.new }
    ensures two_capacity { vec_capacity two.old ≤ vec_capacity two.new }
{
    while can_choose(rest.len(), one.len(), two.len()) {
        deal_next(rest, one, two, &mut covers);
    }
    let one_needs_all = one.len() + rest.len() == FEWEST;
    if one_needs_all {
        append_reserved(one, rest);
    } else {
        append_reserved(two, rest);
    }
}

/// Whether items remain and neither group needs all of them.
fn can_choose(rest: usize, one: usize, two: usize) -> bool
    requires { one + two + rest ≤ most + 1 }
    ensures { IsTrue result ↔ CanChoose rest one two }
{
    rest > 0 && one + rest != FEWEST && two + rest != FEWEST
}

/// Assigns the item for which the choice between the groups matters most.
fn deal_next<T: Covered>(rest: &mut Vec<T>, one: &mut Vec<T>, two: &mut Vec<T>, covers: &mut Covers)
    requires { CanDealOne (dealing rest.old one.old two.old covers.old) }
    ensures { let old = dealing rest.old one.old two.old covers.old in
        HasDealtOne T.cover old (dealing rest.new one.new two.new covers.new) }
{
    let next = pick_next(rest, &covers.one, &covers.two);
    let item = rest.remove(next);
    let shape = item.cover();
    let cost_one = Cost::of(&covers.one, one.len(), &shape);
    let cost_two = Cost::of(&covers.two, two.len(), &shape);
    if cost_two.is_less(&cost_one) {
        covers.two = covers.two.cover(&shape);
        two.push_reserved(item);
    } else {
        covers.one = covers.one.cover(&shape);
        one.push_reserved(item);
    }
}

/// Moves all items of `from` to the end of `to`, whose capacity suffices.
fn append_reserved<T>(to: &mut Vec<T>, from: &mut Vec<T>)
    requires { vec_len to.old + vec_len from.old ≤ vec_capacity to.old }
    ensures items { to.new.items ≡ to.old.items ++ from.old.items }
    ensures emptied { from.new.items ≡ [] }
    ensures capacity { vec_capacity to.old ≤ vec_capacity to.new }
    ensures from_capacity { vec_capacity from.new ≡ vec_capacity from.old }
{
    if to.append(from).is_err() {
        unreachable!()
    }
}
