//! The measures of covers: the cover of a list, the enlargement of a cover by a shape, and the
//! waste of two covers.

ghost use Rattle.std.specs.Prelude.{◌≡◌, ◌<◌, ◌≤◌, length};
ghost use Rattle.geom_core.specs.Shapes.{greatest_area};
ghost use Rattle.split_core.specs.Choices as choices;
ghost use Rattle.split_core.specs.Covers.{IsLeastCover};

use geom_core::{Area, Shape};

/// A difference of areas, which may be negative.
pub type AreaDifference = i128;

/// An item that an R-tree can hold: it has a cover, the smallest shape that contains it.
pub trait Covered {
    ghost use Rattle.std.specs.Prelude.{◌≡◌};
    ghost use Rattle.geom_core.specs.declared.shape.Shape.{Shape};

    ghost cover: { Self → Shape };

    /// The smallest shape that contains the item.
    fn cover(&self) -> Shape
        ensures { result ≡ cover self.now };
}

/// The smallest shape that contains the covers of all items.
pub fn cover_all<T: Covered>(items: &[T]) -> Shape
    requires { 0 < length items.now }
    ensures { IsLeastCover T.cover items.now result }
{
    let mut cover = items[0].cover();
    for place in 1..items.len() {
        cover = cover.cover(&items[place].cover());
    }
    cover
}

/// The increase in the area of a cover that includes a shape.
#[inline(always)]
#[tactic(auto, using(crate::proofs::Areas::area_grows))]
pub fn enlargement(cover: &Shape, shape: &Shape) -> Area
    // by how much the area grows
    ensures growth { result ≡ choices.enlargement cover.now shape.now }
    // within the plane's area
    ensures bound { result ≤ greatest_area }
{
    cover.cover(shape).area() - cover.area()
}

/// The area of the cover of two shapes minus their own areas; negative if they overlap much.
#[inline(always)]
pub fn waste(one: &Shape, two: &Shape) -> AreaDifference
    ensures { result ≡ choices.waste one.now two.now }
{
    let growth = enlargement(one, two);
    let area = two.area();
    growth as AreaDifference - area as AreaDifference
}

/// The difference between the enlargements of two covers by a shape.
#[inline(always)]
pub(crate) fn difference(one: &Shape, two: &Shape, shape: &Shape) -> Area
    ensures { result ≡ choices.difference one.now two.now shape.now }
{
    enlargement(one, shape).abs_diff(enlargement(two, shape))
}

/// The cost for a cover to include a shape, compared by enlargement and then by area.
#[derive(Clone, Copy, PartialEq, Eq, PartialOrd, Ord)]
pub(crate) struct Need {
    pub(crate) enlargement: Area,
    pub(crate) area: Area,
}

impl Need {
    ghost use Rattle.std.specs.Prelude.{◌≡◌};
    ghost use Rattle.geom_core.specs.Shapes.{area_of};
    ghost use Rattle.split_core.specs.Choices as choices;
    ghost use Rattle.split_core.specs.Orders.{is_less_need};

    #[inline(always)]
    pub(crate) fn of(cover: &Shape, shape: &Shape) -> Need
        ensures enlargement { result.enlargement ≡ choices.enlargement cover.now shape.now }
        ensures area { result.area ≡ area_of cover.now }
    {
        Need {
            enlargement: enlargement(cover, shape),
            area: cover.area(),
        }
    }

    #[inline(always)]
    pub(crate) fn is_less(&self, other: &Need) -> bool
        ensures { result ≡ is_less_need self.now other.now }
    {
        self < other
    }
}
