//! The square of a distance, as a fraction.

ghost use Rattle.std.specs.Prelude.{◌≡◌, ◌≤◌, ◌<◌, ◌-◌, ◌*◌, ◌↔◌, IsTrue};
ghost use Rattle.wide_core.specs.Wides.{value_of};
ghost use Rattle.distance_core.specs.Limits.{greatest_distance, greatest_square};

use crate::root::floor_root;
use crate::{Distance, MAX_DISTANCE};
use std::cmp::Ordering;
use wide_core::{Wide, compare_multiples};

/// A root that most bisections stay below, so that they take fewer steps.
const SMALL_ROOT: u64 = 1 << 42;

/// The square of a distance, `numerator / denominator`, in square units of the grid: at most twice
/// the square of twice [`LIMIT`](geom_core::LIMIT).
#[derive(Clone, Copy)]
pub struct SquaredFraction {
    pub numerator: Wide,
    pub denominator: u128,
    ghost positive: { 0 < denominator },
    ghost narrow: { denominator ≤ greatest_square },
    ghost low: { value_of numerator ≤ greatest_square * denominator },
}

impl SquaredFraction {
    ghost use Rattle.std.specs.Ordering.{nat_cmp};
    ghost use Rattle.distance_core.specs.Units.{units_of};
    ghost use Rattle.distance_core.specs.Fractions.{numerator_of};
    ghost use Rattle.distance_core.specs.FractionRoots.{IsRoundedFractionRoot, IsRootFrom};

    /// A whole number as a fraction.
    pub fn whole(square: u128) -> SquaredFraction
        requires { square ≤ greatest_square }
        // the whole number
        ensures numerator { numerator_of result ≡ square }
        // 1
        ensures denominator { result.denominator ≡ 1 }
    {
        SquaredFraction {
            numerator: Wide {
                high: 0,
                low: square,
            },
            denominator: 1,
        }
    }

    /// The order of two squares, which is that of the distances.
    pub fn compare(&self, other: &SquaredFraction) -> Ordering
        ensures { result ≡ nat_cmp (numerator_of self.now * other.now.denominator)
            (numerator_of other.now * self.now.denominator) }
    {
        let (n, d) = (self.numerator, self.denominator);
        compare_multiples(n, other.denominator, other.numerator, d)
    }

    /// Whether the square is at most a whole number.
    pub fn is_at_most(&self, square: u128) -> bool
        ensures { IsTrue result ↔ numerator_of self.now ≤ square * self.now.denominator }
    {
        let limit = Wide::product(square, self.denominator);
        self.numerator.compare(limit).is_le()
    }

    /// Whether the square is at most that of a distance.
    pub fn is_within(&self, distance: Distance) -> bool
        ensures { IsTrue result ↔ numerator_of self.now
            ≤ (units_of distance * units_of distance) * self.now.denominator }
    {
        let units = u128::from(distance.units());
        self.is_at_most(units * units)
    }

    /// Whether the root of the square is at least `root - 1/2`.
    fn is_root_from(&self, root: u64) -> bool
        requires { root ≤ greatest_distance }
        ensures { IsTrue result ↔ IsRootFrom (numerator_of self.now) self.now.denominator root }
    {
        let least = u128::from((2 * root).saturating_sub(1));
        let limit = Wide::product(least * least, self.denominator);
        limit.compare(self.numerator.times(4)).is_le()
    }

    /// The distance, the square root, rounded to the nearest whole number, half up.
    pub fn rounded_root(&self) -> u64
        ensures { IsRoundedFractionRoot (numerator_of self.now) self.now.denominator result }
    {
        if self.numerator.high == 0 {
            self.narrow_root()
        } else {
            self.wide_root()
        }
    }

    /// The rounded root where the numerator has at most 128 bits: the root of the whole part,
    /// rounded down, or one more.
    fn narrow_root(&self) -> u64
        requires { self.now.numerator.high ≡ 0 }
        ensures { IsRoundedFractionRoot (numerator_of self.now) self.now.denominator result }
    {
        let root = floor_root(self.numerator.low / self.denominator) as u64;
        if self.is_root_from(root + 1) {
            root + 1
        } else {
            root
        }
    }

    /// A number above the rounded root: a small one if there is.
    fn number_above_root(&self) -> u64
        ensures above { 4 * numerator_of self.now
            < ((2 * result - 1) * (2 * result - 1)) * self.now.denominator }
        ensures some { 0 < result }
        ensures few { result ≤ greatest_distance }
    {
        if self.is_root_from(SMALL_ROOT) {
            MAX_DISTANCE
        } else {
            SMALL_ROOT
        }
    }

    /// The rounded root, by bisection.
    fn wide_root(&self) -> u64
        ensures { IsRoundedFractionRoot (numerator_of self.now) self.now.denominator result }
    {
        let mut root = 0;
        let mut above = self.number_above_root();
        while root + 1 < above {
            let middle = (root + above) / 2;
            if self.is_root_from(middle) {
                root = middle;
            } else {
                above = middle;
            }
        }
        root
    }
}
