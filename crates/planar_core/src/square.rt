//! The squares of distances, as fractions of whole numbers.

use distance_core::{SquaredDistance, SquaredFraction, rounded_root};
use std::cmp::Ordering;
use wide_core::Wide;

/// The square of a distance, a fraction of two whole numbers, in square units of the grid.
pub trait Square: Copy {
    ghost use Rattle.std.specs.Prelude.{◌≡◌, ◌≤◌, ◌<◌, ◌*◌, ◌↔◌, ℕ, IsTrue};
    ghost use Rattle.distance_core.specs.Limits.{greatest_distance};
    ghost use Rattle.distance_core.specs.FractionRoots.{IsRoundedFractionRoot};
    ghost use Rattle.planar_core.specs.Squares.{IsLess, order_of};

    /// The numerator and the denominator.
    ghost fraction: { Self → ℕ × ℕ };

    /// The order of two squares, which is that of the distances.
    fn order(&self, other: &Self) -> Ordering
        ensures { result ≡ order_of (fraction self.now) (fraction other.now) };

    /// Whether the square is less than a whole number.
    fn is_below(&self, whole: SquaredDistance) -> bool
        ensures { IsTrue result ↔ IsLess (fraction self.now) (whole, 1) };

    /// Whether the square is 0.
    fn is_zero(&self) -> bool
        ensures { IsTrue result ↔ (fraction self.now).0 ≡ 0 };

    /// The distance, which is the square root, rounded to the nearest whole number, half up.
    fn rounded_root(&self) -> u64
        requires { (fraction self.now).0
            ≤ (greatest_distance * greatest_distance) * (fraction self.now).1 }
        ensures { IsRoundedFractionRoot (fraction self.now).0 (fraction self.now).1 result };

    /// No denominator is 0.
    ghost has_denominator: { (square : Self) → 0 < (fraction square).1 };
}

/// The squared distances of boxes are whole numbers.
impl Square for SquaredDistance {
    ghost use Rattle.planar_core.specs.Squares.{one_is_some, whole};

    ghost fraction = { whole };

    #[inline(always)]
    fn order(&self, other: &SquaredDistance) -> Ordering {
        self.cmp(other)
    }

    #[inline(always)]
    fn is_below(&self, whole: SquaredDistance) -> bool {
        *self < whole
    }

    #[inline(always)]
    fn is_zero(&self) -> bool {
        *self == 0
    }

    #[inline(always)]
    fn rounded_root(&self) -> u64 {
        rounded_root(*self)
    }

    ghost has_denominator = { λ n. one_is_some };
}

impl Square for SquaredFraction {
    ghost use Rattle.planar_core.specs.Squares.{fraction_of};

    ghost fraction = { fraction_of };

    fn order(&self, other: &SquaredFraction) -> Ordering {
        self.compare(other)
    }

    fn is_below(&self, whole: SquaredDistance) -> bool {
        let limit = Wide::product(whole, self.denominator);
        self.numerator.compare(limit).is_lt()
    }

    fn is_zero(&self) -> bool {
        self.numerator.is_zero()
    }

    fn rounded_root(&self) -> u64 {
        SquaredFraction::rounded_root(self)
    }

    ghost has_denominator = { λ f. f.positive };
}
