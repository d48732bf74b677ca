//! A feature that is near a geometry, and the order of such features.

use planar_core::Square;
use std::cmp::Ordering;

/// The number of a feature, with the square of its distance from a geometry. Neighbours come by
/// their distances, and then by their numbers.
#[derive(Clone, Copy)]
pub struct Neighbour<S> {
    pub square: S,
    pub number: u32,
}

impl<S: Square> Neighbour<S> {
    ghost use Rattle.std.specs.Prelude.{◌≡◌};
    ghost use Rattle.nearest_core.specs.Orders.{neighbour_order};

    /// The order of two neighbours.
    fn order(&self, other: &Neighbour<S>) -> Ordering
        ensures { result ≡ neighbour_order S.fraction self.now other.now }
    {
        let by_square = self.square.order(&other.square);
        by_square.then(self.number.cmp(&other.number))
    }
}

impl<S: Square> PartialEq for Neighbour<S> {
    ghost use Rattle.std.specs.Ordering.{eq_by_cmp};
    ghost use Rattle.nearest_core.specs.Orders.{neighbour_order, neighbours_alike};

    ghost eq = { eq_by_cmp (neighbour_order S.fraction) };

    ghost laws = { neighbours_alike S.fraction S.has_denominator };

    fn eq(&self, other: &Neighbour<S>) -> bool {
        self.order(other).is_eq()
    }
}

impl<S: Square> Eq for Neighbour<S> {
    ghost use Rattle.nearest_core.specs.Orders.{neighbours_equal};

    ghost laws = { neighbours_equal S.fraction S.has_denominator };
}

impl<S: Square> PartialOrd for Neighbour<S> {
    ghost use Rattle.std.specs.Ordering.{as_partial_cmp};
    ghost use Rattle.nearest_core.specs.Orders.{neighbour_order, neighbours_partial};

    ghost partial_cmp = { as_partial_cmp (neighbour_order S.fraction) };

    ghost laws = { neighbours_partial S.fraction S.has_denominator };

    fn partial_cmp(&self, other: &Neighbour<S>) -> Option<Ordering> {
        Some(self.order(other))
    }
}

impl<S: Square> Ord for Neighbour<S> {
    ghost use Rattle.std.specs.Prelude.{refl};
    ghost use Rattle.nearest_core.specs.Orders.{neighbour_order, neighbours_total};

    ghost cmp = { neighbour_order S.fraction };

    ghost total = { neighbours_total S.fraction S.has_denominator };

    ghost matches_partial_cmp = { λ x y. refl };

    ghost matches_eq = { λ x y. refl };

    fn cmp(&self, other: &Neighbour<S>) -> Ordering {
        self.order(other)
    }
}
