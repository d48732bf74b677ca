//! The least squared distance of the pairs of edges that were measured so far.

ghost use Rattle.std.specs.Prelude.{◌≡◌, ◌↔◌, IsTrue, None};
ghost use Rattle.edge_index_core.specs.Bounds.{IsBoxOf};
ghost use Rattle.geometry_distance_core.specs.NearestPairs.{Pairs, IsLeastOf, IsPast, IsZero};
ghost use Rattle.geometry_distance_core.specs.NearestPairs.{AddsPairs, of_edges};

use distance_core::{Distance, SquaredFraction, edge_to_edge, lesser, squared_distance};
use edge_index_core::bounds_of;
use geom_core::Shape;
use plane_core::Edge;

/// The least squared distance of some pairs of points, if it is at most the square of a distance.
#[derive(Clone, Copy)]
pub(crate) struct Nearest {
    pub(crate) distance: Distance,
    pub(crate) square: Option<SquaredFraction>,
}

impl Nearest {
    /// That of no pairs.
    pub(crate) fn of_none(distance: Distance) -> Nearest
        ensures distance { result.distance ≡ distance }
        ensures square { result.square ≡ None }
    {
        Nearest {
            distance,
            square: None,
        }
    }

    /// Whether pairs with a squared distance of at least `square` make no difference.
    pub(crate) fn is_past(&self, square: u128) -> bool
        ensures { IsTrue result ↔ IsPast self.now square }
    {
        match &self.square {
            Some(least) => least.is_at_most(square),
            None => {
                let units = u128::from(self.distance.units());
                units * units < square
            }
        }
    }

    /// Whether two points are the same.
    pub(crate) fn is_zero(&self) -> bool
        ensures { IsTrue result ↔ IsZero self.now.square }
    {
        match &self.square {
            Some(least) => least.numerator.is_zero(),
            None => false,
        }
    }

    /// That of these pairs and of others with this least squared distance.
    fn with(self, square: SquaredFraction) -> Nearest
        ensures { (pairs : Pairs) → IsLeastOf square pairs → AddsPairs pairs self result }
    {
        let distance = self.distance;
        let square = match self.square {
            Some(least) => Some(lesser(least, square)),
            None if square.is_within(distance) => Some(square),
            None => None,
        };
        Nearest { distance, square }
    }

    /// That of these pairs, and of a point of an edge, with its box, and a point of another.
    pub(crate) fn with_edges(self, e: &Edge, bounds: &Shape, f: &Edge) -> Nearest
        requires { IsBoxOf e.now bounds.now }
        ensures { AddsPairs (of_edges e.now f.now) self result }
    {
        if self.is_past(squared_distance(bounds, &bounds_of(f))) {
            self
        } else {
            self.with(edge_to_edge(e, f))
        }
    }
}
