//! Which neighbours of a shape are asked for.

ghost use Rattle.std.specs.Prelude.{◌<◌};

use crate::apart::SquaredDistance;
use crate::distance::Distance;

/// How many neighbours of a shape are asked for, and how far away they may be.
#[derive(Clone, Copy, PartialEq, Eq)]
pub struct Query {
    most: u32,
    within: Option<Distance>,
    ghost some: { 0 < most },
}

impl Query {
    ghost use Rattle.std.specs.Prelude.{◌≡◌, ◌↔◌, IsTrue, IsSome, IfSome};
    ghost use Rattle.distance_core.specs.Queries.{most_of, within_of, IsInReach};

    /// The query for the `most` nearest features, together with those that are as far away as the
    /// last of them; if `within` is a distance, only for features that are at most so far away.
    /// `None` if `most` is 0.
    pub fn new(most: u32, within: Option<Distance>) -> Option<Query>
        // Some exactly for 1 neighbour or more
        ensures some { IsSome result ↔ 0 < most }
        // it has this number and this reach
        ensures most { IfSome result (λ query. most_of query ≡ most) }
        ensures within { IfSome result (λ query. within_of query ≡ within) }
    {
        if most == 0 {
            return None;
        }
        Some(Query { most, within })
    }

    /// The number of neighbours that are asked for, at least 1.
    pub fn most(&self) -> u32
        // the number
        ensures most { result ≡ most_of self.now }
        // at least 1
        ensures some { 0 < result }
    {
        self.most
    }

    /// The greatest distance that neighbours may have, if there is one.
    pub fn within(&self) -> Option<Distance>
        ensures { result ≡ within_of self.now }
    {
        self.within
    }

    /// Whether features may be so far away.
    pub fn reaches(&self, square: SquaredDistance) -> bool
        ensures { IsTrue result ↔ IsInReach (within_of self.now) square }
    {
        match self.within {
            None => true,
            Some(distance) => {
                let units = distance.units() as SquaredDistance;
                square <= units * units
            }
        }
    }
}
