//! A distance that a join may ask for.

ghost use Rattle.std.specs.Prelude.{◌≤◌};
ghost use Rattle.distance_core.specs.Limits.{greatest_distance};

/// The greatest distance, in units: any two points of the plane are at most this far apart.
pub const MAX_DISTANCE: u64 = 4_000_000_000_000_000_000;

/// A distance of 0 to [`MAX_DISTANCE`] units.
#[derive(Clone, Copy, PartialEq, Eq)]
pub struct Distance {
    units: u64,
    ghost few: { units ≤ greatest_distance },
}

impl Distance {
    ghost use Rattle.std.specs.Prelude.{◌≡◌, ◌↔◌, IsSome, IfSome};
    ghost use Rattle.distance_core.specs.Units.{units_of};

    /// The distance of this number of units, or `None` if it is more than [`MAX_DISTANCE`].
    pub fn new(units: u64) -> Option<Distance>
        // Some exactly for 0 to 4,000,000,000,000,000,000 units
        ensures some { IsSome result ↔ units ≤ greatest_distance }
        // it has these
        ensures units { IfSome result (λ d. units_of d ≡ units) }
    {
        if units <= MAX_DISTANCE {
            Some(Distance { units })
        } else {
            None
        }
    }

    /// The distance in units.
    #[inline(always)]
    pub fn units(self) -> u64
        // how many
        ensures units { result ≡ units_of self }
        // at most 4,000,000,000,000,000,000
        ensures few { result ≤ greatest_distance }
    {
        self.units
    }
}
