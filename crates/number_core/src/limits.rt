//! The limits of coordinates: how many decimals they may have, and how great they may be.

use geom_core::LIMIT;

/// Whose coordinates are read.
#[derive(Clone, Copy, Debug, PartialEq, Eq)]
pub enum Limits {
    /// Those of boxes: up to 6 decimals, and up to 10^12 units from 0.
    Boxes,
    /// Those of any geometry: up to 15 decimals, and up to [`LIMIT`] units from 0.
    Any,
}

impl Limits {
    ghost use Rattle.std.specs.Prelude.{◌≡◌, ◌≤◌};
    ghost use Rattle.number_core.specs.ScaleLimits.{greatest_apart, greatest_range};
    ghost use Rattle.number_core.specs.ScaleLimits.{greatest_units, most_digits};

    /// The greatest number of decimals.
    pub fn digits(self) -> u8
        ensures { result ≡ most_digits self }
    {
        match self {
            Limits::Boxes => 6,
            Limits::Any => 15,
        }
    }

    /// The greatest absolute value of a coordinate, in units.
    #[inline(always)]
    pub fn units(self) -> u64
        // that of the limits
        ensures units { result ≡ greatest_units self }
        // a number may be read up to it
        ensures few { result ≤ greatest_range }
    {
        match self {
            Limits::Boxes => 1_000_000_000_000,
            Limits::Any => LIMIT as u64,
        }
    }

    /// The greatest distance that may be asked for, in units: no two points are so far apart.
    pub fn distance(self) -> u64
        // four times the greatest coordinate
        ensures units { result ≡ greatest_apart self }
        // a number may be read up to it
        ensures few { result ≤ greatest_range }
    {
        4 * self.units()
    }
}
