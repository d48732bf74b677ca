//! The nine-intersection matrix of two geometries.

use crate::extent::Extent;
use crate::part::Parts;

/// The dimension of the intersection of each part of one geometry with each part of another (OGC
/// 06-103r4, 6.1.15.2).
#[derive(Clone, Copy, PartialEq, Eq)]
pub struct Matrix {
    pub rows: Parts<Parts<Extent>>,
}

impl Matrix {
    ghost use Rattle.std.specs.Prelude.{◌≡◌};
    ghost use Rattle.relation_core.specs.Matrices.{letters_of};

    /// The nine letters, row by row: interior, boundary and exterior of the first geometry, each
    /// with interior, boundary and exterior of the second.
    pub fn text(&self) -> [u8; 9]
        ensures { result ≡ letters_of self.now }
    {
        let Parts {
            interior,
            boundary,
            exterior,
        } = self.rows;
        [
            interior.interior.letter(),
            interior.boundary.letter(),
            interior.exterior.letter(),
            boundary.interior.letter(),
            boundary.boundary.letter(),
            boundary.exterior.letter(),
            exterior.interior.letter(),
            exterior.boundary.letter(),
            exterior.exterior.letter(),
        ]
    }
}
