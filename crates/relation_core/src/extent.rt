//! The dimension of the intersection of two parts of the plane: an entry of a matrix.

/// The greatest dimension of the intersection of two parts.
#[derive(Clone, Copy, PartialEq, Eq)]
pub enum Extent {
    /// The intersection is empty.
    Empty,
    /// The intersection consists of points only.
    Point,
    /// The intersection contains a piece of a line, but no area.
    Line,
    /// The intersection contains an area.
    Area,
}

impl Extent {
    ghost use Rattle.std.specs.Prelude.{◌≡◌};
    ghost use Rattle.relation_core.specs.Matrices.{letter_of};

    /// The letter of a matrix: `F`, `0`, `1` or `2`.
    #[inline(always)]
    pub fn letter(self) -> u8
        ensures { result ≡ letter_of self }
    {
        match self {
            Extent::Empty => b'F',
            Extent::Point => b'0',
            Extent::Line => b'1',
            Extent::Area => b'2',
        }
    }
}
