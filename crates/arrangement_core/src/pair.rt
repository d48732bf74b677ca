//! Two geometries whose matrix is computed.

use edge_index_core::IndexedOutline;
use geom_core::Shape;
use plane_core::Edge;

/// The outlines of both, with indexes of their edges, the boxes of their vertices, and the edges of
/// each that lie around the box of the other; and whether the matrix has those of the second.
#[derive(Clone, Copy)]
pub(crate) struct Pair<'a> {
    pub(crate) first: &'a IndexedOutline,
    pub(crate) first_box: Shape,
    pub(crate) first_around: &'a [Edge],
    pub(crate) second: &'a IndexedOutline,
    pub(crate) second_box: Shape,
    pub(crate) second_around: &'a [Edge],
    pub(crate) has_second: bool,
}

impl<'a> Pair<'a> {
    ghost use Rattle.std.specs.Prelude.{◌≡◌, IsTrue};

    /// The pair in reverse order, once the matrix has the edges of the first geometry.
    pub(crate) fn turned(&self) -> Pair<'a>
        ensures first { result.first.now ≡ self.now.second.now }
        ensures first_box { result.first_box ≡ self.now.second_box }
        ensures first_around { result.first_around.now ≡ self.now.second_around.now }
        ensures second { result.second.now ≡ self.now.first.now }
        ensures second_box { result.second_box ≡ self.now.first_box }
        ensures second_around { result.second_around.now ≡ self.now.first_around.now }
        ensures marked { IsTrue result.has_second }
    {
        Pair {
            first: self.second,
            first_box: self.second_box,
            first_around: self.second_around,
            second: self.first,
            second_box: self.first_box,
            second_around: self.first_around,
            has_second: true,
        }
    }
}
