//! What a search is for: the features that are nearest to a geometry.

use distance_core::Query;
use geom_core::Shape;
use planar_core::Planar;

/// A geometry, with its form and its box, and which of its neighbours are asked for.
#[derive(Drop)]
pub(crate) struct Sought<'a, G: Planar> {
    pub(crate) geometry: &'a G,
    pub(crate) form: &'a G::Form,
    pub(crate) bounds: Shape,
    pub(crate) query: &'a Query,
}
