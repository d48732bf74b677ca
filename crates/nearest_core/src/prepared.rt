//! The geometries of a layer of which the nearest are sought, with the forms of those that are
//! large.

use planar_core::Planar;
use prepared_core::{Preparation, Prepare};
use std::alloc::{AllocError, Global};
use std::marker::PhantomData;

/// The fewest vertices of a geometry whose form is made once, before the search. That of a smaller
/// one is made for each geometry that it is measured from: this takes little time, while the forms
/// of all of them would take much memory.
pub(crate) const LARGE: usize = 256;

/// The forms of geometries of layers are made for their distances from others.
pub(crate) struct ForNearest<G> {
    of: PhantomData<G>,
}

/// A layer with the forms of its large geometries.
pub(crate) type PreparedLayer<'a, G> = prepared_core::PreparedLayer<
    'a,
    G,
    <G as Planar>::Form,
    ForNearest<G>,
>;

impl<G: Planar> Preparation<G, G::Form> for ForNearest<G> {
    ghost is_form = { G.is_form };

    fn vertex_count(geometry: &G) -> usize {
        geometry.vertex_count()
    }
}

impl<'a, G: Planar> Prepare<'a, G, G::Form> for ForNearest<G> {
    fn prepare(alloc: Global, geometry: &'a G) -> Result<G::Form, AllocError> {
        geometry.form(alloc)
    }
}
