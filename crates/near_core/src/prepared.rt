//! The geometries of a layer of a join by distance, with the forms of those that are large and occur
//! in several pairs.

use crate::grown::Grown;
use planar_core::Planar;
use prepared_core::{Preparation, Prepare};
use std::alloc::{AllocError, Global};
use std::marker::PhantomData;

/// The forms of geometries of layers are made for their distances from others.
pub struct ForDistances<G> {
    of: PhantomData<G>,
}

impl<G: Planar> Preparation<Grown<G>, G::Form> for ForDistances<G> {
    ghost is_form = { λ grown form. G.is_form grown.geometry form };

    fn vertex_count(grown: &Grown<G>) -> usize {
        grown.geometry.vertex_count()
    }
}

impl<'a, G: Planar> Prepare<'a, Grown<G>, G::Form> for ForDistances<G> {
    fn prepare(alloc: Global, grown: &'a Grown<G>) -> Result<G::Form, AllocError> {
        grown.geometry.form(alloc)
    }
}
