//! The geometries of a layer of a join, prepared for their matrices.

use any_geometry_core::AnyGeometry;
use arrangement_core::PreparedGeometry;
use prepared_core::{Preparation, Prepare};
use std::alloc::{AllocError, Global};

/// Geometries of layers are indexed for their matrices with others.
pub struct ForMatrices;

/// A layer of a join, with the large geometries prepared that occur in several pairs.
pub type PreparedLayer<'a> = prepared_core::PreparedLayer<
    'a,
    AnyGeometry,
    PreparedGeometry<'a>,
    ForMatrices,
>;

impl<'a> Preparation<AnyGeometry, PreparedGeometry<'a>> for ForMatrices {
    ghost use Rattle.std.specs.Prelude.{◌≡◌};
    ghost use Rattle.any_geometry_core.specs.AnyGeometries.{figure_of};

    ghost is_form = { λ g form. form ≡ figure_of g };

    fn vertex_count(geometry: &AnyGeometry) -> usize {
        geometry.geometry().vertex_count()
    }
}

impl<'a> Prepare<'a, AnyGeometry, PreparedGeometry<'a>> for ForMatrices {
    fn prepare(
        alloc: Global,
        geometry: &'a AnyGeometry,
    ) -> Result<PreparedGeometry<'a>, AllocError> {
        PreparedGeometry::new(alloc, geometry.geometry())
    }
}
