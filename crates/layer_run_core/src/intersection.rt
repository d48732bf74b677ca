//! Whether two geometries share a point.

ghost use Rattle.std.specs.Prelude.{◌≡◌, ◌≢◌, ◌↔◌, IfOk, IsTrue};
ghost use Rattle.relation_core.specs.declared.extent.Extent.TheVariants.{Empty};
ghost use Rattle.any_geometry_core.specs.AnyGeometries.{figure_of};
ghost use Rattle.any_relation_core.specs.PlaneSets.{Intersect, HasCommon};

use any_geometry_core::AnyGeometry;
use any_join_core::{PreparedPair, matrix_of};
use arrangement_core::PreparedGeometry;
use layer_core::Geometry;
use relation_core::{Extent, Matrix, Parts};
use std::alloc::{AllocError, Global};

/// Whether some point lies in neither the exterior of the one geometry nor that of the other, of
/// which the second is prepared.
///
/// # Errors
/// If an allocation fails.
pub(crate) fn intersect(
    alloc: Global,
    first: &AnyGeometry,
    second: &AnyGeometry,
    second_prepared: &PreparedGeometry,
) -> Result<bool, AllocError>
    requires { second_prepared.now ≡ figure_of second.now }
    ensures { IfOk result (λ meets. IsTrue meets
        ↔ Intersect (figure_of first.now) (figure_of second.now)) }
{
    if !first.bounds().meets(&second.bounds()) {
        return Ok(false);
    }
    let prepared = PreparedPair {
        first: None,
        second: Some(second_prepared),
    };
    let matrix = matrix_of(alloc, first.geometry(), second.geometry(), prepared)?;
    Ok(has_common(&matrix))
}

/// Whether the interiors or boundaries of two geometries with this matrix share a point.
fn has_common(matrix: &Matrix) -> bool
    ensures { IsTrue result ↔ HasCommon matrix.now }
{
    let Parts {
        interior,
        boundary,
        ..
    } = matrix.rows;
    has_points(interior.interior)
        || has_points(interior.boundary)
        || has_points(boundary.interior)
        || has_points(boundary.boundary)
}

/// Whether an intersection isn't empty.
fn has_points(extent: Extent) -> bool
    ensures { IsTrue result ↔ (extent ≢ Empty) }
{
    match extent {
        Extent::Empty => false,
        Extent::Point => true,
        Extent::Line => true,
        Extent::Area => true,
    }
}
