//! Geometries of any kind as sets of points of the plane.

ghost use Rattle.std.specs.Prelude.{◌↔◌, IfOk, IsSome, IfSome};
ghost use Rattle.distance_core.specs.Units.{units_of};
ghost use Rattle.distance_core.specs.Distances.{AreWithin};
ghost use Rattle.distance_core.specs.Fractions.{IsSquareOf};
ghost use Rattle.distance_core.specs.ShapePoints.{IsPointOf};
ghost use Rattle.geometry_distance_core.specs.Measured.{IsIndexOf};
ghost use Rattle.planar_core.specs.Forms.{AreFormsOf};

use crate::forms::Forms;
use crate::planar::Planar;
use any_geometry_core::AnyGeometry;
use distance_core::{Distance, SquaredDistance, SquaredFraction, is_within};
use geometry_distance_core::{GeometryIndex, MeasuredGeometry, square_within};
use layer_core::Geometry as _;
use plane_core::Geometry;
use std::alloc::{AllocError, Global};

/// The distance of two geometries is measured by an index of each, unless their envelopes are too
/// far apart.
impl Planar for AnyGeometry {
    ghost use Rattle.planar_core.specs.AnyPoints.{HasPlace, HasIndex};
    ghost use Rattle.planar_core.specs.AnyPoints.{in_envelope, any_at_place, any_in_range};
    ghost use Rattle.planar_core.specs.AnyPoints.{any_in_plane};

    type Square = SquaredFraction;

    type Form = GeometryIndex;

    ghost has_point = { HasPlace };

    ghost is_form = { HasIndex };

    fn vertex_count(&self) -> usize {
        self.geometry().vertex_count()
    }

    fn form(&self, alloc: Global) -> Result<GeometryIndex, AllocError> {
        GeometryIndex::new(alloc, self.geometry())
    }

    fn square_within(
        alloc: Global,
        first: &AnyGeometry,
        second: &AnyGeometry,
        forms: Forms<GeometryIndex>,
        distance: Distance,
    ) -> Result<Option<SquaredFraction>, AllocError>
        requires { AreFormsOf HasIndex first.now second.now forms }
        ensures within { IfOk result (λ found. IsSome found
            ↔ AreWithin (units_of distance) (HasPlace first.now) (HasPlace second.now)) }
        ensures square { IfOk result (λ found. IfSome found (λ square.
            IsSquareOf square (HasPlace first.now) (HasPlace second.now))) }
    {
        if !is_within(&first.bounds(), &second.bounds(), distance) {
            return Ok(None);
        }
        square_between(alloc, first.geometry(), second.geometry(), forms, distance)
    }

    fn square_of_boxes(_square: SquaredDistance) -> Option<SquaredFraction> {
        None
    }

    ghost in_box = { in_envelope };

    ghost at_place = { any_at_place };

    ghost in_range = { any_in_range };

    ghost in_plane = { any_in_plane };
}

/// The square of the distance of two geometries, if they are at most a distance apart. One without
/// an index is indexed for this pair alone.
///
/// # Errors
/// If an allocation fails.
fn square_between(
    alloc: Global,
    first: &Geometry,
    second: &Geometry,
    forms: Forms<GeometryIndex>,
    distance: Distance,
) -> Result<Option<SquaredFraction>, AllocError>
    requires { AreFormsOf IsIndexOf first.now second.now forms }
    ensures within { IfOk result (λ found. IsSome found
        ↔ AreWithin (units_of distance) (IsPointOf first.now) (IsPointOf second.now)) }
    ensures square { IfOk result (λ found. IfSome found
        (λ square. IsSquareOf square (IsPointOf first.now) (IsPointOf second.now))) }
{
    match forms.first {
        Some(index) => {
            let first = MeasuredGeometry::new(first, index);
            square_from(alloc, &first, second, forms.second, distance)
        }
        None => {
            let index = GeometryIndex::new(alloc, first)?;
            let first = MeasuredGeometry::new(first, &index);
            square_from(alloc, &first, second, forms.second, distance)
        }
    }
}

/// The square of the distance of two closed geometries of which the first is indexed, and the second
/// may be, if they are at most a distance apart. A second one without an index is indexed for this
/// pair alone.
///
/// # Errors
/// If an allocation fails.
pub fn square_from(
    alloc: Global,
    first: &MeasuredGeometry,
    second: &Geometry,
    index: Option<&GeometryIndex>,
    distance: Distance,
) -> Result<Option<SquaredFraction>, AllocError>
    requires { IfSome index (λ index. IsIndexOf second.now index.now) }
    // a fraction exactly where the geometries are at most the distance apart
    ensures within { IfOk result (λ found. IsSome found
        ↔ AreWithin (units_of distance) (IsPointOf first.now) (IsPointOf second.now)) }
    // the least squared distance of a point of the one and a point of the other
    ensures square { IfOk result (λ found. IfSome found
        (λ square. IsSquareOf square (IsPointOf first.now) (IsPointOf second.now))) }
{
    match index {
        Some(index) => {
            let second = MeasuredGeometry::new(second, index);
            Ok(square_within(first, &second, distance))
        }
        None => {
            let index = GeometryIndex::new(alloc, second)?;
            let second = MeasuredGeometry::new(second, &index);
            Ok(square_within(first, &second, distance))
        }
    }
}
