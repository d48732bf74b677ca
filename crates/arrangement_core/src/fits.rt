//! Whether one of some masks fits the matrix of two geometries, by no more of the matrix than tells
//! it.

ghost use Rattle.std.specs.Prelude.{◌↔◌, All, IfOk, IfSome, IsSome, IsTrue};
ghost use Rattle.plane_core.specs.PlaneMatrices.{IsPlaneMatrix};
ghost use Rattle.plane_core.specs.Vertices.{HoldsVertex, vertices_of};
ghost use Rattle.arrangement_core.specs.Fits.{FitMatrix, IsUpperBound};

use crate::prepared::{PreparedGeometry, computed, prepared_for};
use crate::wanted::{Question, Stop, Wanted};
use decision_core::one_fits;
use geom_core::Shape;
use plane_core::Geometry;
use relation_core::Matrix;
use std::alloc::{AllocError, Global};

/// Whether one of some masks fits the matrix of two prepared geometries, which is computed only
/// until this is known.
///
/// # Errors
/// If an allocation fails.
pub fn fits_prepared(
    alloc: Global,
    a: &PreparedGeometry,
    b: &PreparedGeometry,
    question: &Question,
) -> Result<bool, AllocError>
    requires { IsUpperBound a.now b.now question.now.greatest }
    ensures { IfOk result (λ answer. IsTrue answer ↔ FitMatrix question.now.masks.now a.now b.now) }
{
    match computed(alloc, a, b, &Wanted::Answer(*question)) {
        Ok(matrix) => Ok(one_fits(question.masks, &matrix)),
        Err(Stop::Memory(error)) => Err(error),
        Err(Stop::Settled(answer)) => Ok(answer),
    }
}

/// The same, of geometries that aren't prepared, given for each a box in which its vertices lie.
///
/// # Errors
/// If an allocation fails.
pub fn fits_within(
    alloc: Global,
    a: &Geometry,
    a_box: Shape,
    b: &Geometry,
    b_box: Shape,
    question: &Question,
) -> Result<bool, AllocError>
    requires first { All (HoldsVertex a_box) (vertices_of a.now) }
    requires second { All (HoldsVertex b_box) (vertices_of b.now) }
    requires bound { IsUpperBound a.now b.now question.now.greatest }
    ensures { IfOk result (λ answer. IsTrue answer ↔ FitMatrix question.now.masks.now a.now b.now) }
{
    let (first, second) = prepared_for(alloc, a, a_box, b, b_box)?;
    let answer = fits_prepared(alloc, &first, &second, question)?;
    Ok(answer)
}

/// The matrix of two prepared geometries, if one of some masks fits it. It is computed only until
/// none of them can.
///
/// # Errors
/// If an allocation fails.
pub fn fitting_prepared(
    alloc: Global,
    a: &PreparedGeometry,
    b: &PreparedGeometry,
    question: &Question,
) -> Result<Option<Matrix>, AllocError>
    requires { IsUpperBound a.now b.now question.now.greatest }
    // a matrix exactly where one of the masks fits that of the two geometries
    ensures fits { IfOk result (λ found. IsSome found
        ↔ FitMatrix question.now.masks.now a.now b.now) }
    // it is that one
    ensures matrix { IfOk result (λ found. IfSome found (IsPlaneMatrix a.now b.now)) }
{
    match computed(alloc, a, b, &Wanted::Fitting(*question)) {
        Ok(matrix) if one_fits(question.masks, &matrix) => Ok(Some(matrix)),
        Ok(_) => Ok(None),
        Err(Stop::Memory(error)) => Err(error),
        Err(Stop::Settled(_)) => Ok(None),
    }
}

/// The same, of geometries that aren't prepared, given for each a box in which its vertices lie.
///
/// # Errors
/// If an allocation fails.
pub fn fitting_within(
    alloc: Global,
    a: &Geometry,
    a_box: Shape,
    b: &Geometry,
    b_box: Shape,
    question: &Question,
) -> Result<Option<Matrix>, AllocError>
    requires first { All (HoldsVertex a_box) (vertices_of a.now) }
    requires second { All (HoldsVertex b_box) (vertices_of b.now) }
    requires bound { IsUpperBound a.now b.now question.now.greatest }
    // as of `fitting_prepared`
    ensures fits { IfOk result (λ found. IsSome found
        ↔ FitMatrix question.now.masks.now a.now b.now) }
    ensures matrix { IfOk result (λ found. IfSome found (IsPlaneMatrix a.now b.now)) }
{
    let (first, second) = prepared_for(alloc, a, a_box, b, b_box)?;
    let found = fitting_prepared(alloc, &first, &second, question)?;
    Ok(found)
}
