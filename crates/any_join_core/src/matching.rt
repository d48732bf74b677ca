//! Whether two geometries stand in a relation, and the matrix of those that do.

ghost use Rattle.std.specs.Prelude.{◌≡◌, ◌↔◌, IfOk, IfSome, IsSome, IsTrue};
ghost use Rattle.relation_core.specs.Relations.{masks};
ghost use Rattle.plane_core.specs.Figures.{dim_of};
ghost use Rattle.plane_core.specs.PlaneMatrices.{IsPlaneMatrix};
ghost use Rattle.arrangement_core.specs.Fits.{FitMatrix, IsUpperBound};
ghost use Rattle.any_relation_core.specs.AnyRelations.{relation_of, rings_of as allowed};
ghost use Rattle.any_relation_core.specs.EnvelopeRules.{AllowsBoxes};
ghost use Rattle.any_relation_core.specs.PlaneRelations.{HoldsOf};
ghost use Rattle.any_geometry_core.specs.AnyGeometries.{figure_of, rings_of, box_of};
ghost use Rattle.any_join_core.specs.Matches.{AreRelated, TakesRule};
ghost use Rattle.any_join_core.specs.PreparedPairs.{AreOf};

use crate::limits::greatest;
use agreement_core::relate_boxes;
use any_geometry_core::AnyGeometry;
use any_relation_core::{AnyRelation, Rings};
use arrangement_core::{
    PreparedGeometry, Question, fits_prepared, fits_within, fitting_prepared, fitting_within,
    relate, relate_prepared,
};
use layer_core::Geometry as HasBounds;
use plane_core::Geometry;
use relation_core::{Matrix, Relation};
use std::alloc::{AllocError, Global};

/// The prepared forms of two geometries, where there are any.
#[derive(Clone, Copy)]
pub struct PreparedPair<'a> {
    pub first: Option<&'a PreparedGeometry<'a>>,
    pub second: Option<&'a PreparedGeometry<'a>>,
}

/// The matrix of two geometries, if they stand in the relation, which takes their rings. It is
/// computed only until they are known not to.
///
/// # Errors
/// Out of memory.
pub fn related(
    alloc: Global,
    relation: &AnyRelation,
    first: &AnyGeometry,
    second: &AnyGeometry,
    prepared: PreparedPair,
) -> Result<Option<Matrix>, AllocError>
    requires { AreOf (figure_of first.now) (figure_of second.now) prepared }
    // a matrix exactly for geometries that stand in the relation
    ensures holds { IfOk result (λ found. IsSome found
        ↔ AreRelated relation.now first.now second.now) }
    // it is their matrix by points of the plane
    ensures matrix { IfOk result (λ found. IfSome found
        (IsPlaneMatrix (figure_of first.now) (figure_of second.now))) }
{
    if !may_stand(relation, first, second) {
        return Ok(None);
    }
    fitting(alloc, relation, first, second, prepared)
}

/// Whether two geometries stand in the relation, which takes their rings. Their matrix is computed
/// only until this is known.
///
/// # Errors
/// Out of memory.
pub fn are_related(
    alloc: Global,
    relation: &AnyRelation,
    first: &AnyGeometry,
    second: &AnyGeometry,
    prepared: PreparedPair,
) -> Result<bool, AllocError>
    requires { AreOf (figure_of first.now) (figure_of second.now) prepared }
    ensures { IfOk result (λ answer. IsTrue answer
        ↔ AreRelated relation.now first.now second.now) }
{
    if !may_stand(relation, first, second) {
        return Ok(false);
    }
    holds(alloc, relation, first, second, prepared)
}

/// Whether two geometries may stand in a relation, by the rules for their rings and by their
/// envelopes.
fn may_stand(relation: &AnyRelation, first: &AnyGeometry, second: &AnyGeometry) -> bool
    ensures first { IsTrue result → TakesRule (allowed relation.now) (rings_of first.now) }
    ensures second { IsTrue result → TakesRule (allowed relation.now) (rings_of second.now) }
    ensures none_lost { AreRelated relation.now first.now second.now → IsTrue result }
{
    takes_rings(relation, first)
        && takes_rings(relation, second)
        && may_be_related(relation, first, second)
}

/// Whether two geometries may stand in a relation, by their envelopes.
fn may_be_related(relation: &AnyRelation, first: &AnyGeometry, second: &AnyGeometry) -> bool
    ensures exact { IsTrue result
        ↔ AllowsBoxes (relation_of relation.now) (box_of first.now) (box_of second.now) }
    ensures none_lost { AreRelated relation.now first.now second.now → IsTrue result }
{
    let a = first.bounds();
    let b = second.bounds();
    relation.allows_boxes(&a, &b)
}

/// Whether a relation takes a geometry with such rings.
fn takes_rings(relation: &AnyRelation, geometry: &AnyGeometry) -> bool
    ensures { IsTrue result ↔ TakesRule (allowed relation.now) (rings_of geometry.now) }
{
    match (relation.rings(), geometry.rings()) {
        (Rings::Proper, Rings::Proper) => true,
        (Rings::Proper, Rings::EvenOdd) => false,
        (Rings::EvenOdd, _) => true,
    }
}

/// The matrix of two geometries, if a mask of the relation fits it.
fn fitting(
    alloc: Global,
    relation: &AnyRelation,
    first: &AnyGeometry,
    second: &AnyGeometry,
    prepared: PreparedPair,
) -> Result<Option<Matrix>, AllocError>
    requires { AreOf (figure_of first.now) (figure_of second.now) prepared }
    ensures holds { IfOk result (λ found. IsSome found
        ↔ HoldsOf (relation_of relation.now) (figure_of first.now) (figure_of second.now)) }
    ensures matrix { IfOk result (λ found. IfSome found
        (IsPlaneMatrix (figure_of first.now) (figure_of second.now))) }
{
    let (a, b) = (first.geometry(), second.geometry());
    let relation = relation.relation();
    if let Some(matrix) = relate_boxes(a, b) {
        return Ok(matrix_that_fits(relation, a, b, matrix));
    }
    let question = question_of(relation, a, b);
    fitting_forms(alloc, &question, first, second, prepared)
}

/// The matrix of two geometries, if a mask of the relation fits it.
#[tactic(auto, using(crate::proofs::RelatedLemmas::fits_where_holds))]
fn matrix_that_fits(relation: &Relation, a: &Geometry, b: &Geometry, m: Matrix) -> Option<Matrix>
    requires { IsPlaneMatrix a.now b.now m }
    ensures holds { IsSome result ↔ HoldsOf relation.now a.now b.now }
    ensures matrix { IfSome result (IsPlaneMatrix a.now b.now) }
{
    if relation.fits(&m, a.dim(), b.dim()) {
        Some(m)
    } else {
        None
    }
}

/// Whether two geometries stand in a relation, as far as it is told by masks.
fn holds(
    alloc: Global,
    relation: &AnyRelation,
    first: &AnyGeometry,
    second: &AnyGeometry,
    prepared: PreparedPair,
) -> Result<bool, AllocError>
    requires { AreOf (figure_of first.now) (figure_of second.now) prepared }
    ensures { IfOk result (λ answer. IsTrue answer
        ↔ HoldsOf (relation_of relation.now) (figure_of first.now) (figure_of second.now)) }
{
    let (a, b) = (first.geometry(), second.geometry());
    let relation = relation.relation();
    if let Some(matrix) = relate_boxes(a, b) {
        return Ok(matrix_that_fits(relation, a, b, matrix).is_some());
    }
    let question = question_of(relation, a, b);
    fits_forms(alloc, &question, first, second, prepared)
}

/// The masks of a relation for two geometries, and the greatest matrix of their dimensions.
fn question_of<'a>(relation: &'a Relation, a: &Geometry, b: &Geometry) -> Question<'a>
    ensures masks { result.masks.now ≡ masks relation.now (dim_of a.now) (dim_of b.now) }
    ensures bound { IsUpperBound a.now b.now result.greatest }
{
    let (first_dim, second_dim) = (a.dim(), b.dim());
    Question {
        masks: relation.masks(first_dim, second_dim),
        greatest: greatest(first_dim, second_dim),
    }
}

/// The matrix of two geometries of layers, if one of some masks fits it. Those that aren't prepared
/// are prepared for this alone.
fn fitting_forms(
    alloc: Global,
    question: &Question,
    first: &AnyGeometry,
    second: &AnyGeometry,
    prepared: PreparedPair,
) -> Result<Option<Matrix>, AllocError>
    requires forms { AreOf (figure_of first.now) (figure_of second.now) prepared }
    requires bound { let bound = question.now.greatest in
        IsUpperBound (figure_of first.now) (figure_of second.now) bound }
    ensures fits { let masks = question.now.masks.now in
        IfOk result (λ found. IsSome found
        ↔ FitMatrix masks (figure_of first.now) (figure_of second.now)) }
    ensures matrix { IfOk result (λ found. IfSome found
        (IsPlaneMatrix (figure_of first.now) (figure_of second.now))) }
{
    let (a, b) = (first.geometry(), second.geometry());
    match (prepared.first, prepared.second) {
        (None, None) => fitting_within(alloc, a, first.bounds(), b, second.bounds(), question),
        (Some(p), Some(q)) => fitting_prepared(alloc, p, q, question),
        (Some(p), None) => fitting_prepared(alloc, p, &PreparedGeometry::new(alloc, b)?, question),
        (None, Some(q)) => fitting_prepared(alloc, &PreparedGeometry::new(alloc, a)?, q, question),
    }
}

/// Whether one of some masks fits the matrix of two geometries of layers. Those that aren't
/// prepared are prepared for this alone.
fn fits_forms(
    alloc: Global,
    question: &Question,
    first: &AnyGeometry,
    second: &AnyGeometry,
    prepared: PreparedPair,
) -> Result<bool, AllocError>
    requires forms { AreOf (figure_of first.now) (figure_of second.now) prepared }
    requires bound { let bound = question.now.greatest in
        IsUpperBound (figure_of first.now) (figure_of second.now) bound }
    ensures { let masks = question.now.masks.now in
        IfOk result (λ answer. IsTrue answer
        ↔ FitMatrix masks (figure_of first.now) (figure_of second.now)) }
{
    let (a, b) = (first.geometry(), second.geometry());
    match (prepared.first, prepared.second) {
        (None, None) => fits_within(alloc, a, first.bounds(), b, second.bounds(), question),
        (Some(p), Some(q)) => fits_prepared(alloc, p, q, question),
        (Some(p), None) => fits_prepared(alloc, p, &PreparedGeometry::new(alloc, b)?, question),
        (None, Some(q)) => fits_prepared(alloc, &PreparedGeometry::new(alloc, a)?, q, question),
    }
}

/// The matrix of two geometries. Two boxes, such as points and rectangles, take no memory; of
/// others, those that aren't prepared are prepared for this matrix alone.
///
/// # Errors
/// Out of memory.
pub fn matrix_of(
    alloc: Global,
    first: &Geometry,
    second: &Geometry,
    prepared: PreparedPair,
) -> Result<Matrix, AllocError>
    requires { AreOf first.now second.now prepared }
    ensures { IfOk result (IsPlaneMatrix first.now second.now) }
{
    if let Some(matrix) = relate_boxes(first, second) {
        return Ok(matrix);
    }
    match (prepared.first, prepared.second) {
        (Some(first), Some(second)) => relate_prepared(alloc, first, second),
        (Some(first), None) => {
            relate_prepared(alloc, first, &PreparedGeometry::new(alloc, second)?)
        }
        (None, Some(second)) => {
            relate_prepared(alloc, &PreparedGeometry::new(alloc, first)?, second)
        }
        (None, None) => relate(alloc, first, second),
    }
}
