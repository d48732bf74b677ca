//! The matrix of two geometries, which may be prepared for it.

ghost use Rattle.std.specs.Prelude.{◌≡◌, All, IfOk, IfErr, OnOk};
ghost use Rattle.plane_core.specs.Figures.{IsGeometry};
ghost use Rattle.plane_core.specs.Outlines.{IsOutlineOf};
ghost use Rattle.plane_core.specs.PlaneMatrices.{IsPlaneMatrix};
ghost use Rattle.plane_core.specs.Vertices.{HoldsVertex, vertices_of};
ghost use Rattle.arrangement_core.specs.Answers.{IsEnd, IsMatrixFor};

use crate::pair::Pair;
use crate::rounds::read_off;
use crate::wanted::{Stop, Wanted};
use edge_index_core::IndexedOutline;
use geom_core::Shape;
use plane_core::Geometry;
use relation_core::Matrix;
use std::alloc::{AllocError, Global};
use std::marker::Model;

/// The greatest number of edges of a geometry that has no index for one other, where few of them
/// are looked for: the other is apart from it or small.
const MANY: usize = 1024;

/// The same where more are looked for. To index so few takes longer than to look at each of them.
const FEW: usize = 48;

/// The greatest number of ends of its polylines.
const FEW_ENDS: usize = 16;

/// The greatest number of vertices of a small geometry.
const SMALL: usize = 4;

/// A geometry with its outline, an index of its edges and its box, which are computed once for its
/// matrices with any number of others. In contracts its value is the geometry.
#[derive(Drop)]
pub struct PreparedGeometry<'a> {
    geometry: &'a Geometry,
    outline: IndexedOutline,
    bounds: Shape,
}

impl<'a> Model for PreparedGeometry<'a> {
    ghost use Rattle.plane_core.specs.Figures.{Figure};
    ghost use Rattle.arrangement_core.specs.Prepared.{IsPrepared};

    ghost Value = { Figure };

    ghost view = { λ p. p.geometry.now };

    ghost invariant = { λ p. IsPrepared p.geometry.now p.outline p.bounds };
}

impl<'a> PreparedGeometry<'a> {
    /// Prepares a geometry.
    ///
    /// # Errors
    /// If an allocation fails.
    pub fn new(alloc: Global, geometry: &'a Geometry) -> Result<PreparedGeometry<'a>, AllocError>
        ensures { IfOk result (λ p. p ≡ geometry.now) }
    {
        let bounds = geometry.bounds();
        let plain = geometry.outline(alloc)?;
        let outline = IndexedOutline::new(alloc, plain)?;
        Ok(PreparedGeometry {
            geometry,
            outline,
            bounds,
        })
    }

    /// Prepares a geometry for one other, with an index only if it has more than so many edges.
    fn for_one(
        alloc: Global,
        geometry: &'a Geometry,
        bounds: Shape,
        most_plain: usize,
    ) -> Result<PreparedGeometry<'a>, AllocError>
        requires { All (HoldsVertex bounds) (vertices_of geometry.now) }
        ensures { IfOk result (λ p. p ≡ geometry.now) }
    {
        let outline = indexed(alloc, geometry, most_plain)?;
        Ok(PreparedGeometry {
            geometry,
            outline,
            bounds,
        })
    }
}

/// The greatest number of edges of a geometry that has no index for one other, whose box is apart
/// from its own or not.
fn most_plain(other: &Geometry, is_apart: bool) -> usize {
    if is_apart || other.vertex_count() <= SMALL {
        MANY
    } else {
        FEW
    }
}

/// The outline of a geometry, with an index of its edges if it has more than so many.
fn indexed(
    alloc: Global,
    geometry: &Geometry,
    most_plain: usize,
) -> Result<IndexedOutline, AllocError>
    ensures outline { IfOk result (IsOutlineOf geometry.now) }
    ensures geometry { OnOk result (IsGeometry geometry.now) }
{
    let outline = geometry.outline(alloc)?;
    if outline.edges.len() <= most_plain && outline.ends.len() <= FEW_ENDS {
        Ok(IndexedOutline::plain(outline))
    } else {
        IndexedOutline::new(alloc, outline)
    }
}

/// The matrix of two prepared geometries, as far as it is wanted, or an early end. It takes time by
/// the edges of each that lie around the other's box, and by few beyond it.
pub(crate) fn computed(
    alloc: Global,
    a: &PreparedGeometry,
    b: &PreparedGeometry,
    wanted: &Wanted,
) -> Result<Matrix, Stop>
    ensures matrix { IfOk result (IsMatrixFor wanted.now a.now b.now) }
    ensures end { IfErr result (IsEnd wanted.now a.now b.now) }
{
    let first_around = a.outline.edges_around(alloc, &b.bounds)?;
    let second_around = b.outline.edges_around(alloc, &a.bounds)?;
    let pair = Pair {
        first: &a.outline,
        first_box: a.bounds,
        first_around: &first_around,
        second: &b.outline,
        second_box: b.bounds,
        second_around: &second_around,
        has_second: false,
    };
    let matrix = read_off(alloc, &pair, wanted)?;
    Ok(matrix)
}

/// The nine-intersection matrix of two prepared geometries. It takes time by the edges of each that
/// lie around the other's box, and by few beyond it.
///
/// # Errors
/// If an allocation fails.
pub fn relate_prepared(
    alloc: Global,
    a: &PreparedGeometry,
    b: &PreparedGeometry,
) -> Result<Matrix, AllocError>
    ensures { IfOk result (λ m. IsPlaneMatrix a.now b.now m) }
{
    match computed(alloc, a, b, &Wanted::Whole) {
        Ok(matrix) => Ok(matrix),
        Err(Stop::Memory(error)) => Err(error),
        Err(Stop::Settled(_)) => unreachable!(),
    }
}

/// Prepares two geometries for each other, given for each a box in which its vertices lie.
pub(crate) fn prepared_for<'a>(
    alloc: Global,
    a: &'a Geometry,
    a_box: Shape,
    b: &'a Geometry,
    b_box: Shape,
) -> Result<(PreparedGeometry<'a>, PreparedGeometry<'a>), AllocError>
    requires first { All (HoldsVertex a_box) (vertices_of a.now) }
    requires second { All (HoldsVertex b_box) (vertices_of b.now) }
    ensures first { IfOk result (λ both. both.0 ≡ a.now) }
    ensures second { IfOk result (λ both. both.1 ≡ b.now) }
{
    let is_apart = !a_box.meets(&b_box);
    let first = PreparedGeometry::for_one(alloc, a, a_box, most_plain(b, is_apart))?;
    let second = PreparedGeometry::for_one(alloc, b, b_box, most_plain(a, is_apart))?;
    Ok((first, second))
}

/// The nine-intersection matrix of two geometries: for each part of the first and each part of the
/// second the dimension of their intersection (OGC 06-103r4, 6.1.15.2).
///
/// # Errors
/// If an allocation fails.
pub fn relate(alloc: Global, a: &Geometry, b: &Geometry) -> Result<Matrix, AllocError>
    ensures { IfOk result (λ m. IsPlaneMatrix a.now b.now m) }
{
    let first_box = a.bounds();
    let second_box = b.bounds();
    relate_within(alloc, a, first_box, b, second_box)
}

/// The same matrix, given for each geometry a box in which its vertices lie.
///
/// # Errors
/// If an allocation fails.
pub fn relate_within(
    alloc: Global,
    a: &Geometry,
    a_box: Shape,
    b: &Geometry,
    b_box: Shape,
) -> Result<Matrix, AllocError>
    requires first { All (HoldsVertex a_box) (vertices_of a.now) }
    requires second { All (HoldsVertex b_box) (vertices_of b.now) }
    ensures { IfOk result (λ m. IsPlaneMatrix a.now b.now m) }
{
    let (first, second) = prepared_for(alloc, a, a_box, b, b_box)?;
    let matrix = relate_prepared(alloc, &first, &second)?;
    Ok(matrix)
}
