//! The matrix of two shapes, from their meetings along each axis.

ghost use Rattle.std.specs.Prelude.{◌≡◌};
ghost use Rattle.relation_core.specs.Axes.{entries_of, entry_of, product_of, larger_extent};
ghost use Rattle.relation_core.specs.Axes.{matrix_by};
ghost use Rattle.relation_core.specs.Matrices.{IsMatrix};

use crate::axis::{ZonePairs, axis_table};
use crate::extent::Extent;
use crate::matrix::Matrix;
use crate::meeting::{Meeting, Shared};
use crate::part::Parts;
use geom_core::Shape;

/// The nine-intersection matrix of `a` and `b`: for each part of `a` and each part of `b` the
/// dimension of their intersection (OGC 06-103r4, 6.1.15.2).
///
/// The boundary of a point is empty, that of a segment consists of its two ends, and that of a
/// rectangle is its ring (OGC 06-103r4, 6.1.4, 6.1.6 and 6.1.10).
pub fn relate(a: &Shape, b: &Shape) -> Matrix
    // for each part of one shape and each part of the other, the greatest dimension of the cells
    // that lie in both, or none
    ensures { IsMatrix a.now b.now result }
{
    matrix_by(Meeting::of(a.x(), b.x()), Meeting::of(a.y(), b.y()))
}

/// The matrix of two shapes with these meetings along the two axes.
#[inline(always)]
pub(crate) fn matrix_by(x: Meeting, y: Meeting) -> Matrix
    ensures { result ≡ matrix_by x y }
{
    let x = axis_table(x);
    let y = axis_table(y);
    let rows = Parts {
        interior: entries(&x.interior, &y.interior),
        boundary: entries(&x.boundary, &y.boundary),
        exterior: entries(&x.exterior, &y.exterior),
    };
    Matrix { rows }
}

/// The intersections of a part of the first shape with each part of the second.
#[inline(always)]
fn entries(x: &Parts<ZonePairs>, y: &Parts<ZonePairs>) -> Parts<Extent>
    ensures { result ≡ entries_of x.now y.now }
{
    Parts {
        interior: entry(&x.interior, &y.interior),
        boundary: entry(&x.boundary, &y.boundary),
        exterior: entry(&x.exterior, &y.exterior),
    }
}

/// The intersection of two parts. Each is the union of two products of zones, so four pairs of
/// products meet.
#[inline(always)]
fn entry(x: &ZonePairs, y: &ZonePairs) -> Extent
    ensures { result ≡ entry_of x.now y.now }
{
    let first = larger(
        product(x.narrow_narrow, y.wide_wide),
        product(x.narrow_wide, y.wide_narrow),
    );
    let second = larger(
        product(x.wide_narrow, y.narrow_wide),
        product(x.wide_wide, y.narrow_narrow),
    );
    larger(first, second)
}

/// The intersection of two products of zones, where `x` and `y` are those of their factors.
#[inline(always)]
fn product(x: Shared, y: Shared) -> Extent
    ensures { result ≡ product_of x y }
{
    match (x, y) {
        (Shared::Nothing, _) => Extent::Empty,
        (Shared::Point, Shared::Nothing) => Extent::Empty,
        (Shared::Point, Shared::Point) => Extent::Point,
        (Shared::Point, Shared::Interval) => Extent::Line,
        (Shared::Interval, Shared::Nothing) => Extent::Empty,
        (Shared::Interval, Shared::Point) => Extent::Line,
        (Shared::Interval, Shared::Interval) => Extent::Area,
    }
}

/// The greater of two extents.
#[inline(always)]
fn larger(a: Extent, b: Extent) -> Extent
    ensures { result ≡ larger_extent a b }
{
    match (a, b) {
        (Extent::Area, _) => Extent::Area,
        (Extent::Line, Extent::Area) => Extent::Area,
        (Extent::Line, Extent::Line) => Extent::Line,
        (Extent::Line, Extent::Point) => Extent::Line,
        (Extent::Line, Extent::Empty) => Extent::Line,
        (Extent::Point, Extent::Area) => Extent::Area,
        (Extent::Point, Extent::Line) => Extent::Line,
        (Extent::Point, Extent::Point) => Extent::Point,
        (Extent::Point, Extent::Empty) => Extent::Point,
        (Extent::Empty, _) => b,
    }
}
