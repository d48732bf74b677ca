//! Adding points and faces to a matrix.
//!
//! The rows of matrices are the parts of the first of two geometries. A point is located in the
//! other geometry only if this can still change the matrix.

ghost use Rattle.std.specs.Prelude.{◌≡◌, [], ◌∷◌};
ghost use Rattle.plane_core.specs.Places.{point_of};
ghost use Rattle.noding_core.specs.Growth.{HasGrownBy, mark_in, mark_beside, point_marks};
ghost use Rattle.noding_core.specs.ReadOffs.{points_by};

use edge_index_core::IndexedOutline;
use noding_core::{column_of, raised};
use plane_core::{Kind, Part, Place};
use relation_core::{Extent, Matrix};
use shown_core::{are_shown, is_place_shown, parts_above};

/// The matrix with a point of which one part is known. The other part is located only if the matrix
/// may not include the point yet.
fn mark_place(matrix: Matrix, part: Part, other: &IndexedOutline, p: &Place) -> Matrix
    ensures { HasGrownBy (mark_in part other.now (point_of p.now) ∷ []) matrix result }
{
    if is_place_shown(&matrix, part, other, p, Extent::Point) {
        matrix
    } else {
        let standing = other.standing_at(p);
        raised(matrix, part, standing.part, Extent::Point)
    }
}

/// The matrix with the face above a point, of which the part in the other geometry is known.
pub(crate) fn mark_above(matrix: Matrix, own: &IndexedOutline, above: Part, p: &Place) -> Matrix
    ensures { HasGrownBy (mark_beside own.now above (point_of p.now) ∷ []) matrix result }
{
    let column = column_of(&matrix, above);
    let kind = own.outline().kind;
    if are_shown(&column, &parts_above(kind), Extent::Area) {
        matrix
    } else {
        let standing = own.standing_at(p);
        raised(matrix, standing.above, above, Extent::Area)
    }
}

/// The matrix with single points, which are interior points of the first geometry.
fn mark_each(matrix: Matrix, own: &IndexedOutline, other: &IndexedOutline) -> Matrix
    requires { own.now.kind ≡ Kind.Points }
    ensures { HasGrownBy (point_marks own.now other.now own.now.ends.items) matrix result }
{
    let mut grown = matrix;
    let points = own.outline().ends.as_slice();
    for v in points {
        grown = mark_place(grown, Part::Interior, other, &Place::at(v));
    }
    grown
}

/// The matrix with the points of the first geometry, if that consists of points.
pub(crate) fn mark_points(matrix: Matrix, own: &IndexedOutline, other: &IndexedOutline) -> Matrix
    ensures { let points = points_by own.now.kind own.now.ends.items in
        HasGrownBy (point_marks own.now other.now points) matrix result }
{
    match own.outline().kind {
        Kind::Points => mark_each(matrix, own, other),
        Kind::Lines => matrix,
        Kind::Areas => matrix,
    }
}
