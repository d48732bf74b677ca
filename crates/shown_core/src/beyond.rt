//! Whether a matrix has all that an edge in one part of the other geometry can add.

ghost use Rattle.std.specs.Prelude.{◌≡◌, ◌≢◌, ◌≤◌, ◌⊎◌, pos, IsTrue};
ghost use Rattle.relation_core.specs.declared.extent.Extent.TheVariants.{Area};
ghost use Rattle.plane_core.specs.Points.{run};
ghost use Rattle.shown_core.specs.Shown.{AreShown, parts_above};
ghost use Rattle.shown_core.specs.Beyond.{has_no_end, parts_along, IsEdgeShown};
ghost use Rattle.shown_core.specs.Beyond.{IsOuterShown};
ghost use Rattle.shown_core.specs.Ends.{HasNoOuterEnd};
ghost use Rattle.noding_core.specs.Marks.{rank};

use crate::ends::has_no_outer_end;
use crate::shown::{are_shown, parts_above};
use edge_index_core::IndexedOutline;
use geom_core::Shape;
use noding_core::column_of;
use plane_core::{Edge, Kind, Outline, Part};
use relation_core::{Extent, Matrix, Parts};

/// The part in which the points of an edge lie, except where polylines end.
fn parts_along(kind: Kind) -> Parts<bool>
    ensures { result ≡ parts_along kind }
{
    Parts {
        interior: kind != Kind::Areas,
        boundary: kind != Kind::Lines,
        exterior: kind == Kind::Points,
    }
}

/// Whether no polyline ends on an edge.
fn has_no_end(own: &IndexedOutline, e: &Edge) -> bool
    ensures { result ≡ has_no_end own.now e.now }
{
    !own.has_end_on(e)
}

/// The same for polylines; true for other kinds.
pub fn is_free(own: &IndexedOutline, e: &Edge) -> bool
    ensures { IsTrue result → own.now.kind ≡ Kind.Lines → IsTrue (has_no_end own.now e.now) }
{
    match own.outline().kind {
        Kind::Lines => has_no_end(own, e),
        Kind::Points => true,
        Kind::Areas => true,
    }
}

/// Whether a column of a matrix includes each face that can lie above an edge.
fn are_faces_in(column: &Parts<Extent>, kind: Kind, e: &Edge) -> bool
    ensures { IsTrue result → run e.now ≢ pos 0 → AreShown column.now (parts_above kind) Area }
{
    if e.is_vertical() {
        true
    } else {
        are_shown(column, &parts_above(kind), Extent::Area)
    }
}

/// Whether a matrix has all that an edge can show of a part of the other geometry.
pub fn is_edge_shown(matrix: &Matrix, own: &IndexedOutline, part: Part, e: &Edge) -> bool
    ensures { IsTrue result → IsEdgeShown matrix.now own.now part e.now }
{
    let column = column_of(matrix, part);
    let kind = own.outline().kind;
    if is_free(own, e) {
        if are_faces_in(&column, kind, e) {
            are_shown(&column, &parts_along(kind), Extent::Line)
        } else {
            false
        }
    } else {
        false
    }
}

/// Whether a matrix has the boundary of a geometry at edges beyond a box, if polylines end there.
fn are_ends_shown(column: &Parts<Extent>, own: &Outline, bounds: &Shape) -> bool
    ensures { IsTrue result → own.now.kind ≡ Kind.Lines → (1 ≤ rank column.now.boundary)
        ⊎ HasNoOuterEnd bounds.now own.now.ends.items }
{
    match own.kind {
        Kind::Lines => {
            if column.boundary == Extent::Empty {
                has_no_outer_end(&own.ends, bounds)
            } else {
                true
            }
        }
        Kind::Points => true,
        Kind::Areas => true,
    }
}

/// Whether a matrix has all that edges beyond a box of the other geometry can show.
pub fn is_outer_shown(matrix: &Matrix, own: &Outline, bounds: &Shape) -> bool
    ensures { IsTrue result → IsOuterShown matrix.now own.now bounds.now }
{
    let column = column_of(matrix, Part::Exterior);
    if !are_shown(&column, &parts_along(own.kind), Extent::Line) {
        return false;
    }
    if !are_shown(&column, &parts_above(own.kind), Extent::Area) {
        return false;
    }
    are_ends_shown(&column, own, bounds)
}
