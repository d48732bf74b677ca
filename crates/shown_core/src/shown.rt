//! Whether a matrix already includes all that a point could add to it.

ghost use Rattle.std.specs.Prelude.{◌≡◌, ◌≤◌, ◌↔◌, pos, not, All, IsTrue};
ghost use Rattle.std.specs.List.{list_all};
ghost use Rattle.std.specs.Ordering.{int_eq};
ghost use Rattle.plane_core.specs.declared.outline.Outline.{Outline};
ghost use Rattle.plane_core.specs.Points.{at, side, turn_of};
ghost use Rattle.plane_core.specs.Places.{point_of};
ghost use Rattle.plane_core.specs.Outlines.{outline_part};
ghost use Rattle.plane_core.specs.PlaneMatrices.{pick, entry};
ghost use Rattle.noding_core.specs.Marks.{rank};
ghost use Rattle.shown_core.specs.Shown.{AreShown, all_parts, parts_above, is_odd_end, rest_parts};
ghost use Rattle.shown_core.specs.Shown.{IsOnEdge, IsUncrossed, IsKnownApart};
ghost use Rattle.shown_core.specs.Shown.{AreFacesShown, IsFaceShown};
ghost use Rattle.noding_core.specs.Growth.{HasGrownBy, piece_marks};
ghost use Rattle.noding_core.specs.Near.{IsFound};

use crate::course::Course;
use edge_index_core::IndexedOutline;
use noding_core::{rank, row_of};
use plane_core::{Edge, Kind, Part, Place};
use relation_core::{Extent, Matrix, Parts};

/// The parts that a geometry of a kind has.
pub fn all_parts(kind: Kind) -> Parts<bool>
    ensures { result ≡ all_parts kind }
{
    Parts {
        interior: true,
        boundary: kind != Kind::Points,
        exterior: true,
    }
}

/// The parts of a geometry of a kind that can lie just above a point.
pub fn parts_above(kind: Kind) -> Parts<bool>
    ensures { result ≡ parts_above kind }
{
    Parts {
        interior: kind == Kind::Areas,
        boundary: false,
        exterior: true,
    }
}

/// Whether an entry is at least an extent, or its part is impossible.
fn is_shown(is_possible: bool, known: Extent, extent: Extent) -> bool
    ensures { IsTrue result ↔ (IsTrue is_possible → rank extent ≤ rank known) }
{
    if is_possible {
        let low = rank(extent);
        let high = rank(known);
        low <= high
    } else {
        true
    }
}

/// Whether each entry of a row at the given parts is at least an extent.
pub fn are_shown(row: &Parts<Extent>, parts: &Parts<bool>, extent: Extent) -> bool
    ensures { IsTrue result ↔ AreShown row.now parts.now extent }
{
    let interior = is_shown(parts.interior, row.interior, extent);
    let boundary = is_shown(parts.boundary, row.boundary, extent);
    let exterior = is_shown(parts.exterior, row.exterior, extent);
    interior & boundary & exterior
}

/// Whether a point is the end of an odd number of polylines.
fn is_odd_end(own: &IndexedOutline, p: &Place) -> bool
    ensures { result ≡ is_odd_end own.now (point_of p.now) }
{
    own.count_at(p) % 2 == 1
}

/// The parts in which a point that is on no edge can lie.
fn rest_parts(other: &IndexedOutline, p: &Place) -> Parts<bool>
    ensures { result ≡ rest_parts other.now (point_of p.now) }
{
    match other.outline().kind {
        Kind::Lines => {
            let is_end = is_odd_end(other, p);
            Parts {
                interior: false,
                boundary: is_end,
                exterior: !is_end,
            }
        }
        Kind::Points | Kind::Areas => Parts {
            interior: true,
            boundary: false,
            exterior: true,
        },
    }
}

/// The part of a geometry in which a point of one of its edges lies.
pub fn part_on_edge(own: &IndexedOutline, p: &Place) -> Part
    requires { IsOnEdge own.now (point_of p.now) }
    ensures { result ≡ outline_part own.now (point_of p.now) }
{
    match own.outline().kind {
        Kind::Points => own.standing_at(p).part,
        Kind::Lines => {
            if is_odd_end(own, p) {
                Part::Boundary
            } else {
                Part::Interior
            }
        }
        Kind::Areas => Part::Boundary,
    }
}

/// Whether each entry of a row is at least an extent in which a point of polylines can lie that is
/// no end of them, as the point isn't.
fn is_shown_off_ends(row: &Parts<Extent>, other: &IndexedOutline, p: &Place, extent: Extent) -> bool
    ensures { let part = outline_part other.now (point_of p.now) in
        IsTrue result → rank extent ≤ rank (pick part row.now) }
{
    if other.outline().kind != Kind::Lines {
        return false;
    }
    let parts = Parts {
        interior: true,
        boundary: false,
        exterior: true,
    };
    if are_shown(row, &parts, extent) {
        !is_odd_end(other, p)
    } else {
        false
    }
}

/// Whether a matrix has an extent where a point lies of which one part is known, in whichever part
/// of the other geometry it is.
pub fn is_place_shown(
    matrix: &Matrix,
    part: Part,
    other: &IndexedOutline,
    p: &Place,
    extent: Extent,
) -> bool
    ensures { let second = outline_part other.now (point_of p.now) in
        IsTrue result → rank extent ≤ rank (entry matrix.now part second) }
{
    let row = row_of(matrix, part);
    let kind = other.outline().kind;
    if are_shown(&row, &all_parts(kind), extent) {
        true
    } else {
        is_shown_off_ends(&row, other, p, extent)
    }
}

/// Whether a matrix includes the line on which a point of an edge lies, of which one part is known.
fn is_line_shown(
    matrix: &Matrix,
    part: Part,
    other: &IndexedOutline,
    course: &Course,
    p: &Place,
) -> bool
    requires uncrossed { IsUncrossed other.now course.now.edge (point_of p.now) }
    requires apart { IsKnownApart other.now course.now }
    ensures { let second = outline_part other.now (point_of p.now) in
        IsTrue result → 2 ≤ rank (entry matrix.now part second) }
{
    if is_place_shown(matrix, part, other, p, Extent::Line) {
        true
    } else if course.is_apart {
        let row = row_of(matrix, part);
        are_shown(&row, &rest_parts(other, p), Extent::Line)
    } else {
        false
    }
}

/// Whether a matrix includes each face that can lie above an edge.
fn are_faces_shown(matrix: &Matrix, own: Kind, other: Kind) -> bool
    ensures { IsTrue result ↔ AreFacesShown matrix.now own other }
{
    let above = parts_above(other);
    let outer = are_shown(&matrix.rows.exterior, &above, Extent::Area);
    match own {
        Kind::Areas => {
            let inner = are_shown(&matrix.rows.interior, &above, Extent::Area);
            outer & inner
        }
        Kind::Points => outer,
        Kind::Lines => outer,
    }
}

/// Whether a matrix includes the face above an edge, if there is one.
pub fn is_face_shown(matrix: &Matrix, own: Kind, other: Kind, e: &Edge) -> bool
    ensures { IsTrue result → IsFaceShown matrix.now own other e.now }
{
    if e.is_vertical() {
        true
    } else {
        are_faces_shown(matrix, own, other)
    }
}

/// Whether a matrix includes the piece of an edge on which a point lies, and the face above it,
/// in whichever parts of the other geometry they are.
pub fn is_piece_shown(
    matrix: &Matrix,
    own: &IndexedOutline,
    other: &IndexedOutline,
    course: &Course,
    p: &Place,
) -> bool
    requires on { IsOnEdge own.now (point_of p.now) }
    requires uncrossed { IsUncrossed other.now course.now.edge (point_of p.now) }
    requires apart { IsKnownApart other.now course.now }
    ensures { let marks = piece_marks own.now other.now course.now.edge (point_of p.now) in
        IsTrue result → HasGrownBy marks matrix.now matrix.now }
{
    let own_kind = own.outline().kind;
    let other_kind = other.outline().kind;
    if is_face_shown(matrix, own_kind, other_kind, &course.edge) {
        let part = part_on_edge(own, p);
        is_line_shown(matrix, part, other, course, p)
    } else {
        false
    }
}
