//! Edges that can add nothing more to a matrix, by what is known of their places in the other
//! geometry.

ghost use Rattle.std.specs.Prelude.{◌≡◌, ◌≢◌, true, All, List, IsTrue, IfSome};
ghost use Rattle.std.specs.List.{list_all, list_any};
ghost use Rattle.plane_core.specs.declared.edge.Edge.{Edge};
ghost use Rattle.plane_core.specs.declared.outline.Outline.{Outline};
ghost use Rattle.plane_core.specs.declared.vertex.Vertex.{Vertex};
ghost use Rattle.plane_core.specs.Figures.{HasLength};
ghost use Rattle.plane_core.specs.Points.{at, is_on};
ghost use Rattle.plane_core.specs.Outlines.{outline_part};
ghost use Rattle.shown_core.specs.Beyond.{IsBounded};
ghost use Rattle.arrangement_core.specs.Aside.{are_aside};
ghost use Rattle.arrangement_core.specs.Known.{part_along, parts_met, parts_passed, is_touched};
ghost use Rattle.arrangement_core.specs.Known.{IsAllShown, IsPartFull};
ghost use Rattle.noding_core.specs.Near.{IsFound};
ghost use Rattle.shown_core.specs.Lying.{IsKnownIn, LiesIn};
ghost use Rattle.arrangement_core.specs.Seen.{IsSeen, IsSeenAlong};
ghost use Rattle.noding_core.specs.ReadOffs.{outline_edges, IsOneOf, IsEdgeMarked};
ghost use Rattle.shown_core.specs.Shown.{IsKnownApart};

use crate::aside::is_aside_of_all;
use crate::asked::pick;
use crate::outside::is_outside;
use crate::pair::Pair;
use crate::walk::is_of_lines;
use edge_index_core::IndexedOutline;
use noding_core::row_of;
use plane_core::{Edge, Kind, Part, Place, Vertex};
use relation_core::{Extent, Matrix, Parts};
use shown_core::{Course, are_shown, is_edge_shown, is_face_shown, is_free};

/// A vertex, and the part of the other geometry in which it lies.
#[derive(Clone, Copy)]
pub(crate) struct Seen {
    pub(crate) vertex: Vertex,
    pub(crate) part: Part,
}

/// The part of a geometry in which a vertex lies, looked up unless it was seen.
fn part_at(other: &IndexedOutline, v: &Vertex, seen: Option<Seen>) -> Part
    requires { IfSome seen (IsSeen other.now) }
    ensures { result ≡ outline_part other.now (at v.now) }
{
    if let Some(known) = seen {
        if known.vertex.x == v.x && known.vertex.y == v.y {
            return known.part;
        }
    }
    other.standing_at(&Place::at(v)).part
}

/// The part of the second geometry in which a vertex lies: outside its box the exterior.
fn part_from(pair: &Pair, v: &Vertex, seen: Option<Seen>) -> Part
    requires bounded { IsBounded pair.now.second.now pair.now.second_box }
    requires seen { IfSome seen (IsSeen pair.now.second.now) }
    ensures { result ≡ outline_part pair.now.second.now (at v.now) }
{
    if is_outside(v, &pair.second_box) {
        Part::Exterior
    } else {
        part_at(&pair.second, v, seen)
    }
}

/// Whether a geometry has edges, and an edge shares no point with those of them near it.
fn is_clear(kind: Kind, e: &Edge, near: &[Edge]) -> bool
    ensures edges { IsTrue result → kind ≢ Kind.Points }
    ensures none { IsTrue result → list_all (λ f. are_aside e.now f) near.now ≡ true }
{
    kind != Kind::Points && is_aside_of_all(e, near)
}

/// The part of the second geometry in which an edge lies, if it shares no point with the edges of
/// that geometry near it. In polylines this is the exterior, and else the part of its first end.
fn clear_part(pair: &Pair, e: &Edge, near: &[Edge], seen: Option<Seen>) -> Option<Part>
    requires bounded { IsBounded pair.now.second.now pair.now.second_box }
    requires long { HasLength e.now }
    requires found { All (IsFound e.now near.now) pair.now.second.now.edges.items }
    requires seen { IfSome seen (IsSeen pair.now.second.now) }
    ensures { IfSome result (LiesIn pair.now.second.now e.now) }
{
    let outline = pair.second.outline();
    if !is_clear(outline.kind, e, near) {
        return None;
    }
    if is_of_lines(pair.second) {
        return Some(Part::Exterior);
    }
    let part = part_from(pair, &e.a, seen);
    Some(part)
}

/// Whether a geometry consists of points, and none of them is on an edge, so that the edge lies in
/// its exterior.
fn is_off_points(other: &IndexedOutline, e: &Edge) -> bool
    ensures { IsTrue result → LiesIn other.now e.now Part.Exterior }
{
    other.outline().kind == Kind::Points && !other.has_end_on(e)
}

/// The last end of an edge, and the part of the second geometry in which the edge lies: one that
/// shares no point with its edges, or has none of its points on it, lies in one part.
pub(crate) fn seen_along(pair: &Pair, e: &Edge, near: &[Edge], seen: Option<Seen>) -> Option<Seen>
    requires bounded { IsBounded pair.now.second.now pair.now.second_box }
    requires long { HasLength e.now }
    requires found { All (IsFound e.now near.now) pair.now.second.now.edges.items }
    requires seen { IfSome seen (IsSeen pair.now.second.now) }
    ensures { IfSome result (IsSeenAlong pair.now.second.now e.now) }
{
    if let Some(part) = clear_part(pair, e, near, seen) {
        Some(Seen { vertex: e.b, part })
    } else if is_off_points(pair.second, e) {
        Some(Seen {
            vertex: e.b,
            part: Part::Exterior,
        })
    } else {
        None
    }
}

/// The part in which the points of an edge lie at which no polyline ends.
pub(crate) fn part_along(kind: Kind) -> Part
    ensures { result ≡ part_along kind }
{
    match kind {
        Kind::Points => Part::Interior,
        Kind::Lines => Part::Interior,
        Kind::Areas => Part::Boundary,
    }
}

/// Whether an end of an edge near another is on that one.
fn is_touched(e: &Edge, near: &[Edge]) -> bool
    ensures { result ≡ is_touched e.now near.now }
{
    near.iter()
        .any(|f| e.is_on_vertex(&f.a) || e.is_on_vertex(&f.b))
}

/// The parts of the other geometry in which a point of an edge may lie.
fn parts_met(kind: Kind, e: &Edge, near: &[Edge]) -> Parts<bool>
    ensures { result ≡ parts_met kind (is_touched e.now near.now) }
{
    let boundary = match kind {
        Kind::Points => is_touched(e, near),
        Kind::Lines => is_touched(e, near),
        Kind::Areas => true,
    };
    Parts {
        interior: true,
        boundary,
        exterior: true,
    }
}

/// The parts of the other geometry in which a piece of an edge may lie that runs along none of it.
fn parts_passed(kind: Kind) -> Parts<bool>
    ensures { result ≡ parts_passed kind }
{
    Parts {
        interior: kind != Kind::Lines,
        boundary: kind == Kind::Points,
        exterior: true,
    }
}

/// Whether a matrix has the nodes and pieces of an edge that runs along none of the other geometry.
fn is_all_shown(
    matrix: &Matrix,
    own: &IndexedOutline,
    other: &IndexedOutline,
    e: &Edge,
    near: &[Edge],
) -> bool
    ensures { IsTrue result → IsAllShown matrix.now own.now other.now e.now near.now }
{
    let kind = own.outline().kind;
    let other_kind = other.outline().kind;
    if kind == Kind::Points || other_kind == Kind::Points {
        return false;
    }
    if !is_face_shown(matrix, kind, other_kind, e) || !is_free(own, e) {
        return false;
    }
    let row = row_of(matrix, part_along(kind));
    if !are_shown(&row, &parts_passed(other_kind), Extent::Line) {
        return false;
    }
    are_shown(&row, &parts_met(other_kind, e, near), Extent::Point)
}

/// Whether each entry of a part of the other geometry has the greatest extent, as where no mask
/// asks for any of them.
fn is_part_full(matrix: &Matrix, part: Part) -> bool
    ensures { IsTrue result → IsPartFull matrix.now part }
{
    let rows = &matrix.rows;
    pick(&rows.interior, part) == Extent::Area
        && pick(&rows.boundary, part) == Extent::Area
        && pick(&rows.exterior, part) == Extent::Area
}

/// The part that is seen, if one is.
pub(crate) fn part_seen(seen: Option<Seen>) -> Option<Part>
    ensures { (o : Outline) (e : Edge)
        → IfSome seen (IsSeenAlong o e) → IfSome result (LiesIn o e) }
{
    match seen {
        Some(known) => Some(known.part),
        None => None,
    }
}

/// Whether an edge of the first geometry can add nothing to a matrix, by the part of the second in
/// which it lies, where this is known, and by the edges of the second near it.
pub(crate) fn adds_none_near(matrix: &Matrix, pair: &Pair, course: &Course, near: &[Edge]) -> bool
    requires bounded { IsBounded pair.now.second.now pair.now.second_box }
    requires one { let a = pair.now.first.now in let b = pair.now.second.now in
        IsOneOf a b (outline_edges a b) course.now.edge }
    requires found { All (IsFound course.now.edge near.now) pair.now.second.now.edges.items }
    requires apart { IsKnownApart pair.now.second.now course.now }
    requires known { IsKnownIn pair.now.second.now course.now }
    ensures { let a = pair.now.first.now in let b = pair.now.second.now in
        (points : List Vertex) → IsTrue result
        → IsEdgeMarked a b (outline_edges a b) points course.now.edge matrix.now matrix.now }
{
    match course.part {
        Some(part) => {
            if is_part_full(matrix, part) {
                true
            } else {
                is_edge_shown(matrix, pair.first, part, &course.edge)
            }
        }
        None => {
            if course.is_apart {
                is_all_shown(matrix, pair.first, pair.second, &course.edge, near)
            } else {
                false
            }
        }
    }
}
