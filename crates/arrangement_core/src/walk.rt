//! Adding the nodes of an edge, the pieces between them and the faces above these to a matrix, from
//! node to node.
//!
//! Off the boundary of an area the part changes only where the edge meets the boundary, so a part
//! that was located is kept from point to point until then. Where one edge of the area crosses the
//! edge, the part from there on is the other one.

ghost use Rattle.std.specs.Prelude.{◌≡◌, ◌≢◌, ◌<◌, ◌≤◌, [], ◌∷◌, ◌++◌, map, length, true, false};
ghost use Rattle.std.specs.Prelude.{IsTrue, IfSome, All};
ghost use Rattle.std.specs.List.{list_any, slice_index_or};
ghost use Rattle.relation_core.specs.declared.extent.Extent.TheVariants.{Point as Dot};
ghost use Rattle.plane_core.specs.Points.{is_on};
ghost use Rattle.plane_core.specs.Places.{point_of, node_point};
ghost use Rattle.plane_core.specs.Outlines.{outline_part, outline_above};
ghost use Rattle.plane_core.specs.PlaneMatrices.{entry};
ghost use Rattle.shown_core.specs.Beyond.{IsBounded};
ghost use Rattle.shown_core.specs.Lying.{IsKnownIn, LiesOff};
ghost use Rattle.arrangement_core.specs.Crossed.{LiesAfter, LiesBefore};
ghost use Rattle.arrangement_core.specs.Seen.{IsCourseIn, AreNear};
ghost use Rattle.shown_core.specs.Shown.{IsOnEdge, IsOnCourse, IsUncrossed, AreCuts, AreNext};
ghost use Rattle.noding_core.specs.Marks.{rank};
ghost use Rattle.noding_core.specs.Gathered.{IsOn};
ghost use Rattle.noding_core.specs.Nodes.{NodedEdge};
ghost use Rattle.noding_core.specs.Growth.{HasGrownBy, mark_at, mark_in, piece_marks, gap_marks};
ghost use Rattle.noding_core.specs.Growth.{edge_marks};

use crate::crossed::{Met, edge_at, part_across};
use crate::marks::mark_above;
use crate::outside::is_end_outside;
use crate::pair::Pair;
use edge_index_core::IndexedOutline;
use noding_core::raised;
use plane_core::{Edge, Kind, Node, Part, Place, Spot, Standing};
use relation_core::{Extent, Matrix};
use shown_core::{Course, is_piece_shown, is_place_shown, part_on_edge, standing_of};

/// A matrix that grows along an edge, and the part of the second geometry in which the last piece
/// lies, or from the last node on the next one, if it is known to be off the boundary of an area.
#[derive(Clone, Copy)]
struct Walk {
    matrix: Matrix,
    part: Option<Part>,
}

/// A part of a geometry that is off the boundary of an area.
fn part_off(kind: Kind, part: Part) -> Option<Part>
    ensures part { IfSome result (λ q. q ≡ part) }
    ensures area { IfSome result (λ q. kind ≡ Kind.Areas) }
    ensures off { IfSome result (λ q. q ≢ Part.Boundary) }
{
    if kind == Kind::Areas && part != Part::Boundary {
        Some(part)
    } else {
        None
    }
}

/// Whether a point is an end of an edge.
#[inline]
fn is_end(e: &Edge, p: &Spot) -> bool
    ensures { IsTrue result → is_on e.now (point_of p.now.place) ≡ true }
{
    if p.is_at(&e.a) { true } else { p.is_at(&e.b) }
}

/// Whether a point is on an edge.
pub(crate) fn is_on(e: &Edge, p: &Spot) -> bool
    ensures { result ≡ is_on e.now (point_of p.now.place) }
{
    if is_end(e, p) {
        true
    } else {
        p.lie_of(e).is_on
    }
}

/// Whether a matrix includes a node wherever it lies in the second geometry, and no part is handed
/// on from it.
fn is_settled(walk: &Walk, part: Part, other: &IndexedOutline, p: &Place, is_last: bool) -> bool
    ensures { let second = outline_part other.now (point_of p.now) in
        IsTrue result → 1 ≤ rank (entry walk.now.matrix part second) }
{
    if is_last || walk.part.is_none() {
        is_place_shown(&walk.matrix, part, other, p, Extent::Point)
    } else {
        false
    }
}

/// The part of an area in which a node lies, if it is known, or if the node is an end of the edge
/// outside the area's box.
fn part_outside(part: Option<Part>, pair: &Pair, course: &Course, p: &Place) -> Option<Part>
    requires bounded { IsBounded pair.now.second.now pair.now.second_box }
    requires off { IfSome part (LiesOff pair.now.second.now (point_of p.now)) }
    ensures { IfSome result (LiesOff pair.now.second.now (point_of p.now)) }
{
    if part.is_some() || pair.second.outline().kind != Kind::Areas {
        return part;
    }
    if is_end_outside(&course.edge, p, &pair.second_box) {
        Some(Part::Exterior)
    } else {
        None
    }
}

/// Adds a node that is on no edge of the second geometry, of which the part in the first is known.
fn add_off(walk: Walk, pair: &Pair, course: &Course, part: Part, p: &Place) -> Walk
    requires bounded { IsBounded pair.now.second.now pair.now.second_box }
    requires known { IsKnownIn pair.now.second.now course.now }
    requires on { is_on course.now.edge (point_of p.now) ≡ true }
    requires off { IfSome walk.part (LiesOff pair.now.second.now (point_of p.now)) }
    ensures grown { let marks = mark_in part pair.now.second.now (point_of p.now) ∷ [] in
        HasGrownBy marks walk.matrix result.matrix }
    ensures off { IfSome result.part (LiesOff pair.now.second.now (point_of p.now)) }
{
    if is_place_shown(&walk.matrix, part, pair.second, p, Extent::Point) {
        return walk;
    }
    let known = part_outside(walk.part, pair, course, p);
    let standing = standing_of(pair.second, course, known, p);
    let matrix = raised(walk.matrix, part, standing.part, Extent::Point);
    let off = part_off(pair.second.outline().kind, standing.part);
    Walk { matrix, part: off }
}

/// Whether a geometry consists of polylines.
pub(crate) fn is_of_lines(other: &IndexedOutline) -> bool
    ensures { IsTrue result → other.now.kind ≡ Kind.Lines }
{
    other.outline().kind == Kind::Lines
}

/// Adds a node that is on no edge of the second geometry, of which the part in the first is known.
/// If that consists of polylines, the node lies in its exterior.
fn add_beside(walk: Walk, pair: &Pair, course: &Course, part: Part, p: &Place) -> Walk
    requires bounded { IsBounded pair.now.second.now pair.now.second_box }
    requires known { IsKnownIn pair.now.second.now course.now }
    requires on { is_on course.now.edge (point_of p.now) ≡ true }
    requires nowhere { let p = point_of p.now in
        list_any (λ f. is_on f p) pair.now.second.now.edges.items ≡ false }
    requires off { IfSome walk.part (LiesOff pair.now.second.now (point_of p.now)) }
    ensures grown { let marks = mark_in part pair.now.second.now (point_of p.now) ∷ [] in
        HasGrownBy marks walk.matrix result.matrix }
    ensures off { IfSome result.part (LiesOff pair.now.second.now (point_of p.now)) }
{
    if is_of_lines(pair.second) {
        let matrix = raised(walk.matrix, part, Part::Exterior, Extent::Point);
        Walk { matrix, part: None }
    } else {
        add_off(walk, pair, course, part, p)
    }
}

/// Adds a node that is on an edge of the second geometry, of which the part in the first is known.
/// The part from there on is given, if it is known.
fn add_on(walk: Walk, pair: &Pair, part: Part, p: &Place, after: Option<Part>) -> Walk
    requires { IsOnEdge pair.now.second.now (point_of p.now) }
    ensures grown { let marks = mark_in part pair.now.second.now (point_of p.now) ∷ [] in
        HasGrownBy marks walk.matrix result.matrix }
    ensures after { result.part ≡ after }
{
    let other = part_on_edge(pair.second, p);
    let matrix = raised(walk.matrix, part, other, Extent::Point);
    Walk {
        matrix,
        part: after,
    }
}

/// Adds a node. The edges of the second geometry near the edge tell whether it is on one of them.
/// From the last node of the edge no part is handed on.
fn add_node(
    walk: Walk,
    pair: &Pair,
    course: &Course,
    near: &[Edge],
    p: &Place,
    is_last: bool,
) -> Walk
    requires bounded { IsBounded pair.now.second.now pair.now.second_box }
    requires known { IsKnownIn pair.now.second.now course.now }
    requires near { AreNear pair.now.second.now course.now.edge near.now }
    requires on { IsOnCourse pair.now.first.now course.now (point_of p.now) }
    requires before { let a = pair.now.first.now in let b = pair.now.second.now in
        IfSome walk.part (LiesBefore a b course.now.edge (point_of p.now)) }
    ensures grown { let a = pair.now.first.now in let b = pair.now.second.now in
        HasGrownBy (mark_at a b Dot (point_of p.now) ∷ []) walk.matrix result.matrix }
    ensures after { let a = pair.now.first.now in let b = pair.now.second.now in
        IfSome result.part (LiesAfter a b course.now.edge (point_of p.now)) }
{
    let part = part_on_edge(pair.first, p);
    if is_settled(&walk, part, pair.second, p, is_last) {
        return Walk { part: None, ..walk };
    }
    match edge_at(near, &Spot::of(p), walk.part.is_some()) {
        Met::Nowhere => add_beside(walk, pair, course, part, p),
        Met::Once(f) => {
            let after = part_across(walk.part, &course.edge, &f, pair.second.edges());
            add_on(walk, pair, part, p, after)
        }
        Met::Often => add_on(walk, pair, part, p, None),
    }
}

/// Whether a point is on one of some edges.
fn is_on_any(near: &[Edge], p: &Spot) -> bool
    ensures { result ≡ list_any (λ f. is_on f (point_of p.now.place)) near.now }
{
    near.iter().any(|f| is_on(f, p))
}

/// The part of polylines in which a point of an edge lies, by those of their edges near that edge.
fn part_among(pair: &Pair, e: &Edge, near: &[Edge], p: &Place) -> Part
    requires bounded { IsBounded pair.now.second.now pair.now.second_box }
    requires lines { pair.now.second.now.kind ≡ Kind.Lines }
    requires near { AreNear pair.now.second.now e.now near.now }
    requires on { is_on e.now (point_of p.now) ≡ true }
    ensures { result ≡ outline_part pair.now.second.now (point_of p.now) }
{
    let spot = Spot::of(p);
    if is_on_any(near, &spot) {
        part_on_edge(pair.second, p)
    } else {
        Part::Exterior
    }
}

/// The part of the second geometry in which a point of the edge lies, and the part just above it,
/// unless they are known: in polylines by their edges near the edge, else looked up.
fn standing_near(
    pair: &Pair,
    course: &Course,
    near: &[Edge],
    off: Option<Part>,
    p: &Place,
) -> Standing
    requires bounded { IsBounded pair.now.second.now pair.now.second_box }
    requires known { IsKnownIn pair.now.second.now course.now }
    requires near { AreNear pair.now.second.now course.now.edge near.now }
    requires on { is_on course.now.edge (point_of p.now) ≡ true }
    requires off { IfSome off (LiesOff pair.now.second.now (point_of p.now)) }
    ensures part { result.part ≡ outline_part pair.now.second.now (point_of p.now) }
    ensures above { result.above ≡ outline_above pair.now.second.now (point_of p.now) }
{
    if is_of_lines(pair.second) {
        let part = part_among(pair, &course.edge, near, p);
        Standing {
            part,
            above: Part::Exterior,
        }
    } else {
        standing_of(pair.second, course, off, p)
    }
}

/// Adds the piece of the edge on which a point lies, and the face above it, by their places.
fn place_piece(walk: Walk, pair: &Pair, course: &Course, near: &[Edge], p: &Place) -> Walk
    requires bounded { IsBounded pair.now.second.now pair.now.second_box }
    requires known { IsKnownIn pair.now.second.now course.now }
    requires near { AreNear pair.now.second.now course.now.edge near.now }
    requires on { IsOnCourse pair.now.first.now course.now (point_of p.now) }
    requires off { IfSome walk.part (LiesOff pair.now.second.now (point_of p.now)) }
    ensures grown { let a = pair.now.first.now in let b = pair.now.second.now in
        HasGrownBy (piece_marks a b course.now.edge (point_of p.now)) walk.matrix result.matrix }
    ensures off { IfSome result.part (LiesOff pair.now.second.now (point_of p.now)) }
{
    let part = part_on_edge(pair.first, p);
    let standing = standing_near(pair, course, near, walk.part, p);
    let off = part_off(pair.second.outline().kind, standing.part);
    let on = raised(walk.matrix, part, standing.part, Extent::Line);
    if course.edge.is_vertical() {
        return Walk {
            matrix: on,
            part: off,
        };
    }
    let matrix = mark_above(on, pair.first, standing.above, p);
    Walk { matrix, part: off }
}

/// Adds the piece of the edge on which a point lies, and the face above it. The matrix is unchanged
/// if it includes all that these can be.
fn add_piece(walk: Walk, pair: &Pair, course: &Course, near: &[Edge], p: &Place) -> Walk
    requires bounded { IsBounded pair.now.second.now pair.now.second_box }
    requires course { IsCourseIn pair.now.second.now course.now }
    requires near { AreNear pair.now.second.now course.now.edge near.now }
    requires on { IsOnEdge pair.now.first.now (point_of p.now) }
    requires uncrossed { IsUncrossed pair.now.second.now course.now.edge (point_of p.now) }
    requires off { IfSome walk.part (LiesOff pair.now.second.now (point_of p.now)) }
    ensures grown { let a = pair.now.first.now in let b = pair.now.second.now in
        HasGrownBy (piece_marks a b course.now.edge (point_of p.now)) walk.matrix result.matrix }
    ensures off { IfSome result.part (LiesOff pair.now.second.now (point_of p.now)) }
{
    if is_piece_shown(&walk.matrix, pair.first, pair.second, course, p) {
        walk
    } else {
        place_piece(walk, pair, course, near, p)
    }
}

/// Goes from a node to the next one: adds the piece between them and the node, if they differ.
fn step(
    walk: Walk,
    pair: &Pair,
    course: &Course,
    near: &[Edge],
    k: &Node,
    l: &Node,
    is_last: bool,
) -> Walk
    requires bounded { IsBounded pair.now.second.now pair.now.second_box }
    requires course { IsCourseIn pair.now.second.now course.now }
    requires near { AreNear pair.now.second.now course.now.edge near.now }
    requires next { let a = pair.now.first.now in let b = pair.now.second.now in
        AreNext a b course.now.edge (node_point k.now) (node_point l.now) }
    requires first { IsOn course.now.edge k.now }
    requires second { IsOn course.now.edge l.now }
    requires here { let a = pair.now.first.now in let b = pair.now.second.now in
        let p = node_point k.now in
        1 ≤ rank (entry walk.matrix (outline_part a p) (outline_part b p)) }
    requires after { let a = pair.now.first.now in let b = pair.now.second.now in
        IfSome walk.part (LiesAfter a b course.now.edge (node_point k.now)) }
    ensures grown { let a = pair.now.first.now in let b = pair.now.second.now in
        let p = node_point k.now in let q = node_point l.now in
        let marks = gap_marks a b course.now.edge p q ++ mark_at a b Dot q ∷ [] in
        HasGrownBy marks walk.matrix result.matrix }
    ensures after { let a = pair.now.first.now in let b = pair.now.second.now in
        IfSome result.part (LiesAfter a b course.now.edge (node_point l.now)) }
{
    if k.compare(l).is_lt() {
        add_node(
            add_piece(walk, pair, course, near, &k.middle(l)),
            pair,
            course,
            near,
            &l.place,
            is_last,
        )
    } else {
        Walk { part: None, ..walk }
    }
}

fn node_at(nodes: &[Node], i: usize) -> Node
    requires { i < length nodes.now }
    ensures { result ≡ slice_index_or nodes.now i result }
{
    nodes[i]
}

/// The matrix with an edge of the first geometry, given its nodes and the edges of the second near
/// it: with the nodes, the pieces of the edge between them, and the faces above these.
pub(crate) fn mark_noded(
    matrix: Matrix,
    pair: &Pair,
    course: &Course,
    near: &[Edge],
    nodes: &[Node],
) -> Matrix
    requires bounded { IsBounded pair.now.second.now pair.now.second_box }
    requires course { IsCourseIn pair.now.second.now course.now }
    requires near { AreNear pair.now.second.now course.now.edge near.now }
    requires cuts { let a = pair.now.first.now in let b = pair.now.second.now in
        AreCuts a b course.now.edge (map node_point nodes.now) }
    requires on { All (IsOn course.now.edge) nodes.now }
    ensures { let a = pair.now.first.now in let b = pair.now.second.now in
        let ns = map node_point nodes.now in
        let noded : NodedEdge = record { edge = course.now.edge; nodes = ns } in
        HasGrownBy (edge_marks a b noded) matrix result }
{
    let first = node_at(nodes, 0);
    let start = Walk { matrix, part: None };
    let mut walk = add_node(start, pair, course, near, &first.place, false);
    for i in 1..nodes.len() {
        let k = node_at(nodes, i - 1);
        let l = node_at(nodes, i);
        let is_last = i == nodes.len() - 1;
        walk = step(walk, pair, course, near, &k, &l, is_last);
    }
    walk.matrix
}
