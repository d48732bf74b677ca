//! A matrix that grows by the edges of a geometry.

ghost use Rattle.std.specs.Prelude.{◌≡◌, ◌++◌, All, OnOk, IfOk, IfErr, IfSome, IsTrue};
ghost use Rattle.std.specs.Prelude.{true};
ghost use Rattle.plane_core.specs.Figures.{HasLength};
ghost use Rattle.arrangement_core.specs.Answers.{IsBegun, IsStopOf};
ghost use Rattle.arrangement_core.specs.Around.{HasNear};
ghost use Rattle.shown_core.specs.Beyond.{IsBounded};
ghost use Rattle.edge_index_core.specs.Beyond.{is_beyond};
ghost use Rattle.arrangement_core.specs.Seen.{IsSeen, IsCourseIn, AreNear};
ghost use Rattle.arrangement_core.specs.Shared.{HasShared};
ghost use Rattle.noding_core.specs.ReadOffs.{outline_edges, IsOwn};
ghost use Rattle.noding_core.specs.ReadOffs.{IsOneOf, IsEdgeMarked, AreMarked};

use crate::early::stop_where_met;
use crate::known::{adds_none_near, part_seen, seen_along};
use crate::near::push_second;
use crate::pair::Pair;
use crate::points::{Points, find_along};
use crate::shared::adds_none_shared;
use crate::walk::mark_noded;
use crate::wanted::{Stop, Wanted, go_on};
use crate::work::Work;
use noding_core::{gather_nodes, push_near};
use plane_core::{Edge, Part};
use relation_core::Matrix;
use shown_core::{Course, course_of, is_edge_shown};
use std::alloc::{AllocError, Global};

/// As many edges as are near most edges, both of the own and of the other geometry.
const USUALLY_NEAR: usize = 16;

/// As many nodes as most edges have.
const USUAL_NODES: usize = 8;

/// A matrix that shows an edge of the first geometry, given the edges of the second near it: its
/// nodes, its pieces, and the faces above these.
fn mark_near_edge(
    work: &mut Work,
    matrix: Matrix,
    pair: &Pair,
    points: &Points,
    course: &Course,
) -> Result<Matrix, AllocError>
    requires one { let a = pair.now.first.now in let b = pair.now.second.now in
        IsOneOf a b (outline_edges a b) course.now.edge }
    requires bounded { IsBounded pair.now.second.now pair.now.second_box }
    requires near { AreNear pair.now.second.now course.now.edge work.old.near.items }
    requires course { IsCourseIn pair.now.second.now course.now }
    ensures marked { let a = pair.now.first.now in let b = pair.now.second.now in
        let marked = IsEdgeMarked a b (outline_edges a b) points.now course.now.edge in
        IfOk result (λ m. marked matrix m) }
    ensures seen { work.new.seen ≡ work.old.seen }
{
    let others = work.near.as_slice().len();
    push_near(&mut work.near, &course.edge, pair.first)?;
    find_along(&mut work.points, points, &course.edge)?;
    let near = work.near.as_slice();
    let along = work.points.as_slice();
    gather_nodes(&mut work.nodes, &course.edge, near, along)?;
    let nodes = work.nodes.as_slice();
    let (second, _) = near.split_at(others);
    let marked = mark_noded(matrix, pair, course, second, nodes);
    Ok(marked)
}

/// The same matrix, if the edges of the second geometry near an edge of the first tell that it can
/// add nothing, or the matrix has one with the same ends, and else one that shows the edge, or an
/// early end.
pub(crate) fn mark_edge(
    work: &mut Work,
    matrix: Matrix,
    pair: &Pair,
    points: &Points,
    e: &Edge,
    wanted: &Wanted,
) -> Result<Matrix, Stop>
    requires long { All HasLength (outline_edges pair.now.first.now pair.now.second.now) }
    requires first { IsBounded pair.now.first.now pair.now.first_box }
    requires bounded { IsBounded pair.now.second.now pair.now.second_box }
    requires one { let a = pair.now.first.now in let b = pair.now.second.now in
        IsOneOf a b (outline_edges a b) e.now }
    requires near { HasNear pair.now.first.now pair.now.second.now pair.now.second_around.now }
    requires seen { IfSome work.old.seen (IsSeen pair.now.second.now) }
    requires shared { let a = pair.now.first.now in let b = pair.now.second.now in
        IsTrue pair.now.has_second → HasShared a b points.now matrix }
    requires begun { let a = pair.now.first.now in let b = pair.now.second.now in
        IsBegun wanted.now pair.now.has_second a b points.now matrix }
    ensures marked { let a = pair.now.first.now in let b = pair.now.second.now in
        IfOk result (λ m. IsEdgeMarked a b (outline_edges a b) points.now e.now matrix m) }
    ensures seen { IfSome work.new.seen (IsSeen pair.now.second.now) }
    ensures stop { let a = pair.now.first.now in let b = pair.now.second.now in
        IfErr result (IsStopOf wanted.now pair.now.has_second a b) }
{
    work.near.clear();
    push_second(&mut work.near, e, pair)?;
    if adds_none_shared(pair, e, &work.near) {
        work.seen = None;
        return Ok(matrix);
    }
    work.seen = seen_along(pair, e, &work.near, work.seen);
    let course = course_of(e, part_seen(work.seen), &work.near);
    if adds_none_near(&matrix, pair, &course, &work.near) {
        return Ok(matrix);
    }
    stop_where_met(&matrix, pair, points, &course, &work.near, wanted)?;
    let marked = mark_near_edge(work, matrix, pair, points, &course)?;
    Ok(marked)
}

/// The same matrix, if it has all that an edge of the first geometry can add which lies beyond the
/// box of the second, and else one that shows the edge.
pub(crate) fn mark_outer_edge(
    work: &mut Work,
    matrix: Matrix,
    pair: &Pair,
    points: &Points,
    e: &Edge,
) -> Result<Matrix, AllocError>
    requires bounded { IsBounded pair.now.second.now pair.now.second_box }
    requires one { let a = pair.now.first.now in let b = pair.now.second.now in
        IsOneOf a b (outline_edges a b) e.now }
    requires beyond { is_beyond pair.now.second_box e.now ≡ true }
    ensures { let a = pair.now.first.now in let b = pair.now.second.now in
        IfOk result (λ m. IsEdgeMarked a b (outline_edges a b) points.now e.now matrix m) }
{
    if is_edge_shown(&matrix, pair.first, Part::Exterior, e) {
        return Ok(matrix);
    }
    let course = Course {
        edge: *e,
        is_apart: true,
        part: Some(Part::Exterior),
    };
    work.near.clear();
    mark_near_edge(work, matrix, pair, points, &course)
}

/// Empty lists with room for what most edges need, and no vertex.
pub(crate) fn no_work(alloc: Global) -> Result<Work, AllocError>
    ensures { IfOk result (λ work. work.seen ≡ None) }
{
    Ok(Work {
        near: Vec::with_capacity(alloc, USUALLY_NEAR)?,
        points: Vec::new(alloc),
        nodes: Vec::with_capacity(alloc, USUAL_NODES)?,
        seen: None,
    })
}

/// A matrix that shows some edges of the first geometry, or an early end.
pub(crate) fn mark_some(
    work: &mut Work,
    matrix: Matrix,
    pair: &Pair,
    points: &Points,
    edges: &[Edge],
    wanted: &Wanted,
) -> Result<Matrix, Stop>
    requires long { All HasLength (outline_edges pair.now.first.now pair.now.second.now) }
    requires own { All (IsOwn pair.now.first.now) edges.now }
    requires first { IsBounded pair.now.first.now pair.now.first_box }
    requires bounded { IsBounded pair.now.second.now pair.now.second_box }
    requires near { HasNear pair.now.first.now pair.now.second.now pair.now.second_around.now }
    requires seen { IfSome work.old.seen (IsSeen pair.now.second.now) }
    requires shared { let a = pair.now.first.now in let b = pair.now.second.now in
        IsTrue pair.now.has_second → HasShared a b points.now matrix }
    requires begun { let a = pair.now.first.now in let b = pair.now.second.now in
        IsBegun wanted.now pair.now.has_second a b points.now matrix }
    ensures marked { let a = pair.now.first.now in let b = pair.now.second.now in
        let marked = AreMarked a b (outline_edges a b) points.now edges.now in
        IfOk result (λ m. marked matrix m) }
    ensures seen { IfSome work.new.seen (IsSeen pair.now.second.now) }
    ensures stop { let a = pair.now.first.now in let b = pair.now.second.now in
        IfErr result (IsStopOf wanted.now pair.now.has_second a b) }
{
    let mut grown = matrix;
    for e in edges {
        let next = mark_edge(work, grown, pair, points, e, wanted)?;
        go_on(wanted, pair.has_second, &grown, &next)?;
        grown = next;
    }
    Ok(grown)
}
