//! The edges of two geometries in rounds: first those around the other geometry's box, then those
//! beyond it, of which few are enough.

ghost use Rattle.std.specs.Prelude.{◌≡◌, ◌≤◌, false, length, All, IfOk, IfErr, IsTrue};
ghost use Rattle.plane_core.specs.Figures.{HasLength};
ghost use Rattle.edge_index_core.specs.Around.{AreAround};
ghost use Rattle.edge_index_core.specs.Beyond.{is_beyond};
ghost use Rattle.arrangement_core.specs.Answers.{IsBegun, IsReadFor, IsStop, IsStopOf};
ghost use Rattle.arrangement_core.specs.Around.{HasNear};
ghost use Rattle.arrangement_core.specs.Asked.{start_of};
ghost use Rattle.arrangement_core.specs.Shared.{HasShared};
ghost use Rattle.shown_core.specs.Beyond.{IsBounded, is_around};
ghost use Rattle.noding_core.specs.ReadOffs.{outline_edges, outline_points, IsOwn, AreMarked};
ghost use Rattle.noding_core.specs.ReadOffs.{AreSomeMarked, AreAllMarked};

use crate::marks::mark_points;
use crate::matrices::{mark_outer_edge, mark_some, no_work};
use crate::pair::Pair;
use crate::points::Points;
use crate::wanted::{Stop, Wanted};
use crate::work::Work;
use edge_index_core::is_beyond;
use noding_core::transposed;
use plane_core::{Edge, Kind};
use relation_core::Matrix;
use shown_core::is_outer_shown;
use std::alloc::{AllocError, Global};

/// The place of the edge whose last end is lowest.
fn lowest(edges: &[Edge]) -> usize
    ensures { result ≤ length edges.now }
{
    let mut place = 0;
    let mut least = i64::MAX;
    for i in 0..edges.len() {
        let y = edges[i].b.y;
        if y < least {
            least = y;
            place = i;
        }
    }
    place
}

/// A matrix that shows edges of the first geometry, beginning at their lowest vertex, or an early
/// end. The interior of a ring lies above one of the edges there, so that it is soon shown.
fn mark_edges(
    work: &mut Work,
    matrix: Matrix,
    pair: &Pair,
    points: &Points,
    edges: &[Edge],
    wanted: &Wanted,
) -> Result<Matrix, Stop>
    requires long { All HasLength (outline_edges pair.now.first.now pair.now.second.now) }
    requires own { All (IsOwn pair.now.first.now) edges.now }
    requires first { IsBounded pair.now.first.now pair.now.first_box }
    requires bounded { IsBounded pair.now.second.now pair.now.second_box }
    requires near { HasNear pair.now.first.now pair.now.second.now pair.now.second_around.now }
    requires shared { let a = pair.now.first.now in let b = pair.now.second.now in
        IsTrue pair.now.has_second → HasShared a b points.now matrix }
    requires begun { let a = pair.now.first.now in let b = pair.now.second.now in
        IsBegun wanted.now pair.now.has_second a b points.now matrix }
    ensures marked { let a = pair.now.first.now in let b = pair.now.second.now in
        let marked = AreMarked a b (outline_edges a b) points.now edges.now in
        IfOk result (λ m. marked matrix m) }
    ensures stop { let a = pair.now.first.now in let b = pair.now.second.now in
        IfErr result (IsStopOf wanted.now pair.now.has_second a b) }
{
    work.seen = None;
    let start = lowest(edges);
    let (before, after) = edges.split_at(start);
    let begun = mark_some(work, matrix, pair, points, after, wanted)?;
    let grown = mark_some(work, begun, pair, points, before, wanted)?;
    Ok(grown)
}

/// A matrix that shows the edges of the first geometry around the box of the second, or an early
/// end.
fn mark_around(
    work: &mut Work,
    matrix: Matrix,
    pair: &Pair,
    points: &Points,
    wanted: &Wanted,
) -> Result<Matrix, Stop>
    requires long { All HasLength (outline_edges pair.now.first.now pair.now.second.now) }
    requires first { IsBounded pair.now.first.now pair.now.first_box }
    requires second { IsBounded pair.now.second.now pair.now.second_box }
    requires first_around { let edges = pair.now.first.now.edges.items in
        AreAround pair.now.second_box edges pair.now.first_around.now }
    requires second_around { let edges = pair.now.second.now.edges.items in
        AreAround pair.now.first_box edges pair.now.second_around.now }
    requires shared { let a = pair.now.first.now in let b = pair.now.second.now in
        IsTrue pair.now.has_second → HasShared a b points.now matrix }
    requires begun { let a = pair.now.first.now in let b = pair.now.second.now in
        IsBegun wanted.now pair.now.has_second a b points.now matrix }
    ensures marked { let a = pair.now.first.now in let b = pair.now.second.now in
        let es = outline_edges a b in let box = pair.now.second_box in
        let marked = AreSomeMarked a b es points.now (is_around box) a.edges.items in
        IfOk result (λ m. marked matrix m) }
    ensures stop { let a = pair.now.first.now in let b = pair.now.second.now in
        IfErr result (IsStopOf wanted.now pair.now.has_second a b) }
{
    let grown = mark_edges(work, matrix, pair, points, pair.first_around, wanted)?;
    Ok(grown)
}

/// A matrix that shows those of some edges of the first geometry that lie beyond the box of the
/// second. Once it has all that such edges can add, the rest is left out.
fn mark_beyond(
    work: &mut Work,
    matrix: Matrix,
    pair: &Pair,
    points: &Points,
    edges: &[Edge],
) -> Result<Matrix, AllocError>
    requires long { All HasLength (outline_edges pair.now.first.now pair.now.second.now) }
    requires own { All (IsOwn pair.now.first.now) edges.now }
    requires first { IsBounded pair.now.first.now pair.now.first_box }
    requires second { IsBounded pair.now.second.now pair.now.second_box }
    ensures { let a = pair.now.first.now in let b = pair.now.second.now in
        let es = outline_edges a b in let box = pair.now.second_box in
        let marked = AreSomeMarked a b es points.now (is_beyond box) edges.now in
        IfOk result (λ m. marked matrix m) }
{
    let own = pair.first.outline();
    let mut grown = matrix;
    for e in edges {
        let beyond = is_beyond(e, &pair.second_box);
        if !beyond {
            continue;
        }
        if is_outer_shown(&grown, own, &pair.second_box) {
            return Ok(grown);
        }
        grown = mark_outer_edge(work, grown, pair, points, e)?;
    }
    Ok(grown)
}

/// Where to begin with the edges beyond the box of the second geometry: at an outermost vertex of
/// rings, and of polylines at the last edge, which the first follows, since these have ends.
fn outer_start(pair: &Pair) -> usize
    ensures { result ≤ length pair.now.first.now.edges.items }
{
    match pair.first.outline().kind {
        Kind::Lines => pair.first.edges().len().saturating_sub(1),
        Kind::Points => 0,
        Kind::Areas => pair.first.start(&pair.first_box, &pair.second_box),
    }
}

/// A matrix that shows the edges of the first geometry that lie beyond the box of the second,
/// beginning where few of them are likely to show all. It is unchanged if it has all that they can
/// add.
fn mark_outer(
    work: &mut Work,
    matrix: Matrix,
    pair: &Pair,
    points: &Points,
) -> Result<Matrix, AllocError>
    requires long { All HasLength (outline_edges pair.now.first.now pair.now.second.now) }
    requires first { IsBounded pair.now.first.now pair.now.first_box }
    requires second { IsBounded pair.now.second.now pair.now.second_box }
    ensures { let a = pair.now.first.now in let b = pair.now.second.now in
        let es = outline_edges a b in let box = pair.now.second_box in
        let marked = AreSomeMarked a b es points.now (is_beyond box) a.edges.items in
        IfOk result (λ m. marked matrix m) }
{
    if is_outer_shown(&matrix, pair.first.outline(), &pair.second_box) {
        return Ok(matrix);
    }
    let own_edges = pair.first.edges();
    let start = outer_start(pair);
    let (before, after) = own_edges.split_at(start);
    let begun = mark_beyond(work, matrix, pair, points, after)?;
    let grown = mark_beyond(work, begun, pair, points, before)?;
    Ok(grown)
}

/// The matrix with all edges of two geometries, as far as it is wanted, or an early end.
fn mark_both(work: &mut Work, pair: &Pair, points: &Points, wanted: &Wanted) -> Result<Matrix, Stop>
    requires long { All HasLength (outline_edges pair.now.first.now pair.now.second.now) }
    requires first { IsBounded pair.now.first.now pair.now.first_box }
    requires second { IsBounded pair.now.second.now pair.now.second_box }
    requires first_around { let edges = pair.now.first.now.edges.items in
        AreAround pair.now.second_box edges pair.now.first_around.now }
    requires second_around { let edges = pair.now.second.now.edges.items in
        AreAround pair.now.first_box edges pair.now.second_around.now }
    requires none { pair.now.has_second ≡ false }
    requires points { points.now ≡ outline_points pair.now.first.now pair.now.second.now }
    ensures marked { let a = pair.now.first.now in let b = pair.now.second.now in
        IfOk result (λ m. AreAllMarked a b points.now (start_of wanted.now) m) }
    ensures stop { let a = pair.now.first.now in let b = pair.now.second.now in
        IfErr result (IsStop wanted.now a b) }
{
    let turned = pair.turned();
    let start = wanted.start();
    let around_first = mark_around(work, start, pair, points, wanted)?;
    let across = transposed(&around_first);
    let around_both = mark_around(work, across, &turned, points, wanted)?;
    let second = mark_outer(work, around_both, &turned, points)?;
    let back = transposed(&second);
    let all = mark_outer(work, back, pair, points)?;
    Ok(all)
}

/// The matrix with all edges and points of two geometries, as far as it is wanted, or an early end.
pub(crate) fn read_off(alloc: Global, pair: &Pair, wanted: &Wanted) -> Result<Matrix, Stop>
    requires long { All HasLength (outline_edges pair.now.first.now pair.now.second.now) }
    requires first { IsBounded pair.now.first.now pair.now.first_box }
    requires second { IsBounded pair.now.second.now pair.now.second_box }
    requires first_around { let edges = pair.now.first.now.edges.items in
        AreAround pair.now.second_box edges pair.now.first_around.now }
    requires second_around { let edges = pair.now.second.now.edges.items in
        AreAround pair.now.first_box edges pair.now.second_around.now }
    requires none { pair.now.has_second ≡ false }
    ensures read { IfOk result (IsReadFor wanted.now pair.now.first.now pair.now.second.now) }
    ensures stop { let a = pair.now.first.now in let b = pair.now.second.now in
        IfErr result (IsStop wanted.now a b) }
{
    let points = Points {
        first: pair.first,
        second: pair.second,
    };
    let mut work = no_work(alloc)?;
    let marked = mark_both(&mut work, pair, &points, wanted)?;
    let with_first = mark_points(marked, pair.first, pair.second);
    let turned = transposed(&with_first);
    let with_second = mark_points(turned, pair.second, pair.first);
    Ok(transposed(&with_second))
}
