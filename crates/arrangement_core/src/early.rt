//! An early end, once a point that edges of both geometries share tells what is wanted.

ghost use Rattle.std.specs.Prelude.{IfErr, All};
ghost use Rattle.plane_core.specs.Figures.{HasLength};
ghost use Rattle.plane_core.specs.Places.{point_of};
ghost use Rattle.noding_core.specs.ReadOffs.{outline_edges, IsOwn};
ghost use Rattle.shown_core.specs.Beyond.{IsBounded};
ghost use Rattle.shown_core.specs.Shown.{IsOnEdge};
ghost use Rattle.arrangement_core.specs.Answers.{IsBegun, IsStopOf};
ghost use Rattle.arrangement_core.specs.Seen.{AreNear};

use crate::asked::pick;
use crate::known::part_along;
use crate::pair::Pair;
use crate::points::Points;
use crate::wanted::{Stop, Wanted, go_on};
use noding_core::{raised, row_of};
use plane_core::{Edge, Node, Place};
use relation_core::{Extent, Matrix};
use shown_core::{Course, part_on_edge};

/// Whether only an answer is wanted, and the matrix lacks most points that edges of both geometries
/// share.
fn is_asked(matrix: &Matrix, pair: &Pair, wanted: &Wanted) -> bool {
    match wanted {
        Wanted::Whole => false,
        Wanted::Fitting(_) => false,
        Wanted::Answer(_) => {
            let row = row_of(matrix, part_along(pair.first.outline().kind));
            pick(&row, part_along(pair.second.outline().kind)) == Extent::Empty
        }
    }
}

/// An early end, if a point that is on edges of both geometries tells what is wanted.
fn stop_at(
    matrix: &Matrix,
    pair: &Pair,
    points: &Points,
    p: &Place,
    wanted: &Wanted,
) -> Result<(), Stop>
    requires long { All HasLength (outline_edges pair.now.first.now pair.now.second.now) }
    requires first { IsBounded pair.now.first.now pair.now.first_box }
    requires bounded { IsBounded pair.now.second.now pair.now.second_box }
    requires on { IsOnEdge pair.now.first.now (point_of p.now) }
    requires on_other { IsOnEdge pair.now.second.now (point_of p.now) }
    requires begun { let a = pair.now.first.now in let b = pair.now.second.now in
        IsBegun wanted.now pair.now.has_second a b points.now matrix.now }
    ensures { let a = pair.now.first.now in let b = pair.now.second.now in
        IfErr result (IsStopOf wanted.now pair.now.has_second a b) }
{
    let first = part_on_edge(pair.first, p);
    let second = part_on_edge(pair.second, p);
    let next = raised(*matrix, first, second, Extent::Point);
    go_on(wanted, pair.has_second, matrix, &next)
}

/// An early end, if the first point that an edge of the first geometry shares with one of the
/// second near it tells what is wanted. So the nodes of the edge needn't be found.
pub(crate) fn stop_where_met(
    matrix: &Matrix,
    pair: &Pair,
    points: &Points,
    course: &Course,
    near: &[Edge],
    wanted: &Wanted,
) -> Result<(), Stop>
    requires long { All HasLength (outline_edges pair.now.first.now pair.now.second.now) }
    requires first { IsBounded pair.now.first.now pair.now.first_box }
    requires bounded { IsBounded pair.now.second.now pair.now.second_box }
    requires own { IsOwn pair.now.first.now course.now.edge }
    requires near { AreNear pair.now.second.now course.now.edge near.now }
    requires begun { let a = pair.now.first.now in let b = pair.now.second.now in
        IsBegun wanted.now pair.now.has_second a b points.now matrix.now }
    ensures { let a = pair.now.first.now in let b = pair.now.second.now in
        IfErr result (IsStopOf wanted.now pair.now.has_second a b) }
{
    if course.part.is_some() || !is_asked(matrix, pair, wanted) {
        return Ok(());
    }
    for f in near {
        if let Some(node) = Node::meeting(&course.edge, f) {
            return stop_at(matrix, pair, points, &node.place, wanted);
        }
    }
    Ok(())
}
