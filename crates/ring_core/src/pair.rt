//! Whether two edges share at most one point, which is an end of one of them.

ghost use Rattle.std.specs.Prelude.{◌≡◌, ◌↔◌, pos, IsTrue};
ghost use Rattle.std.specs.Ordering.{int_eq};
ghost use Rattle.plane_core.specs.Points.{at, side};
ghost use Rattle.plane_core.specs.ProperRings.{MeetProperly};
ghost use Rattle.ring_core.specs.PairTests.{are_opposite, share_interval, do_cross_inside};
ghost use Rattle.ring_core.specs.PairTests.{do_run_along};

use plane_core::{Edge, Vertex};

/// Whether two numbers have opposite signs.
#[inline]
fn are_opposite(a: i128, b: i128) -> bool
    ensures { result ≡ are_opposite a b }
{
    a < 0 && 0 < b || b < 0 && 0 < a
}

/// Whether two intervals, each given by its ends in any order, share more than one number.
#[inline]
fn share_interval(a: i64, b: i64, c: i64, d: i64) -> bool
    ensures { result ≡ share_interval a b c d }
{
    let from = a.min(b).max(c.min(d));
    let to = a.max(b).min(c.max(d));
    from < to
}

/// Whether two edges cross at a point that is an end of neither: the ends of each lie on opposite
/// sides of the other.
fn do_cross_inside(e: &Edge, f: &Edge) -> bool
    ensures { result ≡ do_cross_inside e.now f.now }
{
    let first = f.side_of(&e.a);
    let last = f.side_of(&e.b);
    let other_first = e.side_of(&f.a);
    let other_last = e.side_of(&f.b);
    let is_crossed = are_opposite(first, last);
    let is_crossing = are_opposite(other_first, other_last);
    is_crossed & is_crossing
}

/// Whether a vertex lies on an edge's line.
fn is_level(e: &Edge, v: &Vertex) -> bool
    ensures { result ≡ int_eq (side e.now (at v.now)) (pos 0) }
{
    e.side_of(v) == 0
}

/// Whether two edges lie on the same line and share more than one point.
fn do_run_along(e: &Edge, f: &Edge) -> bool
    ensures { result ≡ do_run_along e.now f.now }
{
    let is_first = is_level(f, &e.a);
    let is_last = is_level(f, &e.b);
    let along_x = share_interval(e.a.x, e.b.x, f.a.x, f.b.x);
    let along_y = share_interval(e.a.y, e.b.y, f.a.y, f.b.y);
    is_first & is_last & (along_x | along_y)
}

/// Whether two edges share at most one point, which is an end of one of them. Edges whose boxes
/// don't meet share none.
pub fn meet_properly(e: &Edge, f: &Edge) -> bool
    ensures { IsTrue result ↔ MeetProperly e.now f.now }
{
    if !e.is_box_meeting(f) {
        return true;
    }
    let is_crossing = do_cross_inside(e, f);
    let is_along = do_run_along(e, f);
    !(is_crossing | is_along)
}
