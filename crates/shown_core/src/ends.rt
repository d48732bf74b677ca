//! Whether polylines have ends outside a box.

ghost use Rattle.std.specs.Prelude.{◌≡◌, IsTrue};
ghost use Rattle.shown_core.specs.Ends.{is_held_across, is_held_up, is_held};
ghost use Rattle.shown_core.specs.Ends.{are_settled, HasNoOuterEnd};

use geom_core::Shape;
use plane_core::Vertex;

/// Whether a vertex is neither left nor right of a box.
fn is_held_across(v: &Vertex, bounds: &Shape) -> bool
    ensures { result ≡ is_held_across bounds.now v.now }
{
    let low = bounds.x1();
    let high = bounds.x2();
    low <= v.x && v.x <= high
}

/// Whether a vertex is neither below nor above a box.
fn is_held_up(v: &Vertex, bounds: &Shape) -> bool
    ensures { result ≡ is_held_up bounds.now v.now }
{
    let low = bounds.y1();
    let high = bounds.y2();
    low <= v.y && v.y <= high
}

/// Whether a vertex is in a closed box.
fn is_held(v: &Vertex, bounds: &Shape) -> bool
    ensures { result ≡ is_held bounds.now v.now }
{
    let across = is_held_across(v, bounds);
    let up = is_held_up(v, bounds);
    across & up
}

/// Whether both ends of a polyline are the same vertex or in a box.
fn are_settled(first: &Vertex, last: &Vertex, bounds: &Shape) -> bool
    ensures { result ≡ are_settled bounds.now first.now last.now }
{
    let is_closed = first.x == last.x && first.y == last.y;
    let is_first_held = is_held(first, bounds);
    let is_last_held = is_held(last, bounds);
    is_closed | (is_first_held & is_last_held)
}

/// Whether no point beyond a box is an end of polylines an odd number of times, by the ends of
/// each: those of a polyline are equal or both in the box.
pub(crate) fn has_no_outer_end(ends: &[Vertex], bounds: &Shape) -> bool
    ensures { IsTrue result → HasNoOuterEnd bounds.now ends.now }
{
    let half = ends.len() / 2;
    for i in 0..half {
        let first = &ends[2 * i];
        let last = &ends[2 * i + 1];
        let settled = are_settled(first, last, bounds);
        if !settled {
            return false;
        }
    }
    2 * half == ends.len()
}
