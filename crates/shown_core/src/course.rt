//! How an edge of one geometry lies to the other geometry.

ghost use Rattle.std.specs.Prelude.{◌≡◌, pos, not, true, All, IfSome};
ghost use Rattle.std.specs.List.{list_all};
ghost use Rattle.std.specs.Ordering.{int_eq};
ghost use Rattle.plane_core.specs.declared.outline.Outline.{Outline};
ghost use Rattle.plane_core.specs.Points.{at, side, turn_of, is_on};
ghost use Rattle.plane_core.specs.Places.{point_of};
ghost use Rattle.plane_core.specs.Outlines.{outline_part, outline_above};
ghost use Rattle.noding_core.specs.Near.{IsFound};
ghost use Rattle.shown_core.specs.Lying.{IsKnownIn, LiesOff};
ghost use Rattle.shown_core.specs.Shown.{is_along, IsKnownApart};

use edge_index_core::IndexedOutline;
use plane_core::{Edge, Part, Place, Standing, Vertex};

/// An edge of a geometry, whether it is known to run along no edge of the other geometry, and the
/// part of that geometry in which all of it lies, if this is known.
#[derive(Clone, Copy)]
pub struct Course {
    pub edge: Edge,
    pub is_apart: bool,
    pub part: Option<Part>,
}

fn is_parallel(e: &Edge, f: &Edge) -> bool
    ensures { result ≡ int_eq (turn_of e.now f.now) (pos 0) }
{
    e.turn_to(f) == 0
}

/// Whether a vertex lies on an edge's line.
fn is_level(e: &Edge, v: &Vertex) -> bool
    ensures { result ≡ int_eq (side e.now (at v.now)) (pos 0) }
{
    e.side_of(v) == 0
}

/// Whether two edges are on the same line and their boxes meet.
fn is_along(e: &Edge, f: &Edge) -> bool
    ensures { result ≡ is_along e.now f.now }
{
    if is_parallel(e, f) {
        let is_meeting = e.is_box_meeting(f);
        let is_level = is_level(e, &f.a);
        is_meeting & is_level
    } else {
        false
    }
}

/// Whether an edge runs along none of the others.
fn is_apart(e: &Edge, others: &[Edge]) -> bool
    ensures { result ≡ list_all (λ f. not (is_along e.now f)) others.now }
{
    others.iter().all(|f| !is_along(e, f))
}

/// The course of an edge that lies in a part of the other geometry if one is given, by the edges of
/// that geometry near it.
pub fn course_of(e: &Edge, part: Option<Part>, near: &[Edge]) -> Course
    // as given
    ensures edge { result.edge ≡ e.now }
    ensures part { result.part ≡ part }
    // where it says that the edge runs along no edge of the other geometry, it runs along none
    ensures apart { (other : Outline) → All (IsFound e.now near.now) other.edges.items
        → IsKnownApart other result }
{
    let is_apart = is_apart(e, near);
    Course {
        edge: *e,
        is_apart,
        part,
    }
}

/// The part of the other geometry in which a point of an edge lies, and the part just above it,
/// looked up unless they are known of the edge, or of the point off the boundary.
pub fn standing_of(
    other: &IndexedOutline,
    course: &Course,
    off: Option<Part>,
    p: &Place,
) -> Standing
    requires known { IsKnownIn other.now course.now }
    requires on { is_on course.now.edge (point_of p.now) ≡ true }
    requires off { IfSome off (LiesOff other.now (point_of p.now)) }
    // those of the other geometry, looked up or known
    ensures part { result.part ≡ outline_part other.now (point_of p.now) }
    ensures above { result.above ≡ outline_above other.now (point_of p.now) }
{
    if let Some(part) = course.part {
        return Standing { part, above: part };
    }
    match off {
        Some(part) => Standing { part, above: part },
        None => other.standing_at(p),
    }
}
