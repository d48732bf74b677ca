//! The intersections of the parts of two intervals of one axis, by narrow and wide zones.
//!
//! A part of the plane is the union of two products of zones of the axes, each of them the narrow
//! zone of one axis by the wide zone of the other:
//!
//! | Part | Narrow zone | Wide zone |
//! |---|---|---|
//! | interior | inner part | inner part |
//! | boundary | ends | inner part and ends |
//! | exterior | outside | whole axis |

ghost use Rattle.std.specs.Prelude.{◌≡◌};
ghost use Rattle.relation_core.specs.Axes.{larger_of, joined_row, widened, pairs_of, axis_of};

use crate::meeting::{Meeting, Shared};
use crate::part::Parts;

/// The intersections of the two zones of a part of the first interval with those of a part of the
/// second.
#[derive(Clone, Copy)]
pub struct ZonePairs {
    pub narrow_narrow: Shared,
    pub narrow_wide: Shared,
    pub wide_narrow: Shared,
    pub wide_wide: Shared,
}

/// The intersection with the union of two sets, given that with each.
#[inline(always)]
pub fn larger(a: Shared, b: Shared) -> Shared
    ensures { result ≡ larger_of a b }
{
    match (a, b) {
        (Shared::Interval, _) => Shared::Interval,
        (Shared::Point, Shared::Interval) => Shared::Interval,
        (Shared::Point, Shared::Point) => Shared::Point,
        (Shared::Point, Shared::Nothing) => Shared::Point,
        (Shared::Nothing, _) => b,
    }
}

/// The intersections of the union of two zones of the first interval with each zone of the second.
#[inline(always)]
fn join(a: Parts<Shared>, b: Parts<Shared>) -> Parts<Shared>
    ensures { result ≡ joined_row a b }
{
    Parts {
        interior: larger(a.interior, b.interior),
        boundary: larger(a.boundary, b.boundary),
        exterior: larger(a.exterior, b.exterior),
    }
}

/// The intersections of a zone of the first interval with each wide zone of the second.
#[inline(always)]
fn widen(row: Parts<Shared>) -> Parts<Shared>
    ensures { result ≡ widened row }
{
    let within = larger(row.interior, row.boundary);
    Parts {
        interior: row.interior,
        boundary: within,
        exterior: larger(within, row.exterior),
    }
}

/// The intersections of a part of the first interval with each part of the second.
#[inline(always)]
fn pairs(narrow: Parts<Shared>, wide: Parts<Shared>) -> Parts<ZonePairs>
    ensures { result ≡ pairs_of narrow wide }
{
    let narrow_wide = widen(narrow);
    let wide_wide = widen(wide);
    Parts {
        interior: ZonePairs {
            narrow_narrow: narrow.interior,
            narrow_wide: narrow_wide.interior,
            wide_narrow: wide.interior,
            wide_wide: wide_wide.interior,
        },
        boundary: ZonePairs {
            narrow_narrow: narrow.boundary,
            narrow_wide: narrow_wide.boundary,
            wide_narrow: wide.boundary,
            wide_wide: wide_wide.boundary,
        },
        exterior: ZonePairs {
            narrow_narrow: narrow.exterior,
            narrow_wide: narrow_wide.exterior,
            wide_narrow: wide.exterior,
            wide_wide: wide_wide.exterior,
        },
    }
}

/// The intersections of each part of the first interval with each part of the second.
#[inline(always)]
pub fn axis_table(meeting: Meeting) -> Parts<Parts<ZonePairs>>
    ensures { result ≡ axis_of meeting }
{
    let inner = meeting.interior();
    let ends = meeting.boundary();
    let outside = meeting.exterior();
    let within = join(inner, ends);
    Parts {
        interior: pairs(inner, inner),
        boundary: pairs(ends, within),
        exterior: pairs(outside, join(within, outside)),
    }
}
