//! The shape that the points of a text form.

ghost use Rattle.std.specs.Prelude.{◌↔◌, IsTrue, IfSome, IfNone};
ghost use Rattle.geom_core.specs.declared.shape.Shape.{Shape};
ghost use Rattle.wkt_core.specs.declared.keyword.Keyword.TheVariants.{Polygon};
ghost use Rattle.wkt_core.specs.Drawing.{IsRectangle};
ghost use Rattle.wkt_core.specs.DrawnBefore.{IsSegment};
ghost use Rattle.wkt_core.specs.FormSteps.{IsSpanned, AreParallel, LeadsRound};
ghost use Rattle.wkt_core.specs.FormSteps.{HasFourCorners, AreCornersOf};
ghost use Rattle.wkt_core.specs.Walks.{DrawnBy, IsDrawnBy};

use crate::keyword::Keyword;
use crate::position::Position;
use crate::walk::{Walk, is_straight};
use geom_core::Shape;

/// The smallest shape that contains both points, if they are in range.
#[inline(always)]
fn spanned(p: &Position, q: &Position) -> Option<Shape>
    ensures some { IfSome result (λ s. IsSpanned p.now q.now s) }
    ensures none { IfNone result ((s : Shape) → IsSpanned p.now q.now s → ⊥) }
{
    Shape::new(p.x.min(q.x), p.y.min(q.y), p.x.max(q.x), p.y.max(q.y))
}

/// Whether the points share a coordinate.
#[inline(always)]
fn are_parallel(p: &Position, q: &Position) -> bool
    ensures { IsTrue result ↔ AreParallel p.now q.now }
{
    p.x == q.x || p.y == q.y
}

/// The segment between two different points that share a coordinate.
#[tactic(auto, using(crate::proofs::FormLemmas::no_segment))]
fn segment(p: &Position, q: &Position) -> Option<Shape>
    ensures some { IfSome result (λ s. IsSegment p.now q.now s) }
    ensures none { IfNone result ((s : Shape) → IsSegment p.now q.now s → ⊥) }
{
    if *p != *q && are_parallel(p, q) {
        spanned(p, q)
    } else {
        None
    }
}

/// Whether the path leads along the first axis, along the second, and along both again.
#[inline(always)]
fn leads_round(a: &Position, b: &Position, c: &Position, d: &Position) -> bool
    ensures { IsTrue result ↔ LeadsRound a.now b.now c.now d.now }
{
    a.y == b.y && b.x == c.x && c.y == d.y && d.x == a.x
}

/// Whether these are the corners of a rectangle, in order around it.
#[inline(always)]
fn has_four_corners(a: &Position, b: &Position, c: &Position, d: &Position) -> bool
    ensures { IsTrue result ↔ HasFourCorners a.now b.now c.now d.now }
{
    let round = leads_round(a, b, c, d) || leads_round(b, c, d, a);
    round && a.x != c.x && a.y != c.y
}

/// The cover of the first and the third of these, if they are the corners of a rectangle.
#[inline(always)]
#[tactic(auto, using(crate::proofs::FormLemmas::none_within))]
fn within_corners(a: &Position, b: &Position, c: &Position, d: &Position) -> Option<Shape>
    ensures some { IfSome result (λ s. AreCornersOf a.now b.now c.now d.now s) }
    ensures none { IfNone result ((s : Shape) → AreCornersOf a.now b.now c.now d.now s → ⊥) }
{
    if has_four_corners(a, b, c, d) {
        spanned(a, c)
    } else {
        None
    }
}

/// The rectangle with these corners, in order around it.
#[tactic(auto, using(crate::proofs::FormLemmas::rectangles))]
fn rectangle(a: &Position, b: &Position, c: &Position, d: &Position) -> Option<Shape>
    ensures some { IfSome result (λ s. IsRectangle a.now b.now c.now d.now s) }
    ensures none { IfNone result ((s : Shape) → IsRectangle a.now b.now c.now d.now s → ⊥) }
{
    within_corners(a, b, c, d)
}

/// The rectangle around which a walk with these turns leads, if it ends at the last point.
fn ring(turns: &[Position], last: &Position) -> Option<Shape>
    ensures some { IfSome result (λ s. DrawnBy Polygon turns.now last.now s) }
    ensures none { IfNone result ((s : Shape) → DrawnBy Polygon turns.now last.now s → ⊥) }
{
    match turns {
        [a, b, c, d] if *last == *a => rectangle(a, b, c, d),
        [p, a, b, c, d] if *last == *p && is_straight(d, p, a) => rectangle(a, b, c, d),
        _ => None,
    }
}

/// The shape that a walk forms in a text with this keyword.
pub(crate) fn shape_of(keyword: Keyword, walk: &Walk) -> Option<Shape>
    ensures some { IfSome result (λ s.
        IsDrawnBy keyword walk.now.turns.items walk.now.last s) }
    ensures none { IfNone result ((s : Shape)
        → IsDrawnBy keyword walk.now.turns.items walk.now.last s → ⊥) }
{
    let last = walk.last()?;
    match keyword {
        Keyword::Point => match walk.turns() {
            [] => spanned(&last, &last),
            _ => None,
        },
        Keyword::LineString => match walk.turns() {
            [first] => segment(first, &last),
            _ => None,
        },
        Keyword::Polygon => ring(walk.turns(), &last),
    }
}
