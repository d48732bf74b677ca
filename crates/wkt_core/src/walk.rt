//! A walk along the points of a list, of which only the start, the turns and the end are kept.

ghost use Rattle.std.specs.Prelude.{◌≡◌};
ghost use Rattle.wkt_core.specs.Walks.{is_inside, is_vertical, is_horizontal, is_straight};

use crate::position::Position;
use arrayvec::ArrayVec;

/// One more than the greatest number of points at which the walk of a shape starts and turns: a
/// ring may start within a side and turn at four corners.
const ENOUGH: usize = 6;

/// Whether the second number is strictly between the first and the third.
#[inline(always)]
#[tactic(auto, unfolding(crate::specs::Walks::is_inside))]
fn is_inside(a: i64, b: i64, c: i64) -> bool
    ensures { result ≡ is_inside a b c }
{
    (a < b && b < c) || (c < b && b < a)
}

/// Whether the second point is strictly between the first and the third on a vertical line.
#[inline(always)]
fn is_vertical(p: &Position, q: &Position, r: &Position) -> bool
    ensures { result ≡ is_vertical p.now q.now r.now }
{
    p.x == q.x && q.x == r.x && is_inside(p.y, q.y, r.y)
}

/// Whether the second point is strictly between the first and the third on a horizontal line.
#[inline(always)]
fn is_horizontal(p: &Position, q: &Position, r: &Position) -> bool
    ensures { result ≡ is_horizontal p.now q.now r.now }
{
    p.y == q.y && q.y == r.y && is_inside(p.x, q.x, r.x)
}

/// Whether the path from the first point through the second to the third is straight and along an
/// axis.
#[inline(always)]
pub(crate) fn is_straight(p: &Position, q: &Position, r: &Position) -> bool
    ensures { result ≡ is_straight p.now q.now r.now }
{
    is_vertical(p, q, r) || is_horizontal(p, q, r)
}

/// The kept points of a walk.
#[derive(Drop)]
pub(crate) struct Walk {
    /// The first of the points at which it started and turned.
    turns: ArrayVec<Position, ENOUGH>,
    /// The current position, as long as there is room for turns.
    last: Option<Position>,
}

impl Walk {
    ghost use Rattle.std.specs.Prelude.{◌≡◌, [], ◌∷◌, ◌++◌, List};
    ghost use Rattle.wkt_core.specs.declared.position.Position.{Position};
    ghost use Rattle.wkt_core.specs.Walks.{goes_on, way_of, IsKeptOf};

    /// The walk along no points.
    #[inline(always)]
    pub(crate) fn new() -> Walk
        ensures { IsKeptOf result (way_of []) }
    {
        Walk {
            turns: ArrayVec::new(),
            last: None,
        }
    }

    /// Whether the walk goes straight on through the last point to a further one.
    #[inline(always)]
    fn goes_on(&self, last: &Position, point: &Position) -> bool
        ensures { result ≡ goes_on self.now.turns.items last.now point.now }
    {
        match self.turns.as_slice().last() {
            Some(before) => is_straight(before, last, point),
            None => false,
        }
    }

    /// Extends the walk to a point.
    #[inline(always)]
    pub(crate) fn push(&mut self, point: Position)
        ensures { (ps : List Position)
            → IsKeptOf self.old (way_of ps) → IsKeptOf self.new (way_of (ps ++ point ∷ [])) }
    {
        let before = self.last;
        if let Some(last) = before {
            let stays = last == point;
            if stays {
                return;
            }
            let straight_on = self.goes_on(&last, &point);
            if !straight_on {
                let _ = self.turns.try_push(last);
            }
        }
        self.last = Some(point);
    }

    /// The points at which the walk started and turned.
    #[inline(always)]
    pub(crate) fn turns(&self) -> &[Position]
        ensures { result.now ≡ self.now.turns.items }
    {
        self.turns.as_slice()
    }

    /// The current position of the walk.
    #[inline(always)]
    pub(crate) fn last(&self) -> Option<Position>
        ensures { result ≡ self.now.last }
    {
        self.last
    }
}
