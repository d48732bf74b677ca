//! Reading the points of a text.

ghost use Rattle.std.specs.Prelude.{◌≡◌};
ghost use Rattle.number_core.specs.NumberSteps.{answer_view};
ghost use Rattle.wkt_core.specs.PointSteps.{point_at, point_answer, position_from, point_from};

use crate::token::skip_gap;
use number_core::{ReadNumber, Scale, read_number};

/// A point of the plane.
#[derive(Clone, Copy, Default, PartialEq, Eq)]
pub struct Position {
    pub x: i64,
    pub y: i64,
}

impl Position {
    ghost use Rattle.wkt_core.specs.Drawing.{corner};

    #[inline(always)]
    pub fn new(x: i64, y: i64) -> Position
        ensures { result ≡ corner x y }
    {
        Position { x, y }
    }
}

/// A point that was read.
#[derive(Drop)]
pub struct ReadPoint {
    /// The point in whole units of the scale, if both coordinates are in range.
    pub position: Option<Position>,
    /// Whether both are whole numbers of units.
    pub whole: bool,
}

/// The position with these coordinates, if there are both.
#[inline(always)]
fn both(x: Option<i64>, y: Option<i64>) -> Option<Position>
    ensures { result ≡ position_from x y }
{
    match (x, y) {
        (Some(x), Some(y)) => Some(Position::new(x, y)),
        _ => None,
    }
}

/// The point with these numbers.
#[inline(always)]
fn point(x: ReadNumber, y: ReadNumber) -> ReadPoint
    ensures { result ≡ point_from x y }
{
    ReadPoint {
        position: both(x.value, y.value),
        whole: x.whole && y.whole,
    }
}

/// Reads the point at the start of a text, and returns it with the text after it, or `None` if
/// there is no point.
#[inline(always)]
pub fn read_point(text: &[u8], scale: Scale) -> Option<(ReadPoint, &[u8])>
    ensures { answer_view result ≡ point_answer scale (point_at scale text.now) }
{
    let (x, rest) = read_number(text, scale)?;
    let rest = skip_gap(rest)?;
    let (y, rest) = read_number(rest, scale)?;
    Some((point(x, y), rest))
}
