//! Reading a text.

ghost use Rattle.std.specs.Prelude.{◌≡◌, List, IfSome, IfNone, Result};
ghost use Rattle.geom_core.specs.declared.shape.Shape.{Shape};
ghost use Rattle.wkt_core.specs.declared.fault.WktFault.{WktFault};
ghost use Rattle.wkt_core.specs.AnswerSteps.{IsAnswerOf, IsReading};
ghost use Rattle.wkt_core.specs.Grammar.{RawPoint};
ghost use Rattle.wkt_core.specs.ListSteps.{TakesText};
ghost use Rattle.wkt_core.specs.ReadLists.{AreReadOf};
ghost use Rattle.wkt_core.specs.Readings.{Reads};
ghost use Rattle.wkt_core.specs.declared.keyword.Keyword.{Keyword};

use crate::fault::WktFault;
use crate::raw::RawText;
use geom_core::Shape;
use number_core::Scale;

/// The shape that the text spells.
///
/// A text is `POINT (x y)`, `LINESTRING (x y, ..)` or `POLYGON ((x y, ..), ..)` (OGC 06-103r4,
/// 7.2), with the keyword in any ASCII case. White space (space, tab, carriage return, line feed)
/// may be between any two tokens and at both ends, and must be between the two numbers of a point.
/// A number has an optional sign, one digit or more, and an optional dot with any number of digits
/// after it. Where the scale has [`crate::Rounding::Nearest`], the digits may stand after the dot
/// alone, and an exponent may follow: `e` or `E`, an optional sign, and one digit or more.
///
/// The number is read in units of the scale, from its digits and the decimals of the scale: at
/// scale 2, `1.250` is 125 units and `-0.1` is -10. With `Nearest` it is read as the nearest whole
/// number of units, and half a unit is rounded away from zero, as PostgreSQL rounds a `numeric`: at
/// scale 2, `1.255` is 126 units and `-1.255` is -126.
///
/// A list may have any number of points and takes no memory. A point equal to the one before it
/// is ignored.
///
/// # Errors
/// - [`WktFault::Text`] if the bytes aren't a text of this grammar, in which a list may have any
///   number of points or lists of points.
/// - [`WktFault::Number`] if some number has a digit other than 0 after the decimals of the scale
///   and isn't rounded, or is beyond the limit of the scale, once rounded.
/// - [`WktFault::Form`] if a `LINESTRING` doesn't have two or more distinct points that go straight
///   along an axis, or if a `POLYGON` isn't a single closed ring that goes once around a rectangle
///   of positive width and height: through its four corners and any points within its sides, in
///   order, from any of them, in either direction.
pub fn read(text: &[u8], scale: Scale) -> Result<Shape, WktFault>
    // the answer is what the text reads as, the shape that it spells at the scale or the first of
    // three faults
    ensures reads { Reads scale text.now result }
    // nothing else is
    ensures only { (answer : Result Shape WktFault)
        → Reads scale text.now answer → result ≡ answer }
{
    reading(text, scale, RawText::read(text, scale))
}

/// The result of a text, from its keyword and lists.
#[inline(always)]
fn reading(text: &[u8], scale: Scale, read: Option<RawText>) -> Result<Shape, WktFault>
    requires some { IfSome read (λ raw. (lists : List (List RawPoint))
        × TakesText scale text.now raw.keyword lists × AreReadOf scale raw.lists lists) }
    requires none { IfNone read ((keyword : Keyword) (lists : List (List RawPoint))
        → TakesText scale text.now keyword lists → ⊥) }
    ensures { IsReading scale text.now result }
{
    answer(read)
}

/// The result of a keyword and lists.
#[inline(always)]
fn answer(read: Option<RawText>) -> Result<Shape, WktFault>
    ensures { IsAnswerOf read result }
{
    let Some(raw) = read else {
        return Err(WktFault::Text);
    };
    if !raw.has_good_numbers() {
        return Err(WktFault::Number);
    }
    match raw.shape() {
        Some(shape) => Ok(shape),
        None => Err(WktFault::Form),
    }
}
