//! Printing a shape.

ghost use Rattle.std.specs.Prelude.{◌≡◌, ◌++◌, [], ◌∷◌, codes, IfOk, OnOk};
ghost use Rattle.std.specs.String.{string_bytes};
ghost use Rattle.geom_core.specs.declared.shape.Shape.{Shape};
ghost use Rattle.wkt_core.specs.Canonical.{pair, listed, canonical};
ghost use Rattle.wkt_core.specs.Drawing.{corner};
ghost use Rattle.number_core.specs.Scales.{limits_of};
ghost use Rattle.wkt_core.specs.Spelling.{IsShapeWithin, Spells};

use crate::position::Position;
use geom_core::Shape;
use number_core::{Scale, push_number};
use std::alloc::{AllocError, Global};

/// The greatest length in bytes of a text, a rectangle with ten numbers of at most twenty bytes.
const LONGEST: usize = 225;

/// Adds the two numbers of a point to a text, in units of a scale, with a space between them.
///
/// # Errors
/// If an allocation fails; the text may then end with a part of the point.
pub fn push_point(text: &mut String, point: &Position, scale: Scale) -> Result<(), AllocError>
    ensures { OnOk result (string_bytes text.new
        ≡ string_bytes text.old ++ pair scale point.now) }
{
    push_number(text, point.x, scale)?;
    text.push_str(" ")?;
    push_number(text, point.y, scale)
}

/// Adds points, with a comma and a space between them.
#[tactic(auto, using(crate::proofs::PrintLemmas::points_added))]
fn push_points(text: &mut String, points: &[Position], scale: Scale) -> Result<(), AllocError>
    ensures { OnOk result (string_bytes text.new
        ≡ string_bytes text.old ++ listed scale points.now) }
{
    let Some((first, further)) = points.split_first() else {
        return Ok(());
    };
    push_point(text, first, scale)?;
    for point in further {
        text.push_str(", ")?;
        push_point(text, point, scale)?;
    }
    Ok(())
}

/// Adds a keyword with its opening parentheses, points, and the closing parentheses.
fn push_geometry(
    text: &mut String,
    opening: &str,
    points: &[Position],
    closing: &str,
    scale: Scale,
) -> Result<(), AllocError>
    ensures { OnOk result (string_bytes text.new
        ≡ string_bytes text.old ++ (opening.now ++ listed scale points.now ++ closing.now)) }
{
    text.push_str(opening)?;
    push_points(text, points, scale)?;
    text.push_str(closing)
}

/// Adds the canonical text of a shape.
fn push_shape(text: &mut String, shape: &Shape, scale: Scale) -> Result<(), AllocError>
    ensures { OnOk result (string_bytes text.new
        ≡ string_bytes text.old ++ canonical scale shape.now) }
{
    let (x1, y1, x2, y2) = (shape.x1(), shape.y1(), shape.x2(), shape.y2());
    let a = Position::new(x1, y1);
    let b = Position::new(x2, y1);
    let c = Position::new(x2, y2);
    let d = Position::new(x1, y2);
    match shape.dim() {
        0 => push_geometry(text, "POINT (", &[a], ")", scale),
        1 => push_geometry(text, "LINESTRING (", &[a, c], ")", scale),
        _ => push_geometry(text, "POLYGON ((", &[a, b, c, d, a], "))", scale),
    }
}

/// The canonical text of the shape: plain decimal numbers, one space between the two numbers of a
/// point, a comma and a space between points, and the ring of a rectangle from its lowest corner
/// along the first axis. A number has no superfluous zeros, and a dot only if its fraction isn't 0:
/// at scale 2, 125 units are `1.25` and -5 are `-0.05`.
///
/// # Errors
/// If an allocation fails.
pub fn print(alloc: Global, shape: &Shape, scale: Scale) -> Result<String, AllocError>
    // the canonical spelling at the scale
    ensures text { IfOk result (λ text. string_bytes text ≡ canonical scale shape.now) }
    // Reading the text gives the shape.
    // which spells a shape within the limits of the scale
    ensures spells { IsShapeWithin (limits_of scale) shape.now
        → Spells scale (canonical scale shape.now) shape.now }
{
    let mut text = String::with_capacity(alloc, LONGEST)?;
    push_shape(&mut text, shape, scale)?;
    Ok(text)
}
