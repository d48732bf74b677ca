//! Boxes as SVG paths.

ghost use Rattle.std.specs.Prelude.{◌≡◌, ◌++◌, ◌-ℤ◌, OnOk};
ghost use Rattle.std.specs.String.{string_bytes};
ghost use Rattle.geom_core.specs.Shapes.{x1, y1, x2, y2};
ghost use Rattle.draw_core.specs.Outlines.{corner, way_back, outline, start_of};

use crate::drawn::Drawn;
use crate::frame::Frame;
use crate::number::push_number;
use geom_core::Shape;
use std::alloc::AllocError;

/// The width of a shape.
fn width(shape: &Shape) -> i64
    ensures { result ≡ x2 shape.now -ℤ x1 shape.now }
{
    shape.x2() - shape.x1()
}

/// The height of a shape.
fn height(shape: &Shape) -> i64
    ensures { result ≡ y2 shape.now -ℤ y1 shape.now }
{
    shape.y2() - shape.y1()
}

/// Adds the upper left corner of a shape.
fn push_corner(text: &mut String, frame: &Frame, shape: &Shape) -> Result<(), AllocError>
    ensures { OnOk result
        (string_bytes text.new ≡ string_bytes text.old ++ corner frame.now shape.now) }
{
    push_number(text, "M", frame.x_of(shape))?;
    push_number(text, " ", frame.y_of(shape))
}

/// Adds the way back to the upper left corner, if the shape is a rectangle.
fn push_return(text: &mut String, shape: &Shape) -> Result<(), AllocError>
    ensures { OnOk result
        (string_bytes text.new ≡ string_bytes text.old ++ way_back shape.now) }
{
    if shape.dim() < 2 {
        return Ok(());
    }
    push_number(text, "h-", width(shape))?;
    text.push_str("z")
}

/// Adds the path of a shape, which goes from its upper left corner across, down and back.
fn push_outline(text: &mut String, frame: &Frame, shape: &Shape) -> Result<(), AllocError>
    ensures { OnOk result
        (string_bytes text.new ≡ string_bytes text.old ++ outline frame.now shape.now) }
{
    push_corner(text, frame, shape)?;
    push_number(text, "h", width(shape))?;
    push_number(text, "v", height(shape))?;
    push_return(text, shape)
}

/// The start of a path element, with its class if it is a point or a match.
pub(crate) fn path_start(dim: u8, is_match: bool) -> &'static str
    ensures { result.now ≡ start_of dim is_match }
{
    match (dim == 0, is_match) {
        (true, true) => "<path class=\"point match\" d=\"",
        (true, false) => "<path class=\"point\" d=\"",
        (false, true) => "<path class=\"match\" d=\"",
        (false, false) => "<path d=\"",
    }
}

/// A box is drawn as its outline.
impl Drawn for Shape {
    ghost use Rattle.geom_core.specs.Shapes.{dim_of};
    ghost use Rattle.draw_core.specs.Outlines as outlines;

    ghost start_of = { λ s. outlines.start_of (dim_of s) };

    ghost path_of = { outlines.outline };

    fn start(&self, is_match: bool) -> &'static str {
        path_start(self.dim(), is_match)
    }

    fn push_path(&self, frame: &Frame, text: &mut String) -> Result<(), AllocError> {
        push_outline(text, frame, self)
    }
}
