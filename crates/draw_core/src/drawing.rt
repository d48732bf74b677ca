//! The picture of two layers.

ghost use Rattle.std.specs.Prelude.{◌≡◌, ◌++◌, ◌+◌, ◌≤◌, ◌↔◌, length, map, IfOk, OnOk, IsTrue};
ghost use Rattle.std.specs.String.{string_bytes};
ghost use Rattle.std.specs.Ordering.{nat_cmp};
ghost use Rattle.std.specs.BTreeSet.{contains};
ghost use Rattle.draw_core.specs.Drawings.{drawing_by};
ghost use Rattle.draw_core.specs.Limits.{most_drawn};
ghost use Rattle.draw_core.specs.Pictures.{counted, opening, legend, canvas, group};
ghost use Rattle.draw_core.specs.Pictures.{picture_of};

use crate::drawn::Drawn;
use crate::element::push_element;
use crate::frame::Frame;
use crate::marks::Marks;
use itoa::Buffer;
use layer_core::{Geometry, Layer};
use refine_core::AsPair;
use std::alloc::{AllocError, Global};
use std::collections::BTreeSet;

/// The greatest number of features, of both layers together, that a picture may have: more would
/// be drawn as nothing but strokes.
pub const MAX_DRAWN: usize = 100_000;

/// The start of the root element, up to its height.
const OPENING: &str = "<svg xmlns=\"http://www.w3.org/2000/svg\" version=\"1.1\" \
width=\"1000\" height=\"";

/// The text between that height and the height of the view box.
const SHOWN: &str = "\" viewBox=\"0 0 1000 ";

/// The text between the two heights and the legend: the style of each class.
///
/// Stroke widths are percentages of the picture's size, so a point is visible at any extent. The
/// two colours are blue and vermillion of Okabe and Ito, which colour-blind readers tell apart.
const STYLE: &str = "\">\n\
<style>\
text{font:16px sans-serif}\
path{stroke-width:.1%;stroke-linecap:round;stroke-linejoin:round;fill-opacity:.06}\
.point{stroke-width:.5%}\
.match{stroke-width:.25%;fill-opacity:.24}\
.point.match{stroke-width:.9%}\
.left{fill:#0072B2;stroke:#0072B2}\
.right{fill:#D55E00;stroke:#D55E00}\
</style>\n\
<rect width=\"100%\" height=\"100%\" fill=\"#fff\"/>\n";

/// The height of the legend.
const LEGEND_HEIGHT: u64 = 40;

/// The legend up to the number of left features.
const LEFT_KEY: &str = "<path class=\"left\" d=\"M20 12h16v16h-16z\"/>\
<text x=\"46\" y=\"26\">left features: ";

/// The legend between the numbers of left and of right features.
const RIGHT_KEY: &str = "</text>\n<path class=\"right\" d=\"M320 12h16v16h-16z\"/>\
<text x=\"346\" y=\"26\">right features: ";

/// The legend between the numbers of right features and of pairs.
const MATCH_KEY: &str = "</text>\n<path class=\"left match\" d=\"M620 12h16v16h-16z\"/>\
<path class=\"right match\" d=\"M642 12h16v16h-16z\"/>\
<text x=\"668\" y=\"26\">matching pairs: ";

/// The end of the legend.
const LEGEND_END: &str = "</text>\n";

/// The start of the element that shows the frame, up to its height.
const CANVAS: &str = "<svg y=\"40\" width=\"1000\" height=\"";

/// The text between that height and the frame's width.
const FRAME: &str = "\" preserveAspectRatio=\"xMidYMin\" viewBox=\"0 0 ";

/// The end tags of the frame's element and of the root.
const CLOSING: &str = "</svg>\n</svg>\n";

/// Whether a picture may show the features of both layers: at most [`MAX_DRAWN`].
pub fn can_be_drawn<G: Geometry>(left: &Layer<G>, right: &Layer<G>) -> bool
    ensures { IsTrue result
        ↔ (length left.now.list.features + length right.now.list.features ≤ most_drawn) }
{
    left.len().saturating_add(right.len()) <= MAX_DRAWN
}

/// Adds a text and a number.
fn push_counted(text: &mut String, before: &str, count: u64) -> Result<(), AllocError>
    ensures { OnOk result
        (string_bytes text.new ≡ string_bytes text.old ++ counted before.now count) }
{
    let mut digits = Buffer::new();
    text.push_str(before)?;
    text.push_str(digits.format(count))
}

/// Adds the start of a picture of this height, up to the legend: its size and its style.
fn push_opening(text: &mut String, height: u64) -> Result<(), AllocError>
    ensures { OnOk result (string_bytes text.new ≡ string_bytes text.old ++ opening height) }
{
    push_counted(text, OPENING, height)?;
    push_counted(text, SHOWN, height)?;
    text.push_str(STYLE)
}

/// Adds the legend: each colour with its number of features or pairs.
fn push_legend(text: &mut String, left: usize, right: usize, pairs: usize) -> Result<(), AllocError>
    ensures { OnOk result
        (string_bytes text.new ≡ string_bytes text.old ++ legend left right pairs) }
{
    push_counted(text, LEFT_KEY, left as u64)?;
    push_counted(text, RIGHT_KEY, right as u64)?;
    push_counted(text, MATCH_KEY, pairs as u64)?;
    text.push_str(LEGEND_END)
}

/// Adds the start tag of the element that shows the frame at this height.
fn push_canvas(text: &mut String, height: u64, frame: &Frame) -> Result<(), AllocError>
    ensures { OnOk result
        (string_bytes text.new ≡ string_bytes text.old ++ canvas height frame.now) }
{
    push_counted(text, CANVAS, height)?;
    push_counted(text, FRAME, frame.width())?;
    push_counted(text, " ", frame.height())?;
    text.push_str("\">\n")
}

/// Adds the features of a layer, and highlights those whose numbers are in `matches`.
fn push_group<G: Drawn>(
    text: &mut String,
    side: &str,
    frame: &Frame,
    matches: &BTreeSet<u32>,
    layer: &Layer<G>,
) -> Result<(), AllocError>
    ensures { let drawing = drawing_by G.box_of G.start_of G.path_of in
        let is_match = contains nat_cmp matches.now in OnOk result (string_bytes text.new
        ≡ string_bytes text.old ++ group side.now drawing frame.now is_match layer.now.list) }
{
    text.push_str("<g class=\"")?;
    text.push_str(side)?;
    text.push_str("\">\n")?;
    for feature in layer.iter() {
        push_element(text, frame, &feature, matches.contains(&feature.number))?;
    }
    text.push_str("</g>\n")
}

/// The picture of two layers, as SVG 1.1: a legend with three counts, and below it each feature of
/// the left layer and then each of the right one, in layer order, with its id as its title.
/// Features that occur in `matches` are highlighted.
///
/// The picture is 1,000 wide. Its height is that of the legend and the drawn frame, which is at
/// most 2,000 high.
///
/// Geometries are drawn relative to the frame's upper left corner, in units of the grid, with the
/// second axis upwards.
///
/// # Errors
/// If an allocation fails.
pub fn picture<G: Drawn, M: AsPair>(
    alloc: Global,
    left: &Layer<G>,
    right: &Layer<G>,
    matches: &[M],
) -> Result<String, AllocError>
    // an SVG 1.1 text with each feature of the left layer and then each of the right one exactly
    // once, in layer order, at its place, with its id as its title, and highlighted exactly where
    // it occurs in a pair. Its fixed texts and its height are those of the definition. How a viewer
    // shows it is not proved. It holds for layers of any type of geometry that can be drawn: a box
    // is drawn as its outline; a geometry of any kind as all its points, polylines or rings, where
    // a line isn't filled and an area is filled by the even-odd rule
    ensures text { let drawing = drawing_by G.box_of G.start_of G.path_of in
        let pairs = map M.pair_of matches.now in IfOk result (λ text. string_bytes text
        ≡ picture_of drawing left.now.list right.now.list pairs) }
{
    let frame = Frame::new(left, right);
    let height = frame.drawn_height();
    let marks = Marks::new(alloc, matches)?;
    let mut text = String::new(alloc);
    push_opening(&mut text, height + LEGEND_HEIGHT)?;
    push_legend(&mut text, left.len(), right.len(), matches.len())?;
    push_canvas(&mut text, height, &frame)?;
    push_group(&mut text, "left", &frame, &marks.left, left)?;
    push_group(&mut text, "right", &frame, &marks.right, right)?;
    text.push_str(CLOSING)?;
    Ok(text)
}
