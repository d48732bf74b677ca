//! The part of the plane that a picture shows.

ghost use Rattle.std.specs.Prelude.{◌≡◌, ◌≤◌, ◌-ℤ◌, unsigned_abs};
ghost use Rattle.geom_core.specs.Shapes.{IsCoordinate};
ghost use Rattle.draw_core.specs.Views.{cover_with, margin_of, greatest_distance, greatest_margin};

use geom_core::Shape;
use layer_core::{Geometry, Layer};
use plane_core::Vertex;
use std::marker::Model;

/// The greatest height at which a frame is drawn, twice the picture's width of 1,000.
const MAX_HEIGHT: u128 = 2000;

/// The part of the plane that a picture shows: the cover of all boxes, with a margin around it.
///
/// Coordinates of the picture count from the frame's upper left corner, to the right and downwards.
#[derive(Drop)]
pub struct Frame {
    left: i64,
    top: i64,
    width: u64,
    height: u64,
}

impl Model for Frame {
    ghost use Rattle.std.specs.Prelude.{ℕ, ℤ};
    ghost use Rattle.draw_core.specs.Views.{View, IsNear, HasSize};

    ghost Value = { View };

    ghost view = { λ f. record {
      left = f.left;
      top = f.top;
      width = f.width;
      height = f.height;
    } };

    ghost invariant = { λ f. IsNear f.left × IsNear f.top × HasSize f.width f.height };
}

/// The distance between two coordinates.
fn distance(a: i64, b: i64) -> u64
    requires first { IsCoordinate a }
    requires second { IsCoordinate b }
    ensures distance { result ≡ unsigned_abs (b -ℤ a) }
    ensures bound { result ≤ greatest_distance }
{
    b.abs_diff(a)
}

/// A twentieth of the longer side, plus one unit.
fn margin_of(width: u64, height: u64) -> u64
    requires width { width ≤ greatest_distance }
    requires height { height ≤ greatest_distance }
    ensures margin { result ≡ margin_of width height }
    ensures bound { result ≤ greatest_margin }
{
    width.max(height) / 20 + 1
}

/// The smallest shape that contains the cover and the box of each feature of the layer.
fn cover_with<G: Geometry>(cover: Option<Shape>, layer: &Layer<G>) -> Option<Shape>
    ensures { result ≡ cover_with G.box_of cover layer.now.list.features }
{
    let mut cover = cover;
    for feature in layer.iter() {
        let bounds = feature.shape.bounds();
        cover = match cover {
            Some(cover) => Some(cover.cover(&bounds)),
            None => Some(bounds),
        };
    }
    cover
}

impl Frame {
    ghost use Rattle.geom_core.specs.Shapes.{x1, y2, AreCorners};
    ghost use Rattle.draw_core.specs.Views.{view_around, view_of, drawn_height};

    /// The frame of two layers, or that of the origin if they have no features.
    pub(crate) fn new<G: Geometry>(left: &Layer<G>, right: &Layer<G>) -> Frame
        ensures { result ≡ view_of G.box_of left.now.list right.now.list }
    {
        match cover_with(cover_with(None, left), right) {
            Some(cover) => Frame::around(cover.x1(), cover.y1(), cover.x2(), cover.y2()),
            None => Frame::around(0, 0, 0, 0),
        }
    }

    /// The frame around the corners of a shape, with a margin on each side of a twentieth of the
    /// shape's longer side plus one unit, so that its width and height are positive.
    fn around(x1: i64, y1: i64, x2: i64, y2: i64) -> Frame
        requires { AreCorners x1 y1 x2 y2 }
        ensures { result ≡ view_around x1 y1 x2 y2 }
    {
        let (width, height) = (distance(x1, x2), distance(y1, y2));
        let margin = margin_of(width, height);
        Frame {
            left: x1 - margin as i64,
            top: y2 + margin as i64,
            width: width + 2 * margin,
            height: height + 2 * margin,
        }
    }

    /// The distance from the frame's left side to the shape's.
    pub(crate) fn x_of(&self, shape: &Shape) -> i64
        ensures { result ≡ x1 shape.now -ℤ self.now.left }
    {
        shape.x1() - self.left
    }

    /// The distance from the frame's upper side down to the shape's.
    pub(crate) fn y_of(&self, shape: &Shape) -> i64
        ensures { result ≡ self.now.top -ℤ y2 shape.now }
    {
        self.top - shape.y2()
    }

    /// The distance from the frame's left side to the vertex.
    pub(crate) fn x_at(&self, vertex: &Vertex) -> i64
        ensures { result ≡ vertex.now.x -ℤ self.now.left }
    {
        vertex.x - self.left
    }

    /// The distance from the frame's upper side down to the vertex.
    pub(crate) fn y_at(&self, vertex: &Vertex) -> i64
        ensures { result ≡ self.now.top -ℤ vertex.now.y }
    {
        self.top - vertex.y
    }

    /// The height at which the frame is drawn in a picture that is 1,000 wide.
    pub(crate) fn drawn_height(&self) -> u64
        ensures height { result ≡ drawn_height self.now }
        ensures bound { result ≤ 2000 }
    {
        let scaled = 1000 * u128::from(self.height);
        scaled.div_ceil(u128::from(self.width)).min(MAX_HEIGHT) as u64
    }

    /// The width of the frame, in units of the grid.
    pub(crate) fn width(&self) -> u64
        ensures { result ≡ self.now.width }
    {
        self.width
    }

    /// The height of the frame, in units of the grid.
    pub(crate) fn height(&self) -> u64
        ensures { result ≡ self.now.height }
    {
        self.height
    }
}
