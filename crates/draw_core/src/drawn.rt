//! What a picture has to know of a geometry.

ghost use Rattle.std.specs.Prelude.{◌≡◌, ◌++◌, OnOk};
ghost use Rattle.std.specs.String.{string_bytes};

use crate::frame::Frame;
use layer_core::Geometry;
use std::alloc::AllocError;

/// A geometry that is drawn as a path (SVG 1.1, section 8).
pub trait Drawn: Geometry {
    ghost use Rattle.std.specs.Prelude.{ℕ, Bool, List};
    ghost use Rattle.draw_core.specs.Views.{View};

    ghost start_of: { Self → Bool → List ℕ };

    ghost path_of: { View → Self → List ℕ };

    /// The start of its path element up to the path data, by whether it is in a match.
    fn start(&self, is_match: bool) -> &'static str
        ensures { result.now ≡ start_of self.now is_match };

    /// Adds the path data that draw it in a frame.
    fn push_path(&self, frame: &Frame, text: &mut String) -> Result<(), AllocError>
        ensures { OnOk result
            (string_bytes text.new ≡ string_bytes text.old ++ path_of frame.now self.now) };
}
