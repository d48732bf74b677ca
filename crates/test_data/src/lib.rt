//! Data for the tests of the other crates: pseudo-random numbers and shapes, layer files of them,
//! trees of points, trees as text, and layers of any geometry.
#![tactic(auto)]

mod layers;
mod outlines;
mod points;
mod random;
mod texts;

pub use layers::{TextRow, geometry_of, layer_of};
pub use outlines::outline;
pub use points::on_packed;
pub use random::Random;
pub use texts::{points_text, shapes_text};
