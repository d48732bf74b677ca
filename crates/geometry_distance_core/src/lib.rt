//! Distances of geometries of any kind, exactly.
#![tactic(auto)]

mod index;
mod laws;
mod measured;
mod nearest;
mod search;

pub use index::GeometryIndex;
pub use laws::{greatest_law, skeleton_law, within_law};
pub use measured::{MeasuredGeometry, square_within};
