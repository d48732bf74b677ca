//! Whether the rings of areas neither cross nor run along each other.
#![tactic(auto)]

mod pair;
mod rings;

pub use pair::meet_properly;
pub use rings::{has_proper_rings, is_proper};
