//! Shapes on the integer grid, as sets of its cells.
#![tactic(auto)]

mod sets;
mod shape;
mod span;

pub use shape::{Area, Shape};
pub use span::{LIMIT, Span};
