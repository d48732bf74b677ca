//! A double by its shortest decimal, in whole units of a scale.
#![tactic(auto)]

mod bits;
mod double;
mod laws;
mod nearest;
mod powers;
mod rounded;
mod shortest;

pub use bits::is_nan;
pub use double::{Fault, rounded_units, units};
pub use laws::{rounded_law, shortest_law, units_law};
