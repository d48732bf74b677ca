//! Layers of a join whose large geometries are prepared, so that each is prepared once for all that
//! it is computed with.
#![tactic(auto)]

mod layer;
mod preparation;

pub use layer::PreparedLayer;
pub use pair_core::Side;
pub use preparation::{Preparation, Prepare};
