//! The join of two layers by distance: a filter by grown boxes, and a refinement by the exact
//! distance; and the format of such a join.
#![tactic(auto)]

mod features;
mod format;
mod grown;
mod join;
mod laws;
mod listed;
mod measure;
mod outcome;
mod prepared;

pub use distance_core::{Distance, Nearness, SquaredDistance, SquaredFraction};
pub use features::NearFeatures;
pub use format::GrownFormat;
pub use grown::Grown;
pub use join::near_layers;
pub use laws::one_distance_law;
pub use listed::refine_list;
pub use outcome::NearOutcome;
pub use planar_core::Planar;
pub use prepared::ForDistances;
