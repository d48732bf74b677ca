//! The nearest features of a layer: for each feature of another layer, by a best-first search of
//! the layer's tree and the exact distances of the geometries in the boxes that it reaches.
#![tactic(auto)]

mod candidate;
mod layers;
mod matches;
mod matching;
mod measure;
mod neighbour;
mod next;
mod prepared;
mod queue;
mod search;
mod sought;

pub use distance_core::{Distance, Query, SquaredDistance, SquaredFraction};
pub use layers::nearest_layers;
pub use neighbour::Neighbour;
pub use planar_core::Planar;
