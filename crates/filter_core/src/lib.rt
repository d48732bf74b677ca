//! The filter of a join: the pairs of two layers whose boxes stand in a relation, by workers over
//! the layers' trees.
#![tactic(auto)]

mod candidates;
mod pairs;

pub use candidates::meeting_layers;
pub use pairs::{join, join_layers};
