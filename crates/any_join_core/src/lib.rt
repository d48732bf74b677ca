//! The join of two layers of geometries of any kind: a filter by boxes, and a refinement by the
//! exact matrix.
#![tactic(auto)]

mod features;
mod join;
mod join_pairs;
mod limits;
mod matching;
mod outcome;
mod pairs;
mod prepared;

pub use any_geometry_core::AnyGeometry;
pub use features::RelatedFeatures;
pub use join::join_any;
pub use join_pairs::join_any_pairs;
pub use matching::{PreparedPair, are_related, matrix_of, related};
pub use outcome::AnyOutcome;
pub use pair_core::Side;
pub use pairs::RelatedPairs;
pub use prepared::{ForMatrices, PreparedLayer};
