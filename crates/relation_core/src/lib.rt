//! How two shapes lie to each other: their nine-intersection matrix, masks and relations.
#![tactic(auto)]

mod axis;
mod extent;
mod intersections;
mod join_relation;
mod letters;
mod mask;
mod matrix;
mod meeting;
mod part;
mod pattern_value;
mod relation;

pub use extent::Extent;
pub use intersections::relate;
pub use join_relation::{AllowsDisjoint, JoinRelation};
pub use letters::Letters;
pub use mask::{Mask, MaskFault};
pub use matrix::Matrix;
pub use part::Parts;
pub use pattern_value::PatternValue;
pub use relation::Relation;
