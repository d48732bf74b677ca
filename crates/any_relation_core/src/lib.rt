//! Relations of geometries of any kind, and those that a join of such geometries may use.
#![tactic(auto)]

mod any_relation;
mod class;
mod envelope_rule;
mod laws;

pub use any_relation::AnyRelation;
pub use laws::{box_law, filter_law, named_box_law, sets_law};
pub use plane_core::Rings;
