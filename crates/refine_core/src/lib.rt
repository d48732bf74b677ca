//! Refinement: threads decide which pairs of a list satisfy a condition, and return the answer of
//! each.
#![tactic(auto)]

mod chunks;
mod condition;
mod in_order;
mod laws;
mod refine;
mod refined;
mod worker;

pub use condition::Condition;
pub use laws::refinement_law;
pub use pair_core::MAX_WORKERS;
pub use refine::refine_pairs;
pub use refined::{AsPair, Refined};
pub use worker::refine_each;
