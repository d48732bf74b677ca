//! The synchronised traversal of two R-trees: the plan of a join's tasks, and the pairs of each.
#![tactic(auto)]

mod lower;
mod plan;
mod rounds;
mod rows;

pub use plan::Plan;
pub use rounds::MAX_TASKS;
pub use rows::row;
