//! Guttman's R-tree over shapes: insertion with the quadratic split, removal, packing and windows.
#![tactic(auto)]

mod condense;
mod editable_tree;
mod free_lists;
mod insert;
mod item;
mod node;
mod pack;
mod remove;
mod tree;
mod window;

pub use node::{Entry, Node};
pub use split_core::split::{FEWEST, MOST};
pub use split_core::{choices, measures, split};
pub use tree::RTree;
pub use window::Window;
