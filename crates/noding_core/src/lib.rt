//! The nodes of edges, and the matrix of two geometries in terms of these: of the nodes, the
//! pieces of edges between them, and the faces above the pieces.
#![tactic(auto)]

mod entries;
mod near;
mod nodes;

pub use entries::{column_of, outside, raised, rank, row_of, transposed};
pub use near::{push_few, push_near};
pub use nodes::{gather_nodes, is_aside};
