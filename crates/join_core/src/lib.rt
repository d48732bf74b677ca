//! Runs over two inputs: the join of two layers of boxes or of any geometry, and the matrix of two
//! boxes.
#![tactic(auto)]

mod any_product;
mod box_product;
mod counts;
mod firsts;
mod job;
mod output;
mod relate;
mod relation;
mod run;

pub use job::JoinJob;
pub use relate::{matrix_line, run_relate};
pub use relation::{LayersRelation, RelatedLayers};
pub use run::join_text;
