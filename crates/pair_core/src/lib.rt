//! What all joins by workers share: how a join is run and which output it makes, pairs of numbers
//! in ascending order, and which features occur in several pairs.
#![tactic(auto)]

mod limits;
mod often;
mod options;
mod product;
mod sort;

pub use limits::{MAX_BATCH, MAX_CUT, MAX_WORKERS};
pub use often::{Side, met_often};
pub use options::{OptionFault, Options};
pub use product::Product;
pub use sort::{sort_pairs, sort_pairs_by_threads};
