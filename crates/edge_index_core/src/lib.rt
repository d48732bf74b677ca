//! The outline of a geometry, with the boxes of runs of its edges, or a tree over the boxes of its
//! edges, by which the edges near a point are found, and its points or ends in order.
#![tactic(auto)]

mod around;
mod beyond;
mod bounds;
mod ends;
mod entries;
mod indexed;
mod runs;
mod scan;
mod starts;

pub use beyond::is_beyond;
pub use bounds::bounds_of;
pub use entries::entries_of;
pub use indexed::IndexedOutline;
pub use runs::{first_run, run_boxes};
