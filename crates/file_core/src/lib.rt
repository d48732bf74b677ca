//! CSV files of layers and of edits, read by one thread or by several.
#![tactic(auto)]

mod batch;
mod cuts;
mod edit_file;
mod insertion;
mod layer_file;
mod loading;
mod parts;
mod skipped;

pub use edit_file::{edits_of_bytes, read_edits};
pub use layer_file::LayerReader;
pub use skipped::{SkippedRow, Unreadable, WithSkipped};
