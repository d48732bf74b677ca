//! What runs over readers and writers share: layers read, edited and marked, texts, and faults.
#![tactic(auto)]

mod csv_rows;
mod edited;
mod edits;
mod fault;
mod fault_text;
mod improper;
mod layer_input;
mod layers;
mod listing;
mod loaded;
mod marks;
mod sources;
mod text;

pub use csv_rows::{new_rows, push_row, rows_text};
pub use edited::load;
pub use fault::{Input, RunFault};
pub use fault_text::fault_line;
pub use improper::{ImproperRings, is_improper, may_be_improper};
pub use layer_input::read_features;
pub use listing::skipped_text;
pub use loaded::{JoinText, LoadedLayers, SkippedRows};
pub use marks::{MarkedRows, Marks, Unmarked, marked_rows};
pub use sources::JoinSources;
pub use text::Text;
