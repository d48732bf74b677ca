//! Runs of joins by distance and of searches for the nearest features over files: from the bytes of
//! the files to the text of the report.
#![tactic(auto)]

mod amount;
mod distance_field;
mod grown_marks;
mod job;
mod nearest_run;
mod run;

pub use distance_field::{DistanceField, GrownDistanceField};
pub use job::{NearJob, NearestJob};
pub use nearest_run::nearest_text;
pub use run::{NearForm, near_text};
