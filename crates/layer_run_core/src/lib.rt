//! Runs over one layer of boxes or of any geometry: its counts, its corners, and which of its
//! features meet a window.
#![tactic(auto)]

mod any_stats;
mod any_window;
mod bounds;
mod intersection;
mod layer_run;
mod stats;
mod window;

pub use any_stats::run_any_stats;
pub use any_window::run_any_window;
pub use bounds::{run_bounds, run_bounds_marking};
pub use layer_run::{DEFAULT_WORKERS, LayerText, run_marking};
pub use stats::run_stats;
pub use window::{Meeting, Window, run_window};
