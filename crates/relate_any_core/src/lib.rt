//! The matrix of two geometries of any direction, given as texts.
#![tactic(auto)]

mod improper;
mod laws;
mod texts;

pub use improper::Improper;
pub use laws::texts_law;
pub use texts::{Related, TextFault, relate_texts};
