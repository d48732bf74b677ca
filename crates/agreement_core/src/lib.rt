//! Agreement: points, axis-parallel segments and rectangles have the same matrix as cells of the
//! grid and as geometries of the plane.
#![tactic(auto)]

mod boxes;
mod laws;

pub use boxes::{as_box, relate_boxes};
pub use laws::agreement_law;
