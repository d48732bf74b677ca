//! Whether a matrix of two geometries already has all that a point or an edge of one of them can
//! add to it.
#![tactic(auto)]

mod beyond;
mod course;
mod ends;
mod shown;

pub use beyond::{is_edge_shown, is_free, is_outer_shown};
pub use course::{Course, course_of, standing_of};
pub use shown::{
    all_parts, are_shown, is_face_shown, is_piece_shown, is_place_shown, part_on_edge, parts_above,
};
