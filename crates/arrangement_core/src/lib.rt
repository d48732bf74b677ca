//! The matrix of two geometries, read off the arrangement of their edges by as few of these as are
//! enough, and whether masks fit it.
#![tactic(auto)]

mod aside;
mod asked;
mod crossed;
mod early;
mod fits;
mod known;
mod marks;
mod matrices;
mod near;
mod outside;
mod pair;
mod points;
mod prepared;
mod rounds;
mod shared;
mod walk;
mod wanted;
mod work;

pub use fits::{fits_prepared, fits_within, fitting_prepared, fitting_within};
pub use prepared::{PreparedGeometry, relate, relate_prepared, relate_within};
pub use wanted::Question;
