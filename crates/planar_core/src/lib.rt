//! Geometries of layers as sets of points of the plane with exact distances: boxes, and geometries
//! of any kind.
#![tactic(auto)]

mod any;
mod boxes;
mod forms;
mod laws;
mod planar;
mod square;

pub use any::square_from;
pub use any_geometry_core::AnyGeometry;
pub use distance_core::{Distance, SquaredDistance, SquaredFraction};
pub use forms::Forms;
pub use geometry_distance_core::GeometryIndex;
pub use laws::touching_law;
pub use planar::Planar;
pub use square::Square;
