//! The plane with integer coordinates: points, polylines and areas of any direction, and the parts
//! into which they divide it.
#![tactic(auto)]

mod check;
mod cross;
mod edge;
mod envelope;
mod geometry;
mod next;
mod node;
mod outline;
mod part;
mod path;
mod place;
mod rings;
mod spot;
mod stored_paths;
mod vertex;

pub use edge::Edge;
pub use geometry::Geometry;
pub use node::Node;
pub use outline::{Kind, Outline, Scan, Standing};
pub use part::Part;
pub use place::{Lie, Place};
pub use rings::Rings;
pub use spot::Spot;
pub use vertex::Vertex;
