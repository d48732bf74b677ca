//! Distances of shapes, and of points and edges of any direction, exactly: compared by their
//! squares, which for edges are fractions, and rounded only to be shown.
#![tactic(auto)]

mod apart;
mod distance;
mod edges;
mod fraction;
mod gap;
mod laws;
mod nearness;
mod query;
mod root;
mod vector;

pub use apart::{SquaredDistance, is_within, squared_distance};
pub use distance::{Distance, MAX_DISTANCE};
pub use edges::{are_edges_within, edge_to_edge, lesser, vertex_to_edge, vertex_to_vertex};
pub use fraction::SquaredFraction;
pub use laws::points_law;
pub use nearness::Nearness;
pub use query::Query;
pub use root::rounded_root;
