//! Geometries of any kind as layers hold them, each with its envelope.
#![tactic(auto)]

mod geometry;

pub use geometry::AnyGeometry;
