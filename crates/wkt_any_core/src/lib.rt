//! Well-known text of any geometry (OGC 06-103r4, 7.2): points, polylines and polygons of any
//! direction, and their MULTI forms, read and printed, with coordinates in units of a `Scale` of
//! `wkt_core`.
//!
//! At scale 0 a unit is 1:
//!
//! | Text | Read as |
//! |---|---|
//! | `LINESTRING (0 0, 3 2, 3 2, 5 2)` | a polyline of three vertices |
//! | `POLYGON ((0 0, 4 0, 0 4, 0 0))` | an area of one ring |
//! | `MULTIPOINT (1 1, (2 2))` | two points |
//! | `MULTIPOLYGON (((0 0, 4 0, 0 4, 0 0)), ((9 9, 8 9, 9 8, 9 9)))` | an area of two rings |
//! | `POINT EMPTY`, `POINT (1,2)`, `POINT (1 2) x` | [`GeometryFault::Text`] |
//! | `POINT (1.5 0)`, `POINT (1000000000001 0)` | [`GeometryFault::Number`] |
//! | `LINESTRING (1 1, 1 1)`, `POLYGON ((0 0, 4 0, 0 4, 1 1))` | [`GeometryFault::Form`] |
//! | `POLYGON ((0 0, 4 4, 4 0, 0 4, 0 0))` | [`GeometryFault::Rings`], or an even-odd area |
#![tactic(auto)]

mod body;
mod fault;
mod figure;
mod heading;
mod list;
mod paths;
mod printer;
mod raw;
mod reader;

pub use fault::GeometryFault;
pub use heading::Heading;
pub use paths::Paths;
pub use plane_core::Rings;
pub use printer::print;
pub use raw::RawGeometry;
pub use reader::read;
