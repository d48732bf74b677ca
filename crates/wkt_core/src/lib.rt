//! Well-known text of points, axis-parallel segments and rectangles (OGC 06-103r4, 7.2), read and
//! printed, with coordinates in units of a [`Scale`].
//!
//! At scale 0 a unit is 1:
//!
//! | Text | Read as |
//! |---|---|
//! | `POINT (4 -2)`, ` point(+4.00 -2. )` | the point (4, -2) |
//! | `LINESTRING (3 0, 1 0)` | the segment from (1, 0) to (3, 0) |
//! | `LINESTRING (3 0, 2 0, 2 0, 1 0)` | the same segment |
//! | `POLYGON ((0 0, 4 0, 4 2, 0 2, 0 0))` | the rectangle from (0, 0) to (4, 2) |
//! | `Polygon((4 2,4 0,0 0,0 2,4 2))` | the same rectangle |
//! | `POLYGON ((1 0, 4 0, 4 1, 4 2, 0 2, 0 0, 1 0))` | the same rectangle |
//! | `POINT EMPTY`, `POINT (1,2)`, `POINT (1e3 0)`, `POINT (1 2) x` | [`WktFault::Text`] |
//! | `POINT (1.5 0)`, `POINT (1000000000001 0)` | [`WktFault::Number`] |
//! | `LINESTRING (0 0, 1 1)`, `LINESTRING (0 0, 2 0, 1 0)` | [`WktFault::Form`] |
//! | `POLYGON ((0 0, 4 0, 4 2, 0 2, 0 1))` | [`WktFault::Form`] |
//!
//! At scale 2 it is 0.01:
//!
//! | Text | Read as | Printed as |
//! |---|---|---|
//! | `POINT (1.250 -0.10)` | the point (125, -10) | `POINT (1.25 -0.1)` |
//! | `POINT (-0.05 3)` | the point (-5, 300) | `POINT (-0.05 3)` |
//! | `POINT (1.255 0)`, `POINT (10000000000.01 0)` | [`WktFault::Number`] | |
//!
//! At scale 2 with [`Rounding::Nearest`]:
//!
//! | Text | Read as | Printed as |
//! |---|---|---|
//! | `POINT (1.255 -0.005)` | the point (126, -1) | `POINT (1.26 -0.01)` |
//! | `POINT (.5 1.5e-1)`, `POINT (5e-1 15E-2)` | the point (50, 15) | `POINT (0.5 0.15)` |
//! | `POINT (10000000000.005 0)` | [`WktFault::Number`] | |
//! | `POINT (. 0)`, `POINT (1e 0)`, `POINT (1e1.5 0)` | [`WktFault::Text`] | |
#![tactic(auto)]

mod fault;
mod form;
mod keyword;
mod laws;
mod list;
mod position;
mod printer;
mod raw;
mod read_list;
mod reader;
mod token;
mod walk;

pub use fault::WktFault;
pub use keyword::Keyword;
pub use laws::{migration_law, one_shape_law, rounding_law, widened_law};
pub use number_core::{Limits, Rounding, Scale, nearest_law};
pub use position::{Position, ReadPoint, read_point};
pub use printer::{print, push_point};
pub use reader::read;
pub use token::{Next, read_next, skip_blanks, skip_symbol, skip_word};
