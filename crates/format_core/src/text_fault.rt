//! The faults of a geometry's text.

use wkt_any_core::GeometryFault;
use wkt_core::WktFault;

/// Why a text spells no geometry of its format.
#[derive(Clone, Copy, PartialEq, Eq)]
pub enum TextFault {
    /// The text of a box; whether it is that of a geometry of any kind, with proper rings.
    Wkt(WktFault, bool),
    /// The text of a geometry of any kind.
    Geometry(GeometryFault),
}
