//! The faults of a text that spells no geometry.

use thiserror::Error;

/// Why a text spells no geometry. If several apply, it is the first of them.
#[derive(Clone, Copy, Debug, PartialEq, Eq, Error)]
pub enum GeometryFault {
    /// The text isn't in the grammar.
    #[error("not a geometry text")]
    Text,
    /// Some number isn't a whole number of the scale's units, or is out of range.
    #[error("number not whole or out of range")]
    Number,
    /// A polyline doesn't have two distinct vertices, or a ring is not closed or is flat.
    #[error("a line without length, or a ring that is not closed or is flat")]
    Form,
    /// Two edges of rings cross inside or run along each other, although rings must be proper.
    #[error("rings cross or overlap")]
    Rings,
}

impl GeometryFault {
    ghost use Rattle.std.specs.Prelude.{◌≡◌, ◌≤◌, length};
    ghost use Rattle.wkt_any_core.specs.FaultTexts.{geometry_text};

    /// The fault in a few words, at most 70 bytes.
    pub fn text(&self) -> &'static str
        // the words of the fault
        ensures text { result.now ≡ geometry_text self.now }
        // at most 70 bytes
        ensures short { length result.now ≤ 70 }
    {
        match self {
            GeometryFault::Text => "not a geometry text",
            GeometryFault::Number => "number not whole or out of range",
            GeometryFault::Form => "a line without length, or a ring that is not closed or is flat",
            GeometryFault::Rings => "rings cross or overlap",
        }
    }
}
