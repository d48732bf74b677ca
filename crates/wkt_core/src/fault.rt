//! The faults of a text that spells no shape.

use thiserror::Error;

/// Why a text spells no shape. If several apply, it is the first of them.
#[derive(Clone, Copy, Debug, PartialEq, Eq, Error)]
pub enum WktFault {
    /// The text isn't in the grammar.
    #[error("not a geometry text")]
    Text,
    /// Some number isn't a whole number of the scale's units, or is out of range.
    #[error("number not whole or out of range")]
    Number,
    /// The points don't form a point, axis-parallel segment or rectangle.
    #[error("not a point, axis-parallel segment or rectangle")]
    Form,
}

impl WktFault {
    ghost use Rattle.std.specs.Prelude.{◌≡◌, ◌≤◌, length};
    ghost use Rattle.wkt_core.specs.FaultTexts.{wkt_text};

    /// The fault in a few words, at most 50 bytes.
    pub fn text(&self) -> &'static str
        // the words of the fault
        ensures text { result.now ≡ wkt_text self.now }
        // at most 50 bytes
        ensures short { length result.now ≤ 50 }
    {
        match self {
            WktFault::Text => "not a geometry text",
            WktFault::Number => "number not whole or out of range",
            WktFault::Form => "not a point, axis-parallel segment or rectangle",
        }
    }
}
