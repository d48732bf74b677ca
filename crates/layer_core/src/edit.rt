//! Edits of two layers.

use geom_core::Shape;

/// One of the two layers of a join.
#[derive(Clone, Copy, PartialEq, Eq)]
pub enum Side {
    Left,
    Right,
}

/// An insertion into one of two layers, or a deletion from one.
#[derive(Drop)]
pub enum Edit<G = Shape> {
    Insert { side: Side, id: String, shape: G },
    Delete { side: Side, id: String },
}

impl<G> Edit<G> {
    ghost use Rattle.std.specs.Prelude.{◌≡◌};
    ghost use Rattle.layer_core.specs.Edits.{content_of};

    /// The side of the layer that is edited.
    pub fn side(&self) -> Side
        ensures { result ≡ (content_of self.now).side }
    {
        match self {
            Edit::Insert { side, .. } => *side,
            Edit::Delete { side, .. } => *side,
        }
    }
}
