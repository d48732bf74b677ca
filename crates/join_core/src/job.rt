//! The description of a join: its layers, their relation, and its product.

use pair_core::{Options, Product};

/// A join of two layers after edits: how they are read, which features are pairs, and the output
/// made of them.
#[derive(Clone, Copy)]
pub struct JoinJob<F, M, C> {
    /// How the geometries of the layers and of the edits are read.
    pub format: F,
    /// Which geometries are marked.
    pub marks: M,
    /// The relation of the two features of a pair.
    pub relation: C,
    pub options: Options,
    pub product: Product,
}
