//! The results of a join of two layers of any geometry.

use deliver_core::Outcome;
use refine_core::Refined;

/// The pairs of a join of any geometry, each with its answer, such as its matrix.
#[derive(Drop)]
pub struct AnyOutcome<A> {
    /// The pairs whose boxes meet, with the marks of their delivery.
    pub candidates: Outcome,
    /// Those of them that stand in the relation, in the same order.
    pub matches: Vec<Refined<A>>,
}
