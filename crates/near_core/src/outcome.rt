//! The results of a join by distance.

use deliver_core::Outcome;
use refine_core::Refined;

/// The near pairs of two layers, each with the square of its distance.
#[derive(Drop)]
pub struct NearOutcome<S> {
    /// The pairs whose grown boxes meet, with the marks of their delivery.
    pub candidates: Outcome,
    /// Those of them that are near, in the same order.
    pub matches: Vec<Refined<S>>,
}
