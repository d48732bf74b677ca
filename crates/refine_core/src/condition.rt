//! A condition on pairs of features, as the filter and the refinement of a join see it.

ghost use Rattle.std.specs.Prelude.{ℕ, IfOk};
ghost use Rattle.refine_core.specs.Refinements.{IsDecision};

use std::alloc::{AllocError, Global};

/// A condition on a left and a right feature, each given by its number, such as a relation of their
/// geometries. A filter finds the pairs that are near, and [`Condition::decide`] decides which of
/// these satisfy the condition.
pub trait Condition {
    /// The value kept for each pair that satisfies the condition, such as its matrix.
    type Answer;

    /// The pairs that the filter finds, such as those whose boxes meet.
    ghost near: { Self → ℕ → ℕ → Type 0 };

    /// The pairs that satisfy the condition.
    ghost stands: { Self → ℕ → ℕ → Type 0 };

    /// The answers that are correct for a pair that satisfies the condition.
    ghost answers: { Self → ℕ → ℕ → Self.Answer → Type 0 };

    /// Decides whether a near pair satisfies the condition: its answer if it does, else `None`.
    ///
    /// # Errors
    /// If an allocation fails.
    fn decide(
        &self,
        alloc: Global,
        left: u32,
        right: u32,
    ) -> Result<Option<Self::Answer>, AllocError>
        requires { near self.now left right }
        // an answer for a near pair that satisfies the condition, and none for one that doesn't; by
        // the law `stands_near` of each condition, each pair that satisfies it is near
        ensures { let condition = self.now in
            IfOk result (IsDecision (stands condition) (answers condition) (left, right)) };

    /// Reads what [`Condition::decide`] reads of the two features, so that the processor fetches it
    /// before many pairs are decided one after another. It is false if nothing is fetched. It
    /// affects time and memory only.
    fn fetch(&self, _left: u32, _right: u32) -> bool {
        false
    }

    /// The filter misses no pair that satisfies the condition.
    ghost stands_near: { (c : Self) (left right : ℕ) → stands c left right → near c left right };
}
