//! The law of filter and refinement.

ghost use Rattle.std.specs.Prelude.{ℕ, List};
ghost use Rattle.refine_core.specs.declared.refined.Refined.{Refined};
ghost use Rattle.refine_core.specs.Refinements.{AreRefined, HoldsEachOnce, pairs_of};

use crate::condition::Condition;

/// Law of filter and refinement, for any condition: if a list contains each near pair once and no
/// other, then the pairs of it that satisfy the condition are all such pairs, each once.
pub fn refinement_law<C: Condition>(condition: &C)
    // the same of whatever is the refinement of a list, for any condition
    ensures each_once { let stands = C.stands condition.now in
        let answers = C.answers condition.now in
        (pairs : List (ℕ × ℕ)) (refined : List (Refined C.Answer))
        → HoldsEachOnce (C.near condition.now) pairs
        → AreRefined stands answers pairs refined → HoldsEachOnce stands (pairs_of refined) }
{}
