//! The refinement of the join list of a filter to that of a condition.

ghost use Rattle.std.specs.Prelude.{◌≤◌, All, IfOk};
ghost use Rattle.filter_core.specs.Joins.{IsJoinList};
ghost use Rattle.refine_core.specs.Refinements.{IsPairIn, pairs_of};
ghost use Rattle.near_core.specs.Lists.{HasAnswer};

use pair_core::MAX_WORKERS;
use refine_core::{Condition, Refined, refine_pairs};
use std::alloc::{AllocError, Global};
use std::thread::Threads;

/// The join list of a condition, each pair with its answer, from that of its filter. `workers`
/// workers decide the pairs, as by [`refine_pairs`].
///
/// # Errors
/// If an allocation fails.
pub fn refine_list<C: Condition + Sync, R: Threads + Sync>(
    rt: &R,
    alloc: Global,
    condition: &C,
    pairs: &[(u32, u32)],
    workers: u32,
) -> Result<Vec<Refined<C::Answer>>, AllocError>
where
    C::Answer: Send + Drop,
    requires workers { (1 ≤ workers) × (workers ≤ MAX_WORKERS) }
    requires near { IsJoinList (IsPairIn (C.near condition.now)) pairs.now }
    // of any condition, from the list that holds each near pair once and in order, that of the
    // pairs that satisfy the condition
    ensures list { let stands = IsPairIn (C.stands condition.now) in
        IfOk result (λ refined. IsJoinList stands (pairs_of refined.items)) }
    // each with an answer of its own
    ensures answers { let answers = C.answers condition.now in
        IfOk result (λ refined. All (HasAnswer answers) refined.items) }
{
    refine_pairs(rt, alloc, condition, pairs, workers)
}
