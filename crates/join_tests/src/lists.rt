//! Answers that take memory, with each allocation refused in turn.

ghost use Rattle.std.specs.Prelude.{◌≡◌, ◌≤◌, ◌∷◌, [], All};
ghost use Rattle.refine_core.specs.Refinements.{IsPairIn};
ghost use Rattle.join_tests.specs.Sums.{AreClose, HaveEvenSum};

use refine_core::{Condition, MAX_WORKERS, Refined, refine_pairs};
use std::alloc::{AllocError, Global};
use std::test::Fail;
use std::thread::Threads;

/// The condition of even sums. The answer has both numbers, in an allocation of its own.
struct Both;

impl Condition for Both {
    type Answer = Vec<u32>;

    ghost near = { λ condition left right. AreClose left right };

    ghost stands = { λ condition left right. HaveEvenSum left right };

    ghost answers = { λ condition left right both. both.items ≡ left ∷ right ∷ [] };

    fn decide(&self, alloc: Global, left: u32, right: u32) -> Result<Option<Vec<u32>>, AllocError> {
        if left % 2 != right % 2 {
            return Ok(None);
        }
        Ok(Some(Vec::from_slice(alloc, &[left, right])?))
    }

    ghost stands_near = { λ condition left right is. is.0 };
}

/// The pairs with even sums, refined again if an allocation fails.
fn refined_at_last<R: Threads + Sync>(
    rt: &R,
    alloc: Global,
    pairs: &[(u32, u32)],
    workers: u32,
) -> Result<Vec<Refined<Vec<u32>>>, AllocError>
    requires near { All (IsPairIn AreClose) pairs.now }
    requires workers { (1 ≤ workers) × (workers ≤ MAX_WORKERS) }
{
    match refine_pairs(rt, alloc, &Both, pairs, workers) {
        Ok(refined) => Ok(refined),
        Err(AllocError) => refine_pairs(rt, alloc, &Both, pairs, workers),
    }
}

/// Whether these are the two of four pairs that have even sums, with their answers.
fn are_two(refined: &[Refined<Vec<u32>>]) -> bool {
    refined.len() == 2
        && refined[0].pair == (5, 5)
        && refined[0].answer.as_slice() == [5, 5].as_slice()
        && refined[1].pair == (7, 5)
        && refined[1].answer.as_slice() == [7, 5].as_slice()
}

/// Passes with each allocation failing in turn.
#[test]
fn refused_by_one_worker(rt: HostRuntime) -> Result<(), Fail> {
    let pairs = [(5, 5), (6, 5), (7, 5), (7, 6)];
    assert!(rt; are_two(&refined_at_last(&rt, rt.alloc(), &pairs, 1)?));
    Ok(())
}

/// Passes with each allocation failing in turn.
#[test]
fn refused_by_three_workers(rt: HostRuntime) -> Result<(), Fail> {
    let pairs = [(5, 5), (6, 5), (7, 5), (7, 6)];
    assert!(rt; are_two(&refined_at_last(&rt, rt.alloc(), &pairs, 3)?));
    Ok(())
}
