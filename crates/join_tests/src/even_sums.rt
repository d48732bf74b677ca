//! Pairs of close numbers, with the condition that their sum is even.

ghost use Rattle.std.specs.Prelude.{◌≡◌, ◌+◌, ◌<◌, ◌≤◌, All, IfOk, OnOk};
ghost use Rattle.refine_core.specs.Refinements.{IsPairIn};
ghost use Rattle.join_tests.specs.Sums.{AreClose, HaveEvenSum};

use refine_core::{Condition, MAX_WORKERS, Refined, refine_pairs, refinement_law};
use std::alloc::{AllocError, Global};
use std::test::Fail;
use std::thread::Threads;

/// The condition that the sum of two close numbers is even. The answer is the sum.
struct EvenSum;

impl Condition for EvenSum {
    type Answer = u64;

    ghost near = { λ condition left right. AreClose left right };

    ghost stands = { λ condition left right. HaveEvenSum left right };

    ghost answers = { λ condition left right sum. sum ≡ left + right };

    fn decide(&self, _alloc: Global, left: u32, right: u32) -> Result<Option<u64>, AllocError> {
        let sum = u64::from(left) + u64::from(right);
        Ok((sum % 2 == 0).then_some(sum))
    }

    ghost stands_near = { λ condition left right is. is.0 };
}

/// The pairs of each number less than `numbers` with itself, the next and the one after that.
pub(crate) fn close_pairs(alloc: Global, numbers: u32) -> Result<Vec<(u32, u32)>, AllocError>
    requires { numbers < 1_000_000 }
    ensures { IfOk result (λ pairs. All (IsPairIn AreClose) pairs.items) }
{
    let mut pairs = Vec::new(alloc);
    for number in 0..numbers {
        push_close(&mut pairs, number, number)?;
        push_close(&mut pairs, number, number + 1)?;
        push_close(&mut pairs, number, number + 2)?;
    }
    Ok(pairs)
}

/// Adds a pair of close numbers.
fn push_close(pairs: &mut Vec<(u32, u32)>, left: u32, right: u32) -> Result<(), AllocError>
    requires close { AreClose left right }
    requires others { All (IsPairIn AreClose) pairs.old.items }
    ensures { OnOk result (All (IsPairIn AreClose) pairs.new.items) }
{
    pairs.push((left, right))?;
    Ok(())
}

/// Whether these are the pairs with even sums for `numbers` numbers, in order, with their sums: of
/// each number the pairs with itself and with the second next.
fn are_even_sums(refined: &[Refined<u64>], numbers: u32) -> bool {
    refined.len() == 2 * numbers as usize
        && refined.iter().zip(0..u64::MAX).all(|(found, place)| {
            let (left, right) = found.pair;
            u64::from(left) == place / 2
                && u64::from(right) == place / 2 + place % 2 * 2
                && found.answer == place / 2 * 2 + place % 2 * 2
        })
}

/// Whether `workers` workers refine the close pairs of `numbers` numbers.
fn refines<R: Threads + Sync>(
    rt: &R,
    alloc: Global,
    numbers: u32,
    workers: u32,
) -> Result<bool, AllocError>
    requires numbers { numbers < 1_000_000 }
    requires workers { (1 ≤ workers) × (workers ≤ MAX_WORKERS) }
{
    let pairs = close_pairs(alloc, numbers)?;
    let refined = refine_pairs(rt, alloc, &EvenSum, &pairs, workers)?;
    Ok(are_even_sums(&refined, numbers))
}

#[test]
fn one_worker(rt: HostRuntime) -> Result<(), Fail> {
    assert!(rt; refines(&rt, rt.alloc(), 10_000, 1)?);
    Ok(())
}

#[test]
fn two_workers(rt: HostRuntime) -> Result<(), Fail> {
    assert!(rt; refines(&rt, rt.alloc(), 10_000, 2)?);
    Ok(())
}

#[test]
fn sixteen_workers(rt: HostRuntime) -> Result<(), Fail> {
    assert!(rt; refines(&rt, rt.alloc(), 10_000, 16)?);
    Ok(())
}

/// Sixteen workers refine lists of no, one and a few pairs.
#[test]
fn fewer_pairs_than_workers(rt: HostRuntime) -> Result<(), Fail> {
    let alloc = rt.alloc();
    refinement_law(&EvenSum);
    assert!(rt; refines(&rt, alloc, 0, 16)?);
    assert!(rt; refines(&rt, alloc, 1, 16)?);
    assert!(rt; refines(&rt, alloc, 4, 16)?);
    let one = refine_pairs(&rt, alloc, &EvenSum, &[(7, 9)], 16)?;
    assert!(rt; one.len() == 1 && one[0].pair == (7, 9) && one[0].answer == 16);
    let none = refine_pairs(&rt, alloc, &EvenSum, &[(7, 8)], 16)?;
    assert!(rt; none.is_empty());
    Ok(())
}
