//! A join by distance with each allocation refused in turn.

use crate::near_layers::{Shapes, are_rows, joined};
use near_core::Nearness;
use pair_core::Options;
use std::random::RandomSource;
use std::sync::Wait;
use std::test::Fail;
use std::thread::Threads;

/// A point, one that is 5 units off, and one that is farther.
const POINTS: Shapes<'static> = Shapes {
    left: &[(0, 0, 0, 0)],
    right: &[(3, 4, 3, 4), (5, 5, 5, 5)],
};

/// Whether the join finds the near pair, tried again if an allocation fails.
fn found_at_last<R: RandomSource + AllocGlobal + Threads + Wait + Sync>(
    rt: &R,
    workers: u32,
) -> Result<bool, Fail> {
    let options = Options::new(workers, 1, 0)?;
    for _ in 0..10 {
        if let Some(outcome) = joined(rt, POINTS, 5, Nearness::Within, &options) {
            return Ok(are_rows(&outcome.matches, &[(0, 0, 25)]));
        }
    }
    Ok(false)
}

/// Passes with each allocation failing in turn.
#[test]
fn refused_to_one_worker(rt: HostRuntime) -> Result<(), Fail> {
    assert!(rt; found_at_last(&rt, 1)?);
    Ok(())
}

/// Passes with each allocation failing in turn.
#[test]
fn refused_to_two_workers(rt: HostRuntime) -> Result<(), Fail> {
    assert!(rt; found_at_last(&rt, 2)?);
    Ok(())
}
