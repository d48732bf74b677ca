//! Searches with each allocation refused in turn.

use crate::nearest_layers::{Shapes, are_rows, joined, query};
use std::random::RandomSource;
use std::test::Fail;
use std::thread::Threads;

/// Two points, one that is 5 units off the first, and one that is farther.
const POINTS: Shapes<'static> = Shapes {
    left: &[(0, 0, 0, 0), (6, 8, 6, 8)],
    right: &[(3, 4, 3, 4), (5, 5, 5, 5)],
};

/// Whether the search finds the nearest, tried again if an allocation fails.
fn found_at_last<R: RandomSource + AllocGlobal + Threads + Sync>(
    rt: &R,
    workers: u32,
) -> Result<bool, Fail> {
    let query = query(1, None).ok_or("a query")?;
    for _ in 0..10 {
        if let Some(matches) = joined(rt, POINTS, &query, workers) {
            return Ok(are_rows(&matches, &[(0, 0, 25), (1, 1, 10)]));
        }
    }
    Ok(false)
}

/// Passes with each allocation failing in turn.
#[test]
fn refused_to_one_worker(rt: HostRuntime) -> Result<(), Fail> {
    assert!(rt; found_at_last(&rt, 1)?);
    Ok(())
}

/// Passes with each allocation failing in turn.
#[test]
fn refused_to_two_workers(rt: HostRuntime) -> Result<(), Fail> {
    assert!(rt; found_at_last(&rt, 2)?);
    Ok(())
}
