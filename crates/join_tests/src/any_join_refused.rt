//! A join with each allocation refused in turn.

use crate::any_join_layers::{Texts, are_rows, joined};
use pair_core::Options;
use plane_core::Rings;
use std::random::RandomSource;
use std::sync::Wait;
use std::test::Fail;
use std::thread::Threads;

/// Two lines that cross, and a point on one of them.
const CROSSING: Texts = Texts {
    rings: Rings::Proper,
    left: &["LINESTRING (0 0, 3 2)"],
    right: &["LINESTRING (0 1, 3 0)", "POINT (0 0)"],
};

/// Whether the join finds the lines that cross, tried again if an allocation fails.
fn found_at_last<R: RandomSource + AllocGlobal + Threads + Wait + Sync>(
    rt: &R,
    workers: u32,
) -> Result<bool, Fail> {
    let options = Options::new(workers, 1, 0)?;
    for _ in 0..10 {
        if let Some(outcome) = joined(rt, CROSSING, "crosses", &options) {
            return Ok(are_rows(&outcome.matches, &[(0, 0, *b"0F1FF0102")]));
        }
    }
    Ok(false)
}

/// Passes with each allocation failing in turn.
#[test]
fn refused_to_one_worker(rt: HostRuntime) -> Result<(), Fail> {
    assert!(rt; found_at_last(&rt, 1)?);
    Ok(())
}

/// Passes with each allocation failing in turn.
#[test]
fn refused_to_two_workers(rt: HostRuntime) -> Result<(), Fail> {
    assert!(rt; found_at_last(&rt, 2)?);
    Ok(())
}
