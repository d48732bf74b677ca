//! Searches with each allocation refused in turn, in a layer with a geometry that is indexed once.

use crate::any_nearest_layers::are_rows;
use crate::large::zigzag;
use nearest_core::{Query, SquaredFraction, nearest_layers};
use plane_core::Rings;
use refine_core::Refined;
use std::random::RandomSource;
use std::test::Fail;
use std::thread::Threads;
use test_data::layer_of;

/// A point below the large line, and one above it.
const POINTS: &[(&str, &str)] = &[("below", "POINT (4 0)"), ("above", "POINT (4 16)")];

/// The nearest of a large line and of a point, or `None` if an allocation fails.
fn found<R: RandomSource + AllocGlobal + Threads + Sync>(
    rt: &R,
    workers: u32,
) -> Option<Vec<Refined<SquaredFraction>>> {
    let alloc = rt.alloc();
    let vertices = zigzag(alloc, 256, (10, 11)).ok()?;
    let line = format!(in alloc; "LINESTRING ({vertices})").ok()?;
    let left = layer_of(rt, POINTS, Rings::Proper)?;
    let right = layer_of(
        rt,
        &[("point", "POINT (4 13)"), ("line", &line)],
        Rings::Proper,
    )?;
    nearest_layers(rt, &left, &right, &Query::new(1, None)?, workers).ok()
}

/// Whether the search finds the nearest, tried again if an allocation fails.
fn found_at_last<R: RandomSource + AllocGlobal + Threads + Sync>(rt: &R, workers: u32) -> bool {
    for _ in 0..10 {
        if let Some(matches) = found(rt, workers) {
            return are_rows(&matches, &[(0, 1, (100, 1)), (1, 0, (9, 1))]);
        }
    }
    false
}

/// Passes with each allocation failing in turn.
#[test]
fn refused_to_one_worker(rt: HostRuntime) -> Result<(), Fail> {
    assert!(rt; found_at_last(&rt, 1));
    Ok(())
}

/// Passes with each allocation failing in turn.
#[test]
fn refused_to_two_workers(rt: HostRuntime) -> Result<(), Fail> {
    assert!(rt; found_at_last(&rt, 2));
    Ok(())
}
