//! A thousand joins with few and many workers, small and large batches, and each depth of cut: all
//! joins of the same two layers write the same bytes.

use crate::join_running::{Files, at_once, join};
use pair_core::Options;
use relation_core::Relation;
use std::random::RandomSource;
use std::sync::Wait;
use std::thread::Threads;
use test_data::{Random, shapes_text};

/// The report of a join of two files by intersects.
fn report<R: Threads + Wait + Sync + RandomSource + AllocGlobal>(
    rt: &R,
    files: &Files<'_>,
    options: &Options,
) -> Option<Vec<u8>> {
    let ended = join(rt, files, Relation::Intersects, options)?;
    ended.outcome.ok()?;
    Some(ended.written)
}

/// Whether a join with these workers, batch and cut writes the expected report.
fn writes<R: Threads + Wait + Sync + RandomSource + AllocGlobal>(
    rt: &R,
    files: &Files<'_>,
    (workers, batch, cut): (u32, u32, u32),
    wanted: &[u8],
) -> Option<bool> {
    let options = Options::new(workers, batch, cut).ok()?;
    Some(report(rt, files, &options)?.as_slice() == wanted)
}

/// The numbers of workers of the joins.
const WORKERS: [u32; 5] = [1, 2, 3, 8, 16];

/// Whether nine joins of two files by `workers` workers write the expected report.
fn all_write<R: Threads + Wait + Sync + RandomSource + AllocGlobal>(
    rt: &R,
    files: &Files<'_>,
    workers: u32,
    wanted: &[u8],
) -> Option<bool> {
    for batch in [1, 7, 4096] {
        for cut in [0, 2, 8] {
            if !writes(rt, files, (workers, batch, cut), wanted)? {
                return Some(false);
            }
        }
    }
    Some(true)
}

/// Whether nine joins of two files by each of these numbers of workers write the same report.
fn are_same<'a, R: Threads + Wait + Sync + RandomSource + AllocGlobal>(
    rt: &R,
    left: &'a str,
    right: &'a str,
    numbers: &[u32],
) -> Option<bool> {
    let files = Files {
        left: at_once(left),
        right: at_once(right),
        edits: None,
    };
    let wanted = report(rt, &files, &Options::new(1, 256, 2).ok()?)?;
    for workers in numbers {
        if !all_write(rt, &files, *workers, wanted.as_slice())? {
            return Some(false);
        }
    }
    Some(true)
}

/// Whether the joins of two files of these numbers of features write the same report.
fn are_same_of<R: Threads + Wait + Sync + RandomSource + AllocGlobal>(
    rt: &R,
    random: &mut Random,
    (left, right): (u32, u32),
    numbers: &[u32],
) -> Option<bool> {
    let left = shapes_text(rt.alloc(), random, left)?;
    let right = shapes_text(rt.alloc(), random, right)?;
    are_same(rt, left.as_str(), right.as_str(), numbers)
}

/// The joins of small layers are divided among two tests, so that each has time on a busy machine.
#[test]
fn thousand_joins_few_on_the_left(rt: HostRuntime) {
    let mut random = Random::new(2);
    for size in 0..11 {
        assert!(rt;
            are_same_of(&rt, &mut random, (4 * size, 100 - 4 * size), &WORKERS) == Some(true)
        );
    }
}

#[test]
fn thousand_joins_more_on_the_left(rt: HostRuntime) {
    let mut random = Random::new(3);
    for size in 11..22 {
        assert!(rt;
            are_same_of(&rt, &mut random, (4 * size, 100 - 4 * size), &WORKERS) == Some(true)
        );
    }
}

/// Two layers whose trees have four levels.
#[test]
fn many_features_by_one(rt: HostRuntime) {
    let mut random = Random::new(4);
    assert!(rt; are_same_of(&rt, &mut random, (900, 700), &[1]) == Some(true));
}

#[test]
fn many_features_by_two(rt: HostRuntime) {
    let mut random = Random::new(4);
    assert!(rt; are_same_of(&rt, &mut random, (900, 700), &[2]) == Some(true));
}

#[test]
fn many_features_by_three(rt: HostRuntime) {
    let mut random = Random::new(4);
    assert!(rt; are_same_of(&rt, &mut random, (900, 700), &[3]) == Some(true));
}

#[test]
fn many_features_by_eight(rt: HostRuntime) {
    let mut random = Random::new(4);
    assert!(rt; are_same_of(&rt, &mut random, (900, 700), &[8]) == Some(true));
}

#[test]
fn many_features_by_sixteen(rt: HostRuntime) {
    let mut random = Random::new(4);
    assert!(rt; are_same_of(&rt, &mut random, (900, 700), &[16]) == Some(true));
}
