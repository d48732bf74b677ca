//! Reports written by hand.

use crate::matching::report_of;
use plane_core::Rings;
use std::random::RandomSource;
use std::thread::Threads;
use test_data::layer_of;

/// The left features. Each is the first geometry of a row of known matrices.
const LEFT: [(&str, &str); 3] = [
    ("slant", "POLYGON ((0 0, 4 0, 0 4, 0 0))"),
    ("line, crossing", "LINESTRING (0 0, 3 2)"),
    ("dots", "MULTIPOINT (1 1, 2 2, 3 3)"),
];

/// The right features.
const RIGHT: [(&str, &str); 3] = [
    ("other half", "POLYGON ((4 0, 4 4, 0 4, 4 0))"),
    ("steep", "LINESTRING (0 1, 3 0)"),
    ("slant", "POLYGON ((0 0, 4 0, 0 4, 0 0))"),
];

/// The pairs of the three rows.
const PAIRS: [(u32, u32); 3] = [(0, 0), (1, 1), (2, 2)];

/// Their report: the two halves share a slanted side, the lines cross inside both, and of the three
/// points one is inside the area, one on its side and one outside.
const REPORT: &[u8] = b"left,right,matrix\n\
slant,other half,FF2F11212\n\
\"line, crossing\",steep,0F1FF0102\n\
dots,slant,000FFF212\n";

/// The report of the three pairs by at most `workers` threads, or `None` if something is refused.
fn report<R: AllocGlobal + RandomSource + Threads + Sync>(rt: &R, workers: u32) -> Option<Vec<u8>> {
    let left = layer_of(rt, &LEFT, Rings::EvenOdd)?;
    let right = layer_of(rt, &RIGHT, Rings::EvenOdd)?;
    report_of(rt, &left, &right, &PAIRS, workers)
}

#[test]
fn by_one_thread(rt: HostRuntime) {
    assert!(rt; report(&rt, 1).is_some_and(|text| text.as_slice() == REPORT));
}

#[test]
fn by_two_threads(rt: HostRuntime) {
    assert!(rt; report(&rt, 2).is_some_and(|text| text.as_slice() == REPORT));
}

#[test]
fn by_more_threads_than_pairs(rt: HostRuntime) {
    assert!(rt; report(&rt, 16).is_some_and(|text| text.as_slice() == REPORT));
}

/// The report of layers without pairs.
fn header<R: AllocGlobal + RandomSource + Threads + Sync>(rt: &R) -> Option<Vec<u8>> {
    let left = layer_of(rt, &LEFT, Rings::EvenOdd)?;
    let right = layer_of(rt, &[], Rings::EvenOdd)?;
    report_of(rt, &left, &right, &[], 2)
}

/// Without pairs the report is its header.
#[test]
fn of_no_pairs(rt: HostRuntime) {
    let expected = b"left,right,matrix\n".as_slice();
    assert!(rt; header(&rt).is_some_and(|text| text.as_slice() == expected));
}
