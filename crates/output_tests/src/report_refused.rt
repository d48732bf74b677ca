//! A report with each allocation refused in turn.

use crate::matching::report_of;
use plane_core::Rings;
use std::random::RandomSource;
use std::thread::Threads;
use test_data::layer_of;

/// The report of two crossing lines.
const REPORT: &[u8] = b"left,right,matrix\na,b,0F1FF0102\n";

/// The report of two crossing lines by one thread, or `None` without memory.
fn report<R: AllocGlobal + RandomSource + Threads + Sync>(rt: &R) -> Option<Vec<u8>> {
    let left = layer_of(rt, &[("a", "LINESTRING (0 0, 3 2)")], Rings::EvenOdd)?;
    let right = layer_of(rt, &[("b", "LINESTRING (0 1, 3 0)")], Rings::EvenOdd)?;
    report_of(rt, &left, &right, &[(0, 0)], 1)
}

/// The same report, made again if an allocation fails.
fn report_at_last<R: AllocGlobal + RandomSource + Threads + Sync>(rt: &R) -> Option<Vec<u8>> {
    for _ in 0..10 {
        if let Some(text) = report(rt) {
            return Some(text);
        }
    }
    None
}

/// Passes with each allocation failing in turn: after a failure, the same call gives the same text.
#[test]
fn refused_report(rt: HostRuntime) {
    assert!(rt; report_at_last(&rt).is_some_and(|text| text.as_slice() == REPORT));
}
