//! Joins whose readers or writers fail or transfer one byte at a time.

use crate::device::{has_front, make_device};
use crate::example::{EDITED, REPORT};
use crate::join_running::{Files, at_once, edited_example, ends, example, make_job, run};
use pair_core::{Options, Product};
use relation_core::Relation;
use row_core::ReadFault;
use run_core::{Input, RunFault};
use std::random::RandomSource;
use std::sync::Wait;
use std::thread::Threads;

/// The files of the example with its edits, one of which fails after `reads` reads.
fn failing(input: Input, reads: usize) -> Files<'static> {
    let mut files = edited_example();
    match input {
        Input::Left => files.left = files.left.failing_after(reads),
        Input::Right => files.right = files.right.failing_after(reads),
        _ => files.edits = files.edits.map(|edits| edits.failing_after(reads)),
    }
    files
}

/// The files of the example with its edits, each read one byte at a time.
fn bytewise() -> Files<'static> {
    let mut files = edited_example();
    files.left = files.left.by(1);
    files.right = files.right.by(1);
    files.edits = files.edits.map(|edits| edits.by(1));
    files
}

#[test]
fn broken_10(rt: HostRuntime) {
    for input in [Input::Left, Input::Right, Input::Edits] {
        let fault = RunFault::Read(input, ReadFault::Io);
        for reads in [0, 1] {
            assert!(rt; ends(&rt, &failing(input, reads), Err(fault), "") == Some(true));
        }
    }
    assert!(rt; ends(&rt, &bytewise(), Ok(()), EDITED) == Some(true));
}

#[test]
fn right_that_fails_before_left_at_fault(rt: HostRuntime) {
    let mut files = failing(Input::Right, 1);
    files.left = at_once("id\n");
    let fault = RunFault::Read(Input::Right, ReadFault::Io);
    assert!(rt; ends(&rt, &files, Err(fault), "") == Some(true));
}

/// Whether a device of capacity `room` that takes at most `step` bytes per call receives the prefix
/// of the report that fits.
fn writes_front<R: Threads + Wait + Sync + RandomSource + AllocGlobal>(
    rt: &R,
    room: usize,
    step: usize,
) -> Option<bool> {
    let mut sink = make_device(rt.alloc(), room, step);
    let options = Options::new(4, 256, 2).ok()?;
    let job = make_job(Relation::Touches, options, Product::Report)?;
    let outcome = run(rt, &example(), &job, &mut sink)?;
    Some(has_front(
        outcome,
        sink.into_inner().taken.as_slice(),
        REPORT.as_bytes(),
        room,
    ))
}

#[test]
fn broken_11(rt: HostRuntime) {
    for step in [1, 7] {
        for room in 0..REPORT.len() + 2 {
            assert!(rt; writes_front(&rt, room, step) == Some(true));
        }
    }
}
