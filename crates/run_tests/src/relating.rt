//! Devices that fail during `run_relate`.

ghost use Rattle.std.specs.Prelude.{◌≡◌, false};
ghost use Rattle.report_core.specs.ToWrite.{failed_of};

use crate::device::{has_front, make_device};
use crate::join_running::Ended;
use join_core::run_relate;
use report_core::{Sink, ToWrite, WriteFailed};
use run_core::{RunFault, fault_line};
use std::io;
use std::io::{ErrorKind, Write};
use wkt_core::Scale;

const SQUARE: &str = "POLYGON ((0 0, 4 0, 4 4, 0 4, 0 0))";

const OTHER: &str = "POLYGON ((2 2, 6 2, 6 6, 2 6, 2 2))";

/// Whether a device of capacity `room` that takes at most `step` bytes per call receives the prefix
/// of a line that fits, and the sink has failed unless all of it fits.
fn writes_front(rt: &HostRuntime, room: usize, step: usize) -> Option<bool> {
    let line = b"FF0FFF0F2\n";
    let mut sink = make_device(rt.alloc(), room, step);
    let outcome = run_relate(Scale::new(0)?, b"POINT (4 4)", b"POINT (5 4)", &mut sink);
    let has_failed = sink.failed();
    let taken = sink.into_inner().taken;
    Some(has_front(outcome, taken.as_slice(), line, room) && has_failed == (room < line.len()))
}

#[test]
fn devices_that_fail(rt: HostRuntime) {
    for room in 0..12 {
        for step in 1..4 {
            assert!(rt; writes_front(&rt, room, step) == Some(true));
        }
    }
}

#[test]
fn line_to_failing_device(rt: HostRuntime) {
    let mut sink = make_device(rt.alloc(), 5, 100);
    assert!(rt; fault_line(&RunFault::Write, &mut sink) == Err(WriteFailed));
    let written = sink.into_inner().taken;
    assert!(rt; written.as_slice() == b"rjoin".as_slice());
}

/// A writer that takes all bytes, but fails to flush.
#[derive(Drop)]
struct Unflushed;

impl Write for Unflushed {
    fn write(&mut self, text: &[u8]) -> io::Result<usize> {
        Ok(text.len())
    }

    fn flush(&mut self) -> io::Result<()> {
        Err(io::Error::from(ErrorKind::StorageFull))
    }
}

/// A writer that takes four bytes in all.
#[derive(Drop)]
struct Stuck {
    taken: Vec<u8>,
}

impl Write for Stuck {
    fn write(&mut self, text: &[u8]) -> io::Result<usize> {
        let front = &text[..text.len().min(4usize.saturating_sub(self.taken.len()))];
        self.taken.extend_from_slice(front)?;
        Ok(front.len())
    }

    fn flush(&mut self) -> io::Result<()> {
        Ok(())
    }
}

/// The result of relating the two squares into this sink.
fn squares<W: Write>(sink: &mut ToWrite<W>) -> Option<Result<(), RunFault>>
    requires { failed_of sink.old ≡ false }
{
    Some(run_relate(Scale::new(0)?, SQUARE.as_bytes(), OTHER.as_bytes(), sink))
}

/// Whether relating the two squares fails to write after four letters, as these were taken.
fn is_cut(outcome: Result<(), RunFault>, taken: Vec<u8>) -> bool {
    Ended::new(outcome, taken).is(Err(RunFault::Write), "2121")
}

/// Whether a device of capacity four cuts the line of the two squares.
fn is_cut_by_full(rt: &HostRuntime) -> Option<bool> {
    let mut sink = make_device(rt.alloc(), 4, 100);
    let outcome = squares(&mut sink)?;
    Some(is_cut(outcome, sink.into_inner().taken))
}

/// Whether a writer that takes four bytes in all cuts the line of the two squares.
fn is_cut_by_stuck(rt: &HostRuntime) -> Option<bool> {
    let taken = Vec::new(rt.alloc());
    let mut sink = ToWrite::new(Stuck { taken });
    let outcome = squares(&mut sink)?;
    Some(is_cut(outcome, sink.into_inner().taken))
}

#[test]
fn broken_11(rt: HostRuntime) {
    assert!(rt; is_cut_by_full(&rt) == Some(true));
    assert!(rt; is_cut_by_stuck(&rt) == Some(true));
}

#[test]
fn flush_that_fails(rt: HostRuntime) {
    let mut sink = ToWrite::new(Unflushed);
    assert!(rt; squares(&mut sink) == Some(Err(RunFault::Write)));
    assert!(rt; sink.failed());
}
