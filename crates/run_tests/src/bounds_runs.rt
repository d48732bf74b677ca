//! Devices that give few bytes at a time or fail during `run_bounds`.

ghost use Rattle.std.specs.Prelude.{◌≡◌, false};
ghost use Rattle.report_core.specs.ToWrite.{failed_of};

use crate::device::{has_front, make_device};
use crate::example::LEFT;
use crate::join_running::{Ended, Reading, at_once};
use layer_run_core::run_bounds;
use report_core::ToWrite;
use row_core::{FromRead, ReadFault};
use run_core::{Input, RunFault};
use std::hash::RandomState;
use std::io::Write;
use std::random::RandomSource;
use std::thread::Threads;
use wkt_core::Scale;

/// The corners of the layer LEFT.
const CORNERS: &str = "id,x1,y1,x2,y2\na,0,0,4,4\nb,4,4,4,4\nc,1,0,3,0\n";

/// The result of listing the corners of a layer into this sink.
fn bounds<R: Threads + Sync + RandomSource + AllocGlobal, W: Write>(
    rt: &R,
    layer: Reading<'_>,
    sink: &mut ToWrite<W>,
) -> Option<Result<(), RunFault>>
    requires { failed_of sink.old ≡ false }
{
    let (state, scale) = (RandomState::new(rt).ok()?, Scale::new(0)?);
    let mut layer = FromRead::new(layer);
    Some(run_bounds(rt, rt.alloc(), state, scale, &mut layer, sink))
}

/// Whether listing the corners of a layer has this result and writes this text.
fn lists<R: Threads + Sync + RandomSource + AllocGlobal>(
    rt: &R,
    layer: Reading<'_>,
    outcome: Result<(), RunFault>,
    text: &str,
) -> Option<bool> {
    let mut sink = ToWrite::new(Vec::new(rt.alloc()));
    let ended = bounds(rt, layer, &mut sink)?;
    Some(Ended::new(ended, sink.into_inner()).is(outcome, text))
}

#[test]
fn corners_byte_by_byte(rt: HostRuntime) {
    assert!(rt; lists(&rt, at_once(LEFT).by(1), Ok(()), CORNERS) == Some(true));
}

#[test]
fn layer_that_fails(rt: HostRuntime) {
    let outcome = Err(RunFault::Read(Input::Layer, ReadFault::Io));
    for reads in [0, 1] {
        let layer = at_once(LEFT).failing_after(reads);
        assert!(rt; lists(&rt, layer, outcome, "") == Some(true));
    }
}

/// Whether a device of this capacity receives the prefix of the corners that fits.
fn lists_front<R: Threads + Sync + RandomSource + AllocGlobal>(
    rt: &R,
    room: usize,
) -> Option<bool> {
    let mut sink = make_device(rt.alloc(), room, 7);
    let outcome = bounds(rt, at_once(LEFT), &mut sink)?;
    Some(has_front(
        outcome,
        sink.into_inner().taken.as_slice(),
        CORNERS.as_bytes(),
        room,
    ))
}

#[test]
fn corners_to_failing_device(rt: HostRuntime) {
    for room in [0, 1, 15, CORNERS.len() - 1, CORNERS.len()] {
        assert!(rt; lists_front(&rt, room) == Some(true));
    }
}
