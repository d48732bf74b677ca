//! Devices that fail during `run_window` and `run_stats`.

ghost use Rattle.std.specs.Prelude.{◌≡◌, false};
ghost use Rattle.report_core.specs.ToWrite.{failed_of};

use crate::device::{has_front, make_device};
use crate::example::{LEFT, RIGHT};
use format_core::{LaidOut, Layout};
use layer_run_core::{run_stats, run_window};
use report_core::ToWrite;
use row_core::FromRead;
use run_core::RunFault;
use std::hash::RandomState;
use std::io::Write;
use std::random::RandomSource;
use std::thread::Threads;
use wkt_core::Scale;

const COUNTS: &str = "features 3\npoints 1\nsegments 1\nrectangles 1\nheight 1\n";

/// Boxes at scale 0, in files with the columns `id` and `wkt`.
fn boxes() -> Option<LaidOut<'static, Scale>> {
    Some(LaidOut {
        layout: Layout::plain(),
        format: Scale::new(0)?,
    })
}

/// The result of a window over a layer into this sink.
fn window<R: Threads + Sync + RandomSource + AllocGlobal, W: Write>(
    rt: &R,
    layer: &str,
    wkt: &str,
    sink: &mut ToWrite<W>,
) -> Option<Result<(), RunFault>>
    requires { failed_of sink.old ≡ false }
{
    let (state, format) = (RandomState::new(rt).ok()?, boxes()?);
    let mut layer = FromRead::new(layer.as_bytes());
    Some(run_window(
        rt,
        rt.alloc(),
        state,
        format,
        &mut layer,
        wkt.as_bytes(),
        sink,
    ))
}

/// The result of counting a layer into this sink.
fn stats<R: Threads + Sync + RandomSource + AllocGlobal, W: Write>(
    rt: &R,
    layer: &str,
    sink: &mut ToWrite<W>,
) -> Option<Result<(), RunFault>>
    requires { failed_of sink.old ≡ false }
{
    let (state, format) = (RandomState::new(rt).ok()?, boxes()?);
    let mut layer = FromRead::new(layer.as_bytes());
    Some(run_stats(rt, rt.alloc(), state, format, &mut layer, sink))
}

/// Whether a device of this capacity receives the prefix of a list of ids that fits.
fn lists_front<R: Threads + Sync + RandomSource + AllocGlobal>(
    rt: &R,
    ids: &str,
    room: usize,
) -> Option<bool> {
    let mut sink = make_device(rt.alloc(), room, 3);
    let outcome = window(rt, RIGHT, "POINT (4 4)", &mut sink)?;
    Some(has_front(
        outcome,
        sink.into_inner().taken.as_slice(),
        ids.as_bytes(),
        room,
    ))
}

#[test]
fn list_to_failing_device(rt: HostRuntime) {
    let ids = "id\nx\ny\n";
    for room in 0..ids.len() + 2 {
        assert!(rt; lists_front(&rt, ids, room) == Some(true));
    }
}

/// Whether a device of this capacity receives the prefix of the counts that fits.
fn counts_front<R: Threads + Sync + RandomSource + AllocGlobal>(
    rt: &R,
    room: usize,
) -> Option<bool> {
    let mut sink = make_device(rt.alloc(), room, 7);
    let outcome = stats(rt, LEFT, &mut sink)?;
    Some(has_front(
        outcome,
        sink.into_inner().taken.as_slice(),
        COUNTS.as_bytes(),
        room,
    ))
}

#[test]
fn counts_to_failing_device(rt: HostRuntime) {
    for room in [0, 1, 10, COUNTS.len() - 1, COUNTS.len()] {
        assert!(rt; counts_front(&rt, room) == Some(true));
    }
}
