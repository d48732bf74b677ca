//! A run with each allocation refused in turn.

use crate::join_running::Ended;
use crate::near_running::{Files, join, join_any, search, search_any};
use layer_core::LayerFault;
use parallel_core::JoinFault;
use row_core::ReadFault;
use run_core::RunFault;
use std::random::RandomSource;
use std::sync::Wait;
use std::test::Fail;
use std::thread::Threads;

const FILES: Files<'static> = Files {
    left: "id,wkt\na,POINT (0 0)\n",
    right: "id,wkt\nb,POINT (9 9)\n",
    edits: Some("op,layer,id,wkt\ninsert,right,c,POINT (3 4)\n"),
};

const REPORT: &str = "left,right,distance\na,c,5\n";

/// Whether a fault is that memory ran out or a thread can't be started.
fn is_want(fault: &RunFault) -> bool {
    matches!(
        fault,
        RunFault::Memory
            | RunFault::Join(JoinFault::Memory | JoinFault::NoThread)
            | RunFault::Read(_, ReadFault::Memory)
            | RunFault::Edit(_, LayerFault::Memory)
    )
}

/// Whether a run wrote the report, if it ended otherwise than for want of memory with nothing
/// written; `None` is a run that couldn't begin.
fn has_reported(ended: Option<Ended>) -> Option<bool> {
    let ended = ended?;
    match ended.outcome {
        Ok(()) => Some(ended.is(Ok(()), REPORT)),
        Err(fault) if is_want(&fault) && ended.written.is_empty() => None,
        Err(_) => Some(false),
    }
}

/// Whether joins within 5 units by `workers` workers write the report, or fail for want of memory
/// and write nothing, until one succeeds.
fn reports_at_last<R: RandomSource + AllocGlobal + Threads + Wait + Sync>(
    rt: &R,
    workers: u32,
) -> bool {
    for _ in 0..10 {
        if let Some(reported) = has_reported(join(rt, FILES, 5, workers)) {
            return reported;
        }
    }
    false
}

/// The same of searches for the nearest feature.
fn finds_at_last<R: RandomSource + AllocGlobal + Threads + Wait + Sync>(
    rt: &R,
    workers: u32,
) -> bool {
    for _ in 0..10 {
        if let Some(reported) = has_reported(search(rt, FILES, 1, workers)) {
            return reported;
        }
    }
    false
}

/// The same of joins of layers of any geometry.
fn reports_any_at_last<R: RandomSource + AllocGlobal + Threads + Wait + Sync>(
    rt: &R,
    workers: u32,
) -> bool {
    for _ in 0..10 {
        if let Some(reported) = has_reported(join_any(rt, FILES, 5, workers)) {
            return reported;
        }
    }
    false
}

/// Passes with each allocation failing in turn.
#[test]
fn refused_to_one_worker(rt: HostRuntime) -> Result<(), Fail> {
    assert!(rt; reports_at_last(&rt, 1));
    Ok(())
}

/// Passes with each allocation failing in turn.
#[test]
fn refused_to_two_workers(rt: HostRuntime) -> Result<(), Fail> {
    assert!(rt; reports_at_last(&rt, 2));
    Ok(())
}

/// Passes with each allocation failing in turn.
#[test]
fn search_refused_to_one_worker(rt: HostRuntime) -> Result<(), Fail> {
    assert!(rt; finds_at_last(&rt, 1));
    Ok(())
}

/// Passes with each allocation failing in turn.
#[test]
fn search_refused_to_two_workers(rt: HostRuntime) -> Result<(), Fail> {
    assert!(rt; finds_at_last(&rt, 2));
    Ok(())
}

/// The same of searches of layers of any geometry.
fn finds_any_at_last<R: RandomSource + AllocGlobal + Threads + Wait + Sync>(
    rt: &R,
    workers: u32,
) -> bool {
    for _ in 0..10 {
        if let Some(reported) = has_reported(search_any(rt, FILES, 1, workers)) {
            return reported;
        }
    }
    false
}

/// Passes with each allocation failing in turn.
#[test]
fn search_refused_to_any_geometry(rt: HostRuntime) -> Result<(), Fail> {
    assert!(rt; finds_any_at_last(&rt, 1));
    assert!(rt; finds_any_at_last(&rt, 2));
    Ok(())
}

/// Passes with each allocation failing in turn.
#[test]
fn refused_to_any_geometry(rt: HostRuntime) -> Result<(), Fail> {
    assert!(rt; reports_any_at_last(&rt, 1));
    assert!(rt; reports_any_at_last(&rt, 2));
    Ok(())
}
