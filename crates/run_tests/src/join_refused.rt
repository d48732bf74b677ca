//! A join with each allocation refused in turn.

use crate::example::EDITED;
use crate::join_running::{edited_example, join};
use layer_core::LayerFault;
use pair_core::Options;
use parallel_core::JoinFault;
use relation_core::Relation;
use row_core::ReadFault;
use run_core::RunFault;
use std::random::RandomSource;
use std::sync::Wait;
use std::thread::Threads;

/// Whether a fault is that memory ran out or a thread can't be started.
fn is_want(fault: &RunFault) -> bool {
    matches!(
        fault,
        RunFault::Memory
            | RunFault::Join(JoinFault::Memory | JoinFault::NoThread)
            | RunFault::Read(_, ReadFault::Memory)
            | RunFault::Edit(_, LayerFault::Memory)
    )
}

/// The result of a join, and whether its output belongs to it, or `None` without memory to write
/// into.
fn attempt<R: Threads + Wait + Sync + RandomSource + AllocGlobal>(
    rt: &R,
) -> Option<(Result<(), RunFault>, bool)> {
    let options = Options::new(4, 256, 2).ok()?;
    let ended = join(rt, &edited_example(), Relation::Touches, &options)?;
    let text = if ended.outcome.is_ok() { EDITED } else { "" };
    Some((ended.outcome, ended.is(ended.outcome, text)))
}

/// Passes with each allocation failing in turn.
#[test]
fn refused_7(rt: HostRuntime) {
    for _ in 0..10 {
        let Some((outcome, is_written)) = attempt(&rt) else {
            continue;
        };
        assert!(rt; is_written);
        match outcome {
            Ok(()) => return,
            Err(fault) => assert!(rt; is_want(&fault)),
        }
    }
    panic!(rt; "no memory");
}
