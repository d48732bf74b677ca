//! Whether a task is entered at the gate before its row is made.

use crate::teams::{are_twenty, sees};
use deliver_core::Outcome;
use descent_core::Plan;
use pair_core::Options;
use parallel_core::{Gate, Gated, Rows, run_workers};
use relation_core::{JoinRelation, Relation};
use rtree_core::RTree;
use std::alloc::{AllocError, Global};
use std::sync::Wait;
use std::sync::atomic::{AtomicBool, AtomicU64, Ordering};
use std::thread::Threads;

/// A gate that records the tasks entered, as bits, and whether a task's row was made before the
/// task was entered.
#[derive(Drop)]
struct Entries {
    entered: AtomicU64,
    missed: AtomicBool,
}

impl Entries {
    fn new() -> Entries {
        Entries {
            entered: AtomicU64::new(0),
            missed: AtomicBool::new(false),
        }
    }

    /// Whether exactly these tasks were entered, each before its row was made.
    fn were(&self, tasks: u64) -> bool {
        self.entered.load(Ordering::SeqCst) == tasks && !self.missed.load(Ordering::SeqCst)
    }
}

/// The bit of a task; there are only a few tasks.
fn bit(task: u32) -> u64 {
    1 << (task % 64)
}

impl Gate for Entries {
    fn enter<R: Threads + Wait + Sync>(&self, _rt: &R, task: u32) {
        self.entered.fetch_or(bit(task), Ordering::SeqCst);
    }
}

/// The rows of a plan, which record at a gate if their task wasn't entered.
#[derive(Drop)]
struct Watched<'a, P> {
    rows: &'a P,
    gate: &'a Entries,
}

impl<'a, P: Rows> Rows for Watched<'a, P> {
    ghost tasks = { λ watched. P.tasks watched.rows.now };

    fn len(&self) -> u32 {
        self.rows.len()
    }

    fn row_of(
        &self,
        alloc: Global,
        task: u32,
        relation: &JoinRelation,
    ) -> Result<Vec<(u32, u32)>, AllocError> {
        if self.gate.entered.load(Ordering::SeqCst) & bit(task) == 0 {
            self.gate.missed.store(true, Ordering::SeqCst);
        }
        self.rows.row_of(alloc, task, relation)
    }
}

/// What workers deliver of these rows, by equality and through a gate; none without memory or
/// threads.
pub(crate) fn delivered_of<
    'x,
    R: Threads + Wait + Sync + AllocGlobal,
    P: Rows + Sync,
    G: Gate + Sync,
>(rt: &'x R, rows: &'x P, options: &Options, gate: &'x G) -> Option<Outcome> {
    let relation = JoinRelation::new(Relation::Equals).ok()?;
    let gated = Gated { rt, rows, gate };
    run_workers(rt, &gated, &relation, options).ok()
}

/// Whether `workers` workers enter each of the three tasks of two trees before they make its row.
fn enter_first<R: Threads + Wait + Sync + AllocGlobal>(
    rt: &R,
    trees: (&RTree, &RTree),
    workers: u32,
) -> Option<bool> {
    let options = Options::new(workers, 1, 1).ok()?;
    let plan = Plan::new(rt.alloc(), trees.0, trees.1, options.cut()).ok()?;
    let gate = Entries::new();
    let watched = Watched {
        rows: &plan,
        gate: &gate,
    };
    let outcome = delivered_of(rt, &watched, &options, &gate)?;
    Some(are_twenty(outcome.pairs()) && gate.were(0b111))
}

/// Whether this holds for one worker, two, and more than there are tasks.
fn all_enter_first<R: Threads + Wait + Sync + AllocGlobal>(
    rt: &R,
    left: &RTree,
    right: &RTree,
) -> bool {
    [1, 2, 5].iter().all(|workers| enter_first(rt, (left, right), *workers) == Some(true))
}

#[test]
fn task_entered_before_its_row(rt: HostRuntime) {
    let (alloc, shared) = (rt.alloc(), &rt);
    assert!(rt;
        sees(
            alloc,
            (20, 1),
            |left, right| all_enter_first(shared, left, right)
        )
    );
}
