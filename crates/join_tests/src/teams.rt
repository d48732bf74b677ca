//! The deliveries of several workers.

use crate::gates::delivered_of;
use deliver_core::{Mark, Outcome};
use descent_core::Plan;
use pair_core::{MAX_BATCH, Options};
use parallel_core::{Gate, OpenGate};
use rtree_core::RTree;
use std::alloc::Global;
use std::sync::Wait;
use std::sync::atomic::{AtomicBool, AtomicU32, Ordering};
use std::thread;
use std::thread::Threads;
use test_data::on_packed;

/// What the workers deliver of two trees, by equality and through a gate; none without memory or
/// threads.
fn delivered<R: Threads + Wait + Sync + AllocGlobal, G: Gate + Sync>(
    rt: &R,
    trees: (&RTree, &RTree),
    options: &Options,
    gate: &G,
) -> Option<Outcome> {
    let plan = Plan::new(rt.alloc(), trees.0, trees.1, options.cut()).ok()?;
    delivered_of(rt, &plan, options, gate)
}

/// Whether these are the 81 pairs of two sets of nine numbers, in order.
fn are_eighty_one(pairs: &[(u32, u32)]) -> bool {
    pairs.len() == 81
        && pairs
            .iter()
            .zip(0..81u32)
            .all(|(pair, i)| *pair == (i / 9, i % 9))
}

/// Whether these are the marks of a script of task 0 with 81 batches.
fn are_marks(marks: &[Mark]) -> bool {
    marks.len() == 82
        && marks
            .iter()
            .zip(0..81u64)
            .all(|(mark, i)| *mark == Mark::Batch(0, i))
        && marks.get(81) == Some(&Mark::End(0, 81))
}

/// Whether these are the pairs (0, 0) to (19, 19).
pub(crate) fn are_twenty(pairs: &[(u32, u32)]) -> bool {
    pairs.len() == 20 && pairs.iter().zip(0..20u32).all(|(pair, i)| *pair == (i, i))
}

/// A gate that waits until two workers have entered, and records if that never happened.
#[derive(Drop)]
struct Meeting {
    entered: AtomicU32,
    missed: AtomicBool,
}

impl Gate for Meeting {
    fn enter<R: Threads + Wait + Sync>(&self, _rt: &R, _task: u32) {
        self.entered.fetch_add(1, Ordering::SeqCst);
        for _ in 0..10_000_000 {
            if self.entered.load(Ordering::SeqCst) >= 2 {
                return;
            }
            thread::yield_now();
        }
        self.missed.store(true, Ordering::SeqCst);
    }
}

/// The result of `see` on two packed trees of equal numbers of points at equal steps; false if they
/// can't be made.
pub(crate) fn sees<F: FnOnce(&RTree, &RTree) -> bool>(
    alloc: Global,
    points: (u16, u16),
    see: F,
) -> bool
    requires { F.IsAlwaysCallable see }
{
    on_packed(alloc, points, points, see) == Ok(true)
}

/// What workers deliver of the only task of two trees in batches of one.
fn delivered_whole<R: Threads + Wait + Sync + AllocGlobal>(
    rt: &R,
    trees: (&RTree, &RTree),
    workers: u32,
) -> Option<Outcome> {
    delivered(rt, trees, &Options::new(workers, 1, 0).ok()?, &OpenGate)
}

/// Whether one worker, and then two, deliver the pairs of two times nine points in batches of one.
fn delivers_crowd<R: Threads + Wait + Sync + AllocGlobal>(
    rt: &R,
    left: &RTree,
    right: &RTree,
) -> bool {
    [1, 2].iter().all(|workers| delivered_whole(rt, (left, right), *workers).is_some_and(
        |o| are_eighty_one(o.pairs()) && are_marks(o.taken()),
    ))
}

#[test]
fn delivery_extra(rt: HostRuntime) {
    let (alloc, shared) = (rt.alloc(), &rt);
    assert!(rt;
        sees(
            alloc,
            (9, 0),
            |left, right| delivers_crowd(shared, left, right)
        )
    );
}

/// The outcome of `workers` workers on two trees at cut 1, in batches of this size.
fn delivered_by<R: Threads + Wait + Sync + AllocGlobal, G: Gate + Sync>(
    rt: &R,
    trees: (&RTree, &RTree),
    workers: u32,
    batch: u32,
    gate: &G,
) -> Option<Outcome> {
    delivered(rt, trees, &Options::new(workers, batch, 1).ok()?, gate)
}

/// Whether `workers` workers deliver the pairs of two trees of twenty points.
fn delivers_twenty<R: Threads + Wait + Sync + AllocGlobal, G: Gate + Sync>(
    rt: &R,
    trees: (&RTree, &RTree),
    workers: u32,
    batch: u32,
    gate: &G,
) -> bool {
    delivered_by(rt, trees, workers, batch, gate).is_some_and(|o| are_twenty(o.pairs()))
}

/// Whether two workers meet at the gate, enter it three times, and deliver all pairs.
fn meets<R: Threads + Wait + Sync + AllocGlobal>(rt: &R, left: &RTree, right: &RTree) -> bool {
    let gate = Meeting {
        entered: AtomicU32::new(0),
        missed: AtomicBool::new(false),
    };
    let is_delivered = delivers_twenty(rt, (left, right), 2, 4, &gate);
    let has_met = gate.entered.load(Ordering::SeqCst) == 3 && !gate.missed.load(Ordering::SeqCst);
    is_delivered && has_met
}

#[test]
fn two_workers_meet(rt: HostRuntime) {
    let (alloc, shared) = (rt.alloc(), &rt);
    assert!(rt; sees(alloc, (20, 1), |left, right| meets(shared, left, right)));
}

/// The number of times that a worker inside a room yields before it leaves.
const TURNS: u32 = 20_000;

/// A gate that keeps each worker inside for some yields, and records if more workers are inside
/// than allowed.
#[derive(Drop)]
struct Room {
    most: u32,
    inside: AtomicU32,
    overfull: AtomicBool,
}

impl Gate for Room {
    fn enter<R: Threads + Wait + Sync>(&self, _rt: &R, _task: u32) {
        if self.inside.fetch_add(1, Ordering::SeqCst) >= self.most {
            self.overfull.store(true, Ordering::SeqCst);
        }
        for _ in 0..TURNS {
            thread::yield_now();
        }
        self.inside.fetch_sub(1, Ordering::SeqCst);
    }
}

/// Whether at no time more than `workers` workers are at work, and they deliver all pairs.
fn are_no_more<R: Threads + Wait + Sync + AllocGlobal>(
    rt: &R,
    trees: (&RTree, &RTree),
    workers: u32,
) -> bool {
    let gate = Room {
        most: workers,
        inside: AtomicU32::new(0),
        overfull: AtomicBool::new(false),
    };
    let is_delivered = delivers_twenty(rt, trees, workers, 4, &gate);
    is_delivered && !gate.overfull.load(Ordering::SeqCst)
}

/// Whether this holds for one worker and for two.
fn are_few<R: Threads + Wait + Sync + AllocGlobal>(rt: &R, left: &RTree, right: &RTree) -> bool {
    [1, 2]
        .iter()
        .all(|workers| are_no_more(rt, (left, right), *workers))
}

#[test]
fn no_more_workers_than_asked_for(rt: HostRuntime) {
    let (alloc, shared) = (rt.alloc(), &rt);
    assert!(rt; sees(alloc, (20, 1), |left, right| are_few(shared, left, right)));
}

/// Whether each of several numbers of workers delivers all pairs.
fn deliver<R: Threads + Wait + Sync + AllocGlobal>(rt: &R, left: &RTree, right: &RTree) -> bool {
    [1, 2, 3, 8, 16].iter().all(|workers| delivers_twenty(
        rt,
        (left, right),
        *workers,
        1,
        &OpenGate,
    ))
}

#[test]
fn any_number_of_workers(rt: HostRuntime) {
    let (alloc, shared) = (rt.alloc(), &rt);
    assert!(rt; sees(alloc, (20, 1), |left, right| deliver(shared, left, right)));
}

/// Whether batches of each size deliver all pairs.
fn deliver_by_each_size<R: Threads + Wait + Sync + AllocGlobal>(
    rt: &R,
    left: &RTree,
    right: &RTree,
) -> bool {
    for batch in 1..MAX_BATCH + 1 {
        if !delivers_twenty(rt, (left, right), 2, batch, &OpenGate) {
            return false;
        }
    }
    true
}

#[test]
fn any_batch_size(rt: HostRuntime) {
    let (alloc, shared) = (rt.alloc(), &rt);
    assert!(rt;
        sees(
            alloc,
            (20, 1),
            |left, right| deliver_by_each_size(shared, left, right)
        )
    );
}
