//! The deliveries of a join's workers, checked by the marks of its outcome and by a gate.

use crate::join_layers::{points, seen};
use deliver_core::{Mark, Outcome};
use filter_core::join;
use layer_core::Layer;
use pair_core::Options;
use parallel_core::{Gate, JoinFault, OpenGate};
use relation_core::{JoinRelation, Relation};
use std::random::RandomSource;
use std::sync::Wait;
use std::sync::atomic::{AtomicU32, Ordering};
use std::test::Fail;
use std::thread;
use std::thread::Threads;

const BY_THREE: &[Mark] = &[
    Mark::Batch(0, 0),
    Mark::Batch(0, 1),
    Mark::Batch(0, 2),
    Mark::End(0, 3),
    Mark::Batch(1, 0),
    Mark::Batch(1, 1),
    Mark::Batch(1, 2),
    Mark::End(1, 3),
    Mark::Batch(2, 0),
    Mark::Batch(2, 1),
    Mark::End(2, 2),
];

const BY_SEVEN: &[Mark] = &[
    Mark::Batch(0, 0),
    Mark::End(0, 1),
    Mark::Batch(1, 0),
    Mark::End(1, 1),
    Mark::Batch(2, 0),
    Mark::End(2, 1),
];

const OF_NOTHING: &[Mark] = &[Mark::End(0, 0), Mark::End(1, 0), Mark::End(2, 0)];

/// The marks of joins of 20 points by one worker, for these relations and batch sizes.
const SCRIPTS: &[(Relation, u32, &[Mark])] = &[
    (Relation::Equals, 3, BY_THREE),
    (Relation::Equals, 7, BY_SEVEN),
    (Relation::Touches, 7, OF_NOTHING),
];

/// The relation and the options of a join.
#[derive(Clone, Copy)]
struct Way {
    relation: Relation,
    workers: u32,
    batch: u32,
    cut: u32,
}

/// Two layers of the points (0, 0), (1, 0) and so on.
#[derive(Drop)]
struct Points {
    left: Layer,
    right: Layer,
}

impl Points {
    /// Layers of `count` points each.
    fn new<R: Threads + Sync + RandomSource + AllocGlobal>(
        rt: &R,
        count: u32,
    ) -> Result<Points, Fail> {
        let left = points(rt, count)?;
        points(rt, count).map(|right| Points { left, right })
    }

    /// The result of joining the layers.
    fn answer<R: Threads + Wait + Sync + AllocGlobal, G: Gate + Sync>(
        &self,
        rt: &R,
        way: Way,
        gate: &G,
    ) -> Result<Result<Outcome, JoinFault>, Fail> {
        let relation = JoinRelation::new(way.relation)?;
        let options = Options::new(way.workers, way.batch, way.cut)?;
        Ok(join(rt, &self.left, &self.right, &relation, &options, gate))
    }

    /// The outcome of joining the layers.
    fn join<R: Threads + Wait + Sync + AllocGlobal, G: Gate + Sync>(
        &self,
        rt: &R,
        way: Way,
        gate: &G,
    ) -> Result<Outcome, Fail> {
        Ok(self.answer(rt, way, gate)??)
    }

    /// Whether a join gives these marks.
    fn gives_marks<R: Threads + Wait + Sync + AllocGlobal>(
        &self,
        rt: &R,
        way: Way,
        marks: &[Mark],
    ) -> Result<bool, Fail> {
        Ok(self.join(rt, way, &OpenGate)?.taken() == marks)
    }

    /// Whether a join gives `count` pairs of equal numbers, each in a batch of its own.
    fn gives_batches<R: Threads + Wait + Sync + AllocGlobal>(
        &self,
        rt: &R,
        way: Way,
        count: u32,
    ) -> Result<bool, Fail> {
        Ok(has_batches(&self.join(rt, way, &OpenGate)?, count))
    }

    /// Whether a join through a gate gives `count` pairs of equal numbers.
    fn passes<R: Threads + Wait + Sync + AllocGlobal, G: Gate + Sync>(
        &self,
        rt: &R,
        way: Way,
        gate: &G,
        count: u32,
    ) -> Result<bool, Fail> {
        Ok(are_diagonal(self.join(rt, way, gate)?.pairs(), count))
    }
}

/// The result of `see` on two layers of `count` points each.
fn on_points<
    R: Threads + Sync + RandomSource + AllocGlobal,
    F: FnOnce(&Points) -> Result<bool, Fail>,
>(rt: &R, count: u32, see: F) -> Result<bool, Fail>
    requires { F.IsAlwaysCallable see }
{
    seen(Points::new(rt, count)?, see)
}

/// Whether the pairs are the `count` pairs (0, 0), (1, 1) and so on.
fn are_diagonal(pairs: &[(u32, u32)], count: u32) -> bool {
    for n in 0..count {
        if pairs.get(n as usize) != Some(&(n, n)) {
            return false;
        }
    }
    pairs.len() == count as usize
}

fn count_batches(marks: &[Mark]) -> usize {
    marks
        .iter()
        .filter(|mark| matches!(mark, Mark::Batch(_, _)))
        .count()
}

/// Whether an outcome has `count` pairs of equal numbers and `count` batches.
fn has_batches(outcome: &Outcome, count: u32) -> bool {
    are_diagonal(outcome.pairs(), count) && count_batches(outcome.taken()) == count as usize
}

/// Whether joins of 20 points by one worker give the marks of their scripts.
fn gives_scripts<R: Threads + Wait + Sync + AllocGlobal>(
    rt: &R,
    points: &Points,
) -> Result<bool, Fail> {
    for &(relation, batch, marks) in SCRIPTS {
        let way = Way {
            relation,
            workers: 1,
            batch,
            cut: 1,
        };
        if !points.gives_marks(rt, way, marks)? {
            return Ok(false);
        }
    }
    Ok(true)
}

#[test]
fn plan_and_scripts(rt: HostRuntime) -> Result<(), Fail> {
    let shared = &rt;
    assert!(rt; on_points(shared, 20, |points| gives_scripts(shared, points))?);
    Ok(())
}

const OF_DEFAULTS: Way = Way {
    relation: Relation::Equals,
    workers: 2,
    batch: 256,
    cut: 2,
};

/// Whether a join of two empty layers gives neither marks nor pairs.
fn gives_nothing<R: Threads + Wait + Sync + AllocGlobal>(
    rt: &R,
    points: &Points,
) -> Result<bool, Fail> {
    let has_marks = !points.gives_marks(rt, OF_DEFAULTS, &[])?;
    Ok(!has_marks && points.gives_batches(rt, OF_DEFAULTS, 0)?)
}

#[test]
fn empty_layers(rt: HostRuntime) -> Result<(), Fail> {
    let shared = &rt;
    assert!(rt; on_points(shared, 0, |points| gives_nothing(shared, points))?);
    Ok(())
}

/// Whether joins of 1000 points, with 1 to 16 workers and one pair per batch, give all pairs.
fn gives_all<R: Threads + Wait + Sync + AllocGlobal>(
    rt: &R,
    points: &Points,
) -> Result<bool, Fail> {
    for workers in 1..17 {
        let way = Way {
            relation: Relation::Equals,
            workers,
            batch: 1,
            cut: 8,
        };
        if !points.gives_batches(rt, way, 1000)? {
            return Ok(false);
        }
    }
    Ok(true)
}

#[test]
fn no_refusal(rt: HostRuntime) -> Result<(), Fail> {
    let shared = &rt;
    assert!(rt; on_points(shared, 1000, |points| gives_all(shared, points))?);
    Ok(())
}

/// The greatest number of times that a worker yields while it waits for another.
const TURNS: u32 = 10_000_000;

/// A gate of three tasks that holds the first worker until a second one has entered. It counts the
/// entries with each task, and the workers that waited in vain.
#[derive(Drop)]
struct PairGate {
    inside: AtomicU32,
    entered: [AtomicU32; 3],
    given_up: AtomicU32,
}

impl Gate for PairGate {
    fn enter<R: Threads + Wait + Sync>(&self, _rt: &R, task: u32) {
        if let Some(times) = self.entered.get(task as usize) {
            times.fetch_add(1, Ordering::SeqCst);
        }
        self.inside.fetch_add(1, Ordering::SeqCst);
        for _ in 0..TURNS {
            if self.inside.load(Ordering::SeqCst) >= 2 {
                return;
            }
            thread::yield_now();
        }
        self.given_up.fetch_add(1, Ordering::SeqCst);
    }
}

fn zero() -> AtomicU32 {
    AtomicU32::new(0)
}

impl PairGate {
    fn new() -> PairGate {
        PairGate {
            inside: zero(),
            entered: [zero(), zero(), zero()],
            given_up: zero(),
        }
    }

    /// Whether each of the three tasks was entered once, and no worker waited in vain.
    fn has_paired(&self) -> bool {
        let has_entered = |times: &AtomicU32| times.load(Ordering::SeqCst) == 1;
        self.inside.load(Ordering::SeqCst) == 3
            && self.entered.iter().all(has_entered)
            && self.given_up.load(Ordering::SeqCst) == 0
    }
}

/// The join of two layers of 20 points through the gate.
const OF_GATE: Way = Way {
    relation: Relation::Equals,
    workers: 2,
    batch: 4,
    cut: 1,
};

#[test]
fn gate_two_workers(rt: HostRuntime) -> Result<(), Fail> {
    let (shared, gate) = (&rt, &PairGate::new());
    assert!(rt;
        on_points(
            shared,
            20,
            |points| points.passes(shared, OF_GATE, gate, 20)
        )?
    );
    assert!(rt; gate.has_paired());
    Ok(())
}

/// Whether that join with an open gate gives its 20 pairs, tried again if an allocation fails.
fn passes_at_last<R: Threads + Wait + Sync + AllocGlobal>(
    rt: &R,
    points: &Points,
) -> Result<bool, Fail> {
    match points.answer(rt, OF_GATE, &OpenGate)? {
        Err(JoinFault::Memory | JoinFault::NoThread) => {
            points.passes(rt, OF_GATE, &OpenGate, 20)
        }
        first => Ok(are_diagonal(first?.pairs(), 20)),
    }
}

/// Passes with each allocation failing in turn.
#[test]
fn join_without_memory(rt: HostRuntime) -> Result<(), Fail> {
    let shared = &rt;
    assert!(rt; on_points(shared, 20, |points| passes_at_last(shared, points))?);
    Ok(())
}
