//! The messages of one worker for the plan of two trees of twenty points at cut 1, with three
//! tasks.

ghost use Rattle.std.specs.Prelude.{◌≡◌, ◌≤◌, length, All, IfSome};
ghost use Rattle.deliver_core.specs.Boards.{fresh_seat};
ghost use Rattle.deliver_core.specs.OutletCalls.{IsFreshPort};
ghost use Rattle.deliver_core.specs.Ports.{IsTapOf};

use crate::expected::{Expected, says};
use deliver_core::{Board, BoardSeat, Body, Outlet, Port, Tap};
use descent_core::Plan;
use pair_core::MAX_BATCH;
use parallel_core::{Gate, Gated, Job, OpenGate, Rows, Worked, worker};
use relation_core::{JoinRelation, Relation};
use rtree_core::RTree;
use std::sync::Wait;
use std::sync::atomic::{AtomicU32, Ordering};
use std::thread::Threads;
use test_data::on_packed;

const BY_THREE: [Expected; 11] = [
    Expected::Batch(0, 0, &[0, 1, 2]),
    Expected::Batch(0, 1, &[3, 4, 5]),
    Expected::Batch(0, 2, &[6]),
    Expected::End(0, 3),
    Expected::Batch(1, 0, &[7, 8, 9]),
    Expected::Batch(1, 1, &[10, 11, 12]),
    Expected::Batch(1, 2, &[13]),
    Expected::End(1, 3),
    Expected::Batch(2, 0, &[14, 15, 16]),
    Expected::Batch(2, 1, &[17, 18, 19]),
    Expected::End(2, 2),
];

const BY_SEVEN: [Expected; 6] = [
    Expected::Batch(0, 0, &[0, 1, 2, 3, 4, 5, 6]),
    Expected::End(0, 1),
    Expected::Batch(1, 0, &[7, 8, 9, 10, 11, 12, 13]),
    Expected::End(1, 1),
    Expected::Batch(2, 0, &[14, 15, 16, 17, 18, 19]),
    Expected::End(2, 1),
];

const OF_NOTHING: [Expected; 3] = [
    Expected::End(0, 0),
    Expected::End(1, 0),
    Expected::End(2, 0),
];

/// The last of these ports.
fn last_port(outlet: &Outlet, ports: &mut Vec<Port>) -> Option<Port>
    requires { All (IsFreshPort outlet.now) ports.old.items }
    ensures { IfSome result (IsFreshPort outlet.now) }
{
    ports.pop()
}

/// Whether the waiting messages are all expected ones and then the Bye, or a prefix of them and
/// then the Bye for a failed allocation.
fn waits<R: Wait>(rt: &R, outlet: &Outlet, mut tap: Tap, ok: bool, wanted: &[Expected]) -> bool
    requires { IsTapOf outlet.now tap }
{
    for &expected in wanted {
        match outlet.take(rt, &mut tap) {
            Some(message) => {
                if message.body == Body::Bye(false) {
                    return !ok && outlet.take(rt, &mut tap).is_none();
                }
                if !says(&message, expected) {
                    return false;
                }
            }
            None => return false,
        }
    }
    let bye = outlet.take(rt, &mut tap);
    bye.is_some_and(|m| m.body == Body::Bye(ok)) && outlet.take(rt, &mut tap).is_none()
}

/// The inputs of a worker, apart from the trees and the gate, and its expected messages.
#[derive(Clone, Copy)]
struct Work {
    relation: Relation,
    batch: u32,
    wanted: &'static [Expected],
}

/// Whether a worker of port 0 has said bye, and has drawn three tasks and met the end unless an
/// allocation failed.
fn has_worked(worked: &Worked) -> bool {
    let is_drawn = worked.seat.count() == 3 && worked.seat.done();
    worked.port.index() == 0 && worked.port.said_bye() && (is_drawn || !worked.ok)
}

/// Whether one worker with this seat sends of these rows what it has to; none without memory.
fn works_at<R: Threads + Wait + Sync + AllocGlobal, G: Gate>(
    rt: &R,
    rows: &Gated<'_, R, Plan<'_>, G>,
    work: Work,
    board: &Board,
    seat: BoardSeat,
) -> Option<bool>
    requires batch { (1 ≤ work.batch) × (work.batch ≤ MAX_BATCH) }
    requires tasks { board.now.tasks ≡ length rows.now.rows.now }
    requires seat { seat ≡ fresh_seat board.now }
{
    let alloc = rt.alloc();
    let relation = JoinRelation::new(work.relation).ok()?;
    let (outlet, mut ports, tap) = Outlet::new(alloc, 1).ok()?;
    let port = last_port(&outlet, &mut ports)?;
    let job = Job {
        alloc,
        rows,
        relation: &relation,
        batch: work.batch,
        board,
        outlet: &outlet,
    };
    let worked = worker(rt, &job, seat, port);
    Some(has_worked(&worked) && waits(rt, &outlet, tap, worked.ok, work.wanted))
}

/// Whether one worker, on this thread, sends of these rows what it has to; none without memory.
fn works<R: Threads + Wait + Sync + AllocGlobal, G: Gate>(
    rt: &R,
    rows: &Gated<'_, R, Plan<'_>, G>,
    work: Work,
) -> Option<bool> {
    if work.batch == 0 || work.batch > MAX_BATCH {
        return None;
    }
    let (board, mut seats) = Board::new(rt.alloc(), rows.rows.len(), 1).ok()?;
    works_at(rt, rows, work, &board, seats.pop()?)
}

/// Whether one worker sends of two trees, through a gate, what it has to; none without memory.
fn sends_of<R: Threads + Wait + Sync + AllocGlobal>(
    rt: &R,
    (left, right): (&RTree, &RTree),
    work: Work,
    gate: &impl Gate,
) -> Option<bool> {
    let plan = Plan::new(rt.alloc(), left, right, 1).ok()?;
    let rows = Gated {
        rt,
        rows: &plan,
        gate,
    };
    works(rt, &rows, work)
}

/// Whether one worker sends of two times twenty points, through a gate, what it has to.
fn sends<R: Threads + Wait + Sync + AllocGlobal>(rt: &R, work: Work, gate: &impl Gate) -> bool {
    let sends = on_packed(rt.alloc(), (20, 1), (20, 1), |left, right| {
        sends_of(rt, (left, right), work, gate)
    });
    sends == Ok(Some(true))
}

/// A gate that counts the entries with each of three tasks.
#[derive(Drop)]
struct Counts {
    entered: [AtomicU32; 3],
}

impl Gate for Counts {
    fn enter<R: Threads + Wait + Sync>(&self, _rt: &R, task: u32) {
        if let Some(times) = self.entered.get(task as usize) {
            times.fetch_add(1, Ordering::SeqCst);
        }
    }
}

impl Counts {
    fn new() -> Counts {
        let entered = [AtomicU32::new(0), AtomicU32::new(0), AtomicU32::new(0)];
        Counts { entered }
    }

    /// Whether it was entered once with each task.
    fn are_ones(&self) -> bool {
        let is_one = |times: &AtomicU32| times.load(Ordering::SeqCst) == 1;
        self.entered.iter().all(is_one)
    }
}

const WORKS: [Work; 3] = [
    Work {
        relation: Relation::Equals,
        batch: 3,
        wanted: &BY_THREE,
    },
    Work {
        relation: Relation::Equals,
        batch: 7,
        wanted: &BY_SEVEN,
    },
    Work {
        relation: Relation::Touches,
        batch: 3,
        wanted: &OF_NOTHING,
    },
];

#[test]
fn plan_and_scripts(rt: HostRuntime) {
    for work in WORKS {
        assert!(rt; sends(&rt, work, &OpenGate));
    }
}

#[test]
fn row_made_once_each(rt: HostRuntime) {
    let gate = Counts::new();
    let work = Work {
        relation: Relation::Equals,
        batch: MAX_BATCH,
        wanted: &BY_SEVEN,
    };
    assert!(rt; sends(&rt, work, &gate));
    assert!(rt; gate.are_ones());
}
