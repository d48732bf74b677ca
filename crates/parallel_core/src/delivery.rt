//! The workers of a join, which process the tasks of a plan in parallel.

ghost use Rattle.std.specs.Prelude.{◌≡◌, ◌<◌, true, false, IfErr, IfOk};
ghost use Rattle.relation_core.specs.JoinRelations.{relation_of};
ghost use Rattle.pair_core.specs.Options.{batch_of};
ghost use Rattle.parallel_core.specs.Deliveries.{IsDelivered};
ghost use Rattle.parallel_core.specs.Faults.{IsWant};

use crate::alone::offer_all;
use crate::fault::JoinFault;
use crate::job::Job;
use crate::receiver::Receiver;
use crate::rows::Rows;
use crate::team::{Team, run};
use deliver_core::{Board, Outcome, Outlet, owners_law};
use pair_core::Options;
use relation_core::JoinRelation;
use std::sync::Wait;
use std::thread::Threads;

/// Processes the tasks of a plan by as many workers as the options say, and returns what they
/// delivered, in batches of the options' size. A single worker works on the caller's thread, and
/// each of several in a thread of its own.
///
/// # Errors
/// `Memory` if an allocation fails, `NoThread` if a worker's thread can't be started, and no other.
pub fn run_workers<R: AllocGlobal + Threads + Wait + Sync, P: Rows + Sync>(
    rt: &R,
    rows: &P,
    relation: &JoinRelation,
    options: &Options,
) -> Result<Outcome, JoinFault>
    // over every schedule of 1 to 16 workers, rows of all tasks of the plan, marks that are a
    // closed legal history with each task's script in batches of the options' size, and the pairs
    // of all rows with multiplicity, ascending
    ensures ok { let size = batch_of options.now in
        IfOk result (IsDelivered (relation_of relation.now) (P.tasks rows.now) size) }
    // no fault but `Memory` and `NoThread`
    ensures err { IfErr result IsWant }
{
    if options.workers() == 1 {
        run_alone(rt, rows, relation, options.batch())
    } else {
        run_team(rt, rows, relation, options)
    }
}

/// The same by the caller's thread alone.
fn run_alone<R: AllocGlobal + Threads + Sync, P: Rows>(
    rt: &R,
    rows: &P,
    relation: &JoinRelation,
    batch: u32,
) -> Result<Outcome, JoinFault>
    requires batch { 0 < batch }
    ensures ok { IfOk result (IsDelivered (relation_of relation.now) (P.tasks rows.now) batch) }
    ensures err { IfErr result IsWant }
{
    let fused = offer_all(rt.alloc(), rows, relation, batch)?;
    owners_law();
    fused.finish(rt, 1, true)
}

/// The same by workers that each have a thread of their own.
fn run_team<R: AllocGlobal + Threads + Wait + Sync, P: Rows + Sync>(
    rt: &R,
    rows: &P,
    relation: &JoinRelation,
    options: &Options,
) -> Result<Outcome, JoinFault>
    ensures ok { let size = batch_of options.now in
        IfOk result (IsDelivered (relation_of relation.now) (P.tasks rows.now) size) }
    ensures err { IfErr result IsWant }
{
    let (alloc, tasks, workers) = (rt.alloc(), rows.len(), options.workers());
    let (board, seats) = Board::new(alloc, tasks, workers)?;
    let (outlet, ports, tap) = Outlet::new(alloc, workers)?;
    let receiver = Receiver::new(alloc, &outlet, workers, tap, tasks)?;
    let job = Job {
        alloc,
        rows,
        relation,
        batch: options.batch(),
        board: &board,
        outlet: &outlet,
    };
    let team = Team::new(seats, ports, receiver);
    let ended = run(rt, &job, &outlet, team);
    let Team {
        seats,
        ports: _,
        receiver,
        all_started,
        all_ok,
    } = ended;
    are_started(all_started)?;
    owners_law();
    board.close(seats);
    let fused = receiver.fused;
    fused.finish(rt, workers, all_ok)
}

/// Refuses a team if the thread of some worker could not be started.
fn are_started(all_started: bool) -> Result<(), JoinFault>
    ensures ok { IfOk result (λ _. all_started ≡ true) }
    ensures err { IfErr result (λ fault. (all_started ≡ false) × (fault ≡ JoinFault.NoThread)) }
{
    if all_started {
        Ok(())
    } else {
        Err(JoinFault::NoThread)
    }
}
