//! The worker, which processes tasks until the board has none left.

ghost use Rattle.std.specs.Prelude.{◌≡◌, ◌<◌, ◌≤◌, ◌∷◌, [], true, length, IfErr, IfOk};
ghost use Rattle.relation_core.specs.JoinRelations.{relation_of};
ghost use Rattle.deliver_core.specs.Boards.{fresh_seat};
ghost use Rattle.deliver_core.specs.OutletCalls.{IsFreshPort, IsOpenPort};
ghost use Rattle.deliver_core.specs.Ports.{index_of};
ghost use Rattle.parallel_core.specs.Sending.{said_by, StaysOpen};
ghost use Rattle.parallel_core.specs.Jobs.{JobValue, job_of};
ghost use Rattle.parallel_core.specs.Workers.{IsSeatBelow, IsReadyToMeet, WorkerSays};
ghost use Rattle.parallel_core.specs.Workers.{AreScripts, BeginScripts, SaysScripts, SaysBeginning};
ghost use Rattle.parallel_core.specs.Workers.{ComesBack};

use crate::job::Job;
use crate::rows::Rows;
use crate::script::send_script;
use deliver_core::{BoardSeat, Port};
use pair_core::MAX_BATCH;
use std::alloc::AllocError;
use std::sync::Wait;

/// A worker's seat and port after it has said bye.
#[derive(Drop)]
pub struct Worked {
    pub seat: BoardSeat,
    pub port: Port,
    /// Whether it has processed tasks until none was left; false if an allocation failed.
    pub ok: bool,
}

/// The work of a job's workers. Threads share it in place of the job, which has a lifetime
/// parameter.
pub(crate) trait Work {
    /// The job to work on.
    ghost job: { Self → JobValue };

    /// Draws tasks and sends the script of each until none is left, and then says bye.
    fn work<R: Wait>(&self, rt: &R, seat: BoardSeat, port: Port) -> Worked
        requires batch { 0 < (job self.now).size }
        requires tasks { (job self.now).board.tasks ≡ length (job self.now).plan }
        requires seat { seat ≡ fresh_seat (job self.now).board }
        requires port { IsFreshPort (job self.now).outlet port }
        ensures { ComesBack (job self.now) (index_of port) result };
}

impl<'a, P: Rows> Work for Job<'a, P> {
    ghost job = { λ job. job_of P.tasks job };

    #[tactic(auto, using(crate::proofs::Workers::comes_back))]
    fn work<R: Wait>(&self, rt: &R, mut seat: BoardSeat, mut port: Port) -> Worked {
        let worked = process_tasks(rt, self, &mut seat, &mut port);
        let ok = worked.is_ok();
        self.outlet.bye(rt, &mut port, ok);
        Worked { seat, port, ok }
    }
}

/// Draws tasks and sends the script of each until none is left, and then says bye. If an allocation
/// fails, it stops after a whole message and says bye with false.
pub fn worker<R: Wait, P: Rows>(rt: &R, job: &Job<'_, P>, seat: BoardSeat, port: Port) -> Worked
    requires batch { (1 ≤ job.now.batch) × (job.now.batch ≤ MAX_BATCH) }
    requires tasks { job.now.board.now.tasks ≡ length (P.tasks job.now.rows.now) }
    requires seat { seat ≡ fresh_seat job.now.board.now }
    requires port { IsFreshPort job.now.outlet.now port }
    // its port sent the scripts of the tasks that its seat drew, in that order, and a bye of true,
    // or a prefix of them by whole messages and a bye of false
    ensures says { let relation = relation_of job.now.relation.now in
        let tasks = P.tasks job.now.rows.now in let drawn = result.seat.drawn in
        WorkerSays relation tasks job.now.batch drawn result.ok (said_by result.port) }
    // each number drawn is that of a task
    ensures seat { IsSeatBelow job.now.board.now result.seat }
    // where it is ok, its seat has met the end
    ensures done { result.ok ≡ true → result.seat.done ≡ true }
    // its port has said bye and may be met
    ensures port { IsReadyToMeet job.now.outlet.now (index_of port) result.port }
{
    job.work(rt, seat, port)
}

/// Processes tasks until the seat meets the end of the numbers.
fn process_tasks<R: Wait, P: Rows>(
    rt: &R,
    job: &Job<'_, P>,
    seat: &mut BoardSeat,
    port: &mut Port,
) -> Result<(), AllocError>
    requires batch { 0 < job.now.batch }
    requires tasks { job.now.board.now.tasks ≡ length (P.tasks job.now.rows.now) }
    requires seat { seat.old ≡ fresh_seat job.now.board.now }
    requires port { IsFreshPort job.now.outlet.now port.old }
    ensures seat { IsSeatBelow job.now.board.now seat.new }
    ensures port { StaysOpen job.now.outlet.now port.old port.new }
    ensures ok { let it = job_of P.tasks job.now in let drawn = seat.new.drawn in
        IfOk result (λ _. (seat.new.done ≡ true)
        × AreScripts it.relation it.plan it.size drawn (said_by port.new)) }
    ensures err { let it = job_of P.tasks job.now in let drawn = seat.new.drawn in
        IfErr result (λ _. BeginScripts it.relation it.plan it.size drawn (said_by port.new)) }
{
    for _ in rt.forever() {
        let drawn = job.board.claim(seat);
        let Some(task) = drawn else {
            return Ok(());
        };
        send_task(rt, job, task, port)?;
    }
    unreachable!()
}

/// Sends the script of one task.
fn send_task<R: Wait, P: Rows>(
    rt: &R,
    job: &Job<'_, P>,
    task: u32,
    port: &mut Port,
) -> Result<(), AllocError>
    requires task { task < length (P.tasks job.now.rows.now) }
    requires batch { 0 < job.now.batch }
    requires port { IsOpenPort job.now.outlet.now port.old }
    ensures port { StaysOpen job.now.outlet.now port.old port.new }
    ensures ok { let it = job_of P.tasks job.now in let numbers = task ∷ [] in IfOk result
        (λ _. SaysScripts it.relation it.plan it.size numbers port.old port.new) }
    ensures err { let it = job_of P.tasks job.now in let numbers = task ∷ [] in IfErr result
        (λ _. SaysBeginning it.relation it.plan it.size numbers port.old port.new) }
{
    let row = job.rows.row_of(job.alloc, task, job.relation)?;
    send_script(rt, job, port, task, &row)
}
