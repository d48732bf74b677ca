//! A team of workers, each in a thread of its own, while the starting thread receives.

ghost use Rattle.std.specs.Prelude.{◌≡◌, ◌+◌, ◌<◌, true, length, vec_capacity, IfSome, IfNone};
ghost use Rattle.std.specs.Thread.{IsSync};
ghost use Rattle.deliver_core.specs.Boards.{BoardValue, fresh_seat};
ghost use Rattle.deliver_core.specs.declared.outlet.Outlet.{Outlet};
ghost use Rattle.deliver_core.specs.OutletCalls.{IsFreshPort};
ghost use Rattle.deliver_core.specs.Ports.{index_of};
ghost use Rattle.parallel_core.specs.Teams.{IsReady, IsBeside, IsAsBefore, HasRun};
ghost use Rattle.parallel_core.specs.Workers.{ComesBack};

use crate::receiver::Receiver;
use crate::working::{Work, Worked};
use deliver_core::{BoardSeat, Outlet, Port};
use std::sync::Wait;
use std::thread;
use std::thread::{Promise, PromisedHandle, Scope, Threads};

/// The seats and ports of workers that are still to be started, and later the seats of those that
/// have ended, in the order of their ports.
#[derive(Drop)]
pub(crate) struct Team {
    pub(crate) seats: Vec<BoardSeat>,
    pub(crate) ports: Vec<Port>,
    pub(crate) receiver: Receiver,
    /// Whether a thread was started for each worker.
    pub(crate) all_started: bool,
    /// Whether each worker that has ended was successful.
    pub(crate) all_ok: bool,
}

impl Team {
    /// A team of workers with these seats and ports, none of which was started.
    pub(crate) fn new(seats: Vec<BoardSeat>, ports: Vec<Port>, receiver: Receiver) -> Team
        ensures lists { (result.seats ≡ seats) × (result.ports ≡ ports) }
        ensures receiver { result.receiver ≡ receiver }
        ensures well { (result.all_started ≡ true) × (result.all_ok ≡ true) }
    {
        Team {
            seats,
            ports,
            receiver,
            all_started: true,
            all_ok: true,
        }
    }

    /// Takes the seat and the port of the next worker, if there is one.
    fn next(&mut self) -> Option<(BoardSeat, Port)>
        requires { length self.old.seats.items ≡ length self.old.ports.items }
        ensures before { IsAsBefore self.old self.new }
        ensures beside { (board : BoardValue) (outlet : Outlet) → IsReady board outlet self.old
            → IfSome result (λ next. IsBeside board outlet self.new next.0 next.1) }
        ensures count { IfSome result
            (λ _. length self.old.ports.items ≡ length self.new.ports.items + 1) }
        ensures none { IfNone result (length self.old.ports.items ≡ 0) }
        ensures seats { IfNone result (self.new.seats ≡ self.old.seats) }
    {
        let port = self.ports.pop()?;
        let Some(seat) = self.seats.pop() else {
            unreachable!()
        };
        Some((seat, port))
    }
}

/// The promise of a worker's thread on its result, given its inputs.
#[derive(Drop)]
struct Working<'a, W> {
    work: &'a W,
    index: u32,
}

impl<'a, W: Work> Promise<Worked> for Working<'a, W> {
    ghost kept_by = { λ p w. ComesBack (W.job p.work.now) p.index w };
}

/// Runs the workers of a team in parallel, and receives until all that were started have ended.
///
/// It starts the next worker in a thread, runs the rest of the team, and then takes the worker's
/// remaining messages. Each level takes the messages of all ports, so no worker waits for another.
pub(crate) fn run<R: Threads + Wait + Sync, W: Work + Sync>(
    rt: &R,
    work: &W,
    outlet: &Outlet,
    mut team: Team,
) -> Team
    requires outlet { outlet.now ≡ (W.job work.now).outlet }
    requires batch { 0 < (W.job work.now).size }
    requires tasks { let it = W.job work.now in it.board.tasks ≡ length it.plan }
    requires ready { let it = W.job work.now in IsReady it.board it.outlet team }
    ensures { let count = length team.ports.items in let room = vec_capacity team.seats in
        HasRun (W.job work.now) count room team.receiver result }
{
    let Some((seat, port)) = team.next() else {
        return team;
    };
    let index = port.index();
    thread::scope(
        thread::scope_env(),
        rt,
        move |scope| -> Team
            requires sync { IsSync R.row }
            requires outlet { outlet.now ≡ (W.job work.now).outlet }
            requires batch { 0 < (W.job work.now).size }
            requires tasks { let it = W.job work.now in it.board.tasks ≡ length it.plan }
            requires beside { let it = W.job work.now in
                IsBeside it.board it.outlet team seat port }
            requires index { index ≡ index_of port }
            ensures { let count = length team.ports.items + 1 in
                let room = vec_capacity team.seats in
                HasRun (W.job work.entry.now) count room team.receiver result }
        {
            let Some(child) = start(scope, rt, work, seat, port) else {
                return Team {
                    all_started: false,
                    ..team
                };
            };
            let mut team = run(rt, work, outlet, team);
            team.receiver.take_until_bye(rt, outlet, index);
            let worked = child.join(rt);
            let Worked { seat, port, ok } = worked;
            team.receiver.meet(rt, outlet, port);
            team.seats.push_reserved(seat);
            team.all_ok &= ok;
            team
        },
    )
}

/// Starts a thread for the worker with this seat and port. `None` if none can be started.
fn start<'s, E, R: Threads + Wait + Sync, W: Work + Sync>(
    scope: &Scope<'s, E>,
    rt: &'s R,
    work: &'s W,
    seat: BoardSeat,
    port: Port,
) -> Option<PromisedHandle<Worked, Working<'s, W>>>
    requires batch { 0 < (W.job work.now).size }
    requires tasks { let it = W.job work.now in it.board.tasks ≡ length it.plan }
    requires seat { seat ≡ fresh_seat (W.job work.now).board }
    requires port { IsFreshPort (W.job work.now).outlet port }
    ensures job { IfSome result (λ child. W.job child.promise.work.now ≡ W.job work.now) }
    ensures index { IfSome result (λ child. child.promise.index ≡ index_of port) }
{
    let index = port.index();
    let child = scope.spawn_with(
        Working { work, index },
        move || -> Worked
            requires batch { 0 < (W.job work.now).size }
            requires tasks { let it = W.job work.now in it.board.tasks ≡ length it.plan }
            requires seat { seat ≡ fresh_seat (W.job work.now).board }
            requires port { IsFreshPort (W.job work.now).outlet port }
            ensures { ComesBack (W.job work.entry.now) (index_of port) result }
        { work.work(rt, seat, port) },
    );
    child.ok()
}
