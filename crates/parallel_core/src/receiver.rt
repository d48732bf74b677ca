//! The receiver, which takes the workers' messages and offers them to the collector.

ghost use Rattle.std.specs.Prelude.{◌≡◌, ◌<◌, ◌⊎◌, ℕ, true, false, Some, IfOk, length, map};
ghost use Rattle.std.specs.Prelude.{slice_get};
ghost use Rattle.deliver_core.specs.Byes.{is_bye, has_bye};
ghost use Rattle.deliver_core.specs.declared.message.Message.{Message};
ghost use Rattle.deliver_core.specs.OutletCalls.{IsFreshTap, IsAfterTaking, IsAfterNothing};
ghost use Rattle.deliver_core.specs.Outlets.{of_port};
ghost use Rattle.deliver_core.specs.Ports.{index_of, taken_by, port_count};
ghost use Rattle.deliver_core.specs.Scripts.{content_of};
ghost use Rattle.parallel_core.specs.Receivers.{ReceivesFrom, Continues};
ghost use Rattle.parallel_core.specs.Sending.{said_by};
ghost use Rattle.parallel_core.specs.Workers.{IsReadyToMeet};

use crate::fused_collector::FusedCollector;
use crate::pause::Pause;
use deliver_core::{Body, Message, Outlet, Port, Tap};
use std::alloc::{AllocError, Global};
use std::sync::Wait;

/// The receiving end of an outlet, and the messages taken so far.
#[derive(Drop)]
pub(crate) struct Receiver {
    tap: Tap,
    /// For each port, whether its Bye was taken.
    ended: Vec<bool>,
    pub(crate) fused: FusedCollector,
}

impl Receiver {
    /// The receiver of `ports` ports and `tasks` tasks, which has taken nothing.
    pub(crate) fn new(
        alloc: Global,
        outlet: &Outlet,
        ports: u32,
        tap: Tap,
        tasks: u32,
    ) -> Result<Receiver, AllocError>
        requires { IsFreshTap outlet.now ports tap }
        ensures receives { IfOk result (ReceivesFrom outlet.now) }
        ensures ports { IfOk result (λ g. port_count g.tap ≡ ports) }
        ensures tasks { IfOk result (λ g. g.fused.collector.tasks ≡ tasks) }
    {
        Ok(Receiver {
            tap,
            ended: vec![in alloc; false; ports as usize]?,
            fused: FusedCollector::new(alloc, tasks)?,
        })
    }

    /// Takes messages until the Bye of this port was taken.
    pub(crate) fn take_until_bye<R: Wait>(&mut self, rt: &R, outlet: &Outlet, port: u32)
        requires receives { ReceivesFrom outlet.now self.old }
        requires port { port < port_count self.old.tap }
        ensures continues { Continues outlet.now self.old self.new }
        ensures bye { has_bye (of_port port (taken_by self.new.tap)) ≡ true }
    {
        let mut pause = Pause::new();
        for _ in rt.forever() {
            if self.ended[port as usize] {
                return;
            }
            if self.take_in(rt, outlet) {
                pause.begin_again();
            } else {
                pause.rest(rt);
            }
        }
        unreachable!()
    }

    /// Relates the messages taken of a port to those that it sent.
    pub(crate) fn meet<R: Wait>(&mut self, rt: &R, outlet: &Outlet, port: Port)
        requires receives { ReceivesFrom outlet.now self.old }
        requires port { IsReadyToMeet outlet.now (index_of port) port }
        requires bye { has_bye (of_port (index_of port) (taken_by self.old.tap)) ≡ true }
        ensures continues { Continues outlet.now self.old self.new }
        ensures whole { let index = index_of port in
            map content_of (of_port index (taken_by self.new.tap)) ≡ said_by port }
    {
        outlet.meet(rt, &mut self.tap, port);
    }

    /// Takes a message, if one waits, and returns whether one did.
    fn take_in<R: Wait>(&mut self, rt: &R, outlet: &Outlet) -> bool
        requires { ReceivesFrom outlet.now self.old }
        ensures continues { Continues outlet.now self.old self.new }
        ensures one { result ≡ true
            → (message : Message) × IsAfterTaking self.old.tap self.new.tap message }
        ensures none { result ≡ false → IsAfterNothing self.old.tap self.new.tap }
    {
        let Some(message) = outlet.take(rt, &mut self.tap) else {
            return false;
        };
        note_bye(&mut self.ended, &message);
        self.fused.take_in(message);
        true
    }
}

/// If a message is a Bye, records that its port has ended.
fn note_bye(ended: &mut Vec<bool>, message: &Message)
    requires { message.now.port < length ended.old.items }
    ensures ports { length ended.new.items ≡ length ended.old.items }
    ensures only { (port : ℕ) → slice_get ended.new.items port ≡ Some true
        → (slice_get ended.old.items port ≡ Some true)
        ⊎ ((message.now.port ≡ port) × (is_bye message.now ≡ true)) }
    ensures noted { is_bye message.now ≡ true
        → slice_get ended.new.items message.now.port ≡ Some true }
    ensures kept { (port : ℕ) → slice_get ended.old.items port ≡ Some true
        → slice_get ended.new.items port ≡ Some true }
{
    if matches!(message.body, Body::Bye(_)) {
        ended[message.port as usize] = true;
    }
}
