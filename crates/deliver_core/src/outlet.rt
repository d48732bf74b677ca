//! The outlet, a bounded queue that carries the messages of all ports to the tap.

use crate::message::{Body, Message};
use crate::pass_view::{InOrder, Make, Meet, PassView, Put, Take};
use crate::port::Port;
use crate::tap::Tap;
use crossbeam_queue::{Pass, RuledArrayQueue};
use std::alloc::{AllocError, Global};
use std::sync::Wait;
use std::thread;

/// The capacity of an outlet, in messages.
pub const MAX_WAITING: usize = 64;

type Queue = RuledArrayQueue<Message, PassView, InOrder>;

/// A queue of at most [`MAX_WAITING`] messages, which the ports fill and the tap empties. Each put
/// is one successful push and each take one successful pop, so the messages of a port are taken in
/// the order in which it sent them.
#[derive(Drop)]
pub struct Outlet {
    queue: Queue,
}

impl Outlet {
    ghost use Rattle.std.specs.Prelude.{◌≡◌, ◌<◌, ◌≤◌, ◌++◌, [], ◌∷◌, true, false, Some, IsSome};
    ghost use Rattle.std.specs.Prelude.{IfOk, IfSome, IfNone, All, map, vec_len};
    ghost use Rattle.std.specs.List.{range_with_len};
    ghost use mathlib.Core.List.{IsPrefix};
    ghost use Rattle.crossbeam_queue.specs.Passes.{view, IsPassOf, IsSamePass};
    ghost use Rattle.deliver_core.specs.Byes.{has_bye};
    ghost use Rattle.deliver_core.specs.Limits.{most_waiting};
    ghost use Rattle.deliver_core.specs.OutletCalls.{IsFreshPort, IsFreshTap, IsOpenPort};
    ghost use Rattle.deliver_core.specs.OutletCalls.{IsEndedPort, IsForPort, bye_of, IsAfterTaking};
    ghost use Rattle.deliver_core.specs.OutletCalls.{IsAfterNothing, IsSameTap, IsSpentPort};
    ghost use Rattle.deliver_core.specs.OutletCalls.{IsAfterMeeting};
    ghost use Rattle.deliver_core.specs.OutletSteps.{Begins, IsAfterSend, IsAfterTake, IsAfterMiss};
    ghost use Rattle.deliver_core.specs.OutletSteps.{IsAfterMeet};
    ghost use Rattle.deliver_core.specs.Outlets.{of_port};
    ghost use Rattle.deliver_core.specs.PassViews.{sender_of, is_receiver, sent_of};
    ghost use Rattle.deliver_core.specs.Ports.{index_of, is_spent, sent_by, taken_by, met_by};
    ghost use Rattle.deliver_core.specs.Ports.{port_count, room_of, IsTapOf};
    ghost use Rattle.pair_core.specs.Limits.{most_workers};

    /// An outlet of [`MAX_WAITING`] messages, its `ports` ports in the order of their indexes, and
    /// its tap. It fails only if memory runs out.
    pub fn new(alloc: Global, ports: u32) -> Result<(Outlet, Vec<Port>, Tap), AllocError>
        requires ports { (1 ≤ ports) × (ports ≤ most_workers) }
        // as many fresh ports as asked for, and the tap
        ensures count { IfOk result (λ r. (vec_len r.1 ≡ ports) × (ports ≤ most_workers)) }
        ensures indexes { IfOk result (λ r. map index_of r.1.items ≡ range_with_len 0 ports) }
        ensures fresh { IfOk result (λ r. All (IsFreshPort r.0) r.1.items) }
        ensures tap { IfOk result (λ r. IsFreshTap r.0 ports r.2) }
        // 64 messages may wait
        ensures room { IfOk result (λ r. room_of r.0 ≡ most_waiting) }
    {
        let mut all = Vec::with_capacity(alloc, ports as usize)?;
        let (queue, mut pass) = Queue::ruled(alloc, MAX_WAITING)?;
        for index in 0..ports {
            let own = queue.another::<Make>(&mut pass);
            let port = Port::new(index, own);
            all.push_reserved(port);
        }
        Ok((Outlet { queue }, all, Tap { pass }))
    }

    /// Sends a message, which has the port's index and is no Bye. It waits while the outlet is
    /// full.
    pub fn put<R: Wait>(&self, rt: &R, port: &mut Port, message: Message)
        requires port { IsOpenPort self.now port.old }
        requires message { IsForPort port.old message }
        // the port stays the outlet's
        ensures port { IsOpenPort self.now port.new }
        ensures index { index_of port.new ≡ index_of port.old }
        // over every schedule, exactly this message is appended to what the port sent
        ensures sent { sent_by port.new ≡ sent_by port.old ++ message ∷ [] }
    {
        let Some(pass) = &mut port.pass else {
            unreachable!()
        };
        self.send(rt, pass, message);
    }

    /// Ends the port's messages with its Bye. It waits while the outlet is full.
    pub fn bye<R: Wait>(&self, rt: &R, port: &mut Port, ok: bool)
        requires port { IsOpenPort self.now port.old }
        // as of `Outlet::put`
        ensures port { IsEndedPort self.now port.new }
        // the port may still be met
        ensures unmet { is_spent port.new ≡ false }
        // as of `Outlet::put`
        ensures index { index_of port.new ≡ index_of port.old }
        ensures sent { sent_by port.new ≡ sent_by port.old ++ bye_of (index_of port.old) ok ∷ [] }
    {
        let bye = Message {
            port: port.index,
            task: 0,
            body: Body::Bye(ok),
        };
        let Some(pass) = &mut port.pass else {
            unreachable!()
        };
        self.send(rt, pass, bye);
        port.said_bye = true;
    }

    /// Takes the oldest message, or returns `None` if the outlet was empty at some moment of the
    /// call.
    pub fn take<R: Wait>(&self, rt: &R, tap: &mut Tap) -> Option<Message>
        requires { IsTapOf self.now tap.old }
        // the tap stays the outlet's
        ensures tap { IsTapOf self.now tap.new }
        ensures ports { (port_count tap.new ≡ port_count tap.old)
            × (met_by tap.new ≡ met_by tap.old) }
        // the answer is appended to what was taken
        ensures some { IfSome result (IsAfterTaking tap.old tap.new) }
        // None only where all that the ports met had sent was taken
        ensures none { IfNone result (IsAfterNothing tap.old tap.new) }

        // The messages taken of each port that was met are a prefix of those sent.
        // of each port met, what was taken is a prefix of what it sent
        ensures begins { All (λ p. IsPrefix (of_port p.index (taken_by tap.new)) p.sent)
            (met_by tap.new) }
    {
        self.receive(rt, &mut tap.pass)
    }

    /// Relates the tap's list to that of a port that has said bye: the messages taken of the port
    /// are a prefix of those that it sent, and all of them if its Bye was taken. The port is
    /// returned spent; meeting it again changes nothing. The call never waits.
    pub fn meet<R: Wait>(&self, _rt: &R, tap: &mut Tap, mut port: Port) -> Port
        requires tap { IsTapOf self.now tap.old }
        requires port { IsEndedPort self.now port }
        // nothing else is taken
        ensures tap { IsSameTap self.now tap.old tap.new }
        // the port comes back spent
        ensures port { IsSpentPort self.now port result }
        // what was taken of the port is a prefix of what it sent, and all of it once its bye was
        // taken
        ensures met { is_spent port ≡ false → IsAfterMeeting port tap.old tap.new }
        // to meet a spent port changes nothing
        ensures again { is_spent port ≡ true → (result ≡ port) × (tap.new ≡ tap.old) }
    {
        if let Some(pass) = port.pass.take() {
            self.join(&mut tap.pass, pass);
        }
        port
    }

    /// Pushes the message; while the queue is full, it tries again.
    fn send<R: Wait>(&self, rt: &R, pass: &mut Pass<Message, PassView>, mut message: Message)
        requires queue { IsPassOf self.now.queue pass.old }
        requires sender { sender_of (view pass.old) ≡ Some message.port }
        requires open { has_bye (sent_of (view pass.old)) ≡ false }
        ensures queue { IsSamePass pass.old pass.new }
        ensures sent { IsAfterSend message (view pass.old) (view pass.new) }
    {
        for _ in rt.forever() {
            let pushed = self.queue.push_as::<Put, R>(rt, pass, message);
            match pushed {
                Ok(()) => return,
                Err(back) => message = back,
            }
            thread::yield_now();
        }
        unreachable!()
    }

    /// Pops a message, if there is one.
    fn receive<R: Wait>(&self, rt: &R, pass: &mut Pass<Message, PassView>) -> Option<Message>
        requires queue { IsPassOf self.now.queue pass.old }
        requires receiver { is_receiver (view pass.old) ≡ true }
        ensures queue { IsSamePass pass.old pass.new }
        ensures begins { Begins (view pass.new) }
        ensures some { IfSome result (λ m. IsAfterTake m (view pass.old) (view pass.new)) }
        ensures none { IfNone result (IsAfterMiss (view pass.old) (view pass.new)) }
    {
        self.queue.pop_as::<Take, R>(rt, pass)
    }

    /// Joins the pass of a port to the tap's, and reads which messages wait.
    fn join(&self, pass: &mut Pass<Message, PassView>, port: Pass<Message, PassView>)
        requires queue { IsPassOf self.now.queue pass.old × IsPassOf self.now.queue port }
        requires receiver { is_receiver (view pass.old) ≡ true }
        requires sender { IsSome (sender_of (view port)) }
        ensures queue { IsSamePass pass.old pass.new }
        ensures met { IfSome (sender_of (view port))
            (IsAfterMeet (view port) (view pass.old) (view pass.new)) }
    {
        self.queue.absorb::<Meet>(pass, port);
        self.queue.learn_as::<Take>(pass);
    }
}
