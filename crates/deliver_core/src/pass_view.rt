//! The knowledge of the passes of an outlet's queue, and the rule that relates it to the waiting
//! messages. It exists only in proofs.

use crate::message::Message;
use crossbeam_queue::protocol::{Join, Lesson, Outcome, Protocol, Split};
use std::collections::LinkedList;

/// A port that was met: its index, and all messages that it sent.
pub struct Met {
    pub index: u32,
    pub sent: LinkedList<Message>,
}

/// The view of a pass. No value of this type is ever made.
pub enum PassView {
    /// Of a port: its index, and the messages that it has sent.
    Sender(u32, LinkedList<Message>),
    /// Of the tap: the number of ports, the messages that it has taken, and the ports that it met.
    Receiver(u32, LinkedList<Message>, LinkedList<Met>),
    /// Of a port that was met.
    Spent,
}

/// The rule: for each port, the messages taken followed by those that wait are those that it sent.
pub struct InOrder;

impl Protocol<Message, PassView> for InOrder {
    ghost use Rattle.std.specs.Prelude.{[]};
    ghost use Rattle.deliver_core.specs.declared.pass_view.PassView.TheVariants.{Receiver};
    ghost use Rattle.deliver_core.specs.OutletRule.{Delivers};

    ghost holds = { λ items views. Delivers items views };

    ghost first = { Receiver 0 [] [] };
}

/// A port is made.
pub struct Make;

impl Split<PassView> for Make {
    ghost use Rattle.deliver_core.specs.PassViews.{with_port, new_port};

    ghost left = { with_port };

    ghost right = { new_port };
}

/// A port puts a message.
pub struct Put;

impl Outcome<Message, PassView> for Put {
    ghost use Rattle.std.specs.Prelude.{◌≡◌};
    ghost use Rattle.deliver_core.specs.PassViews.{with_sent};

    ghost then = { λ v m w. w ≡ with_sent v m };
}

impl Lesson<Message, PassView> for Put {
    ghost fact = { λ v items. Unit {0} };
}

/// The tap takes a message, or reads which messages wait.
pub struct Take;

impl Outcome<Message, PassView> for Take {
    ghost use Rattle.deliver_core.specs.OutletSteps.{IsAfterTake};

    ghost then = { λ v m w. IsAfterTake m v w };
}

impl Lesson<Message, PassView> for Take {
    ghost use Rattle.deliver_core.specs.OutletSteps.{TellsWaiting};

    ghost fact = { TellsWaiting };
}

/// The tap meets a port.
pub struct Meet;

impl Join<PassView> for Meet {
    ghost use Rattle.deliver_core.specs.declared.pass_view.PassView.TheVariants.{Spent};
    ghost use Rattle.deliver_core.specs.PassViews.{with_met};

    ghost both = { with_met };

    ghost spent = { Spent };
}
