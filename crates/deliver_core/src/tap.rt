//! The tap: the collector's end of an outlet.

ghost use Rattle.std.specs.Prelude.{◌≡◌, true};
ghost use Rattle.crossbeam_queue.specs.Passes.{view};
ghost use Rattle.deliver_core.specs.PassViews.{is_receiver};

use crate::message::Message;
use crate::pass_view::PassView;
use crossbeam_queue::Pass;

/// The right to take messages out of an outlet. Contracts see the messages that it has taken, and
/// for each port that it met, the messages that the port had sent.
#[derive(Drop)]
pub struct Tap {
    pub(crate) pass: Pass<Message, PassView>,
    ghost carried: { is_receiver (view pass) ≡ true },
}
