//! A port: one sender's end of an outlet.

ghost use Rattle.std.specs.Prelude.{◌≡◌, true, false, Some, is_some};
ghost use Rattle.std.specs.Option.{ForSome};
ghost use Rattle.crossbeam_queue.specs.Passes.{view};
ghost use Rattle.deliver_core.specs.Byes.{has_bye};
ghost use Rattle.deliver_core.specs.PassViews.{sender_of, sent_of};

use crate::message::Message;
use crate::pass_view::PassView;
use crossbeam_queue::Pass;

/// The right of one sender to put messages into its outlet. Contracts see the messages that it has
/// sent; a port that was met is spent, and its list of messages is the tap's.
#[derive(Drop)]
pub struct Port {
    pub(crate) pass: Option<Pass<Message, PassView>>,
    pub(crate) index: u32,
    pub(crate) said_bye: bool,
    ghost carried: { ForSome pass
        (λ p. (sender_of (view p) ≡ Some index) × (has_bye (sent_of (view p)) ≡ said_bye)) },
    ghost open: { said_bye ≡ false → is_some pass ≡ true },
}

impl Port {
    ghost use Rattle.deliver_core.specs.Ports.{index_of, has_said_bye, IsNewPass, IsNewPort};

    /// The port of a new pass.
    pub(crate) fn new(index: u32, pass: Pass<Message, PassView>) -> Port
        requires { IsNewPass index pass }
        ensures { IsNewPort index pass result }
    {
        Port {
            pass: Some(pass),
            index,
            said_bye: false,
        }
    }

    /// The index of the port in its outlet, from 0.
    pub fn index(&self) -> u32
        ensures { result ≡ index_of self.now }
    {
        self.index
    }

    /// Whether the port has sent its Bye.
    pub fn said_bye(&self) -> bool
        ensures { result ≡ has_said_bye self.now }
    {
        self.said_bye
    }
}
