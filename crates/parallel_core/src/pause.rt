//! Waiting for messages.

ghost use Rattle.std.specs.Prelude.{◌≡◌, ◌+◌, ◌<◌, ◌≤◌};

use std::sync::Wait;
use std::thread;
use std::thread::Parker;
use std::time::Duration;

/// The number of yields before the first sleep.
const YIELDS: u32 = 64;

/// The length of one sleep, in microseconds.
const NAP_MICROS: u64 = 50;

/// Lets other threads run, at first by yielding and later by sleeping.
#[derive(Drop)]
pub(crate) struct Pause {
    parker: Parker,
    yields: u32,
}

impl Pause {
    /// A pause that starts with yields.
    pub(crate) fn new() -> Pause
        ensures { result.yields ≡ 0 }
    {
        Pause {
            parker: Parker::new(),
            yields: 0,
        }
    }

    /// Yields once, or sleeps for a short time.
    pub(crate) fn rest<R: Wait>(&mut self, rt: &R)
        ensures yields { self.old.yields < YIELDS → self.new.yields ≡ self.old.yields + 1 }
        ensures sleeps { YIELDS ≤ self.old.yields → self.new.yields ≡ self.old.yields }
    {
        if self.yields < YIELDS {
            self.yields += 1;
            thread::yield_now();
        } else {
            let nap = Duration::from_micros(NAP_MICROS);
            self.parker.park_timeout(rt, nap);
        }
    }

    /// Starts with yields again.
    pub(crate) fn begin_again(&mut self)
        ensures { self.new.yields ≡ 0 }
    {
        self.yields = 0;
    }
}
