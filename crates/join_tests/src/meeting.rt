//! The number of workers that decide at once.

ghost use Rattle.std.specs.Prelude.{◌≡◌};
ghost use Rattle.join_tests.specs.Sums.{AreClose, HaveEvenSum};

use refine_core::{Condition, refine_pairs};
use std::alloc::{AllocError, Global};
use std::sync::atomic::{AtomicU32, Ordering};
use std::test::Fail;
use std::thread;

/// The number of times that a worker checks if the others have come.
const LOOKS: u32 = 2_000_000;

/// The condition of even sums. A pair is decided once `wanted` pairs are being decided at the same
/// time; a worker that waits in vain goes on, and no other waits after that.
#[derive(Drop)]
struct Meeting {
    wanted: u32,
    entered: AtomicU32,
    missed: AtomicU32,
}

impl Meeting {
    fn of(wanted: u32) -> Meeting {
        Meeting {
            wanted,
            entered: AtomicU32::new(0),
            missed: AtomicU32::new(0),
        }
    }

    /// Waits until `wanted` workers have entered.
    fn enter(&self) {
        self.entered.fetch_add(1, Ordering::SeqCst);
        for _ in 0..LOOKS {
            let is_met = self.entered.load(Ordering::SeqCst) >= self.wanted;
            if is_met || self.missed.load(Ordering::SeqCst) > 0 {
                return;
            }
            thread::yield_now();
        }
        self.missed.store(1, Ordering::SeqCst);
    }

    /// Whether `wanted` workers have met.
    fn has_met(&self) -> bool {
        self.missed.load(Ordering::SeqCst) == 0
    }
}

impl Condition for Meeting {
    type Answer = ();

    ghost near = { λ condition left right. AreClose left right };

    ghost stands = { λ condition left right. HaveEvenSum left right };

    ghost answers = { λ condition left right answer. Unit {0} };

    fn decide(&self, _alloc: Global, left: u32, right: u32) -> Result<Option<()>, AllocError> {
        self.enter();
        Ok((left % 2 == right % 2).then_some(()))
    }

    ghost stands_near = { λ condition left right is. is.0 };
}

#[test]
fn three_workers_meet(rt: HostRuntime) -> Result<(), Fail> {
    let meeting = Meeting::of(3);
    let pairs = [(1, 1), (1, 2), (1, 3)];
    let refined = refine_pairs(&rt, rt.alloc(), &meeting, &pairs, 3)?;
    assert!(rt; refined.len() == 2 && meeting.has_met());
    Ok(())
}

#[test]
fn two_workers_are_no_more(rt: HostRuntime) -> Result<(), Fail> {
    let meeting = Meeting::of(3);
    let pairs = [(1, 1), (1, 2), (1, 3)];
    let refined = refine_pairs(&rt, rt.alloc(), &meeting, &pairs, 2)?;
    assert!(rt; refined.len() == 2 && !meeting.has_met());
    Ok(())
}

#[test]
fn one_worker_is_alone(rt: HostRuntime) -> Result<(), Fail> {
    let meeting = Meeting::of(2);
    let pairs = [(1, 1), (1, 2), (1, 3)];
    let refined = refine_pairs(&rt, rt.alloc(), &meeting, &pairs, 1)?;
    assert!(rt; refined.len() == 2 && !meeting.has_met());
    Ok(())
}
