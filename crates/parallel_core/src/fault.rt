//! The faults of processing a plan.

ghost use Rattle.std.specs.Prelude.{◌≡◌};
ghost use Rattle.parallel_core.specs.declared.fault.JoinFault.TheVariants as join_faults;
ghost use Rattle.parallel_core.specs.Faults.{fault_of, open_fault};

use deliver_core::{Finish, Refusal};
use std::alloc::AllocError;
use thiserror::Error;

/// Why the workers couldn't process a plan.
#[derive(Clone, Copy, Debug, PartialEq, Eq, Error)]
pub enum JoinFault {
    /// Memory ran out.
    #[error("no memory")]
    Memory,
    /// A worker couldn't be started.
    #[error("a worker could not be started")]
    NoThread,
    /// The collector refused a message.
    #[error("a message was refused")]
    Refused(Refusal),
    /// The task with this number has no end.
    #[error("task {0} was not ended")]
    Open(u32),
}

impl From<AllocError> for JoinFault {
    ghost from_gives = { λ _ fault. fault ≡ join_faults.Memory };

    fn from(_error: AllocError) -> JoinFault {
        JoinFault::Memory
    }
}

impl From<Refusal> for JoinFault {
    ghost from_gives = { λ refusal fault. fault ≡ fault_of refusal };

    fn from(refusal: Refusal) -> JoinFault {
        match refusal {
            Refusal::Memory => JoinFault::Memory,
            _ => JoinFault::Refused(refusal),
        }
    }
}

impl From<Finish> for JoinFault {
    ghost from_gives = { λ finish fault. fault ≡ open_fault finish };

    fn from(finish: Finish) -> JoinFault {
        let Finish::Open(task) = finish;
        JoinFault::Open(task)
    }
}
