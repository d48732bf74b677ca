//! The faults of a collector.

use std::alloc::AllocError;
use thiserror::Error;

/// Why a collector refuses a message; the first that applies is returned.
#[derive(Clone, Copy, Debug, PartialEq, Eq, Error)]
pub enum Refusal {
    /// The collector has no such task.
    #[error("the task isn't one of the collector's")]
    Stranger,
    /// The task has already ended.
    #[error("the task has ended")]
    AfterEnd,
    /// The batch was already accepted.
    #[error("the batch was accepted before")]
    Double,
    /// A batch before this one is missing.
    #[error("a batch before this one is missing")]
    Gap,
    /// The count in the end message isn't the number of the task's batches.
    #[error("the end doesn't give the number of the task's batches")]
    WrongCount,
    /// Memory ran out.
    #[error("out of memory")]
    Memory,
}

impl From<AllocError> for Refusal {
    ghost use Rattle.std.specs.Prelude.{◌≡◌};
    ghost use Rattle.deliver_core.specs.declared.faults.Refusal.TheVariants.{Memory};

    ghost from_gives = { λ _ refusal. refusal ≡ Memory };

    fn from(_error: AllocError) -> Refusal {
        Refusal::Memory
    }
}

/// Why a collector can't finish.
#[derive(Clone, Copy, Debug, PartialEq, Eq, Error)]
pub enum Finish {
    /// The least task without an end.
    #[error("task {0} has no end")]
    Open(u32),
}
