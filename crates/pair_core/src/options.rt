//! How a join is run: its workers, its batches and how deep its trees are cut into tasks.

ghost use Rattle.std.specs.Prelude.{◌<◌, ◌≤◌};
ghost use Rattle.pair_core.specs.Limits.{most_workers, most_batch, most_cut};

use crate::limits::{MAX_BATCH, MAX_CUT, MAX_WORKERS};
use thiserror::Error;

/// The number of workers of a join, the size of its batches and the depth of its tasks.
#[derive(Clone, Copy, PartialEq, Eq)]
pub struct Options {
    workers: u32,
    batch: u32,
    cut: u8,
    ghost some_workers: { 0 < workers },
    ghost few_workers: { workers ≤ most_workers },
    ghost some_batch: { 0 < batch },
    ghost small_batch: { batch ≤ most_batch },
    ghost small_cut: { cut ≤ most_cut },
}

/// The first of the three numbers that is out of range.
#[derive(Clone, Copy, Debug, PartialEq, Eq, Error)]
pub enum OptionFault {
    /// The number of workers isn't 1 to [`MAX_WORKERS`].
    #[error("--workers must be 1 to 16")]
    Workers,
    /// The number of pairs in a batch isn't 1 to [`MAX_BATCH`].
    #[error("--batch must be 1 to 4096")]
    Batch,
    /// The cut isn't 0 to [`MAX_CUT`].
    #[error("--cut must be 0 to 8")]
    Cut,
}

impl OptionFault {
    ghost use Rattle.std.specs.Prelude.{◌≡◌, length};
    ghost use Rattle.pair_core.specs.OptionTexts.{option_text};

    /// The text of the fault, in the words of the command line.
    pub fn text(self) -> &'static str
        // the words of the fault
        ensures text { result.now ≡ option_text self }
        // at most 50 bytes
        ensures short { length result.now ≤ 50 }
    {
        match self {
            OptionFault::Workers => "--workers must be 1 to 16",
            OptionFault::Batch => "--batch must be 1 to 4096",
            OptionFault::Cut => "--cut must be 0 to 8",
        }
    }
}

impl Options {
    ghost use Rattle.std.specs.Prelude.{◌≡◌, ◌↔◌, IfOk, IsErrOf};
    ghost use Rattle.pair_core.specs.Options.{workers_of, batch_of, cut_of, AreWorkers, IsBatch};
    ghost use Rattle.pair_core.specs.Options.{IsCut};

    /// The options with these three numbers.
    ///
    /// # Errors
    /// The first of `Workers`, `Batch` and `Cut` whose number is out of range.
    pub fn new(workers: u32, batch: u32, cut: u32) -> Result<Options, OptionFault>
        // each fault exactly for a number out of its range, in this order
        ensures workers { IsErrOf result OptionFault.Workers ↔ ¬ (AreWorkers workers) }
        ensures batch { IsErrOf result OptionFault.Batch
            ↔ (AreWorkers workers × ¬ (IsBatch batch)) }
        ensures cut { IsErrOf result OptionFault.Cut
            ↔ (AreWorkers workers × IsBatch batch × ¬ (IsCut cut)) }
        // the three numbers
        ensures ok { IfOk result (λ o.
            (workers_of o ≡ workers) × (batch_of o ≡ batch) × (cut_of o ≡ cut)) }
    {
        if workers < 1 || workers > MAX_WORKERS {
            return Err(OptionFault::Workers);
        }
        if batch < 1 || batch > MAX_BATCH {
            return Err(OptionFault::Batch);
        }
        if cut > u32::from(MAX_CUT) {
            return Err(OptionFault::Cut);
        }
        Ok(Options {
            workers,
            batch,
            cut: cut as u8,
        })
    }

    /// The number of workers.
    pub fn workers(&self) -> u32
        ensures { result ≡ workers_of self.now }
    {
        self.workers
    }

    /// The number of pairs of a full batch.
    pub fn batch(&self) -> u32
        ensures { result ≡ batch_of self.now }
    {
        self.batch
    }

    /// The number of rounds of cutting.
    pub fn cut(&self) -> u8
        ensures { result ≡ cut_of self.now }
    {
        self.cut
    }
}
