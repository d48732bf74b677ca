//! How many workers a command has.

ghost use Rattle.std.specs.Prelude.{◌≡◌, min, MatchOption};
ghost use Rattle.std.specs.Int.NonZero.{non_zero_usize_get};
ghost use Rattle.pair_core.specs.Options.{batch_of, cut_of, workers_of};

use pair_core::Options;
use std::num::NonZeroUsize;
use std::thread::{Threads, available_parallelism};
use words_core::Workers;

/// The options of a run whose number of workers is meant in this way. The system is asked for its
/// processors at `Auto` alone.
pub fn options_for<R: Threads>(rt: &R, options: Options, workers: Workers) -> Options
    ensures exact { workers ≡ Workers.Exact → result ≡ options }
    ensures batch { batch_of result ≡ batch_of options }
    ensures cut { cut_of result ≡ cut_of options }
{
    match workers {
        Workers::Exact => options,
        Workers::Auto => limited(options, available_parallelism(rt).ok()),
    }
}

/// These options with a worker for each processor, and at most as many workers as before; with one
/// worker if the number of processors isn't known.
fn limited(options: Options, processors: Option<NonZeroUsize>) -> Options
    ensures workers { MatchOption processors (workers_of result ≡ 1)
        (λ count. workers_of result ≡ min (workers_of options) (non_zero_usize_get count)) }
    ensures batch { batch_of result ≡ batch_of options }
    ensures cut { cut_of result ≡ cut_of options }
{
    let count = match processors {
        Some(count) if count.get() < options.workers() as usize => count.get() as u32,
        Some(_) => options.workers(),
        None => 1,
    };
    let cut = u32::from(options.cut());
    Options::new(count, options.batch(), cut).unwrap_or(options)
}
