//! Reading the three numbers that divide a join among threads.

ghost use Rattle.std.specs.Prelude.{◌≡◌, ◌≢◌, None, Some, codes, IfOk, IfErr};
ghost use Rattle.words_core.specs.Readings.{AreMeant, AreOptionsIn, NeedsOptions, Says, found_in};
ghost use Rattle.words_core.specs.Readings.{is_auto, missing_text, workers_at};

use super::arguments::{number, optional};
use crate::words::{WordFault, Workers};
use clap::ArgMatches;
use pair_core::{MAX_WORKERS, Options};
use std::alloc::Global;

/// The value of `--workers` that asks for a worker for each processor.
const AUTO: &str = "auto";

/// Reads the options, and how their number of workers is meant.
pub fn read_options(alloc: Global, given: &ArgMatches<'_>) -> Result<(Options, Workers), WordFault>
    ensures ok { IfOk result (λ read. AreOptionsIn (found_in given.now) read.0 read.1) }
    ensures err { IfErr result (λ f. f ≢ WordFault.Memory
        → NeedsOptions (found_in given.now) f ⊥) }
{
    let (count, workers) = read_workers(alloc, given)?;
    let batch = number(alloc, given, "batch")?;
    let cut = number(alloc, given, "cut")?;
    let options = Options::new(count, batch, cut)?;
    Ok((options, workers))
}

/// Reads the number of workers, and how it is meant.
fn read_workers(alloc: Global, given: &ArgMatches<'_>) -> Result<(u32, Workers), WordFault>
    ensures ok { IfOk result (λ read. workers_at (found_in given.now) ≡ Some read.0) }
    ensures meant { IfOk result (λ read. AreMeant (found_in given.now) read.1) }
    ensures none { IfErr result (λ _. workers_at (found_in given.now) ≡ None) }
    ensures told { IfErr result (λ f. f ≢ WordFault.Memory
        → Says (missing_text (codes "workers")) f) }
{
    if is_auto(given) {
        return Ok((MAX_WORKERS, Workers::Auto));
    }
    let count = number(alloc, given, "workers")?;
    Ok((count, Workers::Exact))
}

/// Whether a worker for each processor is asked for.
fn is_auto(given: &ArgMatches<'_>) -> bool
    ensures { result ≡ is_auto (found_in given.now) }
{
    match optional(given, "workers") {
        Some(word) => AUTO == word,
        None => false,
    }
}
