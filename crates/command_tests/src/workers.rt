//! The number of workers that words ask for.

use crate::read_words::{is_refused, parted};
use pair_core::{MAX_WORKERS, Options};
use std::alloc::Global;
use std::test::Fail;
use words_core::{Command, Workers, read_words};

/// Words of commands that take a number of workers, the number, and how it is meant.
const ASKED: &[(&str, u32, Workers)] = &[
    ("rjoin|nearest|l.csv|q.csv", 4, Workers::Exact),
    (
        "rjoin|join|l.csv|q.csv|--relation|within|--workers|auto",
        MAX_WORKERS,
        Workers::Auto,
    ),
    (
        "rjoin|draw|--workers|auto|l.csv|q.csv|--relation|within",
        MAX_WORKERS,
        Workers::Auto,
    ),
    (
        "rjoin|near|l.csv|q.csv|--workers=auto|--distance|5",
        MAX_WORKERS,
        Workers::Auto,
    ),
    (
        "rjoin|nearest|l.csv|--workers|auto|q.csv|--cut|1",
        MAX_WORKERS,
        Workers::Auto,
    ),
    (
        "rjoin|nearest|auto|--workers|auto|--|--workers",
        MAX_WORKERS,
        Workers::Auto,
    ),
    ("rjoin|nearest|--workers|16|auto|q.csv", 16, Workers::Exact),
    (
        "rjoin|nearest|--workers|7|--|--workers|auto",
        7,
        Workers::Exact,
    ),
    ("rjoin|nearest|auto|auto", 4, Workers::Exact),
];

/// The options of a command that has some, and how their number of workers is meant.
fn workers_of(command: &Command<'_>) -> Option<(Options, Workers)> {
    match command {
        Command::Join(join) => Some((join.options, join.workers)),
        Command::Near(near) => Some((near.options, near.workers)),
        Command::Nearest(nearest) => Some((nearest.options, nearest.workers)),
        _ => None,
    }
}

/// Whether words ask for this number of workers, meant in this way.
fn asks_for(
    alloc: Global,
    words: &'static str,
    count: u32,
    workers: Workers,
) -> Result<bool, Fail> {
    match workers_of(&read_words(alloc, parted(alloc, words)?.as_slice())?) {
        Some(read) => Ok(read.0.workers() == count && read.1 == workers),
        None => Ok(false),
    }
}

#[test]
fn numbers_of_workers(rt: HostRuntime) -> Result<(), Fail> {
    for &(words, count, workers) in ASKED {
        assert!(rt; asks_for(rt.alloc(), words, count, workers)?, "{words}");
    }
    Ok(())
}

const RANGE: &str = "--workers must be 1 to 16";

/// Words of a search after its files, and the text of their fault, of which that of a value that is
/// neither a number nor `auto` is `clap`'s.
const FAULTS: &[(&str, &str)] = &[
    ("--workers|0", RANGE),
    ("--workers|17", RANGE),
    (
        "--workers|AUTO",
        "error: invalid value 'AUTO' for '--workers <workers>': invalid digit found in string\n\n\
        For more information, try '--help'.\n",
    ),
    (
        "--workers=",
        "error: invalid value '' for '--workers <workers>': cannot parse integer from empty \
        string\n\nFor more information, try '--help'.\n",
    ),
    (
        "--workers| auto|--batch|0",
        "error: invalid value ' auto' for '--workers <workers>': invalid digit found in string\n\n\
        For more information, try '--help'.\n",
    ),
    (
        "--workers|4294967296",
        "error: invalid value '4294967296' for '--workers <workers>': 4294967296 is not in \
        0..=4294967295\n\nFor more information, try '--help'.\n",
    ),
    (
        "--workers|x|--batch|y",
        "error: invalid value 'x' for '--workers <workers>': invalid digit found in string\n\n\
        For more information, try '--help'.\n",
    ),
    (
        "--workers|auto|--batch|y",
        "error: invalid value 'y' for '--batch <batch>': invalid digit found in string\n\n\
        For more information, try '--help'.\n",
    ),
    ("--workers|auto|--batch|0", "--batch must be 1 to 4096"),
    ("--workers|auto|--cut|9", "--cut must be 0 to 8"),
];

#[test]
fn faults_of_workers(rt: HostRuntime) -> Result<(), Fail> {
    for &(last, text) in FAULTS {
        assert!(rt; is_refused(rt.alloc(), "nearest", last, text)?, "{last}");
    }
    Ok(())
}
