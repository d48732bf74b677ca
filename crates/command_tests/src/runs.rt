//! Running commands over files in memory, and checking their results.

use crate::shelf::Shelf;
use command_core::run_words;
use report_core::ToWrite;
use std::alloc::{AllocError, Global};
use std::random::RandomSource;
use std::sync::Wait;
use std::test::Fail;
use std::thread::Threads;

/// The words of a run with `|` between them, its status, its output and its text on standard error.
pub type Run = (&'static str, u8, &'static str, &'static str);

/// The result of a run.
#[derive(Drop)]
struct Ended {
    status: u8,
    written: Vec<u8>,
    said: Vec<u8>,
}

/// The name of the program, and the words between `|`.
fn given_words(alloc: Global, words: &str) -> Result<Vec<String>, AllocError> {
    let mut given = Vec::new(alloc);
    given.push(String::from_str(alloc, "rjoin")?)?;
    for word in words.split('|') {
        given.push(String::from_str(alloc, word)?)?;
    }
    Ok(given)
}

/// The capacity reserved for the text on standard error, so that writing it allocates no memory.
const ROOM: usize = 512;

/// Runs the words over the files.
fn run_on<R: RandomSource + AllocGlobal + Threads + Wait + Sync>(
    rt: &R,
    files: &[(&str, &str)],
    words: &[String],
) -> Result<Ended, AllocError> {
    let mut output = ToWrite::new(Vec::new(rt.alloc()));
    let mut errors = ToWrite::new(Vec::with_capacity(rt.alloc(), ROOM)?);
    let mut shelf = Shelf { files };
    let status = run_words(rt, words, &mut shelf, &mut output, &mut errors);
    Ok(Ended {
        status,
        written: output.into_inner(),
        said: errors.into_inner(),
    })
}

/// Whether a run has the expected status, output and text on standard error.
pub fn ends<R: RandomSource + AllocGlobal + Threads + Wait + Sync>(
    rt: &R,
    files: &[(&str, &str)],
    run: &(&str, u8, &str, &str),
) -> Result<bool, Fail> {
    let (words, status, written, said) = *run;
    let ended = run_on(rt, files, given_words(rt.alloc(), words)?.as_slice())?;
    Ok(
        ended.status == status
            && ended.written.as_slice() == written.as_bytes()
            && ended.said.as_slice() == said.as_bytes(),
    )
}

/// Whether a run that should succeed ends as expected, or `None` if it fails without memory: then a
/// prefix of the expected output was written.
pub fn attempt<R: RandomSource + AllocGlobal + Threads + Wait + Sync>(
    rt: &R,
    files: &[(&str, &str)],
    run: &(&str, u8, &str, &str),
) -> Option<bool> {
    let (words, _, written, said) = *run;
    let Ok(words) = given_words(rt.alloc(), words) else {
        return None;
    };
    let Ok(ended) = run_on(rt, files, words.as_slice()) else {
        return None;
    };
    if ended.status == 1 && written.as_bytes().starts_with(ended.written.as_slice()) {
        return None;
    }
    Some(
        ended.status == 0
            && ended.written.as_slice() == written.as_bytes()
            && ended.said.as_slice() == said.as_bytes(),
    )
}

/// Checks that each run ends as expected; the failure has the words of the first that doesn't.
pub fn check<R: RandomSource + AllocGlobal + Threads + Wait + Sync>(
    rt: &R,
    files: &[(&str, &str)],
    runs: &[Run],
) -> Result<(), Fail> {
    for run in runs {
        if !ends(rt, files, run)? {
            return Err(Fail::new(run.0));
        }
    }
    Ok(())
}
