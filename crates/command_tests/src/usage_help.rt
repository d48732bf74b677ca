//! The help on commands and inputs, and the version.

use crate::help_texts::{
    OF_BOUNDS, OF_DRAW, OF_JOIN, OF_NEAR, OF_NEAREST, OF_RELATE, OF_STATS, OF_THE_PROGRAM,
    OF_WINDOW,
};
use number_core::Limits;
use std::alloc::Global;
use std::test::Fail;
use usage_core::usage_of;

/// Words that ask for help or the version, and the text shown.
const HELP: &[(&str, &str)] = &[
    ("rjoin|--version", "rjoin 0.2.0\n"),
    ("rjoin|--help", OF_THE_PROGRAM),
    ("rjoin|help", OF_THE_PROGRAM),
    ("rjoin|relate|--help", OF_RELATE),
    ("rjoin|join|--help", OF_JOIN),
    ("rjoin|near|--help", OF_NEAR),
    ("rjoin|nearest|--help", OF_NEAREST),
    ("rjoin|draw|--help", OF_DRAW),
    ("rjoin|help|draw", OF_DRAW),
    ("rjoin|window|--help", OF_WINDOW),
    ("rjoin|stats|--help", OF_STATS),
    ("rjoin|bounds|--help", OF_BOUNDS),
    ("rjoin|help|bounds", OF_BOUNDS),
];

/// The text of help that words between `|` ask for, or no text if they ask for none.
fn help_of(alloc: Global, words: &'static str) -> Result<String, Fail> {
    let words: Vec<&str> = words.split('|').collect(alloc)?;
    shown_help(alloc, words.as_slice())
}

/// The text of help that `clap` shows for these words, or no text if it shows none.
fn shown_help<'a>(alloc: Global, words: &'a [&'a str]) -> Result<String, Fail> {
    let program = usage_of(alloc, words)?;
    match program.try_get_matches_from(words) {
        Ok(_matches) => Ok(String::new(alloc)),
        Err(error) => help_in(alloc, &error),
    }
}

/// The text of an error of `clap` that is help, or no text if it's a fault.
fn help_in(alloc: Global, error: &clap::Error) -> Result<String, Fail> {
    if error.use_stderr() {
        return Ok(String::new(alloc));
    }
    Ok(format!(in alloc; "{error}")?)
}

#[test]
fn help_and_version(rt: HostRuntime) -> Result<(), Fail> {
    for &(words, text) in HELP {
        assert!(rt; help_of(rt.alloc(), words)?.as_str() == text, "{words}");
    }
    Ok(())
}

#[test]
fn help_tells_the_farthest_coordinate(rt: HostRuntime) -> Result<(), Fail> {
    let (boxes, any) = (Limits::Boxes.units(), Limits::Any.units());
    let text = format!(in rt.alloc();
        "absolute value is at most {boxes}, or {any} with --geometry any."
    )?;
    assert!(rt;
        help_of(rt.alloc(), "rjoin|--help")?
            .as_str()
            .contains(text.as_str())
    );
    Ok(())
}
