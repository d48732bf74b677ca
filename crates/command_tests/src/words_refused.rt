//! Reading words without memory. With each allocation failing in turn, reading words again has the
//! same result as without the failure.

use std::alloc::{AllocError, Global};
use words_core::{WordFault, read_words};

/// Words of each command, and words at fault.
const WORDS: &[(&str, &str)] = &[
    (
        "rjoin|join|l.csv|q.csv|--relation|touches|--geometry|any|--rings|even-odd",
        "",
    ),
    ("rjoin|stats|l.csv|--geometry|any", ""),
    ("rjoin|near|l.csv|q.csv|--distance|5|--apart", ""),
    (
        "rjoin|near|l.csv|q.csv|--distance|far",
        "--distance must be a number of the scale, 0 to 4000000000000 units",
    ),
    ("rjoin|nearest|l.csv|q.csv|--most|3|--distance|5", ""),
    (
        "rjoin|nearest|l.csv|q.csv|--most|0",
        "--most must be 1 to 4294967295",
    ),
    (
        "rjoin|join|l.csv|q.csv|--relation|disjoint|--geometry|any",
        "--relation: disjoint features may fit",
    ),
    (
        "rjoin|bounds|l.csv|--geometry|lines",
        "--geometry must be box or any",
    ),
    (
        "rjoin|draw|l.csv|q.csv|--relation|touch",
        "rjoin: --relation: not a name or a mask of nine letters\ndid you mean touches?\n",
    ),
    (
        "rjoin|draw|-|-|--relation|touches",
        "error: only one of LEFT, RIGHT and --edits can be -\n",
    ),
];

/// Whether words are a command, or a fault with this text.
fn ends(alloc: Global, words: &'static str, text: &str) -> Result<bool, AllocError> {
    let words: Vec<&str> = words.split('|').collect(alloc)?;
    match read_words(alloc, words.as_slice()) {
        Ok(_) => Ok(text.is_empty()),
        Err(WordFault::Memory) => Err(AllocError),
        Err(fault) => Ok(format!(in alloc; "{fault}")?.as_str() == text),
    }
}

/// The same, asked again if an allocation fails.
fn ends_at_last(alloc: Global, words: &'static str, text: &str) -> Result<bool, AllocError> {
    match ends(alloc, words, text) {
        Ok(is_so) => Ok(is_so),
        Err(AllocError) => ends(alloc, words, text),
    }
}

#[test]
fn words_without_memory(rt: HostRuntime) -> Result<(), AllocError> {
    for &(words, text) in WORDS {
        assert!(rt; ends_at_last(rt.alloc(), words, text)?, "{words}");
    }
    Ok(())
}
