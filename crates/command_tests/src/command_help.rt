//! The limits that the help tells.

use crate::word_faults::{parted, shown};
use draw_core::MAX_DRAWN;
use layer_run_core::DEFAULT_WORKERS;
use pair_core::{MAX_BATCH, MAX_CUT, MAX_WORKERS};
use std::alloc::Global;
use std::test::Fail;

/// Parts of the help of `join`: the text before a limit, the limit, the text behind it, and the
/// default.
const LIMITS: &[(&str, u32, &str, u32)] = &[
    (
        "Number of threads, 1 to",
        MAX_WORKERS,
        ", or auto for one per processor",
        DEFAULT_WORKERS,
    ),
    ("Pairs per batch, 1 to", MAX_BATCH, "", 256),
    ("into tasks, 0 to", MAX_CUT as u32, "", 2),
];

/// Whether words show a text that contains this part, and end with success.
fn helps(alloc: Global, words: &'static str, part: &str) -> Result<bool, Fail> {
    let (help, status) = shown(alloc, parted(alloc, words)?.as_slice())?;
    Ok(status == 0 && String::from_utf8(help)?.as_str().contains(part))
}

/// Whether the help of `join` has this text followed by this limit, these words and this default.
fn tells_limit(
    alloc: Global,
    front: &str,
    limit: u32,
    words: &str,
    default: u32,
) -> Result<bool, Fail> {
    let part = format!(in alloc; "{front} {limit}{words} [default: {default}]")?;
    helps(alloc, "rjoin|join|--help", part.as_str())
}

#[test]
fn help_tells_the_limits(rt: HostRuntime) -> Result<(), Fail> {
    for &(front, limit, words, default) in LIMITS {
        assert!(rt;
            tells_limit(rt.alloc(), front, limit, words, default)?,
            "{front}"
        );
    }
    let drawn = format!(in rt.alloc(); "more than {MAX_DRAWN} features")?;
    assert!(rt; helps(rt.alloc(), "rjoin|draw|--help", drawn.as_str())?);
    Ok(())
}
