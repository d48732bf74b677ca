//! The options of a join.

use pair_core::{MAX_BATCH, MAX_CUT, MAX_WORKERS, OptionFault, Options};
use std::alloc::{AllocError, Global};
use std::string::ToString;
use std::test::Fail;

#[test]
fn board_and_outlet(rt: HostRuntime) {
    assert!(rt; Options::new(0, 0, 9) == Err(OptionFault::Workers));
    assert!(rt; Options::new(1, 4097, 9) == Err(OptionFault::Batch));
    assert!(rt; Options::new(16, 4096, 9) == Err(OptionFault::Cut));
    let options = Options::new(16, 4096, 8);
    let Ok(options) = options else {
        panic!(rt; "within the limits");
    };
    assert!(rt; (options.workers(), options.batch(), options.cut()) == (16, 4096, 8));
}

/// The faults of options, and their texts.
const TEXTS: &[(OptionFault, &str)] = &[
    (OptionFault::Workers, "--workers must be 1 to 16"),
    (OptionFault::Batch, "--batch must be 1 to 4096"),
    (OptionFault::Cut, "--cut must be 0 to 8"),
];

#[test]
fn option_texts(rt: HostRuntime) -> Result<(), Fail> {
    for &(fault, text) in TEXTS {
        assert!(rt; fault.to_string(rt.alloc())?.as_str() == text && fault.text() == text);
    }
    Ok(())
}

/// Faults of options, the text before a limit, and the limit.
const LIMITS: &[(OptionFault, &str, u32)] = &[
    (OptionFault::Workers, "--workers must be 1 to", MAX_WORKERS),
    (OptionFault::Batch, "--batch must be 1 to", MAX_BATCH),
    (OptionFault::Cut, "--cut must be 0 to", MAX_CUT as u32),
];

/// Whether the text of a fault is this text followed by this limit.
fn tells(alloc: Global, fault: OptionFault, front: &str, limit: u32) -> Result<bool, AllocError> {
    Ok(format!(in alloc; "{front} {limit}")?.as_str() == fault.text())
}

#[test]
fn texts_tell_the_limits(rt: HostRuntime) -> Result<(), Fail> {
    for &(fault, front, limit) in LIMITS {
        assert!(rt; tells(rt.alloc(), fault, front, limit)?, "{front}");
    }
    Ok(())
}
