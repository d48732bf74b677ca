//! Pairs of any two numbers, sorted by `pair_core`.

use pair_core::{sort_pairs, sort_pairs_by_threads};
use std::test::Fail;

const MIXED: [(u32, u32); 6] = [
    (u32::MAX, u32::MAX),
    (1, 1),
    (0, u32::MAX),
    (u32::MAX, 0),
    (1, u32::MAX),
    (1, 0),
];

const ASCENDING: [(u32, u32); 6] = [
    (0, u32::MAX),
    (1, 0),
    (1, 1),
    (1, u32::MAX),
    (u32::MAX, 0),
    (u32::MAX, u32::MAX),
];

/// Pairs are ordered by the first number, and by the second if the first ones are equal.
#[test]
fn pairs_ascend(rt: HostRuntime) -> Result<(), Fail> {
    let mut alone = MIXED;
    sort_pairs(&mut alone);
    let mut shared = MIXED;
    sort_pairs_by_threads(&rt, &mut shared);
    assert!(rt; alone == ASCENDING);
    assert!(rt; shared == ASCENDING);
    Ok(())
}
