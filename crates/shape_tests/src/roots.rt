//! Rounded roots, worked out by hand.

use distance_core::rounded_root;

#[test]
fn small_roots(rt: HostRuntime) {
    assert_eq!(rt; rounded_root(0), 0);
    assert_eq!(rt; rounded_root(1), 1);
    assert_eq!(rt; rounded_root(2), 1);
    assert_eq!(rt; rounded_root(3), 2);
    assert_eq!(rt; rounded_root(6), 2);
    assert_eq!(rt; rounded_root(7), 3);
    assert_eq!(rt; rounded_root(12), 3);
    assert_eq!(rt; rounded_root(13), 4);
}

/// The greatest squares that are rounded down, and the least that are rounded up: n * n + n and
/// n * n + n + 1.
#[test]
fn roots_near_a_half(rt: HostRuntime) {
    assert_eq!(rt; rounded_root(1_000_001_000_000), 1_000_000);
    assert_eq!(rt; rounded_root(1_000_001_000_001), 1_000_001);
    assert_eq!(rt;
        rounded_root(4_000_000_000_002_000_000_000_000),
        2_000_000_000_000
    );
    assert_eq!(rt;
        rounded_root(4_000_000_000_002_000_000_000_001),
        2_000_000_000_001
    );
}

/// The diagonal of the plane: 2,000,000,000,000 times 1.414213562373095..
#[test]
fn diagonal(rt: HostRuntime) {
    assert_eq!(rt;
        rounded_root(8_000_000_000_000_000_000_000_000),
        2_828_427_124_746
    );
}
