//! The matrix of the shapes of two texts.

use relation_core::relate;
use wkt_core::{Scale, WktFault, read};

/// The matrix of the shapes that two texts spell.
fn related(first: &[u8], second: &[u8]) -> Result<[u8; 9], WktFault> {
    let whole = Scale::new(0).unwrap();
    Ok(relate(&read(first, whole)?, &read(second, whole)?).text())
}

#[test]
fn relate_points(rt: HostRuntime) {
    assert!(rt; related(b"POINT (4 4)", b"POINT(4 4)") == Ok(*b"0FFFFFFF2"));
    assert!(rt; related(b"POINT (4 4)", b"POINT (5 4)") == Ok(*b"FF0FFF0F2"));
}

#[test]
fn ring_spellings(rt: HostRuntime) {
    let square = b"POLYGON ((0 0, 4 0, 4 4, 0 4, 0 0))";
    let ring = b"polygon((4 4,4 0,0 0,0 4,4 4))";
    assert!(rt; related(square, ring) == Ok(*b"2FFF1FFF2"));
}
