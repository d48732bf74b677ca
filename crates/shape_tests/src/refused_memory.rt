//! Reading texts without memory. With each allocation failing in turn, reading a text again has the
//! same result as without the failure.

use crate::wkt_any_readings::counts;
use std::alloc::{AllocError, Global};
use wkt_any_core::{GeometryFault, Rings};

/// The counts of the geometry that a text spells, read again if an allocation fails.
fn counts_at_last(
    alloc: Global,
    text: &str,
) -> Result<Result<(usize, usize), GeometryFault>, AllocError> {
    match counts(alloc, text, Rings::Proper) {
        Ok(read) => Ok(read),
        Err(AllocError) => counts(alloc, text, Rings::Proper),
    }
}

#[test]
fn growths_are_refused_in_turn(rt: HostRuntime) -> Result<(), AllocError> {
    let rings = "MULTIPOLYGON (((0 0, 9 0, 9 9, 0 9, 0 0), (1 1, 2 1, 1 2, 1 1)))";
    assert!(rt; counts_at_last(rt.alloc(), rings)? == Ok((7, 0)));
    let crossing = "POLYGON ((0 0, 4 4, 4 0, 0 4, 0 0))";
    assert!(rt; counts_at_last(rt.alloc(), crossing)? == Err(GeometryFault::Rings));
    let many = "MULTIPOLYGON (((0 0, 1 0, 0 1, 0 0)), ((2 0, 3 0, 2 1, 2 0)), \
        ((4 0, 5 0, 4 1, 4 0)), ((6 0, 7 0, 6 1, 6 0)), ((8 0, 9 0, 8 1, 8 0)), \
        ((0 2, 2 2, 1 9, 0 2)))";
    assert!(rt; counts_at_last(rt.alloc(), many)? == Ok((18, 0)));
    let flat = "POLYGON ((0 0, 4 0, 8 0, 0 0))";
    assert!(rt; counts_at_last(rt.alloc(), flat)? == Err(GeometryFault::Form));
    let cut = "MULTILINESTRING ((0 0, 1 1), (2 2, 3 3)";
    assert!(rt; counts_at_last(rt.alloc(), cut)? == Err(GeometryFault::Text));
    Ok(())
}
