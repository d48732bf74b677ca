//! Texts of a million digits, before and after the dot, and of thousands of points, also in a ring.

use crate::geom_readings::corners;
use std::alloc::AllocError;
use wkt_core::WktFault;

#[test]
fn long_texts(rt: HostRuntime) -> Result<(), AllocError> {
    let mut digits = String::from_str(rt.alloc(), "POINT (0 ")?;
    for _ in 0..1_000_000 {
        digits.push_str("9")?;
    }
    assert!(rt; corners(digits.as_bytes()) == Err(WktFault::Text));
    digits.push_str(")")?;
    assert!(rt; corners(digits.as_bytes()) == Err(WktFault::Number));
    let mut points = String::from_str(rt.alloc(), "LINESTRING (0 0")?;
    for _ in 0..10_000 {
        points.push_str(", 1 0")?;
    }
    assert!(rt; corners(points.as_bytes()) == Err(WktFault::Text));
    points.push_str(")")?;
    assert!(rt; corners(points.as_bytes()) == Ok((0, 0, 1, 0)));
    Ok(())
}

#[test]
fn long_fractions(rt: HostRuntime) -> Result<(), AllocError> {
    let mut digits = String::from_str(rt.alloc(), "POINT (0 1.")?;
    for _ in 0..1_000_000 {
        digits.push_str("0")?;
    }
    let further = format!(in rt.alloc(); "{digits}1)")?;
    assert!(rt; corners(further.as_bytes()) == Err(WktFault::Number));
    digits.push_str(")")?;
    assert!(rt; corners(digits.as_bytes()) == Ok((0, 1, 0, 1)));
    Ok(())
}

#[test]
fn long_ring(rt: HostRuntime) -> Result<(), AllocError> {
    let mut points = String::from_str(rt.alloc(), "POLYGON ((0 0")?;
    for x in 1..10_000 {
        points.push_str(&format!(in rt.alloc(); ", {x} 0")?)?;
    }
    points.push_str(", 9999 1, 0 1, 0 0")?;
    let open = format!(in rt.alloc(); "{points}, 1 0))")?;
    assert!(rt; corners(open.as_bytes()) == Err(WktFault::Form));
    points.push_str("))")?;
    assert!(rt; corners(points.as_bytes()) == Ok((0, 0, 9999, 1)));
    Ok(())
}
