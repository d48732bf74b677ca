//! Texts at scales of zero, two and six decimals, and the greatest area.

use crate::geom_readings::{corners, corners_at, reprinted_at};
use geom_core::Shape;
use std::alloc::AllocError;
use wkt_core::{Scale, WktFault};

#[test]
fn scale_1(rt: HostRuntime) -> Result<(), AllocError> {
    let hundredths = Scale::new(2).unwrap();
    let text = b"POINT (1.250 -0.10)";
    assert!(rt; corners_at(text, hundredths) == Ok((125, -10, 125, -10)));
    assert!(rt; reprinted_at(rt.alloc(), text, hundredths)?.as_str() == "POINT (1.25 -0.1)");
    Ok(())
}

#[test]
fn scale_2(rt: HostRuntime) -> Result<(), AllocError> {
    let hundredths = Scale::new(2).unwrap();
    let text = b"POINT (-0.05 3)";
    assert!(rt; corners_at(text, hundredths) == Ok((-5, 300, -5, 300)));
    assert!(rt; reprinted_at(rt.alloc(), text, hundredths)?.as_str() == "POINT (-0.05 3)");
    Ok(())
}

#[test]
fn scale_3(rt: HostRuntime) {
    let hundredths = Scale::new(2).unwrap();
    assert!(rt; corners_at(b"POINT (1.255 0)", hundredths) == Err(WktFault::Number));
    assert!(rt; corners(b"POINT (1.5 0)") == Err(WktFault::Number));
}

#[test]
fn scale_4(rt: HostRuntime) {
    let millionths = Scale::new(6).unwrap();
    let greatest = Ok((1_000_000_000_000, 0, 1_000_000_000_000, 0));
    assert!(rt; corners(b"POINT (1000000000000 0)") == greatest);
    assert!(rt; corners_at(b"POINT (1000000 0)", millionths) == greatest);
}

#[test]
fn scale_5(rt: HostRuntime) {
    let millionths = Scale::new(6).unwrap();
    assert!(rt; corners(b"POINT (1000000000001 0)") == Err(WktFault::Number));
    assert!(rt; corners_at(b"POINT (1000000.000001 0)", millionths) == Err(WktFault::Number));
}

#[test]
fn scale_6(rt: HostRuntime) -> Result<(), AllocError> {
    let whole = Scale::new(0).unwrap();
    let printed = reprinted_at(rt.alloc(), b"LINESTRING (3 0, 2 0, 2 0, 1 0)", whole)?;
    assert!(rt; printed.as_str() == "LINESTRING (1 0, 3 0)");
    Ok(())
}

#[test]
fn scale_7(rt: HostRuntime) {
    assert!(rt; corners(b"LINESTRING (0 0, 2 0, 1 0)") == Err(WktFault::Form));
}

#[test]
fn scale_8(rt: HostRuntime) {
    assert!(rt; corners(b"POLYGON ((2 0, 4 0, 4 4, 0 4, 0 0, 2 0))") == Ok((0, 0, 4, 4)));
}

#[test]
fn scale_9(rt: HostRuntime) {
    let text = b"POLYGON ((0 0, 4 0, 2 0, 4 0, 4 4, 0 4, 0 0))";
    assert!(rt; corners(text) == Err(WktFault::Form));
}

#[test]
fn scale_11(rt: HostRuntime) {
    let greatest = 1_000_000_000_000;
    let whole = Shape::new(-greatest, -greatest, greatest, greatest);
    let measures = whole.map(|whole| (whole.dim(), whole.area()));
    assert!(rt; measures == Some((2, 4_000_000_000_000_000_000_000_000)));
}
