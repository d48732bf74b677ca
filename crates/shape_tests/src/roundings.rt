//! Texts whose numbers are rounded to the nearest unit of the scale.

use crate::geom_readings::{corners, corners_at, reprinted_at};
use std::alloc::AllocError;
use wkt_core::{Rounding, Scale, WktFault};

/// The scale without decimals, at which numbers are rounded.
fn whole() -> Scale {
    Scale::new(0).unwrap().with_rounding(Rounding::Nearest)
}

/// The scale with this number of decimals, 0 to 6, at which numbers are rounded.
fn rounded(digits: u32) -> Scale {
    match Scale::new(digits) {
        Some(scale) => scale.with_rounding(Rounding::Nearest),
        None => whole(),
    }
}

/// Texts of points, the numbers of decimals, and the points in units of the last decimal.
const POINTS: &[(&[u8], u32, (i64, i64))] = &[
    (b"POINT (3.7649999999999997 0)", 6, (3_765_000, 0)),
    (b"POINT (-0.5 0.5)", 0, (-1, 1)),
    (b"POINT (0.4999999999999999999999 -0.49)", 0, (0, 0)),
    (b"POINT (.5 -.5)", 1, (5, -5)),
    (b"POINT (1E3 -2e+1)", 0, (1000, -20)),
    (b"POINT (1.5e-7 1e-7)", 6, (0, 0)),
    (b"POINT (5e-7 -4.9e-7)", 6, (1, 0)),
    (b"POINT (123.456e-2 123.456e2)", 3, (1235, 12_345_600)),
    (b"POINT (1.255 -1.255)", 2, (126, -126)),
    (b"POINT (0.0099 0.95)", 1, (0, 10)),
    (b"POINT (0e999999999999999999999 0)", 0, (0, 0)),
    (b"POINT (7e-999999999999999999999 1)", 6, (0, 1_000_000)),
    (
        b"POINT (999999999999.5 -999999999999.49)",
        0,
        (1_000_000_000_000, -999_999_999_999),
    ),
    (b"POINT (00012.5000 1.e1)", 1, (125, 100)),
];

#[test]
fn numbers_are_rounded(rt: HostRuntime) {
    for &(text, digits, (x, y)) in POINTS {
        assert!(rt; corners_at(text, rounded(digits)) == Ok((x, y, x, y)));
    }
}

/// Texts that are refused at a rounding scale without decimals.
const REFUSED: &[(&[u8], WktFault)] = &[
    (b"POINT (1e999999999999999999 0)", WktFault::Number),
    (b"POINT (1000000000000.5 0)", WktFault::Number),
    (b"POINT (1e13 0)", WktFault::Number),
    (b"POINT (. 0)", WktFault::Text),
    (b"POINT (-. 0)", WktFault::Text),
    (b"POINT (e1 0)", WktFault::Text),
    (b"POINT (1e 0)", WktFault::Text),
    (b"POINT (1e+ 0)", WktFault::Text),
    (b"POINT (1e1.5 0)", WktFault::Text),
    (b"POINT (1 e1 0)", WktFault::Text),
    (b"POINT (1e1e1 0)", WktFault::Text),
    (b"LINESTRING (0 0, 0.4 0.3)", WktFault::Form),
    (b"POLYGON ((0 0, 4 0, 4 0.4, 0 0.4, 0 0))", WktFault::Form),
];

#[test]
fn texts_are_refused_once_rounded(rt: HostRuntime) {
    for &(text, fault) in REFUSED {
        assert!(rt; corners_at(text, whole()) == Err(fault));
    }
}

#[test]
fn shapes_are_those_of_rounded_points(rt: HostRuntime) -> Result<(), AllocError> {
    let ring = b"POLYGON ((0.2 -0.4, 3.9 0.1, 4.4 3.5, -0.3 4.2, 0 0))";
    assert!(rt; corners_at(ring, whole()) == Ok((0, 0, 4, 4)));
    let line = b"LINESTRING (1.4999 2.0001, .5 2e0)";
    let printed = reprinted_at(rt.alloc(), line, rounded(3))?;
    assert!(rt; printed.as_str() == "LINESTRING (0.5 2, 1.5 2)");
    Ok(())
}

#[test]
fn without_rounding_texts_are_refused(rt: HostRuntime) {
    assert!(rt; corners(b"POINT (3.7649999999999997 0)") == Err(WktFault::Number));
    assert!(rt; corners(b"POINT (.5 0)") == Err(WktFault::Text));
    assert!(rt; corners(b"POINT (1E3 0)") == Err(WktFault::Text));
    assert!(rt; rounded(2).digits() == 2);
    assert!(rt; rounded(2).rounding() == Rounding::Nearest);
}
