//! Reading texts and printing their shapes.

use std::alloc::{AllocError, Global};
use wkt_core::{
    Scale, WktFault, migration_law, nearest_law, one_shape_law, print, read, rounding_law,
    widened_law,
};

/// The corners of the shape that a text spells at a scale.
pub(crate) fn corners_at(text: &[u8], scale: Scale) -> Result<(i64, i64, i64, i64), WktFault> {
    match read(text, scale) {
        Ok(shape) => Ok((shape.x1(), shape.y1(), shape.x2(), shape.y2())),
        Err(fault) => Err(fault),
    }
}

/// The corners of the shape that a text spells at scale 0, or its fault.
pub(crate) fn corners(text: &[u8]) -> Result<(i64, i64, i64, i64), WktFault> {
    corners_at(text, Scale::new(0).unwrap())
}

/// The canonical text of the shape that a text spells at a scale; empty if it spells none.
pub(crate) fn reprinted_at(alloc: Global, text: &[u8], scale: Scale) -> Result<String, AllocError> {
    match read(text, scale) {
        Ok(shape) => print(alloc, &shape, scale),
        Err(_) => Ok(String::new(alloc)),
    }
}

/// The canonical text of the shape that a text spells at scale 0; empty if it spells none.
fn reprinted(alloc: Global, text: &[u8]) -> Result<String, AllocError> {
    reprinted_at(alloc, text, Scale::new(0).unwrap())
}

/// Texts, the corners of their shapes, and the canonical texts of these.
const SHAPES: &[(&[u8], (i64, i64, i64, i64), &str)] = &[
    (b"POINT (1.000 -0)", (1, 0, 1, 0), "POINT (1 0)"),
    (b" Point(+007. 2 ) ", (7, 2, 7, 2), "POINT (7 2)"),
    (
        b"LINESTRING (3 0, 1 0)",
        (1, 0, 3, 0),
        "LINESTRING (1 0, 3 0)",
    ),
    (
        b"POLYGON((4 4,4 0,0 0,0 4,4 4))",
        (0, 0, 4, 4),
        "POLYGON ((0 0, 4 0, 4 4, 0 4, 0 0))",
    ),
    (
        b"POINT (1000000000 0)",
        (1_000_000_000, 0, 1_000_000_000, 0),
        "POINT (1000000000 0)",
    ),
    (
        b"POINT (1000000001 0)",
        (1_000_000_001, 0, 1_000_000_001, 0),
        "POINT (1000000001 0)",
    ),
];

#[test]
fn wkt_readings(rt: HostRuntime) -> Result<(), AllocError> {
    for &(text, wanted, canonical) in SHAPES {
        assert!(rt; corners(text) == Ok(wanted));
        assert!(rt; reprinted(rt.alloc(), text)?.as_str() == canonical);
    }
    let faults: &[(&[u8], WktFault)] = &[
        (b"POINT (1.5 0)", WktFault::Number),
        (b"LINESTRING (0 0, 1 1.5)", WktFault::Number),
        (b"LINESTRING (0 0, 0 0)", WktFault::Form),
        (b"LINESTRING (0 0, 1 1)", WktFault::Form),
        (b"LINESTRING (0 0)", WktFault::Form),
        (b"POLYGON ((0 0, 4 0, 4 4, 0 4, 0 1))", WktFault::Form),
        (b"", WktFault::Text),
        (b"POINT EMPTY", WktFault::Text),
        (b"POINT (1 2", WktFault::Text),
        (b"POINT (1,2)", WktFault::Text),
        (b"POINT (1 2) x", WktFault::Text),
        (b"POINT (1e3 0)", WktFault::Text),
        (b"POINT (.0 1)", WktFault::Text),
    ];
    for &(text, fault) in faults {
        assert!(rt; corners(text) == Err(fault));
    }
    Ok(())
}

/// The canonical text of the shape that a text spells, printed again if an allocation fails.
fn reprinted_at_last(alloc: Global, text: &[u8]) -> Result<String, AllocError> {
    match reprinted(alloc, text) {
        Ok(printed) => Ok(printed),
        Err(AllocError) => reprinted(alloc, text),
    }
}

/// Passes with each allocation failing in turn.
#[test]
fn refused_6(rt: HostRuntime) -> Result<(), AllocError> {
    for &(text, _, canonical) in SHAPES {
        assert!(rt; reprinted_at_last(rt.alloc(), text)?.as_str() == canonical);
    }
    Ok(())
}

#[test]
fn white_space_and_cases(rt: HostRuntime) {
    let spread = b"\tLineString\r\n( \t-1 \n +2.0 ,-1\t00005. ) ";
    assert!(rt; corners(spread) == Ok((-1, 2, -1, 5)));
    let texts: &[&[u8]] = &[b"POINT (1 -2.)", b"POINT(1  -2 )", b"pOiNt (1\t-2)"];
    for &text in texts {
        assert!(rt; corners(text) == Ok((1, -2, 1, -2)));
    }
    let faults: &[(&[u8], WktFault)] = &[
        (b"POINT (1-2)", WktFault::Text),
        (b"POINT (- 1 2)", WktFault::Text),
        (b"POINT (1 2, 3 4)", WktFault::Text),
        (b"LINESTRING (0 0 1 0)", WktFault::Text),
        (
            b"POLYGON ((0 0, 1 0, 1 1, 0 1, 0 0), (0 0))",
            WktFault::Form,
        ),
        (
            b"POLYGON ((0 0, 1 0, 1 1, 0 1, 0 0), (0.5 0))",
            WktFault::Number,
        ),
        (b"POLYGON ((0 0, 1 1, 1 0, 0 1, 0 0))", WktFault::Form),
        (b"POLYGON ((0 0, 1 0, 1 0, 0 0, 0 0))", WktFault::Form),
    ];
    for &(text, fault) in faults {
        assert!(rt; corners(text) == Err(fault));
    }
}

#[test]
fn greatest_rectangle(rt: HostRuntime) -> Result<(), AllocError> {
    let text = concat!(
        "POLYGON ((-1000000000000 -1000000000000, 1000000000000 -1000000000000, ",
        "1000000000000 1000000000000, -1000000000000 1000000000000, ",
        "-1000000000000 -1000000000000))"
    );
    let greatest = 1_000_000_000_000;
    assert!(rt; corners(text.as_bytes()) == Ok((-greatest, -greatest, greatest, greatest)));
    assert!(rt; reprinted(rt.alloc(), text.as_bytes())?.as_str() == text);
    one_shape_law();
    widened_law();
    migration_law();
    rounding_law();
    nearest_law();
    Ok(())
}
