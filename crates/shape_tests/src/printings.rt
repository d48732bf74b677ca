//! Geometries, and their texts and boxes.

use plane_core::Geometry;
use std::alloc::{AllocError, Global};
use wkt_any_core::{Rings, print, read};
use wkt_core::Scale;

/// The geometry of a text by the even-odd rule, or `None` if the text spells none.
fn geometry_of(alloc: Global, text: &str, scale: Scale) -> Result<Option<Geometry>, AllocError> {
    Ok(read(alloc, text.as_bytes(), scale, Rings::EvenOdd)?.ok())
}

/// Texts, the decimals of their scale, and the canonical texts of their geometries.
const PRINTED: &[(&str, u32, &str)] = &[
    ("point(+1 2.0)", 0, "POINT (1 2)"),
    ("MULTIPOINT (1 1, 1 1)", 0, "POINT (1 1)"),
    ("multipoint(1 1,(2 2))", 0, "MULTIPOINT ((1 1), (2 2))"),
    (
        "LINESTRING (0 0, 3 2, 3 2, 5 2)",
        0,
        "LINESTRING (0 0, 3 2, 5 2)",
    ),
    ("MULTILINESTRING ((0 0, 2 2))", 0, "LINESTRING (0 0, 2 2)"),
    (
        "LINESTRING (1.250 -0.10, 3 0.05)",
        2,
        "LINESTRING (1.25 -0.1, 3 0.05)",
    ),
    (
        "MULTILINESTRING((0 0,2 2),(2 2,4 0,4 1))",
        0,
        "MULTILINESTRING ((0 0, 2 2), (2 2, 4 0, 4 1))",
    ),
    (
        "MULTIPOLYGON (((0 0, 4 0, 0 4, 0 0)))",
        0,
        "POLYGON ((0 0, 4 0, 0 4, 0 0))",
    ),
    (
        "POLYGON ((0 0, 9 0, 9 9, 0 9, 0 0), (1 1, 2 1, 1 2, 1 1))",
        0,
        "MULTIPOLYGON (((0 0, 9 0, 9 9, 0 9, 0 0)), ((1 1, 2 1, 1 2, 1 1)))",
    ),
];

/// The canonical text of the geometry that a text spells.
fn printed(alloc: Global, text: &str, scale: Scale) -> Result<Option<String>, AllocError> {
    match geometry_of(alloc, text, scale)? {
        Some(geometry) => Ok(Some(print(alloc, &geometry, scale)?)),
        None => Ok(None),
    }
}

#[test]
fn geometries_are_printed(rt: HostRuntime) -> Result<(), AllocError> {
    for (text, digits, wanted) in PRINTED {
        if let Some(scale) = Scale::new(*digits) {
            let canonical = printed(rt.alloc(), text, scale)?;
            assert!(rt; canonical.as_deref() == Some(*wanted), "{text}");
            let again = printed(rt.alloc(), wanted, scale)?;
            assert!(rt; again.as_deref() == Some(*wanted), "{wanted}");
        }
    }
    Ok(())
}

#[test]
fn printing_is_tried_again(rt: HostRuntime) -> Result<(), AllocError> {
    let scale = Scale::new(0).unwrap();
    for text in [
        "MULTIPOINT ((1 1), (2 2))",
        "MULTIPOLYGON (((0 0, 4 0, 0 4, 0 0)), ((9 9, 8 9, 9 8, 9 9)))",
    ] {
        let first = printed(rt.alloc(), text, scale);
        let last = match first {
            Ok(text) => text,
            Err(AllocError) => printed(rt.alloc(), text, scale)?,
        };
        assert!(rt; last.as_deref() == Some(text));
    }
    Ok(())
}

/// Texts and the corners of their geometries' boxes.
const BOUNDED: &[(&str, [i64; 4])] = &[
    ("POINT (1 2)", [1, 2, 1, 2]),
    ("MULTIPOINT (1 2, -3 9)", [-3, 2, 1, 9]),
    ("LINESTRING (0 5, -3 2, 4 1)", [-3, 1, 4, 5]),
    ("MULTILINESTRING ((0 0, 1 1), (7 -2, 3 3))", [0, -2, 7, 3]),
    ("POLYGON ((1 1, 5 2, 3 8, 1 1))", [1, 1, 5, 8]),
    (
        "MULTIPOLYGON (((0 0, 4 0, 0 4, 0 0)), ((-9 9, -8 9, -9 12, -9 9)))",
        [-9, 0, 4, 12],
    ),
];

#[test]
fn boxes_hold_all_vertices(rt: HostRuntime) -> Result<(), AllocError> {
    let scale = Scale::new(0).unwrap();
    for (text, corners) in BOUNDED {
        match geometry_of(rt.alloc(), text, scale)? {
            Some(geometry) => {
                let bounds = geometry.bounds();
                let found = [bounds.x1(), bounds.y1(), bounds.x2(), bounds.y2()];
                assert!(rt; found == *corners, "{text}");
            }
            None => assert!(rt; false, "{text}"),
        }
    }
    Ok(())
}
