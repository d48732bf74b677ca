//! Geometries that are boxes, and their matrix.

use agreement_core::{as_box, relate_boxes};
use plane_core::Rings;
use std::alloc::Global;
use std::test::Fail;
use test_data::geometry_of;

/// The ring of a rectangle from each of its corners, both ways round.
const RECTANGLES: &[&str] = &[
    "POLYGON ((1 2, 4 2, 4 6, 1 6, 1 2))",
    "POLYGON ((4 2, 4 6, 1 6, 1 2, 4 2))",
    "POLYGON ((4 6, 1 6, 1 2, 4 2, 4 6))",
    "POLYGON ((1 6, 1 2, 4 2, 4 6, 1 6))",
    "POLYGON ((1 2, 1 6, 4 6, 4 2, 1 2))",
    "POLYGON ((1 6, 4 6, 4 2, 1 2, 1 6))",
    "POLYGON ((4 6, 4 2, 1 2, 1 6, 4 6))",
    "POLYGON ((4 2, 1 2, 1 6, 4 6, 4 2))",
];

/// Geometries that are no box, or that are drawn with more vertices than a box.
const OTHERS: &[&str] = &[
    "MULTIPOINT (1 2, 4 6)",
    "LINESTRING (1 2, 4 6)",
    "LINESTRING (1 2, 2 2, 4 2)",
    "MULTILINESTRING ((1 2, 4 2), (1 6, 4 6))",
    "POLYGON ((1 2, 4 2, 4 6, 1 2))",
    "POLYGON ((1 2, 4 2, 4 6, 2 6, 1 2))",
    "POLYGON ((1 2, 4 2, 4 6, 1 6, 1 2), (2 3, 3 3, 3 4, 2 4, 2 3))",
];

/// The corners of the box that the geometry of a text is, if it is one.
fn corners(alloc: Global, text: &str) -> Result<Option<(i64, i64, i64, i64)>, Fail> {
    let geometry = geometry_of(alloc, text, Rings::Proper).ok_or("a geometry")?;
    let shape = as_box(geometry.geometry());
    Ok(shape.map(|s| (s.x1(), s.y1(), s.x2(), s.y2())))
}

#[test]
fn rectangles(rt: HostRuntime) -> Result<(), Fail> {
    for text in RECTANGLES {
        assert!(rt; corners(rt.alloc(), text)? == Some((1, 2, 4, 6)));
    }
    Ok(())
}

#[test]
fn points_and_segments(rt: HostRuntime) -> Result<(), Fail> {
    let alloc = rt.alloc();
    assert!(rt; corners(alloc, "POINT (1 2)")? == Some((1, 2, 1, 2)));
    assert!(rt; corners(alloc, "LINESTRING (1 2, 4 2)")? == Some((1, 2, 4, 2)));
    assert!(rt; corners(alloc, "LINESTRING (4 2, 1 2)")? == Some((1, 2, 4, 2)));
    assert!(rt; corners(alloc, "LINESTRING (1 6, 1 2)")? == Some((1, 2, 1, 6)));
    Ok(())
}

#[test]
fn other_geometries(rt: HostRuntime) -> Result<(), Fail> {
    for text in OTHERS {
        assert!(rt; corners(rt.alloc(), text)?.is_none());
    }
    Ok(())
}

#[test]
fn matrix_of_boxes(rt: HostRuntime) -> Result<(), Fail> {
    let (alloc, rings) = (rt.alloc(), Rings::Proper);
    let first = geometry_of(alloc, "POLYGON ((0 0, 0 4, 4 4, 4 0, 0 0))", rings).ok_or("a ring")?;
    let second = geometry_of(alloc, "LINESTRING (2 2, 6 2)", rings).ok_or("a line")?;
    let found = relate_boxes(first.geometry(), second.geometry()).ok_or("two boxes")?;
    assert!(rt; found.text() == *b"1020F1102");
    Ok(())
}
