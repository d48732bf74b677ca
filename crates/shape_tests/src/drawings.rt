//! Lines and rings with points along them, compared with a plain reading and their construction.

use crate::geom_readings::corners;
use crate::plain::{Corners, Point, line, ring};
use std::alloc::{AllocError, Global};
use wkt_core::WktFault;

/// The points around the rectangle from (0, 0) to (3, 2), and whether each is a corner.
const ROUND: [(Point, bool); 10] = [
    ((0, 0), true),
    ((1, 0), false),
    ((2, 0), false),
    ((3, 0), true),
    ((3, 1), false),
    ((3, 2), true),
    ((2, 2), false),
    ((1, 2), false),
    ((0, 2), true),
    ((0, 1), false),
];

/// The shape of a text of these points.
fn drawn(
    alloc: Global,
    opening: &str,
    points: &[Point],
    closing: &str,
) -> Result<Option<Corners>, AllocError> {
    let mut text = String::from_str(alloc, opening)?;
    let mut between = "";
    for (x, y) in points {
        text.push_str(between)?;
        text.push_str(&format!(in alloc; "{x} {y}")?)?;
        between = ",";
    }
    text.push_str(closing)?;
    Ok(corners(text.as_bytes()).ok())
}

/// Five points of a grid of six, by the digits of a number in base six.
fn five_points(alloc: Global, number: i64) -> Result<Vec<Point>, AllocError> {
    let mut points = Vec::new(alloc);
    let mut rest = number;
    for _ in 0..5 {
        points.push((rest % 3, rest / 3 % 2))?;
        rest /= 6;
    }
    Ok(points)
}

#[test]
fn five_points_of_six(rt: HostRuntime) -> Result<(), AllocError> {
    for number in 0..7776 {
        let mut points = five_points(rt.alloc(), number)?;
        let read = drawn(rt.alloc(), "LINESTRING(", &points, ")")?;
        assert!(rt; read == line(rt.alloc(), &points)?);
        let first = points.first().copied();
        points.extend(first)?;
        let read = drawn(rt.alloc(), "POLYGON((", &points, "))")?;
        assert!(rt; read == ring(rt.alloc(), &points)?);
    }
    Ok(())
}

/// The corners and the other points selected by the mask, with the point at one index repeated.
fn some_points(alloc: Global, mask: u32, doubled: usize) -> Result<Vec<Point>, AllocError> {
    let mut points = Vec::new(alloc);
    let mut rest = mask;
    for (place, (point, is_corner)) in ROUND.iter().enumerate() {
        if *is_corner || rest % 2 == 1 {
            points.push(*point)?;
        }
        if place == doubled {
            points.extend(points.last().copied())?;
        }
        if !*is_corner {
            rest /= 2;
        }
    }
    Ok(points)
}

/// The ring of these points from one index on.
fn begun_at(alloc: Global, points: &[Point], place: usize) -> Result<Vec<Point>, AllocError> {
    let mut ring = Vec::new(alloc);
    ring.extend(points.iter().copied().skip(place))?;
    ring.extend(points.iter().copied().take(place))?;
    let first = ring.first().copied();
    ring.extend(first)?;
    Ok(ring)
}

/// Whether the ring is read as the rectangle in both directions, and, with two points exchanged,
/// the same as by the plain reading.
fn is_round(alloc: Global, points: &mut [Point]) -> Result<bool, AllocError> {
    let forwards = drawn(alloc, "POLYGON((", points, "))")?;
    points.reverse();
    let backwards = drawn(alloc, "POLYGON((", points, "))")?;
    if points.len() > 2 {
        points.swap(1, 2);
    }
    let exchanged = drawn(alloc, "POLYGON((", points, "))")?;
    let is_plain = exchanged == ring(alloc, points)?;
    Ok(forwards == Some((0, 0, 3, 2)) && backwards == forwards && is_plain)
}

#[test]
fn rings_round_a_rectangle(rt: HostRuntime) -> Result<(), AllocError> {
    for mask in 0..64 {
        for doubled in 0..ROUND.len() {
            let points = some_points(rt.alloc(), mask, doubled)?;
            for place in 0..points.len() {
                let mut ring = begun_at(rt.alloc(), &points, place)?;
                assert!(rt; is_round(rt.alloc(), &mut ring)?);
            }
        }
    }
    Ok(())
}

#[test]
fn rings_and_lines(rt: HostRuntime) {
    let shapes: &[(&[u8], Corners)] = &[
        (b"LINESTRING (0 0, 0 0, 0 1, 0 5, 0 5)", (0, 0, 0, 5)),
        (b"POLYGON ((2 0, 0 0, 0 4, 4 4, 4 0, 2 0))", (0, 0, 4, 4)),
        (b"POLYGON ((0 0, 0 0, 4 0, 4 4, 0 4, 0 0))", (0, 0, 4, 4)),
        (b"POLYGON ((0 0, 1 0, 1 1, 0 1, 0 0, 0 0))", (0, 0, 1, 1)),
        (
            b"POLYGON ((0 0, 4 0, 4 4, 0 4, 0 2, 0 1, 0 0))",
            (0, 0, 4, 4),
        ),
    ];
    for &(text, wanted) in shapes {
        assert!(rt; corners(text) == Ok(wanted));
    }
    let formless: &[&[u8]] = &[
        b"LINESTRING (0 0, 2 0, 2 1)",
        b"LINESTRING (0 0, 1 0, 0 0)",
        b"POLYGON ((0 0))",
        b"POLYGON ((0 0, 4 0, 0 0))",
        b"POLYGON ((0 0, 4 0, 4 4, 0 4))",
        b"POLYGON ((2 0, 4 0, 4 4, 0 4, 0 0))",
        b"POLYGON ((0 0, 4 0, 4 4, 0 4, 0 0, 4 0, 4 4, 0 4, 0 0))",
    ];
    for &text in formless {
        assert!(rt; corners(text) == Err(WktFault::Form));
    }
}
