//! How far shapes are apart, worked out by hand.

use distance_core::{Distance, MAX_DISTANCE, is_within, squared_distance};
use geom_core::{LIMIT, Shape};

/// The lower and the higher corner of a shape.
type Corners = (i64, i64, i64, i64);

/// Two shapes, the square of their distance, and the least whole distance within which they are.
type Row = (Corners, Corners, u128, u64);

const ROWS: [Row; 15] = [
    // They share a point, a corner, a side, a crossing, all of the one.
    ((3, 4, 3, 4), (3, 4, 3, 4), 0, 0),
    ((0, 0, 2, 2), (2, 2, 5, 5), 0, 0),
    ((0, 0, 2, 2), (2, 0, 5, 2), 0, 0),
    ((0, 2, 9, 2), (4, 0, 4, 9), 0, 0),
    ((0, 0, 9, 9), (3, 3, 4, 4), 0, 0),
    // Side by side, and one above the other.
    ((0, 0, 2, 2), (5, 1, 7, 4), 9, 3),
    ((0, 0, 2, 2), (1, 6, 7, 9), 16, 4),
    ((0, 0, 2, 2), (3, 2, 3, 2), 1, 1),
    // Corner to corner, in all four directions.
    ((0, 0, 2, 2), (5, 6, 9, 9), 25, 5),
    ((0, 0, 2, 2), (-7, 5, -4, 6), 25, 5),
    ((0, 0, 2, 2), (-9, -9, -5, -8), 89, 10),
    ((0, 0, 2, 2), (4, -8, 6, -3), 13, 4),
    // Flat shapes.
    ((0, 0, 0, 5), (1, 7, 4, 7), 5, 3),
    // The ends of the plane.
    (
        (-LIMIT, 0, -LIMIT, 0),
        (LIMIT, 0, LIMIT, 0),
        4_000_000_000_000_000_000_000_000_000_000_000_000,
        2_000_000_000_000_000_000,
    ),
    (
        (-LIMIT, -LIMIT, -LIMIT, -LIMIT),
        (LIMIT, LIMIT, LIMIT, LIMIT),
        8_000_000_000_000_000_000_000_000_000_000_000_000,
        2_828_427_124_746_190_098,
    ),
];

/// The shape with these corners.
fn shape(corners: Corners) -> Option<Shape> {
    let (x1, y1, x2, y2) = corners;
    Shape::new(x1, y1, x2, y2)
}

/// Whether two shapes are as far apart as a row says, from both sides.
fn are_so(a: &Shape, b: &Shape, square: u128) -> bool {
    squared_distance(a, b) == square && squared_distance(b, a) == square
}

/// Whether `least` is the least distance within which two shapes are.
fn is_least(a: &Shape, b: &Shape, least: u64) -> Option<bool> {
    let reached = is_within(a, b, Distance::new(least)?) && is_within(b, a, Distance::new(least)?);
    if least == 0 {
        return Some(reached);
    }
    let less = Distance::new(least - 1)?;
    Some(reached && !is_within(a, b, less) && !is_within(b, a, less))
}

/// Whether a row is so.
fn is_so(row: &Row) -> Option<bool> {
    let (first, second, square, least) = *row;
    let (a, b) = (shape(first)?, shape(second)?);
    Some(are_so(&a, &b, square) && is_least(&a, &b, least)?)
}

#[test]
fn rows(rt: HostRuntime) {
    for row in &ROWS {
        assert_eq!(rt; is_so(row), Some(true));
    }
}

#[test]
fn distances(rt: HostRuntime) {
    assert!(rt; Distance::new(0).is_some());
    assert!(rt; Distance::new(MAX_DISTANCE).is_some());
    assert!(rt; Distance::new(MAX_DISTANCE + 1).is_none());
}
