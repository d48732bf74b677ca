//! How far edges are apart, worked out by hand.

use distance_core::{
    Distance, SquaredFraction, are_edges_within, edge_to_edge, vertex_to_edge, vertex_to_vertex,
};
use geom_core::LIMIT;
use plane_core::{Edge, Vertex};
use std::cmp::Ordering;
use wide_core::Wide;

/// The first end and the last end of an edge.
type Ends = (i64, i64, i64, i64);

/// Two edges, the square of their distance as a fraction, their distance to the nearest unit, and
/// the least whole distance within which they are.
type Row = (Ends, Ends, (u128, u128), u64, u64);

const ROWS: [Row; 21] = [
    // A point below a slanted edge, before its start, beyond its end, and straight beside its ends.
    ((0, 0, 0, 0), (0, 5, 5, 0), (25, 2), 4, 4),
    ((0, 0, 0, 0), (3, 4, 6, 8), (25, 1), 5, 5),
    ((9, 9, 9, 9), (0, 0, 3, 4), (61, 1), 8, 8),
    ((-4, 3, -4, 3), (0, 0, 3, 4), (25, 1), 5, 5),
    ((-1, 7, -1, 7), (0, 0, 3, 4), (25, 1), 5, 5),
    // A point on an edge, at its end, and two points.
    ((2, 1, 2, 1), (0, 0, 4, 2), (0, 1), 0, 0),
    ((4, 2, 4, 2), (0, 0, 4, 2), (0, 1), 0, 0),
    ((1, 2, 1, 2), (4, 6, 4, 6), (25, 1), 5, 5),
    // Edges that cross, touch at an end, and touch within.
    ((0, 0, 4, 4), (0, 4, 4, 0), (0, 1), 0, 0),
    ((0, 0, 5, 5), (5, 5, 9, 0), (0, 1), 0, 0),
    ((0, 0, 10, 0), (4, 0, 4, 7), (0, 1), 0, 0),
    // Parallel edges: level, slanted, and vertical ones that pass each other.
    ((0, 0, 5, 0), (2, 3, 9, 3), (9, 1), 3, 3),
    ((0, 0, 4, 4), (2, 0, 6, 4), (2, 1), 1, 2),
    ((0, 0, 0, 2), (3, 6, 3, 9), (25, 1), 5, 5),
    // Edges of one line: apart, and along each other.
    ((0, 0, 2, 2), (5, 5, 7, 7), (18, 1), 4, 5),
    ((0, 0, 6, 3), (2, 1, 8, 4), (0, 1), 0, 0),
    // An end near the middle of the other edge, from both sides.
    ((0, 0, 10, 0), (5, 1, 7, 9), (1, 1), 1, 1),
    ((0, 0, 10, 5), (3, 4, 2, 9), (5, 1), 2, 3),
    ((3, 4, 2, 9), (0, 0, 10, 5), (5, 1), 2, 3),
    // The ends of the plane.
    (
        (-LIMIT, -LIMIT, -LIMIT, -LIMIT),
        (LIMIT, LIMIT, LIMIT, LIMIT),
        (8_000_000_000_000_000_000_000_000_000_000_000_000, 1),
        2_828_427_124_746_190_098,
        2_828_427_124_746_190_098,
    ),
    // The line of the one crosses the other edge, beyond its own end.
    ((0, 0, 4, 0), (7, -2, 6, 4), (256, 37), 3, 3),
];

/// The edge with these ends.
fn edge(ends: Ends) -> Option<Edge> {
    let (x1, y1, x2, y2) = ends;
    Some(Edge {
        a: Vertex::new(x1, y1)?,
        b: Vertex::new(x2, y2)?,
    })
}

/// Whether a square is a fraction, where its numerator has at most 128 bits.
fn is_fraction(square: &SquaredFraction, fraction: (u128, u128)) -> bool {
    let (numerator, denominator) = fraction;
    let left = Wide::product(square.numerator.low, denominator);
    let right = Wide::product(numerator, square.denominator);
    square.numerator.high == 0 && left.compare(right) == Ordering::Equal
}

/// Whether `least` is the least distance within which two edges are.
fn is_least(e: &Edge, f: &Edge, least: u64) -> Option<bool> {
    let reached = are_edges_within(e, f, Distance::new(least)?);
    if least == 0 {
        return Some(reached);
    }
    let less = Distance::new(least - 1)?;
    Some(reached && !are_edges_within(e, f, less))
}

/// Whether two edges are as far apart as a row says.
fn are_so(e: &Edge, f: &Edge, row: &Row) -> Option<bool> {
    let (_, _, fraction, root, least) = *row;
    let square = edge_to_edge(e, f);
    Some(is_fraction(&square, fraction) && square.rounded_root() == root && is_least(e, f, least)?)
}

/// Whether a row is so, from both sides and along both edges.
fn is_so(row: &Row) -> Option<bool> {
    let (e, f) = (edge(row.0)?, edge(row.1)?);
    let back = Edge { a: f.b, b: f.a };
    Some(are_so(&e, &f, row)? && are_so(&f, &e, row)? && are_so(&e, &back, row)?)
}

#[test]
fn rows(rt: HostRuntime) {
    for row in &ROWS {
        assert_eq!(rt; is_so(row), Some(true));
    }
}

/// One unit from a corner of the plane to the diagonal between two others, whose squared distance
/// (2 L - 1)^2 / 2 is the square of 2 L (2 L - 1) over 8 L^2, where L is the limit.
fn from_corner() -> Option<SquaredFraction> {
    let v = Vertex::new(LIMIT, 1 - LIMIT)?;
    Some(vertex_to_edge(&v, &edge((-LIMIT, -LIMIT, LIMIT, LIMIT))?))
}

#[test]
fn products_beyond_128_bits(rt: HostRuntime) {
    let square = from_corner().expect(&rt, "a vertex and an edge of the plane");
    let side = 3_999_999_999_999_999_998_000_000_000_000_000_000;
    let numerator = Wide::product(side, side);
    assert!(rt; square.numerator == numerator);
    assert_eq!(rt;
        square.denominator,
        8_000_000_000_000_000_000_000_000_000_000_000_000
    );
    assert_eq!(rt; square.rounded_root(), 1_414_213_562_373_095_048);
}

/// The order of that square and of the squared distance of a vertex of the same side of the plane
/// from a shorter edge of the same diagonal, whose fraction has other numbers.
fn corner_order(y: i64) -> Option<Ordering> {
    let v = Vertex::new(LIMIT, y)?;
    let shorter = edge((-LIMIT, -LIMIT, LIMIT - 1, LIMIT - 1))?;
    Some(from_corner()?.compare(&vertex_to_edge(&v, &shorter)))
}

#[test]
fn orders_beyond_256_bits(rt: HostRuntime) {
    assert_eq!(rt; corner_order(1 - LIMIT), Some(Ordering::Equal));
    assert_eq!(rt; corner_order(2 - LIMIT), Some(Ordering::Greater));
    assert_eq!(rt; corner_order(-LIMIT), Some(Ordering::Less));
}

/// The order of the squared distances of the origin from two edges.
fn order(e: Ends, f: Ends) -> Option<Ordering> {
    let origin = Vertex::new(0, 0)?;
    let first = vertex_to_edge(&origin, &edge(e)?);
    Some(first.compare(&vertex_to_edge(&origin, &edge(f)?)))
}

/// Of 625 / 50 and 5625 / 450, which are both 25 / 2, and 12 and 13 as sums of squares.
#[test]
fn orders(rt: HostRuntime) {
    let slanted = (0, 5, 5, 0);
    assert_eq!(rt; order(slanted, (-5, 10, 10, -5)), Some(Ordering::Equal));
    assert_eq!(rt; order(slanted, (2, 3, 4, 6)), Some(Ordering::Less));
    assert_eq!(rt; order(slanted, (0, 3, 1, 9)), Some(Ordering::Greater));
}

#[test]
fn vertices(rt: HostRuntime) {
    let square = Vertex::new(1, 2)
        .zip(Vertex::new(4, 6))
        .map(|(v, w)| vertex_to_vertex(&v, &w).rounded_root());
    assert_eq!(rt; square, Some(5));
}
