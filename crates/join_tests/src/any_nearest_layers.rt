//! The nearest features of small layers of any geometry by one worker, by two and by sixteen, with
//! answers worked out by hand.

use any_geometry_core::AnyGeometry;
use layer_core::Layer;
use nearest_core::{Distance, Query, SquaredFraction, nearest_layers};
use plane_core::Rings;
use refine_core::Refined;
use std::random::RandomSource;
use std::test::Fail;
use std::thread::Threads;
use test_data::{TextRow, layer_of};
use wide_core::Wide;

/// A left and a right feature by their numbers, and the fraction that is their squared distance.
pub(crate) type Row = (u32, u32, (u128, u128));

/// A point at the origin.
const ORIGIN: &[TextRow<'_>] = &[("middle", "POINT (0 0)")];

/// A line across the box of the origin, on which x + y is 20; a point that is 5 units off; and an
/// area around the origin, with a hole that has it.
const AROUND: &[TextRow<'_>] = &[
    ("across", "LINESTRING (-10 30, 30 -10)"),
    ("point", "POINT (3 4)"),
    (
        "holed",
        "POLYGON ((-9 -9, 9 -9, 9 9, -9 9, -9 -9), (-2 -3, -2 7, 7 7, 7 -3, -2 -3))",
    ),
];

/// Segments of the line x - 2 y = -2, and one of x + 2 y = 2, all as far from the origin; a point
/// that is a little farther; and one that is nearer.
const SLANTED: &[TextRow<'_>] = &[
    ("beyond", "POINT (1 0)"),
    ("long", "LINESTRING (-4 -1, 4 3)"),
    ("other", "LINESTRING (2 0, -2 2)"),
    ("short", "LINESTRING (-2 0, 2 2)"),
    ("origin", "MULTIPOINT (5 5, 0 0)"),
];

/// Two areas, and features in them and between them.
const AREAS: &[TextRow<'_>] = &[
    ("west", "POLYGON ((0 0, 4 0, 4 4, 0 4, 0 0))"),
    ("east", "POLYGON ((10 0, 14 0, 14 4, 10 4, 10 0))"),
];

const BETWEEN: &[TextRow<'_>] = &[
    ("line", "LINESTRING (6 -5, 6 9)"),
    ("in_east", "POLYGON ((11 1, 12 1, 12 2, 11 1))"),
    ("south", "POINT (2 -3)"),
];

fn is_square(found: &SquaredFraction, (numerator, denominator): (u128, u128)) -> bool {
    found.numerator.high == 0
        && Wide::product(found.numerator.low, denominator)
            == Wide::product(numerator, found.denominator)
}

/// Whether the matches are these rows.
pub(crate) fn are_rows(matches: &[Refined<SquaredFraction>], rows: &[Row]) -> bool {
    if matches.len() != rows.len() {
        return false;
    }
    for (found, (left, right, square)) in matches.iter().zip(rows) {
        if found.pair != (*left, *right) || !is_square(&found.answer, *square) {
            return false;
        }
    }
    true
}

/// The query for so many features within so many units.
fn query(most: u32, within: Option<u64>) -> Option<Query> {
    match within {
        Some(units) => Query::new(most, Some(Distance::new(units)?)),
        None => Query::new(most, None),
    }
}

fn layer<R: AllocGlobal + RandomSource>(
    rt: &R,
    rows: &[TextRow<'_>],
) -> Result<Layer<AnyGeometry>, Fail> {
    Ok(layer_of(rt, rows, Rings::Proper).ok_or("a layer")?)
}

/// Whether searches by these numbers of workers give these rows.
pub(crate) fn gives<R: RandomSource + AllocGlobal + Threads + Sync>(
    rt: &R,
    (left, right): (&[TextRow<'_>], &[TextRow<'_>]),
    (most, within): (u32, Option<u64>),
    rows: &[Row],
) -> Result<bool, Fail> {
    let query = query(most, within).ok_or("a query")?;
    let (left, right) = (layer(rt, left)?, layer(rt, right)?);
    for workers in [0, 1, 2, 16] {
        let matches = nearest_layers(rt, &left, &right, &query, workers)
            .ok()
            .ok_or("matches")?;
        if !are_rows(&matches, rows) {
            return Ok(false);
        }
    }
    Ok(true)
}

/// The box of the line has the origin, and so has that of the area, whose hole has it.
#[test]
fn boxes_do_not_decide(rt: HostRuntime) -> Result<(), Fail> {
    let files = (ORIGIN, AROUND);
    assert!(rt; gives(&rt, files, (1, None), &[(0, 2, (4, 1))])?);
    let rows = &[(0, 2, (4, 1)), (0, 1, (25, 1)), (0, 0, (200, 1))];
    assert!(rt; gives(&rt, files, (2, None), &rows[..2])?);
    assert!(rt; gives(&rt, files, (3, None), rows)?);
    assert!(rt; gives(&rt, files, (4_294_967_295, None), rows)?);
    Ok(())
}

/// 64 / 80 and 16 / 20 are both 4 / 5.
#[test]
fn ties_of_the_last(rt: HostRuntime) -> Result<(), Fail> {
    let files = (ORIGIN, SLANTED);
    let rows = &[
        (0, 4, (0, 1)),
        (0, 1, (4, 5)),
        (0, 2, (4, 5)),
        (0, 3, (4, 5)),
        (0, 0, (1, 1)),
    ];
    assert!(rt; gives(&rt, files, (1, None), &rows[..1])?);
    assert!(rt; gives(&rt, files, (2, None), &rows[..4])?);
    assert!(rt; gives(&rt, files, (4, None), &rows[..4])?);
    assert!(rt; gives(&rt, files, (5, None), rows)?);
    Ok(())
}

/// The distance of the line is the root of 200, which is between 14 and 15.
#[test]
fn within_a_distance(rt: HostRuntime) -> Result<(), Fail> {
    let rows = &[(0, 2, (4, 1)), (0, 1, (25, 1)), (0, 0, (200, 1))];
    let files = (ORIGIN, AROUND);
    assert!(rt; gives(&rt, files, (3, Some(1)), &[])?);
    assert!(rt; gives(&rt, files, (3, Some(2)), &rows[..1])?);
    assert!(rt; gives(&rt, files, (3, Some(14)), &rows[..2])?);
    assert!(rt; gives(&rt, files, (3, Some(15)), rows)?);
    assert!(rt; gives(&rt, files, (1, Some(15)), &rows[..1])?);
    Ok(())
}

#[test]
fn of_each_left_feature(rt: HostRuntime) -> Result<(), Fail> {
    let files = (AREAS, BETWEEN);
    let first = &[(0, 0, (4, 1)), (1, 1, (0, 1))];
    assert!(rt; gives(&rt, files, (1, None), first)?);
    let rows = &[
        (0, 0, (4, 1)),
        (0, 2, (9, 1)),
        (1, 1, (0, 1)),
        (1, 0, (16, 1)),
    ];
    assert!(rt; gives(&rt, files, (2, None), rows)?);
    Ok(())
}

#[test]
fn of_empty_layers(rt: HostRuntime) -> Result<(), Fail> {
    assert!(rt; gives(&rt, (ORIGIN, &[]), (1, None), &[])?);
    assert!(rt; gives(&rt, (&[], ORIGIN), (1, None), &[])?);
    Ok(())
}

/// Two opposite corners of the plane, whose distance is the root of 8 * 10^24, which is between
/// 2,828,427,124,746 and the next number.
#[test]
fn of_opposite_corners(rt: HostRuntime) -> Result<(), Fail> {
    let low: &[TextRow<'_>] = &[("low", "POINT (-1000000000000 -1000000000000)")];
    let high: &[TextRow<'_>] = &[("high", "POINT (1000000000000 1000000000000)")];
    let rows = &[(0, 0, (8_000_000_000_000_000_000_000_000, 1))];
    assert!(rt; gives(&rt, (low, high), (1, None), rows)?);
    assert!(rt; gives(&rt, (low, high), (1, Some(2_828_427_124_747)), rows)?);
    assert!(rt; gives(&rt, (low, high), (1, Some(2_828_427_124_746)), &[])?);
    Ok(())
}
