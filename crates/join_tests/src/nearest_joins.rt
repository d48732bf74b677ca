//! The nearest features of small layers by one worker, by two and by sixteen, with answers worked
//! out by hand.

use crate::nearest_layers::{Row, Shapes, are_rows, joined, query};
use geom_core::LIMIT;
use std::random::RandomSource;
use std::test::Fail;
use std::thread::Threads;

/// Points at the distances 1, 2, 2 and 3 from the origin, and one that is 5 units off.
const RINGS: Shapes<'static> = Shapes {
    left: &[(0, 0, 0, 0)],
    right: &[
        (0, 3, 0, 3),
        (2, 0, 2, 0),
        (-1, 0, -1, 0),
        (3, 4, 3, 4),
        (0, -2, 0, -2),
    ],
};

/// A square and a segment, and shapes around them.
const MIXED: Shapes<'static> = Shapes {
    left: &[(0, 0, 4, 4), (10, 0, 10, 8)],
    right: &[
        (4, 4, 6, 6),
        (7, 8, 7, 8),
        (1, 1, 2, 2),
        (13, 12, 15, 12),
        (11, 3, 12, 3),
    ],
};

/// Shapes at two corners of the plane.
const CORNERS: Shapes<'static> = Shapes {
    left: &[(-LIMIT, -LIMIT, -LIMIT, -LIMIT)],
    right: &[(LIMIT, LIMIT, LIMIT, LIMIT)],
};

/// Whether searches by these numbers of workers give these rows.
fn gives<R: RandomSource + AllocGlobal + Threads + Sync>(
    rt: &R,
    shapes: Shapes<'_>,
    most: u32,
    within: Option<u64>,
    rows: &[Row],
) -> Result<bool, Fail> {
    let query = query(most, within).ok_or("a query")?;
    for workers in [0, 1, 2, 16] {
        let matches = joined(rt, shapes, &query, workers).ok_or("matches")?;
        if !are_rows(&matches, rows) {
            return Ok(false);
        }
    }
    Ok(true)
}

#[test]
fn the_nearest(rt: HostRuntime) -> Result<(), Fail> {
    assert!(rt; gives(&rt, RINGS, 1, None, &[(0, 2, 1)])?);
    Ok(())
}

/// Two are asked for, and the second is as far away as the third.
#[test]
fn ties_of_the_last(rt: HostRuntime) -> Result<(), Fail> {
    assert!(rt; gives(&rt, RINGS, 2, None, &[(0, 2, 1), (0, 1, 4), (0, 4, 4)])?);
    assert!(rt; gives(&rt, RINGS, 3, None, &[(0, 2, 1), (0, 1, 4), (0, 4, 4)])?);
    Ok(())
}

#[test]
fn more_than_there_are(rt: HostRuntime) -> Result<(), Fail> {
    let rows = &[(0, 2, 1), (0, 1, 4), (0, 4, 4), (0, 0, 9), (0, 3, 25)];
    assert!(rt; gives(&rt, RINGS, 5, None, rows)?);
    assert!(rt; gives(&rt, RINGS, 4_294_967_295, None, rows)?);
    Ok(())
}

#[test]
fn within_a_distance(rt: HostRuntime) -> Result<(), Fail> {
    assert!(rt;
        gives(
            &rt,
            RINGS,
            5,
            Some(3),
            &[(0, 2, 1), (0, 1, 4), (0, 4, 4), (0, 0, 9)]
        )?
    );
    assert!(rt; gives(&rt, RINGS, 5, Some(2), &[(0, 2, 1), (0, 1, 4), (0, 4, 4)])?);
    assert!(rt; gives(&rt, RINGS, 1, Some(1), &[(0, 2, 1)])?);
    assert!(rt; gives(&rt, RINGS, 1, Some(0), &[])?);
    Ok(())
}

/// Shapes that share a point are 0 units apart; the others by Pythagoras: (3, 4), (3, 3) and so on.
#[test]
fn of_squares_and_segments(rt: HostRuntime) -> Result<(), Fail> {
    let first = &[(0, 0, 0), (0, 2, 0), (1, 4, 1)];
    assert!(rt; gives(&rt, MIXED, 1, None, first)?);
    let rows = &[
        (0, 0, 0),
        (0, 2, 0),
        (0, 1, 25),
        (1, 4, 1),
        (1, 1, 9),
        (1, 0, 16),
    ];
    assert!(rt; gives(&rt, MIXED, 3, None, rows)?);
    Ok(())
}

/// The diagonal of the plane: twice the square of 2 * 10^18.
#[test]
fn at_the_ends_of_the_plane(rt: HostRuntime) -> Result<(), Fail> {
    let rows = &[(0, 0, 8_000_000_000_000_000_000_000_000_000_000_000_000)];
    assert!(rt; gives(&rt, CORNERS, 1, None, rows)?);
    assert!(rt; gives(&rt, CORNERS, 1, Some(2_000_000_000_000_000_000), &[])?);
    assert!(rt; gives(&rt, CORNERS, 1, Some(4_000_000_000_000_000_000), rows)?);
    Ok(())
}

#[test]
fn of_empty_layers(rt: HostRuntime) -> Result<(), Fail> {
    let points = &[(1, 1, 1, 1)];
    let no_right = Shapes {
        left: points,
        right: &[],
    };
    assert!(rt; gives(&rt, no_right, 1, None, &[])?);
    let no_left = Shapes {
        left: &[],
        right: points,
    };
    assert!(rt; gives(&rt, no_left, 1, None, &[])?);
    Ok(())
}
