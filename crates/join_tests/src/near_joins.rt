//! Joins of small layers by one worker, by two and by sixteen, with answers worked out by hand.

use crate::near_layers::{Row, Shapes, are_rows, joined};
use geom_core::LIMIT;
use near_core::Nearness;
use pair_core::Options;
use std::random::RandomSource;
use std::sync::Wait;
use std::test::Fail;
use std::thread::Threads;

/// A square and a point, beside shapes that lie 0 to 6 units off one of them.
const NEIGHBOURS: Shapes<'static> = Shapes {
    left: &[(0, 0, 2, 2), (100, 100, 100, 100)],
    right: &[
        (2, 2, 3, 3),
        (5, 6, 9, 9),
        (8, 0, 9, 2),
        (103, 104, 103, 110),
        (100, 90, 120, 94),
        (100, 106, 100, 106),
        (100, 95, 100, 95),
    ],
};

/// Shapes at two corners of the plane, which can't grow further out.
const CORNERS: Shapes<'static> = Shapes {
    left: &[
        (-LIMIT, -LIMIT, -LIMIT, -LIMIT),
        (LIMIT, -LIMIT, LIMIT, LIMIT),
    ],
    right: &[(-LIMIT + 3, -LIMIT + 4, 0, 0), (LIMIT - 6, 0, LIMIT - 6, 0)],
};

/// Whether joins by these numbers of workers give these rows.
fn gives<R: RandomSource + AllocGlobal + Threads + Wait + Sync>(
    rt: &R,
    shapes: Shapes<'_>,
    distance: u64,
    nearness: Nearness,
    rows: &[Row],
) -> Result<bool, Fail> {
    for workers in [1, 2, 16] {
        let options = Options::new(workers, 1, 8)?;
        let outcome = joined(rt, shapes, distance, nearness, &options).ok_or("a join")?;
        if !are_rows(&outcome.matches, rows) {
            return Ok(false);
        }
    }
    Ok(true)
}

#[test]
fn of_no_distance(rt: HostRuntime) -> Result<(), Fail> {
    assert!(rt; gives(&rt, NEIGHBOURS, 0, Nearness::Within, &[(0, 0, 0)])?);
    Ok(())
}

#[test]
fn within_four(rt: HostRuntime) -> Result<(), Fail> {
    assert!(rt; gives(&rt, NEIGHBOURS, 4, Nearness::Within, &[(0, 0, 0)])?);
    Ok(())
}

#[test]
fn within_five(rt: HostRuntime) -> Result<(), Fail> {
    let rows = &[(0, 0, 0), (0, 1, 25), (1, 3, 25), (1, 6, 25)];
    assert!(rt; gives(&rt, NEIGHBOURS, 5, Nearness::Within, rows)?);
    Ok(())
}

#[test]
fn within_six(rt: HostRuntime) -> Result<(), Fail> {
    let rows = &[
        (0, 0, 0),
        (0, 1, 25),
        (0, 2, 36),
        (1, 3, 25),
        (1, 4, 36),
        (1, 5, 36),
        (1, 6, 25),
    ];
    assert!(rt; gives(&rt, NEIGHBOURS, 6, Nearness::Within, rows)?);
    Ok(())
}

#[test]
fn at_the_ends_of_the_plane(rt: HostRuntime) -> Result<(), Fail> {
    assert!(rt; gives(&rt, CORNERS, 5, Nearness::Within, &[(0, 0, 25)])?);
    assert!(rt; gives(&rt, CORNERS, 6, Nearness::Within, &[(0, 0, 25), (1, 1, 36)])?);
    Ok(())
}

/// The greatest distance, at which all are near: (10^18)^2 for the nearest, and the others.
#[test]
fn within_the_greatest(rt: HostRuntime) -> Result<(), Fail> {
    let rows = &[
        (0, 0, 25),
        (0, 1, 4_999_999_999_999_999_976_000_000_000_000_000_036),
        (1, 0, 1_000_000_000_000_000_000_000_000_000_000_000_000),
        (1, 1, 36),
    ];
    assert!(rt;
        gives(
            &rt,
            CORNERS,
            4_000_000_000_000_000_000,
            Nearness::Within,
            rows
        )?
    );
    Ok(())
}

#[test]
fn apart_within_five(rt: HostRuntime) -> Result<(), Fail> {
    let rows = &[(0, 1, 25), (1, 3, 25), (1, 6, 25)];
    assert!(rt; gives(&rt, NEIGHBOURS, 5, Nearness::Apart, rows)?);
    Ok(())
}

#[test]
fn apart_within_nothing(rt: HostRuntime) -> Result<(), Fail> {
    assert!(rt; gives(&rt, NEIGHBOURS, 0, Nearness::Apart, &[])?);
    Ok(())
}
