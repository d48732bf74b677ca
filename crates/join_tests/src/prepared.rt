//! Joins of geometries that are prepared, since they are large and occur in several pairs.

use crate::any_join_layers::{Row, Texts, layer};
use crate::any_joins::gives;
use any_join_core::{PreparedLayer, PreparedPair, Side, matrix_of};
use arrangement_core::PreparedGeometry;
use plane_core::Rings;
use std::hash::RandomState;
use std::test::Fail;
use test_data::geometry_of;

/// The square from (0, 0) to (16, 16), with a vertex at each grid point of its sides.
const LARGE: &str = "POLYGON ((0 0, 1 0, 2 0, 3 0, 4 0, 5 0, 6 0, 7 0, 8 0, 9 0, 10 0, \
    11 0, 12 0, 13 0, 14 0, 15 0, 16 0, 16 1, 16 2, 16 3, 16 4, 16 5, 16 6, 16 7, 16 8, \
    16 9, 16 10, 16 11, 16 12, 16 13, 16 14, 16 15, 16 16, 15 16, 14 16, 13 16, 12 16, \
    11 16, 10 16, 9 16, 8 16, 7 16, 6 16, 5 16, 4 16, 3 16, 2 16, 1 16, 0 16, 0 15, 0 14, \
    0 13, 0 12, 0 11, 0 10, 0 9, 0 8, 0 7, 0 6, 0 5, 0 4, 0 3, 0 2, 0 1, 0 0))";

/// A point and a triangle within the square, a line out of it, and a triangle at a corner of it.
const SMALL: &[&str] = &[
    "POINT (5 5)",
    "POLYGON ((4 4, 8 4, 4 9, 4 4))",
    "LINESTRING (8 8, 20 9)",
    "POLYGON ((16 0, 20 0, 20 16, 16 0))",
];

const ON_THE_LEFT: Texts = Texts {
    rings: Rings::Proper,
    left: &[LARGE],
    right: SMALL,
};

const ON_THE_RIGHT: Texts = Texts {
    rings: Rings::Proper,
    left: SMALL,
    right: &[LARGE],
};

const ON_BOTH_SIDES: Texts = Texts {
    rings: Rings::Proper,
    left: &[LARGE, LARGE],
    right: &[LARGE, LARGE],
};

#[test]
fn large_on_the_left(rt: HostRuntime) -> Result<(), Fail> {
    let rows: &[Row] = &[
        (0, 0, *b"0F2FF1FF2"),
        (0, 1, *b"212FF1FF2"),
        (0, 2, *b"1020F1102"),
        (0, 3, *b"FF2F01212"),
    ];
    assert!(rt; gives(&rt, ON_THE_LEFT, "intersects", rows)?);
    Ok(())
}

#[test]
fn large_on_the_right(rt: HostRuntime) -> Result<(), Fail> {
    let rows: &[Row] = &[
        (0, 0, *b"0FFFFF212"),
        (1, 0, *b"2FF1FF212"),
        (2, 0, *b"1010F0212"),
        (3, 0, *b"FF2F01212"),
    ];
    assert!(rt; gives(&rt, ON_THE_RIGHT, "intersects", rows)?);
    Ok(())
}

#[test]
fn large_on_both_sides(rt: HostRuntime) -> Result<(), Fail> {
    let rows: &[Row] = &[
        (0, 0, *b"2FFF1FFF2"),
        (0, 1, *b"2FFF1FFF2"),
        (1, 0, *b"2FFF1FFF2"),
        (1, 1, *b"2FFF1FFF2"),
    ];
    assert!(rt; gives(&rt, ON_BOTH_SIDES, "equals", rows)?);
    Ok(())
}

/// A large geometry is prepared where it occurs twice, and a small one never.
#[test]
fn large_and_met_often(rt: HostRuntime) -> Result<(), Fail> {
    let state = RandomState::new(&rt)?;
    let texts = &[SMALL[1], LARGE];
    let layer = layer(rt.alloc(), state, texts, Rings::Proper).ok_or("a layer")?;
    let pairs = &[(0, 1), (0, 2), (1, 1)];
    let left = PreparedLayer::new(rt.alloc(), &layer, pairs, Side::Left)?;
    assert!(rt; left.shape(0).is_some() && left.shape(1).is_some() && left.shape(2).is_none());
    assert!(rt; left.prepared(0).is_none() && left.prepared(1).is_none());
    let right = PreparedLayer::new(rt.alloc(), &layer, pairs, Side::Right)?;
    assert!(rt; right.prepared(0).is_none() && right.prepared(1).is_some());
    assert!(rt; right.prepared(2).is_none());
    Ok(())
}

#[test]
fn matrix_of_the_prepared(rt: HostRuntime) -> Result<(), Fail> {
    let alloc = rt.alloc();
    let large = geometry_of(alloc, LARGE, Rings::Proper).ok_or("a square")?;
    let small = geometry_of(alloc, SMALL[1], Rings::Proper).ok_or("a triangle")?;
    let (first, second) = (large.geometry(), small.geometry());
    let prepared_first = PreparedGeometry::new(alloc, first)?;
    let prepared_second = PreparedGeometry::new(alloc, second)?;
    for has_first in [false, true] {
        for has_second in [false, true] {
            let prepared = PreparedPair {
                first: has_first.then_some(&prepared_first),
                second: has_second.then_some(&prepared_second),
            };
            let matrix = matrix_of(alloc, first, second, prepared)?;
            assert!(rt; matrix.text() == *b"212FF1FF2");
        }
    }
    Ok(())
}
