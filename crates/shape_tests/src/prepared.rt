//! Matrices of a geometry that is prepared once, with more edges than are looked at one by one.

use crate::many::{one_path, push_side, square};
use arrangement_core::{PreparedGeometry, relate_prepared};
use plane_core::{Geometry, Kind};
use std::process::Abort;
use std::test::Fail;

/// Checks the matrix of a prepared geometry and another.
fn check(
    rt: &(impl Abort + AllocGlobal),
    prepared: &PreparedGeometry<'_>,
    other: &Geometry,
    matrix: &[u8; 9],
) -> Result<(), Fail> {
    let second = PreparedGeometry::new(rt.alloc(), other)?;
    assert!(rt; relate_prepared(rt.alloc(), prepared, &second)?.text() == *matrix);
    Ok(())
}

/// Checks the matrix of the square from (0, 0) to (100, 100) and another.
fn check_square(
    rt: &(impl Abort + AllocGlobal),
    (x, y): (i64, i64),
    side: i64,
    matrix: &[u8; 9],
) -> Result<(), Fail> {
    let large = square(rt.alloc(), 0, 0, 100)?;
    let prepared = PreparedGeometry::new(rt.alloc(), &large)?;
    let other = square(rt.alloc(), x, y, side)?;
    check(rt, &prepared, &other, matrix)
}

#[test]
fn square_within(rt: HostRuntime) -> Result<(), Fail> {
    check_square(&rt, (40, 40), 5, b"212FF1FF2")
}

#[test]
fn square_at_the_left_side(rt: HostRuntime) -> Result<(), Fail> {
    check_square(&rt, (0, 40), 5, b"212F11FF2")
}

#[test]
fn square_over_the_right_side(rt: HostRuntime) -> Result<(), Fail> {
    check_square(&rt, (98, 40), 5, b"212101212")
}

#[test]
fn square_on_the_top(rt: HostRuntime) -> Result<(), Fail> {
    check_square(&rt, (40, 100), 5, b"FF2F11212")
}

#[test]
fn square_apart(rt: HostRuntime) -> Result<(), Fail> {
    check_square(&rt, (300, 300), 5, b"FF2FF1212")
}

#[test]
fn square_around(rt: HostRuntime) -> Result<(), Fail> {
    check_square(&rt, (-10, -10), 200, b"2FF1FF212")
}

#[test]
fn line_from_within(rt: HostRuntime) -> Result<(), Fail> {
    let large = square(rt.alloc(), 0, 0, 100)?;
    let prepared = PreparedGeometry::new(rt.alloc(), &large)?;
    let mut vertices = Vec::new(rt.alloc());
    push_side(&mut vertices, (50, 50), (1, 1), 300)?;
    let line = one_path(rt.alloc(), Kind::Lines, vertices)?;
    check(&rt, &prepared, &line, b"1020F1102")
}
