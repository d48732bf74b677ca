//! Worked examples of matrices, by name.

use crate::drawn::{Drawn, geometry};
use arrangement_core::relate;
use plane_core::Kind;
use std::process::Abort;
use std::test::Fail;

/// Checks the matrix of two geometries, and its transpose for the reverse order.
fn check(
    rt: &(impl Abort + AllocGlobal),
    a: Drawn<'_>,
    b: Drawn<'_>,
    matrix: &[u8; 9],
) -> Result<(), Fail> {
    let a = geometry(rt.alloc(), a)?;
    let b = geometry(rt.alloc(), b)?;
    let [ii, ib, ie, bi, bb, be, ei, eb, ee] = *matrix;
    assert!(rt; relate(rt.alloc(), &a, &b)?.text() == *matrix);
    assert!(rt; relate(rt.alloc(), &b, &a)?.text() == [ii, bi, ei, ib, bb, eb, ie, be, ee]);
    Ok(())
}

#[test]
fn point_on_slant(rt: HostRuntime) -> Result<(), Fail> {
    let a: Drawn<'_> = (Kind::Areas, &[&[(0, 0), (4, 0), (0, 4), (0, 0)]]);
    let b: Drawn<'_> = (Kind::Points, &[&[(2, 2)]]);
    check(&rt, a, b, b"FF20F1FF2")
}

#[test]
fn point_off_slant(rt: HostRuntime) -> Result<(), Fail> {
    let a: Drawn<'_> = (Kind::Areas, &[&[(0, 0), (5, 0), (0, 3), (0, 0)]]);
    let b: Drawn<'_> = (Kind::Points, &[&[(3, 2)]]);
    check(&rt, a, b, b"FF2FF10F2")
}

#[test]
fn shared_slant(rt: HostRuntime) -> Result<(), Fail> {
    let a: Drawn<'_> = (Kind::Areas, &[&[(0, 0), (4, 0), (0, 4), (0, 0)]]);
    let b: Drawn<'_> = (Kind::Areas, &[&[(4, 0), (4, 4), (0, 4), (4, 0)]]);
    check(&rt, a, b, b"FF2F11212")
}

#[test]
fn part_of_slant(rt: HostRuntime) -> Result<(), Fail> {
    let a: Drawn<'_> = (Kind::Areas, &[&[(0, 0), (4, 0), (0, 4), (0, 0)]]);
    let b: Drawn<'_> = (Kind::Areas, &[&[(3, 1), (4, 4), (1, 3), (3, 1)]]);
    check(&rt, a, b, b"FF2F11212")
}

#[test]
fn hole_filled(rt: HostRuntime) -> Result<(), Fail> {
    let a: Drawn<'_> = (
        Kind::Areas,
        &[
            &[(0, 0), (6, 0), (6, 6), (0, 6), (0, 0)],
            &[(2, 2), (4, 2), (4, 4), (2, 4), (2, 2)],
        ],
    );
    let b: Drawn<'_> = (Kind::Areas, &[&[(2, 2), (4, 2), (4, 4), (2, 4), (2, 2)]]);
    check(&rt, a, b, b"FF2F112F2")
}

#[test]
fn hole_touches(rt: HostRuntime) -> Result<(), Fail> {
    let a: Drawn<'_> = (
        Kind::Areas,
        &[
            &[(0, 0), (4, 0), (4, 4), (0, 4), (0, 0)],
            &[(2, 0), (4, 2), (2, 4), (0, 2), (2, 0)],
        ],
    );
    let b: Drawn<'_> = (Kind::Areas, &[&[(1, 1), (3, 1), (3, 3), (1, 3), (1, 1)]]);
    check(&rt, a, b, b"FF2F01212")
}

#[test]
fn crossing_lines(rt: HostRuntime) -> Result<(), Fail> {
    let a: Drawn<'_> = (Kind::Lines, &[&[(0, 0), (3, 2)]]);
    let b: Drawn<'_> = (Kind::Lines, &[&[(0, 1), (3, 0)]]);
    check(&rt, a, b, b"0F1FF0102")
}

#[test]
fn closed_line_end(rt: HostRuntime) -> Result<(), Fail> {
    let a: Drawn<'_> = (Kind::Lines, &[&[(0, 0), (4, 0), (2, 3), (0, 0)]]);
    let b: Drawn<'_> = (Kind::Points, &[&[(0, 0)]]);
    check(&rt, a, b, b"0F1FFFFF2")
}

#[test]
fn self_crossing(rt: HostRuntime) -> Result<(), Fail> {
    let a: Drawn<'_> = (Kind::Lines, &[&[(0, 0), (4, 4), (4, 0), (0, 4)]]);
    let b: Drawn<'_> = (Kind::Points, &[&[(2, 2)]]);
    check(&rt, a, b, b"0F1FF0FF2")
}

#[test]
fn even_ends(rt: HostRuntime) -> Result<(), Fail> {
    let a: Drawn<'_> = (Kind::Lines, &[&[(0, 0), (2, 2)], &[(2, 2), (4, 0)]]);
    let b: Drawn<'_> = (Kind::Points, &[&[(2, 2)]]);
    check(&rt, a, b, b"0F1FF0FF2")
}

#[test]
fn odd_ends(rt: HostRuntime) -> Result<(), Fail> {
    let a: Drawn<'_> = (
        Kind::Lines,
        &[&[(0, 0), (2, 2)], &[(2, 2), (4, 0)], &[(2, 2), (2, 5)]],
    );
    let b: Drawn<'_> = (Kind::Points, &[&[(2, 2)]]);
    check(&rt, a, b, b"FF10F0FF2")
}

#[test]
fn line_along_slant(rt: HostRuntime) -> Result<(), Fail> {
    let a: Drawn<'_> = (Kind::Lines, &[&[(1, 3), (5, -1)]]);
    let b: Drawn<'_> = (Kind::Areas, &[&[(0, 0), (4, 0), (0, 4), (0, 0)]]);
    check(&rt, a, b, b"F11F00212")
}

#[test]
fn line_at_vertex(rt: HostRuntime) -> Result<(), Fail> {
    let a: Drawn<'_> = (Kind::Lines, &[&[(0, 8), (8, 0)]]);
    let b: Drawn<'_> = (Kind::Areas, &[&[(4, 4), (8, 8), (0, 8), (4, 4)]]);
    check(&rt, a, b, b"F11F00212")
}

#[test]
fn two_in_one(rt: HostRuntime) -> Result<(), Fail> {
    let a: Drawn<'_> = (
        Kind::Areas,
        &[
            &[(0, 0), (2, 0), (0, 2), (0, 0)],
            &[(4, 0), (6, 0), (6, 2), (4, 0)],
        ],
    );
    let b: Drawn<'_> = (
        Kind::Areas,
        &[&[(-1, -1), (7, -1), (7, 3), (-1, 3), (-1, -1)]],
    );
    check(&rt, a, b, b"2FF1FF212")
}

#[test]
fn points_in_on_out(rt: HostRuntime) -> Result<(), Fail> {
    let a: Drawn<'_> = (Kind::Points, &[&[(1, 1)], &[(2, 2)], &[(3, 3)]]);
    let b: Drawn<'_> = (Kind::Areas, &[&[(0, 0), (4, 0), (0, 4), (0, 0)]]);
    check(&rt, a, b, b"000FFF212")
}

#[test]
fn a_hair_short(rt: HostRuntime) -> Result<(), Fail> {
    let a: Drawn<'_> = (Kind::Lines, &[&[(0, 0), (333333333333, 0)]]);
    let b: Drawn<'_> = (Kind::Lines, &[&[(333333333333, 1), (333333333334, -2)]]);
    check(&rt, a, b, b"FF1FF0102")
}

#[test]
fn far_corner(rt: HostRuntime) -> Result<(), Fail> {
    let a: Drawn<'_> = (
        Kind::Areas,
        &[&[
            (-1000000000000000000, -1000000000000000000),
            (1000000000000000000, 999999999999999999),
            (-1000000000000000000, 1000000000000000000),
            (-1000000000000000000, -1000000000000000000),
        ]],
    );
    let b: Drawn<'_> = (Kind::Points, &[&[(999999999999999998, 999999999999999997)]]);
    check(&rt, a, b, b"FF2FF10F2")
}

#[test]
fn line_in_line(rt: HostRuntime) -> Result<(), Fail> {
    let a: Drawn<'_> = (Kind::Lines, &[&[(3, 4), (6, 2)]]);
    let b: Drawn<'_> = (Kind::Lines, &[&[(0, 6), (6, 2), (5, 0), (6, 5)]]);
    check(&rt, a, b, b"1FF0FF102")
}

#[test]
fn lines_run_together(rt: HostRuntime) -> Result<(), Fail> {
    let a: Drawn<'_> = (Kind::Lines, &[&[(0, 1), (4, 4), (2, 1)]]);
    let b: Drawn<'_> = (Kind::Lines, &[&[(4, 4), (2, 1), (4, 0), (3, 4)]]);
    check(&rt, a, b, b"1010F0102")
}

#[test]
fn line_along_side(rt: HostRuntime) -> Result<(), Fail> {
    let a: Drawn<'_> = (Kind::Lines, &[&[(1, 2), (2, 3), (0, 1)]]);
    let b: Drawn<'_> = (Kind::Areas, &[&[(4, 2), (0, 2), (3, 4), (4, 2)]]);
    check(&rt, a, b, b"1F1F00212")
}

#[test]
fn bow_tie_inside(rt: HostRuntime) -> Result<(), Fail> {
    let a: Drawn<'_> = (Kind::Areas, &[&[(0, 0), (4, 4), (4, 0), (0, 4), (0, 0)]]);
    let b: Drawn<'_> = (Kind::Points, &[&[(1, 2)]]);
    check(&rt, a, b, b"0F2FF1FF2")
}

#[test]
fn bow_tie_between(rt: HostRuntime) -> Result<(), Fail> {
    let a: Drawn<'_> = (Kind::Areas, &[&[(0, 0), (4, 4), (4, 0), (0, 4), (0, 0)]]);
    let b: Drawn<'_> = (Kind::Points, &[&[(2, 1)]]);
    check(&rt, a, b, b"FF2FF10F2")
}

#[test]
fn bow_tie_crossing(rt: HostRuntime) -> Result<(), Fail> {
    let a: Drawn<'_> = (Kind::Areas, &[&[(0, 0), (4, 4), (4, 0), (0, 4), (0, 0)]]);
    let b: Drawn<'_> = (Kind::Points, &[&[(2, 2)]]);
    check(&rt, a, b, b"FF20F1FF2")
}

#[test]
fn overlap_is_outside(rt: HostRuntime) -> Result<(), Fail> {
    let a: Drawn<'_> = (
        Kind::Areas,
        &[
            &[(0, 0), (4, 0), (4, 4), (0, 4), (0, 0)],
            &[(2, 2), (6, 2), (6, 6), (2, 6), (2, 2)],
        ],
    );
    let b: Drawn<'_> = (Kind::Points, &[&[(3, 3)]]);
    check(&rt, a, b, b"FF2FF10F2")
}

#[test]
fn ring_twice(rt: HostRuntime) -> Result<(), Fail> {
    let a: Drawn<'_> = (
        Kind::Areas,
        &[
            &[(0, 0), (4, 0), (0, 4), (0, 0)],
            &[(0, 0), (4, 0), (0, 4), (0, 0)],
        ],
    );
    let b: Drawn<'_> = (Kind::Points, &[&[(1, 1)]]);
    check(&rt, a, b, b"FFFFF10F2")
}

#[test]
fn areas_overlap(rt: HostRuntime) -> Result<(), Fail> {
    let a: Drawn<'_> = (Kind::Areas, &[&[(0, 0), (4, 0), (4, 4), (0, 4), (0, 0)]]);
    let b: Drawn<'_> = (Kind::Areas, &[&[(2, 2), (6, 2), (6, 6), (2, 6), (2, 2)]]);
    check(&rt, a, b, b"212101212")
}

#[test]
fn overlap_along_sides(rt: HostRuntime) -> Result<(), Fail> {
    let a: Drawn<'_> = (Kind::Areas, &[&[(0, 0), (4, 0), (4, 4), (0, 4), (0, 0)]]);
    let b: Drawn<'_> = (Kind::Areas, &[&[(2, 0), (6, 0), (6, 4), (2, 4), (2, 0)]]);
    check(&rt, a, b, b"212111212")
}

#[test]
fn last_edge_along(rt: HostRuntime) -> Result<(), Fail> {
    let a: Drawn<'_> = (
        Kind::Areas,
        &[&[(0, 0), (6, 0), (6, 6), (3, 5), (0, 6), (0, 0)]],
    );
    let b: Drawn<'_> = (
        Kind::Areas,
        &[&[(-1, 1), (7, 2), (7, 7), (0, 7), (0, 4), (-1, 1)]],
    );
    check(&rt, a, b, b"212111212")
}

#[test]
fn ring_in_ring(rt: HostRuntime) -> Result<(), Fail> {
    let a: Drawn<'_> = (Kind::Areas, &[&[(1, 1), (3, 1), (3, 3), (1, 3), (1, 1)]]);
    let b: Drawn<'_> = (Kind::Areas, &[&[(0, 0), (4, 0), (4, 4), (0, 4), (0, 0)]]);
    check(&rt, a, b, b"2FF1FF212")
}

#[test]
fn same_ring(rt: HostRuntime) -> Result<(), Fail> {
    let a: Drawn<'_> = (Kind::Areas, &[&[(0, 0), (5, 1), (2, 4), (0, 0)]]);
    let b: Drawn<'_> = (Kind::Areas, &[&[(2, 4), (0, 0), (5, 1), (2, 4)]]);
    check(&rt, a, b, b"2FFF1FFF2")
}

#[test]
fn line_through_area(rt: HostRuntime) -> Result<(), Fail> {
    let a: Drawn<'_> = (Kind::Lines, &[&[(-1, 1), (9, 3)]]);
    let b: Drawn<'_> = (Kind::Areas, &[&[(0, 0), (4, 0), (4, 4), (0, 4), (0, 0)]]);
    check(&rt, a, b, b"101FF0212")
}

#[test]
fn line_ends_in_area(rt: HostRuntime) -> Result<(), Fail> {
    let a: Drawn<'_> = (Kind::Lines, &[&[(1, 1), (9, 3)]]);
    let b: Drawn<'_> = (Kind::Areas, &[&[(0, 0), (4, 0), (4, 4), (0, 4), (0, 0)]]);
    check(&rt, a, b, b"1010F0212")
}

#[test]
fn end_on_middle(rt: HostRuntime) -> Result<(), Fail> {
    let a: Drawn<'_> = (Kind::Lines, &[&[(0, 0), (4, 0)]]);
    let b: Drawn<'_> = (Kind::Lines, &[&[(2, 0), (2, 3)]]);
    check(&rt, a, b, b"F01FF0102")
}
