//! Matrices of geometries with more edges than are scanned without a tree.

use arrangement_core::relate;
use plane_core::{Geometry, Kind, Vertex};
use std::alloc::Global;
use std::process::Abort;
use std::test::Fail;

/// Adds the vertices of a side from a point in steps of one, without the last.
pub(crate) fn push_side(
    vertices: &mut Vec<Vertex>,
    (x, y): (i64, i64),
    (across, up): (i64, i64),
    steps: i64,
) -> Result<(), Fail> {
    for i in 0..steps {
        let vertex = Vertex::new(
            x.wrapping_add(across.wrapping_mul(i)),
            y.wrapping_add(up.wrapping_mul(i)),
        );
        vertices.push(vertex.ok_or("a coordinate out of range")?)?;
    }
    Ok(())
}

/// The geometry of a kind with one path.
pub(crate) fn one_path(alloc: Global, kind: Kind, vertices: Vec<Vertex>) -> Result<Geometry, Fail> {
    let mut ends = Vec::new(alloc);
    ends.push(u32::try_from(vertices.len())?)?;
    Ok(Geometry::new(kind, ends, vertices).ok_or("no geometry")?)
}

/// The square of this side whose least corner is (x, y), with a vertex at each grid point.
pub(crate) fn square(alloc: Global, x: i64, y: i64, side: i64) -> Result<Geometry, Fail> {
    let (right, top) = (x.wrapping_add(side), y.wrapping_add(side));
    let mut vertices = Vec::new(alloc);
    push_side(&mut vertices, (x, y), (1, 0), side)?;
    push_side(&mut vertices, (right, y), (0, 1), side)?;
    push_side(&mut vertices, (right, top), (-1, 0), side)?;
    push_side(&mut vertices, (x, top), (0, -1), side)?;
    push_side(&mut vertices, (x, y), (1, 0), 1)?;
    one_path(alloc, Kind::Areas, vertices)
}

/// Checks the matrix of two geometries, and its transpose for the reverse order.
fn check(
    rt: &(impl Abort + AllocGlobal),
    a: &Geometry,
    b: &Geometry,
    matrix: &[u8; 9],
) -> Result<(), Fail> {
    let [ii, ib, ie, bi, bb, be, ei, eb, ee] = *matrix;
    assert!(rt; relate(rt.alloc(), a, b)?.text() == *matrix);
    assert!(rt; relate(rt.alloc(), b, a)?.text() == [ii, bi, ei, ib, bb, eb, ie, be, ee]);
    Ok(())
}

#[test]
fn squares_overlap(rt: HostRuntime) -> Result<(), Fail> {
    let a = square(rt.alloc(), 0, 0, 10)?;
    let b = square(rt.alloc(), 5, 5, 10)?;
    check(&rt, &a, &b, b"212101212")
}

#[test]
fn square_inside(rt: HostRuntime) -> Result<(), Fail> {
    let a = square(rt.alloc(), 0, 0, 10)?;
    let b = square(rt.alloc(), 2, 2, 6)?;
    check(&rt, &a, &b, b"212FF1FF2")
}

#[test]
fn square_of_few_edges_inside(rt: HostRuntime) -> Result<(), Fail> {
    let a = square(rt.alloc(), 0, 0, 10)?;
    let b = square(rt.alloc(), 4, 4, 2)?;
    check(&rt, &a, &b, b"212FF1FF2")
}

#[test]
fn same_square(rt: HostRuntime) -> Result<(), Fail> {
    let a = square(rt.alloc(), 0, 0, 10)?;
    let b = square(rt.alloc(), 0, 0, 10)?;
    check(&rt, &a, &b, b"2FFF1FFF2")
}

#[test]
fn squares_share_a_side(rt: HostRuntime) -> Result<(), Fail> {
    let a = square(rt.alloc(), 0, 0, 10)?;
    let b = square(rt.alloc(), 10, 0, 10)?;
    check(&rt, &a, &b, b"FF2F11212")
}

#[test]
fn squares_share_a_corner(rt: HostRuntime) -> Result<(), Fail> {
    let a = square(rt.alloc(), 0, 0, 10)?;
    let b = square(rt.alloc(), 10, 10, 10)?;
    check(&rt, &a, &b, b"FF2F01212")
}

#[test]
fn squares_one_above_the_other(rt: HostRuntime) -> Result<(), Fail> {
    let a = square(rt.alloc(), 0, 0, 10)?;
    let b = square(rt.alloc(), 0, 20, 10)?;
    check(&rt, &a, &b, b"FF2FF1212")
}

#[test]
fn line_across_square(rt: HostRuntime) -> Result<(), Fail> {
    let mut vertices = Vec::new(rt.alloc());
    push_side(&mut vertices, (-5, 5), (1, 0), 21)?;
    let a = one_path(rt.alloc(), Kind::Lines, vertices)?;
    let b = square(rt.alloc(), 0, 0, 10)?;
    check(&rt, &a, &b, b"101FF0212")
}

#[test]
fn points_in_on_and_beside_square(rt: HostRuntime) -> Result<(), Fail> {
    let mut vertices = Vec::new(rt.alloc());
    push_side(&mut vertices, (5, 5), (5, 0), 3)?;
    let a = one_path(rt.alloc(), Kind::Points, vertices)?;
    let b = square(rt.alloc(), 0, 0, 10)?;
    check(&rt, &a, &b, b"000FFF212")
}
