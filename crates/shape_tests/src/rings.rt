//! Worked examples of rings and edges that meet properly and that don't, by name.

use crate::zigzags::{edge, zigzag};
use plane_core::{Edge, Geometry, Kind, Vertex};
use ring_core::{has_proper_rings, is_proper, meet_properly};
use std::alloc::Global;
use std::process::Abort;
use std::test::Fail;

/// The vertices of a ring or of a polyline.
type Path<'a> = &'a [(i64, i64)];

/// The geometry of a kind with these paths.
fn geometry(alloc: Global, kind: Kind, paths: &[Path<'_>]) -> Result<Geometry, Fail> {
    let mut vertices = Vec::new(alloc);
    let mut ends = Vec::new(alloc);
    let mut end = 0u32;
    for path in paths {
        for (x, y) in *path {
            vertices.push(Vertex::new(*x, *y).ok_or("a coordinate out of range")?)?;
            end = end.wrapping_add(1);
        }
        ends.push(end)?;
    }
    Ok(Geometry::new(kind, ends, vertices).ok_or("no geometry")?)
}

/// Checks whether rings are proper.
fn check(
    rt: &(impl Abort + AllocGlobal),
    rings: &[Path<'_>],
    are_proper: bool,
) -> Result<(), Fail> {
    let area = geometry(rt.alloc(), Kind::Areas, rings)?;
    assert!(rt; has_proper_rings(rt.alloc(), &area)? == are_proper);
    Ok(())
}

/// Checks whether two edges meet properly, in either order and direction.
fn check_edges(rt: &impl Abort, e: &Edge, f: &Edge, is_proper: bool) {
    let back = Edge { a: e.b, b: e.a };
    assert!(rt; meet_properly(e, f) == is_proper);
    assert!(rt; meet_properly(f, e) == is_proper);
    assert!(rt; meet_properly(&back, f) == is_proper);
    assert!(rt; meet_properly(f, &back) == is_proper);
}

#[test]
fn bow_tie(rt: HostRuntime) -> Result<(), Fail> {
    check(&rt, &[&[(0, 0), (4, 4), (4, 0), (0, 4), (0, 0)]], false)
}

#[test]
fn hole_that_touches_the_side(rt: HostRuntime) -> Result<(), Fail> {
    let shell: Path<'_> = &[(0, 0), (4, 0), (4, 4), (0, 4), (0, 0)];
    check(&rt, &[shell, &[(4, 2), (2, 3), (2, 1), (4, 2)]], true)
}

#[test]
fn hole_through_the_side(rt: HostRuntime) -> Result<(), Fail> {
    let shell: Path<'_> = &[(0, 0), (4, 0), (4, 4), (0, 4), (0, 0)];
    check(&rt, &[shell, &[(5, 2), (2, 3), (2, 1), (5, 2)]], false)
}

#[test]
fn rings_along_each_other(rt: HostRuntime) -> Result<(), Fail> {
    let first: Path<'_> = &[(0, 0), (4, 0), (0, 4), (0, 0)];
    check(&rt, &[first, &[(4, 0), (4, 4), (0, 4), (4, 0)]], false)
}

#[test]
fn rings_along_a_part_of_a_vertical_side(rt: HostRuntime) -> Result<(), Fail> {
    let first: Path<'_> = &[(0, 0), (2, 0), (2, 4), (0, 0)];
    check(&rt, &[first, &[(2, 1), (4, 2), (2, 3), (2, 1)]], false)
}

#[test]
fn rings_that_overlap(rt: HostRuntime) -> Result<(), Fail> {
    let first: Path<'_> = &[(0, 0), (4, 0), (4, 4), (0, 4), (0, 0)];
    let second: Path<'_> = &[(2, 2), (6, 2), (6, 6), (2, 6), (2, 2)];
    check(&rt, &[first, second], false)
}

#[test]
fn ring_twice(rt: HostRuntime) -> Result<(), Fail> {
    let ring: Path<'_> = &[(0, 0), (4, 0), (0, 4), (0, 0)];
    check(&rt, &[ring, ring], false)
}

#[test]
fn rings_that_share_a_corner(rt: HostRuntime) -> Result<(), Fail> {
    let first: Path<'_> = &[(0, 0), (2, 0), (0, 2), (0, 0)];
    check(&rt, &[first, &[(2, 0), (4, 0), (4, 2), (2, 0)]], true)
}

#[test]
fn rings_above_each_other_on_one_line(rt: HostRuntime) -> Result<(), Fail> {
    let first: Path<'_> = &[(0, 0), (2, 0), (2, 2), (0, 0)];
    check(&rt, &[first, &[(2, 2), (2, 4), (0, 4), (2, 2)]], true)
}

#[test]
fn spike(rt: HostRuntime) -> Result<(), Fail> {
    let ring: Path<'_> = &[(0, 0), (4, 0), (8, 0), (4, 0), (0, 4), (0, 0)];
    check(&rt, &[ring], false)
}

#[test]
fn points_along_a_side(rt: HostRuntime) -> Result<(), Fail> {
    check(
        &rt,
        &[&[(0, 0), (1, 0), (3, 0), (4, 0), (4, 4), (0, 0)]],
        true,
    )
}

#[test]
fn lines_that_cross_have_no_rings(rt: HostRuntime) -> Result<(), Fail> {
    let paths: [Path<'_>; 1] = [&[(0, 0), (4, 4), (4, 0), (0, 4)]];
    let line = geometry(rt.alloc(), Kind::Lines, &paths)?;
    assert!(&rt; has_proper_rings(rt.alloc(), &line)?);
    Ok(())
}

/// An edge between two vertices far from the origin.
fn far_edge((a, b): (i64, i64), (c, d): (i64, i64)) -> Option<Edge> {
    Some(Edge {
        a: Vertex::new(a, b)?,
        b: Vertex::new(c, d)?,
    })
}

/// The second edge passes the end of the first at a distance of a third of a unit, on either side.
#[test]
fn a_hair_short(rt: HostRuntime) -> Result<(), Fail> {
    let end = 333_333_333_333;
    let e = far_edge((0, 0), (end, 0)).ok_or("no edge")?;
    let beyond = far_edge((end, 1), (end + 1, -2)).ok_or("no edge")?;
    let before = far_edge((end - 1, 1), (end, -2)).ok_or("no edge")?;
    check_edges(&rt, &e, &beyond, true);
    check_edges(&rt, &e, &before, false);
    Ok(())
}

/// Edges across the whole plane: two that start at one corner and are a unit apart at the other,
/// two that cross, and two on the same line.
#[test]
fn whole_plane(rt: HostRuntime) -> Result<(), Fail> {
    let far = 1_000_000_000_000_000_000;
    let e = far_edge((-far, -far), (far, far)).ok_or("no edge")?;
    let beside = far_edge((-far, -far), (far, far - 1)).ok_or("no edge")?;
    let across = far_edge((-far, 1 - far), (far, far - 1)).ok_or("no edge")?;
    let along = far_edge((far - 1, far - 1), (0, 0)).ok_or("no edge")?;
    check_edges(&rt, &e, &beside, true);
    check_edges(&rt, &e, &across, false);
    check_edges(&rt, &e, &along, false);
    Ok(())
}

#[test]
fn edges_without_length(rt: HostRuntime) {
    let e = edge(0, 0, 4, 4);
    check_edges(&rt, &e, &edge(2, 2, 2, 2), true);
    check_edges(&rt, &e, &edge(0, 0, 0, 0), true);
    check_edges(&rt, &e, &edge(1, 2, 1, 2), true);
}

/// Checks whether the edges of a zigzag of some steps, and one more edge, are proper.
fn check_zigzag(
    rt: &(impl Abort + AllocGlobal),
    steps: u32,
    last: Edge,
    is_wanted: bool,
) -> Result<(), Fail> {
    let edges = zigzag(rt.alloc(), steps, last)?;
    assert!(rt; is_proper(rt.alloc(), &edges)? == is_wanted);
    Ok(())
}

/// Few enough edges for a comparison by the boxes of their runs, and so many that they need a tree.
#[test]
fn many_edges(rt: HostRuntime) -> Result<(), Fail> {
    for steps in [200u32, 2_000] {
        check_zigzag(&rt, steps, edge(0, 5, 200, 5), true)?;
        check_zigzag(&rt, steps, edge(50, 2, 50, -1), true)?;
        check_zigzag(&rt, steps, edge(40, 2, 41, -1), false)?;
        check_zigzag(&rt, steps, edge(199, 1, 200, 0), false)?;
    }
    Ok(())
}

/// Edges that cross within a run, in the next run, and as the first and the last of all.
#[test]
fn crossing_edges_in_runs(rt: HostRuntime) -> Result<(), Fail> {
    for steps in [16u32, 17, 20, 23, 24, 1_023, 1_024] {
        let last = steps as i32;
        check_zigzag(&rt, steps, edge(last - 1, 2, last, -1), false)?;
        check_zigzag(&rt, steps, edge(last - 8, 2, last - 7, -1), false)?;
        check_zigzag(&rt, steps, edge(0, 2, 1, -1), false)?;
        check_zigzag(&rt, steps, edge(last, 2, last + 1, -1), true)?;
    }
    Ok(())
}

/// There are so many edges that comparing all pairs would take minutes.
#[test]
fn long_row(rt: HostRuntime) -> Result<(), Fail> {
    let above = edge(0, 5, 300_000, 5);
    assert!(&rt; is_proper(rt.alloc(), &zigzag(rt.alloc(), 300_000, above)?)?);
    Ok(())
}
