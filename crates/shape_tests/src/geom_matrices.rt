//! The matrix of two shapes for worked examples, and the relations that hold for it.

use geom_core::Shape;
use relation_core::Relation::{
    Contains, ContainsProperly, CoveredBy, Covers, Crosses, Equals, Intersects, Overlaps, Touches,
    Within,
};
use relation_core::{Relation, relate};
use std::process::Abort;
use std::test::Fail;

/// The corners x1, y1, x2 and y2.
type Corners = [i64; 4];

const SQUARE: Corners = [0, 0, 4, 4];

fn shape(rt: &impl Abort, [x1, y1, x2, y2]: Corners) -> Shape {
    Shape::new(x1, y1, x2, y2).expect(rt, "corners in order and in range")
}

/// Checks the matrix of two shapes; the relations of `hold` hold for them, and those of `fail`
/// don't.
fn check(
    rt: &impl Abort,
    shapes: [Corners; 2],
    matrix: &[u8; 9],
    hold: &[Relation],
    fail: &[Relation],
) {
    let (a, b) = (shape(rt, shapes[0]), shape(rt, shapes[1]));
    assert!(rt; relate(&a, &b).text() == *matrix);
    for relation in hold {
        assert!(rt; relation.holds(&a, &b));
    }
    for relation in fail {
        assert!(rt; !relation.holds(&a, &b));
    }
}

#[test]
fn ring_spellings(rt: HostRuntime) {
    let hold = [Equals, Within, Contains];
    check(
        &rt,
        [SQUARE, SQUARE],
        b"2FFF1FFF2",
        &hold,
        &[Touches, Overlaps],
    );
}

#[test]
fn corner_rectangles(rt: HostRuntime) {
    let shapes = [SQUARE, [4, 4, 8, 8]];
    check(&rt, shapes, b"FF2F01212", &[Touches, Intersects], &[]);
}

#[test]
fn segment_on_edge(rt: HostRuntime) {
    let shapes = [[1, 0, 3, 0], SQUARE];
    check(&rt, shapes, b"F1FF0F212", &[Touches], &[Within]);
}

#[test]
fn segment_inside(rt: HostRuntime) {
    check(&rt, [[0, 2, 2, 2], SQUARE], b"1FF00F212", &[Within], &[]);
}

#[test]
fn segments_meet(rt: HostRuntime) {
    let across = [[-1, 2, 5, 2], [2, -1, 2, 5]];
    check(&rt, across, b"0F1FF0102", &[Crosses], &[]);
    let along = [[0, 0, 4, 0], [2, 0, 6, 0]];
    check(&rt, along, b"1010F0102", &[Overlaps], &[Crosses]);
}

/// A shape with the same set of points covers it, and has it in its interior only if it's a point.
#[test]
fn the_same_shape(rt: HostRuntime) {
    let both = [Covers, CoveredBy];
    check(
        &rt,
        [SQUARE, SQUARE],
        b"2FFF1FFF2",
        &both,
        &[ContainsProperly],
    );
    let segment = [1, 2, 3, 2];
    check(
        &rt,
        [segment, segment],
        b"1FFF0FFF2",
        &both,
        &[ContainsProperly],
    );
    let point = [4, 4, 4, 4];
    let all = [Covers, CoveredBy, ContainsProperly];
    check(&rt, [point, point], b"0FFFFFFF2", &all, &[]);
}

/// What lies on the ring of a square is covered by it, and not contained.
#[test]
fn on_the_ring(rt: HostRuntime) {
    let fail = [Contains, ContainsProperly, CoveredBy];
    let corner = [4, 4, 4, 4];
    check(&rt, [SQUARE, corner], b"FF20F1FF2", &[Covers], &fail);
    let edge = [1, 0, 3, 0];
    check(&rt, [SQUARE, edge], b"FF2101FF2", &[Covers], &fail);
    let fail = [Within, ContainsProperly, Covers];
    check(&rt, [edge, SQUARE], b"F1FF0F212", &[CoveredBy], &fail);
}

/// Shapes in a square, of which those that touch its ring aren't contained properly.
#[test]
fn inside_of_the_ring(rt: HostRuntime) {
    let all = [Covers, Contains, ContainsProperly];
    let fail = [CoveredBy, Within];
    check(&rt, [SQUARE, [1, 1, 3, 3]], b"212FF1FF2", &all, &fail);
    check(&rt, [SQUARE, [1, 2, 3, 2]], b"102FF1FF2", &all, &fail);
    check(&rt, [SQUARE, [2, 2, 2, 2]], b"0F2FF1FF2", &all, &fail);
    let both = [Covers, Contains];
    let fail = [ContainsProperly, CoveredBy];
    check(&rt, [SQUARE, [0, 1, 3, 3]], b"212F11FF2", &both, &fail);
    check(&rt, [SQUARE, [0, 2, 2, 2]], b"102F01FF2", &both, &fail);
}

/// Segments and points on them.
#[test]
fn along_a_segment(rt: HostRuntime) {
    let segment = [0, 0, 4, 0];
    let all = [Covers, Contains, ContainsProperly];
    check(&rt, [segment, [1, 0, 3, 0]], b"101FF0FF2", &all, &[]);
    check(&rt, [segment, [2, 0, 2, 0]], b"0F1FF0FF2", &all, &[]);
    let fail = [Contains, ContainsProperly, CoveredBy];
    check(&rt, [segment, [4, 0, 4, 0]], b"FF10F0FF2", &[Covers], &fail);
}

/// Shapes that leave each other, or share no point.
#[test]
fn neither_covers(rt: HostRuntime) {
    let none = [Covers, CoveredBy, ContainsProperly];
    let overlapping = [SQUARE, [2, 2, 6, 6]];
    check(&rt, overlapping, b"212101212", &[Overlaps], &none);
    let apart = [SQUARE, [5, 5, 6, 6]];
    check(&rt, apart, b"FF2FF1212", &[], &none);
}
