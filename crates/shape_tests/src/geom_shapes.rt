//! Each public call on shapes and matrices once, with expected values computed by hand.

use geom_core::{LIMIT, Shape};
use std::process::Abort;

fn shape(rt: &impl Abort, x1: i64, y1: i64, x2: i64, y2: i64) -> Shape {
    Shape::new(x1, y1, x2, y2).expect(rt, "corners in order and in range")
}

#[test]
fn corners_in_order_and_in_range(rt: HostRuntime) {
    let s = shape(&rt, -LIMIT, 2, 3, LIMIT);
    assert!(rt; (s.x1(), s.y1(), s.x2(), s.y2()) == (-LIMIT, 2, 3, LIMIT));
    assert!(rt; Shape::new(1, 0, 0, 0).is_none());
    assert!(rt; Shape::new(0, 1, 0, 0).is_none());
    assert!(rt; Shape::new(-LIMIT - 1, 0, 0, 0).is_none());
    assert!(rt; Shape::new(0, 0, 0, LIMIT + 1).is_none());
}

#[test]
fn dimensions_and_areas(rt: HostRuntime) {
    let point = shape(&rt, 4, 4, 4, 4);
    let segment = shape(&rt, 1, 0, 3, 0);
    let rectangle = shape(&rt, 1, 0, 3, 7);
    assert!(rt; (point.dim(), point.area()) == (0, 0));
    assert!(rt; (segment.dim(), segment.area()) == (1, 0));
    assert!(rt; (rectangle.dim(), rectangle.area()) == (2, 14));
}

#[test]
fn dimensions_and_areas_at_the_limits(rt: HostRuntime) {
    let corner = shape(&rt, LIMIT, -LIMIT, LIMIT, -LIMIT);
    let across = shape(&rt, -LIMIT, LIMIT, LIMIT, LIMIT);
    let upright = shape(&rt, -LIMIT, -LIMIT, -LIMIT, LIMIT);
    let square = shape(&rt, LIMIT - 1, LIMIT - 1, LIMIT, LIMIT);
    let strip = shape(&rt, -LIMIT, -LIMIT, LIMIT, 1 - LIMIT);
    assert!(rt; LIMIT == 1_000_000_000_000_000_000);
    assert!(rt; (corner.dim(), corner.area()) == (0, 0));
    assert!(rt; (across.dim(), across.area()) == (1, 0));
    assert!(rt; (upright.dim(), upright.area()) == (1, 0));
    assert!(rt; (square.dim(), square.area()) == (2, 1));
    assert!(rt; (strip.dim(), strip.area()) == (2, 2_000_000_000_000_000_000));
}

#[test]
fn meeting_and_covering(rt: HostRuntime) {
    let a = shape(&rt, 0, 0, 4, 4);
    let b = shape(&rt, 4, 4, 8, 8);
    let c = shape(&rt, 5, 0, 6, 4);
    assert!(rt; a.meets(&b));
    assert!(rt; !a.meets(&c));
    assert!(rt; a.cover(&c) == shape(&rt, 0, 0, 6, 4));
    assert!(rt; c.is_in(&a.cover(&c)));
    assert!(rt; !c.is_in(&a));
}
