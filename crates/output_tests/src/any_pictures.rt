//! Pictures of geometries of any kind, written by hand.

use crate::any_layers::any_picture_of;
use test_data::TextRow;

/// The part of a picture from the size of its frame to the end.
fn drawing(text: &str) -> Option<&str> {
    let (_, rest) = text.split_once("</text>\n<svg ")?;
    let (_, drawing) = rest.split_once(" viewBox=\"0 0 ")?;
    Some(drawing)
}

/// Whether the picture of these features and the only match has this drawing.
fn draws(
    rt: &HostRuntime,
    left: &[TextRow<'_>],
    right: &[TextRow<'_>],
    pair: (u32, u32),
    expected: &str,
) -> bool {
    any_picture_of(rt, left, right, pair).is_some_and(|text| drawing(text.as_str())
        == Some(expected))
}

/// The cover goes from (-2, -3) to (8, 6), so the margin is 10 / 20 + 1 = 1 and the corner of the
/// frame is (-3, 7): the vertex (x, y) is drawn at (x + 3, 7 - y).
#[test]
fn parts_drawn(rt: HostRuntime) {
    let left = [
        (
            "pond",
            "POLYGON ((0 0, 6 0, 3 6, 0 0), (2 1, 4 1, 3 3, 2 1))",
        ),
        ("way", "LINESTRING (-2 1, 4 5, 8 5)"),
    ];
    let right = [
        ("posts", "MULTIPOINT (1 1, 7 -3)"),
        ("tracks", "MULTILINESTRING ((0 0, 2 3), (8 2, 5 -3, 5 1))"),
    ];
    let expected = "12 11\">\n<g class=\"left\">\n\
        <path fill-rule=\"evenodd\" class=\"match\" \
        d=\"M3 7L9 7L6 1L3 7zM5 6L7 6L6 4L5 6z\"><title>pond</title></path>\n\
        <path fill=\"none\" d=\"M1 6L7 2L11 2\"><title>way</title></path>\n\
        </g>\n<g class=\"right\">\n\
        <path class=\"point\" d=\"M4 6h0v0M10 10h0v0\"><title>posts</title></path>\n\
        <path fill=\"none\" class=\"match\" d=\"M3 7L5 4M11 5L8 10L8 6\">\
        <title>tracks</title></path>\n\
        </g>\n</svg>\n</svg>\n";
    assert!(rt; draws(&rt, &left, &right, (0, 1), expected));
}

/// The cover goes from (0, 0) to (4, 4), so the margin is 1: (x, y) is drawn at (x + 1, 5 - y).
#[test]
fn classes_drawn(rt: HostRuntime) {
    let left = [
        ("line", "LINESTRING (0 0, 4 4)"),
        ("corner", "POLYGON ((0 0, 4 0, 0 4, 0 0))"),
    ];
    let right = [("dot", "POINT (2 2)")];
    let expected = "6 6\">\n<g class=\"left\">\n\
        <path fill=\"none\" class=\"match\" d=\"M1 5L5 1\"><title>line</title></path>\n\
        <path fill-rule=\"evenodd\" d=\"M1 5L5 5L1 1L1 5z\"><title>corner</title></path>\n\
        </g>\n<g class=\"right\">\n\
        <path class=\"point match\" d=\"M3 3h0v0\"><title>dot</title></path>\n\
        </g>\n</svg>\n</svg>\n";
    assert!(rt; draws(&rt, &left, &right, (0, 0), expected));
}

/// Corners of the plane: the frame is that of the whole plane, whose corner is (-f, f) with
/// f = 1,100,000,000,000,000,001.
#[test]
fn far_ring_drawn(rt: HostRuntime) {
    let left = [(
        "far",
        "POLYGON ((-1000000000000000000 -1000000000000000000, \
        1000000000000000000 999999999999999999, -1000000000000000000 1000000000000000000, \
        -1000000000000000000 -1000000000000000000))",
    )];
    let expected = "2200000000000000002 2200000000000000002\">\n<g class=\"left\">\n\
        <path fill-rule=\"evenodd\" class=\"match\" d=\"\
        M100000000000000001 2100000000000000001L2100000000000000001 100000000000000002\
        L100000000000000001 100000000000000001L100000000000000001 2100000000000000001z\">\
        <title>far</title></path>\n\
        </g>\n<g class=\"right\">\n\
        </g>\n</svg>\n</svg>\n";
    assert!(rt; draws(&rt, &left, &[], (0, 0), expected));
}
