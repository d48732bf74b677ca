//! A picture with each allocation refused in turn.

use crate::any_layers::any_picture_of;
use crate::layers::picture_of;

/// The end of the picture of a matching rectangle and point.
const END: &str = "<g class=\"left\">\n\
    <path class=\"match\" d=\"M1 1h4v2h-4z\"><title>a</title></path>\n</g>\n\
    <g class=\"right\">\n\
    <path class=\"point match\" d=\"M5 1h0v0\"><title>b</title></path>\n</g>\n\
    </svg>\n</svg>\n";

/// The picture of a matching rectangle and point, made again if an allocation fails.
fn picture_at_last(rt: &HostRuntime) -> Option<String> {
    let left = [("a", (0, 0, 4, 2))];
    let right = [("b", (4, 2, 4, 2))];
    for _ in 0..10 {
        if let Some(text) = picture_of(rt, &left, &right, &[(0, 0)]) {
            return Some(text);
        }
    }
    None
}

/// Passes with each allocation failing in turn: after a failure, the same call gives the same text.
#[test]
fn refused_picture(rt: HostRuntime) {
    assert!(rt; picture_at_last(&rt).is_some_and(|text| text.as_str().ends_with(END)));
}

/// The end of the picture of a matching area and line.
const ANY_END: &str = "<g class=\"left\">\n\
    <path fill-rule=\"evenodd\" class=\"match\" d=\"M1 5L5 5L1 1L1 5z\">\
    <title>a</title></path>\n</g>\n\
    <g class=\"right\">\n\
    <path fill=\"none\" class=\"match\" d=\"M1 5L5 1\"><title>b</title></path>\n</g>\n\
    </svg>\n</svg>\n";

/// The picture of a matching area and line, made again if an allocation fails.
fn any_picture_at_last(rt: &HostRuntime) -> Option<String> {
    let left = [("a", "POLYGON ((0 0, 4 0, 0 4, 0 0))")];
    let right = [("b", "LINESTRING (0 0, 4 4)")];
    for _ in 0..10 {
        if let Some(text) = any_picture_of(rt, &left, &right, (0, 0)) {
            return Some(text);
        }
    }
    None
}

/// Passes with each allocation failing in turn: after a failure, the same call gives the same text.
#[test]
fn refused_any_picture(rt: HostRuntime) {
    assert!(rt; any_picture_at_last(&rt).is_some_and(|text| text.as_str().ends_with(ANY_END)));
}
