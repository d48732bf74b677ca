//! Pictures of layers of any geometry.

use any_geometry_core::AnyGeometry;
use draw_core::{can_be_drawn, picture};
use layer_core::Layer;
use plane_core::Rings;
use refine_core::Refined;
use std::alloc::Global;
use test_data::{TextRow, layer_of};

/// The picture of two layers and the only match, or `None` if it can't be drawn.
fn drawn(
    alloc: Global,
    left: &Layer<AnyGeometry>,
    right: &Layer<AnyGeometry>,
    pair: (u32, u32),
) -> Option<String> {
    if !can_be_drawn(left, right) {
        return None;
    }
    let matches = [Refined { pair, answer: () }];
    picture(alloc, left, right, &matches).ok()
}

/// The picture of these features and the only match, or `None` if something is refused.
pub(crate) fn any_picture_of(
    rt: &HostRuntime,
    left: &[TextRow<'_>],
    right: &[TextRow<'_>],
    pair: (u32, u32),
) -> Option<String> {
    drawn(
        rt.alloc(),
        &layer_of(rt, left, Rings::EvenOdd)?,
        &layer_of(rt, right, Rings::EvenOdd)?,
        pair,
    )
}
