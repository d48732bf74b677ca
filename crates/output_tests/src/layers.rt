//! Layers for the tests, and their pictures.
//!
//! The proof of a function that owns a layer grows with the square of its length, so layers are
//! filled and drawn by functions that borrow them.

use draw_core::{can_be_drawn, picture};
use geom_core::Shape;
use layer_core::Layer;
use layer_edit_core::LayerEditor;
use std::alloc::Global;
use std::hash::RandomState;

/// A feature: its id, and the corners of its shape.
pub(crate) type Row<'a> = (&'a str, (i64, i64, i64, i64));

/// A layer without features, or `None` without memory or random keys.
fn empty_layer(rt: &HostRuntime) -> Option<LayerEditor> {
    LayerEditor::new(rt.alloc(), RandomState::new(rt).ok()?).ok()
}

/// Inserts these features, or returns `None` if one is refused.
fn insert_all(layer: &mut LayerEditor, rows: &[Row<'_>]) -> Option<()> {
    for (id, (x1, y1, x2, y2)) in rows {
        layer.insert(id, Shape::new(*x1, *y1, *x2, *y2)?).ok()?;
    }
    Some(())
}

/// The layer of these features, or `None` if one is refused.
fn layer_of(rt: &HostRuntime, rows: &[Row<'_>]) -> Option<Layer> {
    let mut layer = empty_layer(rt)?;
    insert_all(&mut layer, rows)?;
    layer.finish().ok()
}

/// The picture of two layers and these pairs, or `None` if it can't be drawn.
fn drawn(alloc: Global, left: &Layer, right: &Layer, pairs: &[(u32, u32)]) -> Option<String> {
    if !can_be_drawn(left, right) {
        return None;
    }
    picture(alloc, left, right, pairs).ok()
}

/// The picture of these features and pairs, or `None` if something is refused.
pub(crate) fn picture_of(
    rt: &HostRuntime,
    left: &[Row<'_>],
    right: &[Row<'_>],
    pairs: &[(u32, u32)],
) -> Option<String> {
    drawn(
        rt.alloc(),
        &layer_of(rt, left)?,
        &layer_of(rt, right)?,
        pairs,
    )
}
