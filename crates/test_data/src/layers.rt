//! Geometries of texts, and layers of them.

use any_geometry_core::AnyGeometry;
use layer_core::Layer;
use layer_edit_core::LayerEditor;
use plane_core::Rings;
use std::alloc::Global;
use std::hash::RandomState;
use std::random::RandomSource;
use wkt_any_core::read;
use wkt_core::{Limits, Scale};

/// A feature: its id, and the text of its geometry.
pub type TextRow<'a> = (&'a str, &'a str);

/// The geometry of a text at a scale of no decimals, or `None` if it is refused.
pub fn geometry_of(alloc: Global, text: &str, rings: Rings) -> Option<AnyGeometry> {
    let scale = Scale::within(Limits::Any, 0)?;
    let answer = read(alloc, text.as_bytes(), scale, rings).ok()?;
    let geometry = answer.ok()?;
    Some(AnyGeometry::new(geometry, rings))
}

/// The layer of these features, or `None` if one is refused.
pub fn layer_of<R: AllocGlobal + RandomSource>(
    rt: &R,
    rows: &[TextRow<'_>],
    rings: Rings,
) -> Option<Layer<AnyGeometry>> {
    let mut editor = LayerEditor::new(rt.alloc(), RandomState::new(rt).ok()?).ok()?;
    for (id, text) in rows {
        editor
            .insert(id, geometry_of(rt.alloc(), text, rings)?)
            .ok()?;
    }
    editor.finish().ok()
}
