//! Layers of boxes, and the nearest features of two.

use geom_core::Shape;
use layer_core::Layer;
use layer_edit_core::LayerEditor;
use nearest_core::{Distance, Query, SquaredDistance, nearest_layers};
use refine_core::Refined;
use std::alloc::Global;
use std::hash::RandomState;
use std::random::RandomSource;
use std::thread::Threads;

/// The lower and the higher corner of a shape.
pub(crate) type Corners = (i64, i64, i64, i64);

/// The shapes of two layers.
#[derive(Clone, Copy)]
pub(crate) struct Shapes<'a> {
    pub(crate) left: &'a [Corners],
    pub(crate) right: &'a [Corners],
}

/// A left and a right number, and the square of their distance.
pub(crate) type Row = (u32, u32, SquaredDistance);

/// The layer of these shapes, whose ids are their numbers, as it is edited.
pub(crate) fn editor(alloc: Global, state: RandomState, shapes: &[Corners]) -> Option<LayerEditor> {
    let mut editor = LayerEditor::new(alloc, state).ok()?;
    for (number, corners) in shapes.iter().enumerate() {
        let (x1, y1, x2, y2) = *corners;
        let id = format!(in alloc; "{number}").ok()?;
        editor.insert(&id, Shape::new(x1, y1, x2, y2)?).ok()?;
    }
    Some(editor)
}

/// The layer of these shapes, whose ids are their numbers.
pub(crate) fn layer(alloc: Global, state: RandomState, shapes: &[Corners]) -> Option<Layer> {
    editor(alloc, state, shapes)?.finish().ok()
}

/// The query for `most` neighbours, at most `within` units away if it is a number.
pub(crate) fn query(most: u32, within: Option<u64>) -> Option<Query> {
    match within {
        None => Query::new(most, None),
        Some(units) => Query::new(most, Some(Distance::new(units)?)),
    }
}

/// The nearest right shapes of each left one.
pub(crate) fn joined<R: RandomSource + AllocGlobal + Threads + Sync>(
    rt: &R,
    shapes: Shapes<'_>,
    query: &Query,
    workers: u32,
) -> Option<Vec<Refined<SquaredDistance>>> {
    let left = layer(rt.alloc(), RandomState::new(rt).ok()?, shapes.left)?;
    let right = layer(rt.alloc(), RandomState::new(rt).ok()?, shapes.right)?;
    nearest_layers(rt, &left, &right, query, workers).ok()
}

/// Whether these are the matches, in order.
pub(crate) fn are_rows(matches: &[Refined<SquaredDistance>], rows: &[Row]) -> bool {
    matches.len() == rows.len()
        && matches.iter().zip(rows).all(|(found, row)| (found.pair.0, found.pair.1, found.answer)
            == *row)
}
