//! Layers of boxes with one distance, and their joins.

use geom_core::Shape;
use layer_core::Layer;
use layer_edit_core::LayerEditor;
use near_core::{Distance, Grown, NearOutcome, Nearness, SquaredDistance, near_layers};
use pair_core::Options;
use refine_core::Refined;
use std::alloc::Global;
use std::hash::RandomState;
use std::random::RandomSource;
use std::sync::Wait;
use std::thread::Threads;

/// The lower and the higher corner of a shape.
pub(crate) type Corners = (i64, i64, i64, i64);

/// The shapes of two layers.
#[derive(Clone, Copy)]
pub(crate) struct Shapes<'a> {
    pub(crate) left: &'a [Corners],
    pub(crate) right: &'a [Corners],
}

/// A left and a right number, and the square of their distance.
pub(crate) type Row = (u32, u32, SquaredDistance);

/// The layer of these shapes with one distance, whose ids are their numbers.
fn layer(
    alloc: Global,
    state: RandomState,
    shapes: &[Corners],
    distance: Distance,
) -> Option<Layer<Grown<Shape>>> {
    let mut editor = LayerEditor::new(alloc, state).ok()?;
    for (number, corners) in shapes.iter().enumerate() {
        let (x1, y1, x2, y2) = *corners;
        let shape = Shape::new(x1, y1, x2, y2)?;
        let id = format!(in alloc; "{number}").ok()?;
        let grown = Grown {
            geometry: shape,
            distance,
        };
        editor.insert(&id, grown).ok()?;
    }
    editor.finish().ok()
}

/// The result of joining the layers of these shapes by distance.
pub(crate) fn joined<R: RandomSource + AllocGlobal + Threads + Wait + Sync>(
    rt: &R,
    shapes: Shapes<'_>,
    units: u64,
    nearness: Nearness,
    options: &Options,
) -> Option<NearOutcome<SquaredDistance>> {
    let distance = Distance::new(units)?;
    let left = layer(
        rt.alloc(),
        RandomState::new(rt).ok()?,
        shapes.left,
        distance,
    )?;
    let right = layer(
        rt.alloc(),
        RandomState::new(rt).ok()?,
        shapes.right,
        distance,
    )?;
    near_layers(rt, &left, &right, nearness, options).ok()
}

/// Whether these are the matches, in order.
pub(crate) fn are_rows(matches: &[Refined<SquaredDistance>], rows: &[Row]) -> bool {
    matches.len() == rows.len()
        && matches.iter().zip(rows).all(|(found, row)| (found.pair.0, found.pair.1, found.answer)
            == *row)
}
