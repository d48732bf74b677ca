//! Layers of any geometry from texts, and their joins.

use any_geometry_core::AnyGeometry;
use any_join_core::{AnyOutcome, join_any, join_any_pairs};
use any_relation_core::AnyRelation;
use layer_core::Layer;
use layer_edit_core::LayerEditor;
use pair_core::Options;
use plane_core::Rings;
use refine_core::Refined;
use relation_core::{Matrix, Relation};
use std::alloc::Global;
use std::hash::RandomState;
use std::random::RandomSource;
use std::sync::Wait;
use std::thread::Threads;
use test_data::geometry_of;

/// The texts of two layers, whose rings follow one rule.
#[derive(Clone, Copy)]
pub(crate) struct Texts {
    pub(crate) rings: Rings,
    pub(crate) left: &'static [&'static str],
    pub(crate) right: &'static [&'static str],
}

/// A left and a right number, and the letters of their matrix.
pub(crate) type Row = (u32, u32, [u8; 9]);

/// The layer of the geometries of these texts, whose ids are their numbers.
pub(crate) fn layer(
    alloc: Global,
    state: RandomState,
    texts: &[&str],
    rings: Rings,
) -> Option<Layer<AnyGeometry>> {
    let mut editor = LayerEditor::new(alloc, state).ok()?;
    for (number, text) in texts.iter().enumerate() {
        let id = format!(in alloc; "{number}").ok()?;
        editor.insert(&id, geometry_of(alloc, text, rings)?).ok()?;
    }
    editor.finish().ok()
}

/// The relation with this name or mask.
pub(crate) fn relation(text: &str, rings: Rings) -> Option<AnyRelation> {
    let relation = Relation::read(text.as_bytes()).ok()?;
    AnyRelation::new(relation, rings).ok()
}

/// The layers of these texts.
fn layers<R: RandomSource + AllocGlobal>(
    rt: &R,
    texts: Texts,
) -> Option<(Layer<AnyGeometry>, Layer<AnyGeometry>)> {
    let (alloc, rings) = (rt.alloc(), texts.rings);
    let left = layer(alloc, RandomState::new(rt).ok()?, texts.left, rings)?;
    let right = layer(alloc, RandomState::new(rt).ok()?, texts.right, rings)?;
    Some((left, right))
}

/// The result of joining the layers of these texts.
pub(crate) fn joined<R: RandomSource + AllocGlobal + Threads + Wait + Sync>(
    rt: &R,
    texts: Texts,
    relation_text: &str,
    options: &Options,
) -> Option<AnyOutcome<Matrix>> {
    let (left, right) = layers(rt, texts)?;
    let relation = relation(relation_text, texts.rings)?;
    join_any(rt, &left, &right, &relation, options).ok()
}

/// The same for the pairs alone.
pub(crate) fn joined_pairs<R: RandomSource + AllocGlobal + Threads + Wait + Sync>(
    rt: &R,
    texts: Texts,
    relation_text: &str,
    options: &Options,
) -> Option<AnyOutcome<()>> {
    let (left, right) = layers(rt, texts)?;
    let relation = relation(relation_text, texts.rings)?;
    join_any_pairs(rt, &left, &right, &relation, options).ok()
}

/// Whether these are the matches, in order.
pub(crate) fn are_rows(matches: &[Refined<Matrix>], rows: &[Row]) -> bool {
    matches.len() == rows.len()
        && matches.iter().zip(rows).all(|(found, row)| (
            found.pair.0,
            found.pair.1,
            found.answer.text(),
        ) == *row)
}

/// Whether these are the pairs of the matches, in order.
pub(crate) fn are_pairs(matches: &[Refined<()>], rows: &[Row]) -> bool {
    matches.len() == rows.len()
        && matches
            .iter()
            .zip(rows)
            .all(|(found, row)| found.pair == (row.0, row.1))
}
