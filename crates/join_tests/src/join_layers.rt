//! Layers for tests.

use file_core::LayerReader;
use geom_core::Shape;
use layer_core::Layer;
use layer_edit_core::LayerEditor;
use row_core::{FromRead, ReadFault};
use std::alloc::{AllocError, Global};
use std::hash::RandomState;
use std::random::RandomSource;
use std::test::Fail;
use std::thread::Threads;
use test_data::{Random, points_text, shapes_text};
use wkt_core::Scale;

/// The scale without decimals.
pub(crate) fn whole() -> Result<Scale, Fail> {
    Ok(Scale::new(0).ok_or("a scale")?)
}

/// The result of `see` on a value. It takes long to prove a function that drops a layer itself.
pub(crate) fn seen<V: Drop, T, F: FnOnce(&V) -> T>(value: V, see: F) -> T
    requires { F.IsAlwaysCallable see }
{
    see(&value)
}

/// The result of reading a file with this text.
fn read_text<R: Threads + Sync + RandomSource + AllocGlobal>(
    rt: &R,
    text: &str,
) -> Result<Result<Layer, ReadFault>, Fail> {
    let state = RandomState::new(rt)?;
    let reader = LayerReader {
        rt,
        alloc: rt.alloc(),
        format: whole()?,
        threads: 1,
    };
    let mut source = FromRead::new(text.as_bytes());
    Ok(reader.read_layer(state, &mut source))
}

/// The layer of a file with this text.
pub(crate) fn layer_of<R: Threads + Sync + RandomSource + AllocGlobal>(
    rt: &R,
    text: &str,
) -> Result<Layer, Fail> {
    Ok(read_text(rt, text)??)
}

/// The layer of `count` points, read again if an allocation fails.
pub(crate) fn points<R: Threads + Sync + RandomSource + AllocGlobal>(
    rt: &R,
    count: u32,
) -> Result<Layer, Fail> {
    let text = points_text_at_last(rt.alloc(), count)?;
    match read_text(rt, text.as_str())? {
        Ok(layer) => Ok(layer),
        Err(_) => layer_of(rt, text.as_str()),
    }
}

/// The text of a file of `count` points, written again if an allocation fails.
fn points_text_at_last(alloc: Global, count: u32) -> Result<String, AllocError> {
    match points_text(alloc, count) {
        Ok(text) => Ok(text),
        Err(AllocError) => points_text(alloc, count),
    }
}

fn insert(alloc: Global, layer: &mut LayerEditor, number: u32, shape: Shape) -> Option<()> {
    let id = format!(in alloc; "e{number}").ok()?;
    layer.insert(id.as_str(), shape).ok()
}

fn remove(alloc: Global, layer: &mut LayerEditor, number: u32) -> Option<Shape> {
    let id = format!(in alloc; "f{number}").ok()?;
    layer.remove(id.as_str()).ok()
}

/// Inserts `count` features with the ids e0, e1 and so on, and after every third deletes one of
/// those that were read. Returns `None` if an edit is refused.
fn edit(alloc: Global, layer: &mut LayerEditor, random: &mut Random, count: u32) -> Option<()> {
    for number in 0..count {
        insert(alloc, layer, number, random.shape()?)?;
        if number % 3 == 0 {
            remove(alloc, layer, number)?;
        }
    }
    Some(())
}

/// A layer packed from `count` shapes.
fn packed<R: Threads + Sync + RandomSource + AllocGlobal>(
    rt: &R,
    random: &mut Random,
    count: u32,
) -> Result<Layer, Fail> {
    layer_of(
        rt,
        shapes_text(rt.alloc(), random, count)
            .ok_or("a text")?
            .as_str(),
    )
}

/// A layer packed from `count` shapes, after `edits` insertions and a third as many deletions.
pub(crate) fn edited<R: Threads + Sync + RandomSource + AllocGlobal>(
    rt: &R,
    random: &mut Random,
    count: u32,
    edits: u32,
) -> Result<Layer, Fail> {
    let layer = packed(rt, random, count)?;
    let mut editor = LayerEditor::of_layer(layer, RandomState::new(rt)?)?;
    edit(rt.alloc(), &mut editor, random, edits).ok_or("an edit")?;
    Ok(editor.finish()?)
}
