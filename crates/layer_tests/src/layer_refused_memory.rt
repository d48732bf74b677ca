//! Edits that run out of memory. With each allocation failing in turn, what an editor finds stays
//! unchanged, and the same call with memory then has the same result as without the failure.

use crate::layers::{has, point, seen};
use geom_core::Shape;
use layer_core::{Layer, LayerFault};
use layer_edit_core::LayerEditor;
use std::alloc::{AllocError, AllocGlobal};
use std::hash::RandomState;
use std::test::Fail;

/// An id that needs an allocation.
const LONG_ID: &str = "0123456789abcdefg";

/// Ids in ascending order up to the second, and out of it from the third on.
const IDS: &[&str] = &[
    "a", LONG_ID, "c", "d", "e", "f", "g", "h", "i", "j", "k", "l", "m", "n", "o", "p", "q", "r",
    "s", "t",
];

const REMOVED: &[&str] = &[
    "a", LONG_ID, "c", "d", "e", "f", "g", "h", "i", "j", "k", "l", "m", "n",
];

const FIRST_EIGHT: &[&str] = &["a", "b", "c", "d", "e", "f", "g", "h"];

/// What an editor finds under each of the ids above.
type Sight = [Option<(u32, Shape)>; 20];

fn sight(editor: &LayerEditor) -> Sight {
    let mut found = [None; 20];
    for (place, id) in found.iter_mut().zip(IDS) {
        *place = editor.find(id).map(|(number, shape)| (number, *shape));
    }
    found
}

/// Whether the editor finds this number and this shape under the id.
fn finds(editor: &LayerEditor, id: &str, number: u32, shape: Shape) -> bool {
    editor.find(id) == Some((number, &shape))
}

/// Inserts a feature, again if an allocation fails, and returns whether the failure changes
/// nothing.
fn inserts_at_last(editor: &mut LayerEditor, id: &str, shape: Shape) -> bool {
    let before = sight(editor);
    match editor.insert(id, shape) {
        Ok(()) => true,
        Err(LayerFault::Memory) => {
            let is_before = sight(editor) == before && editor.find(id).is_none();
            is_before && editor.insert(id, shape).is_ok()
        }
        Err(_) => false,
    }
}

/// Removes a feature, again if an allocation fails, and returns whether the failure changes
/// nothing.
fn removes_at_last(editor: &mut LayerEditor, id: &str) -> bool {
    let before = sight(editor);
    let is_removed = match editor.remove(id) {
        Ok(_) => true,
        Err(LayerFault::Memory) => sight(editor) == before && editor.remove(id).is_ok(),
        Err(_) => false,
    };
    is_removed && editor.find(id).is_none()
}

/// An editor of a layer without features, made again if an allocation fails.
fn editor_at_last(rt: &HostRuntime) -> Result<LayerEditor, Fail> {
    let state = RandomState::new(rt)?;
    match LayerEditor::new(rt.alloc(), state) {
        Ok(editor) => Ok(editor),
        Err(AllocError) => Ok(LayerEditor::new(rt.alloc(), state)?),
    }
}

/// Inserts points on a line under these ids, and returns whether each is found.
fn grows(editor: &mut LayerEditor, ids: &[&str]) -> Result<bool, Fail> {
    for (number, id) in (0..).zip(ids) {
        let shape = point(i64::from(number), 0)?;
        if !inserts_at_last(editor, id, shape) || !finds(editor, id, number, shape) {
            return Ok(false);
        }
    }
    Ok(true)
}

fn shrinks(editor: &mut LayerEditor) -> bool {
    for id in REMOVED {
        if !removes_at_last(editor, id) {
            return false;
        }
    }
    true
}

/// Whether the layer and its tree have `len` features, of which the last has this number.
fn has_len(layer: &Layer, len: usize, last: (u32, &str, Shape)) -> bool {
    layer.len() == len && layer.tree().len() == len && has(layer, last.1, last.0, last.2)
}

/// Grows and shrinks a layer, and inserts once more.
fn grows_again(editor: &mut LayerEditor) -> Result<bool, Fail> {
    let origin = point(0, 0)?;
    let is_edited = grows(editor, IDS)? && shrinks(editor);
    let is_again = is_edited && inserts_at_last(editor, "a", origin);
    Ok(is_again && finds(editor, "a", 20, origin))
}

/// Whether the layer is given back with `len` features, of which the last is this. Without memory
/// it isn't.
fn gives(editor: LayerEditor, len: usize, last: (u32, &str, Shape)) -> bool {
    match editor.finish() {
        Ok(layer) => seen(layer, |layer| has_len(layer, len, last)),
        Err(AllocError) => true,
    }
}

#[test]
fn refused_growths(rt: HostRuntime) -> Result<(), Fail> {
    let mut editor = editor_at_last(&rt)?;
    assert!(rt; grows_again(&mut editor)?);
    assert!(rt; gives(editor, 7, (20, "a", point(0, 0)?)));
    Ok(())
}

/// Whether a layer of eight features accepts a ninth, for which its tree needs a second leaf.
fn takes_ninth(editor: &mut LayerEditor) -> Result<bool, Fail> {
    let shape = point(8, 0)?;
    let is_taken = grows(editor, FIRST_EIGHT)? && inserts_at_last(editor, "ninth", shape);
    Ok(is_taken && finds(editor, "ninth", 8, shape))
}

#[test]
fn refused_3(rt: HostRuntime) -> Result<(), Fail> {
    let mut editor = editor_at_last(&rt)?;
    assert!(rt; takes_ninth(&mut editor)?);
    assert!(rt; gives(editor, 9, (8, "ninth", point(8, 0)?)));
    Ok(())
}
