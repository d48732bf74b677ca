//! A layer that is edited, and seen between its edits.

use geom_core::Shape;
use layer_core::{Layer, LayerFault};
use layer_edit_core::LayerEditor;
use std::alloc::{AllocError, AllocGlobal, Global};
use std::hash::RandomState;
use std::mem;
use std::random::RandomSource;
use std::test::Fail;

/// A layer, and what an editor of it takes. Each edit takes the layer and gives it back.
#[derive(Drop)]
pub(crate) struct Edited {
    pub(crate) layer: Layer,
    alloc: Global,
    state: RandomState,
}

impl Edited {
    /// A layer to edit.
    pub(crate) fn of<R: AllocGlobal + RandomSource>(rt: &R, layer: Layer) -> Result<Edited, Fail> {
        Ok(Edited {
            layer,
            alloc: rt.alloc(),
            state: RandomState::new(rt)?,
        })
    }

    /// A layer without features, to edit.
    pub(crate) fn empty<R: AllocGlobal + RandomSource>(rt: &R) -> Result<Edited, Fail> {
        let editor = LayerEditor::new(rt.alloc(), RandomState::new(rt)?)?;
        Edited::of(rt, editor.finish()?)
    }

    /// Takes the layer, for an editor. A layer without features stands in its place.
    pub(crate) fn take(&mut self) -> Result<LayerEditor, AllocError> {
        let none = LayerEditor::new(self.alloc, self.state)?;
        let layer = mem::replace(&mut self.layer, none.finish()?);
        LayerEditor::of_layer(layer, self.state)
    }

    /// Gives the layer back, as it is edited.
    pub(crate) fn give(&mut self, editor: LayerEditor) -> Result<(), AllocError> {
        self.layer = editor.finish()?;
        Ok(())
    }

    /// Inserts a feature.
    pub(crate) fn insert(&mut self, id: &str, shape: Shape) -> Result<(), LayerFault> {
        let mut editor = self.take()?;
        let answer = editor.insert(id, shape);
        self.give(editor)?;
        answer
    }

    /// Removes a feature.
    pub(crate) fn remove(&mut self, id: &str) -> Result<Shape, LayerFault> {
        let mut editor = self.take()?;
        let answer = editor.remove(id);
        self.give(editor)?;
        answer
    }

    /// The number and the shape that an editor finds under an id.
    pub(crate) fn find(&mut self, id: &str) -> Result<Option<(u32, Shape)>, AllocError> {
        let editor = self.take()?;
        let found = match editor.find(id) {
            Some((number, shape)) => Some((number, *shape)),
            None => None,
        };
        self.give(editor)?;
        Ok(found)
    }
}

/// The result of `see` on a layer without features.
pub(crate) fn on_empty<R: AllocGlobal + RandomSource, F: FnOnce(&mut Edited) -> Result<bool, Fail>>(
    rt: &R,
    see: F,
) -> Result<bool, Fail>
    requires { F.IsAlwaysCallable see }
{
    let mut edited = Edited::empty(rt)?;
    see(&mut edited)
}
