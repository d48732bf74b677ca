//! Editing a layer.

ghost use Rattle.std.specs.Prelude.{◌≡◌};

use crate::features::FeaturesById;
use geom_core::Shape;
use layer_core::{Geometry, Layer, LayerFault, MAX_FEATURES, is_id};
use rtree_core::{Entry, RTree};
use std::alloc::{AllocError, Global};
use std::hash::RandomState;
use std::marker::Model;

/// A layer that is edited.
///
/// A lookup by id takes logarithmic time if the ids were inserted in ascending order, and constant
/// time for those out of order. An edit takes logarithmic time, amortised while the layer grows.
#[derive(Drop)]
pub struct LayerEditor<G: Geometry = Shape> {
    features: Box<FeaturesById<G>>,
    tree: Box<RTree>,
}

impl<G: Geometry> Model for LayerEditor<G> {
    ghost use Rattle.layer_core.specs.LayerTrees.{LayerState};
    ghost use Rattle.layer_core.specs.LayerCodes.{coded_layer};

    ghost Value = { LayerState G };

    ghost coded = { coded_layer G.code };

    ghost use Rattle.layer_core.specs.LayerTrees.{HoldsExactly};

    ghost view = { λ editor. record {
      list = editor.features.value.list;
      root = editor.tree.value;
    } };

    ghost invariant = { λ editor.
        HoldsExactly G.box_of editor.features.value.list editor.tree.value };
}

impl<G: Geometry> LayerEditor<G> {
    ghost use Rattle.std.specs.Prelude.{◌≡◌, ◌<◌, None, Some, OnOk, OnErr, IfOk, IfNone};
    ghost use Rattle.std.specs.Option.{option_map};
    ghost use Rattle.layer_core.specs.Limits.{most_features};
    ghost use Rattle.layer_core.specs.Layers.{empty, IsLayer, NumberAndShapeAre};
    ghost use Rattle.layer_core.specs.Layers.{with_id, inserted, deleted};
    ghost use Rattle.layer_core.specs.Refusals.{AnswersWith, insert_refusal, delete_refusal};

    /// A layer with no features. `state` hashes the ids that are out of order.
    pub fn new(alloc: Global, state: RandomState) -> Result<LayerEditor<G>, AllocError>
        ensures { IfOk result (λ editor. editor ≡ record { list = empty; root = None }) }
    {
        Ok(LayerEditor {
            features: Box::new(alloc, FeaturesById::new(alloc, state))?,
            tree: Box::new(alloc, RTree::new(alloc))?,
        })
    }

    /// Takes a layer to edit it. `state` hashes the ids that are out of order: these alone are put
    /// into a map.
    pub fn of_layer(layer: Layer<G>, state: RandomState) -> Result<LayerEditor<G>, AllocError>
        ensures { IfOk result (λ editor. editor ≡ layer) }
    {
        let (list, tree) = layer.into_list();
        let features = FeaturesById::of_list(list, state)?;
        Ok(LayerEditor {
            features: Box::new(features.allocator(), features)?,
            tree,
        })
    }

    /// The edited layer.
    ///
    /// # Errors
    /// If there is no memory for the list of the ids that are out of order.
    pub fn finish(self) -> Result<Layer<G>, AllocError>
        ensures { IfOk result (λ layer. layer ≡ self) }
    {
        let list = Box::into_inner(self.features).into_list()?;
        Ok(Layer::from_list(list, self.tree))
    }

    /// The number and the shape of the feature with this id.
    pub fn find(&self, id: &str) -> Option<(u32, &G)>
        // what the list has of an id
        ensures found { NumberAndShapeAre result (with_id id.now self.now.list) }
        // ids differ, and numbers rise and are below 1,000,000
        ensures layer { IsLayer self.now.list }
    {
        self.features.find(id)
    }

    /// Inserts a feature at the end of the layer.
    ///
    /// # Errors
    /// `BadId`, else `DoubleId`, else `LayerFull`, else `Memory`. The layer is then unchanged.
    pub fn insert(&mut self, id: &str, shape: G) -> Result<(), LayerFault>
        // the list has one feature more, at its end
        ensures ok { OnOk result (self.new.list ≡ inserted self.old.list id.now shape) }
        // a refusal changes neither list nor tree
        ensures err { OnErr result (self.new ≡ self.old) }
        // each refusal comes exactly in its order
        ensures refused { AnswersWith (insert_refusal self.old.list id.now) result }
    {
        if let Some(refusal) = self.insert_refusal(id) {
            return Err(refusal);
        }
        self.features.reserve()?;
        let id = self.features.owned(id)?;
        let number = self.features.next() as u32;
        let entry = Entry {
            shape: shape.bounds(),
            number,
        };
        self.tree.insert(entry)?;
        // Its room is reserved, so nothing fails after the tree has changed.
        match self.features.insert(id, shape) {
            Ok(_) => Ok(()),
            Err(_) => unreachable!(),
        }
    }

    /// Why a feature with this id can't be inserted, apart from lack of memory.
    fn insert_refusal(&self, id: &str) -> Option<LayerFault>
        ensures refusal { result ≡ insert_refusal self.now.list id.now }
        ensures absent { IfNone result (with_id id.now self.now.list ≡ None) }
        ensures below { IfNone result (self.now.list.next < most_features) }
        ensures layer { IfNone result (IsLayer self.now.list) }
    {
        if !is_id(id) {
            return Some(LayerFault::BadId);
        }
        if self.features.find(id).is_some() {
            return Some(LayerFault::DoubleId);
        }
        if self.features.next() >= MAX_FEATURES {
            return Some(LayerFault::LayerFull);
        }
        None
    }

    /// Deletes the feature with this id and returns its shape.
    ///
    /// # Errors
    /// `BadId`, else `NoSuchId`, else `Memory`. The layer is then unchanged.
    pub fn remove(&mut self, id: &str) -> Result<G, LayerFault>
        // the list is without the feature
        ensures ok { OnOk result (self.new.list ≡ deleted self.old.list id.now) }
        // the answer is its shape
        ensures shape { IfOk result
            (λ s. option_map (λ f. f.shape) (with_id id.now self.old.list) ≡ Some s) }
        // as above
        ensures err { OnErr result (self.new ≡ self.old) }
        ensures refused { AnswersWith (delete_refusal self.old.list id.now) result }
    {
        if !is_id(id) {
            return Err(LayerFault::BadId);
        }
        let found = self.features.find(id);
        let (number, shape) = found.ok_or(LayerFault::NoSuchId)?;
        let entry = Entry {
            shape: shape.bounds(),
            number,
        };
        // The tree holds an entry for each feature, so the result is always true.
        let _held = self.tree.remove(&entry)?;
        match self.features.delete(id) {
            Some(shape) => Ok(shape),
            None => unreachable!(),
        }
    }
}
