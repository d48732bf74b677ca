//! Building the list of a layer's features, which are inserted one by one.

use crate::features::FeaturesById;
use geom_core::Shape;
use layer_core::{FeatureList, Geometry, Id, LayerFault, MAX_FEATURES};
use std::alloc::{AllocError, Global};
use std::hash::RandomState;
use std::marker::Model;

/// The features of a layer up to some feature. They are boxed, as they are in a list.
///
/// An insertion takes constant time, amortised, or logarithmic time if the id is out of order.
#[derive(Drop)]
pub struct FeatureListBuilder<G: Geometry = Shape> {
    features: Box<FeaturesById<G>>,
}

impl<G: Geometry> Model for FeatureListBuilder<G> {
    ghost use Rattle.layer_core.specs.Layers.{Contents};
    ghost use Rattle.layer_core.specs.LayerCodes.{coded_contents};

    ghost Value = { Contents G };

    ghost coded = { coded_contents G.code };

    ghost view = { λ b. b.features.value.list };
}

impl<G: Geometry> FeatureListBuilder<G> {
    ghost use Rattle.std.specs.Prelude.{◌≡◌, ◌≤◌, IsTrue, OnOk, OnErr, IfOk};
    ghost use Rattle.layer_core.specs.Ids.{id_bytes};
    ghost use Rattle.layer_core.specs.Layers.{empty, inserted};
    ghost use Rattle.layer_core.specs.Limits.{most_features};
    ghost use Rattle.layer_core.specs.Refusals.{is_id, AnswersWith, insert_refusal};

    /// An empty list with room for `room` features. `state` hashes the ids.
    pub fn new(
        alloc: Global,
        state: RandomState,
        room: usize,
    ) -> Result<FeatureListBuilder<G>, AllocError>
        ensures { IfOk result (λ loading. loading ≡ empty) }
    {
        Ok(FeatureListBuilder {
            features: Box::new(alloc, FeaturesById::with_room(alloc, state, room)?)?,
        })
    }

    /// The number of features that were inserted.
    pub fn inserted(&self) -> u32
        // how many features went in
        ensures count { result ≡ self.now.next }
        // at most 1,000,000
        ensures few { result ≤ most_features }
    {
        self.features.next() as u32
    }

    /// Inserts a feature at the end, under an id that [`layer_core::is_id`] allows.
    ///
    /// # Errors
    /// `DoubleId`, else `LayerFull`, else `Memory`. The list is then unchanged.
    pub fn add(&mut self, id: Id, shape: G) -> Result<(), LayerFault>
        requires { IsTrue (is_id (id_bytes id)) }
        // the same step as `LayerEditor::insert`
        ensures ok { OnOk result (self.new ≡ inserted self.old (id_bytes id) shape) }
        ensures err { OnErr result (self.new ≡ self.old) }
        ensures refused { AnswersWith (insert_refusal self.old (id_bytes id)) result }
    {
        if self.features.next() >= MAX_FEATURES {
            return match self.features.find(id.as_str()) {
                Some(_) => Err(LayerFault::DoubleId),
                None => Err(LayerFault::LayerFull),
            };
        }
        if self.features.insert(id, shape)? {
            Ok(())
        } else {
            Err(LayerFault::DoubleId)
        }
    }

    /// The list of these features.
    ///
    /// # Errors
    /// If there is no memory for the list of the ids that are out of order.
    pub fn finish(self) -> Result<FeatureList<G>, AllocError>
        ensures { IfOk result (λ list. list ≡ self) }
    {
        Box::into_inner(self.features).into_list()
    }
}
