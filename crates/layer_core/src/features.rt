//! The features of a layer, found by number.

ghost use Rattle.std.specs.Prelude.{◌≡◌, ◌↔◌, ◌<◌, [], IfSome, IsSome, get_or, length, slice_get};
ghost use Rattle.std.specs.Map.{keys_of};
ghost use Rattle.std.specs.Option.{option_map, option_flatten};
ghost use Rattle.layer_core.specs.IdsAndSlots.{StandForLayer, contents_of, ids_of};

use crate::geometry::Geometry;
use crate::id::Id;
use crate::iter::Iter;
use crate::stats::Stats;
use std::marker::Model;

/// The greatest number of features ever inserted into a layer, including deleted ones.
pub const MAX_FEATURES: usize = 1_000_000;

/// An id that was ever inserted, and the number of its feature, if it currently has one.
pub type NumberedId = (Id, Option<u32>);

/// A feature, as stored under its number.
#[derive(Drop)]
pub struct Slot<G> {
    /// The place of its id among the layer's ids.
    pub place: usize,
    pub shape: G,
}

/// What the features of a layer are stored as.
///
/// An id that was ever inserted keeps its place. It has the number of its feature, or none if that
/// was deleted. The slots are in the order of numbers, and the slot of a deleted feature is empty,
/// so no edit moves anything.
#[derive(Drop)]
pub struct Parts<G> {
    /// The ids by place.
    pub ids: Vec<NumberedId>,
    pub slots: Vec<Option<Slot<G>>>,
    /// The number of filled slots.
    pub count: usize,
}

/// Features by number, as [`Parts`] that stand for a layer.
#[derive(Drop)]
pub(crate) struct Features<G> {
    ids: Vec<NumberedId>,
    slots: Vec<Option<Slot<G>>>,
    count: usize,
}

impl<G> Model for Features<G> {
    ghost use Rattle.layer_core.specs.Layers.{Contents};
    ghost use Rattle.layer_core.specs.LayerCodes.{coded_contents};

    ghost Value = { Contents G };

    ghost coded = { coded_contents G.code };

    ghost use Rattle.std.specs.Map.{keys_of};
    ghost use Rattle.layer_core.specs.IdsAndSlots.{contents_of, StandForLayer};

    ghost view = { λ f. contents_of (keys_of f.ids.items) f.slots.items };

    ghost invariant = { λ f. StandForLayer f.ids.items f.slots.items f.count };
}

/// The slot with this number, if it is filled.
pub fn slot_at<G>(slots: &[Option<Slot<G>>], number: u32) -> Option<&Slot<G>>
    ensures { option_map (λ s. s.now) result ≡ option_flatten (slice_get slots.now number) }
{
    match slots.get(number as usize) {
        Some(Some(slot)) => Some(slot),
        _ => None,
    }
}

/// The text of the id at this place.
pub(crate) fn id_at(ids: &[NumberedId], place: usize) -> Option<&str>
    ensures text { IfSome result (λ text. text.now ≡ get_or (ids_of (keys_of ids.now)) place []) }
    ensures found { IsSome result ↔ (place < length ids.now) }
{
    match ids.get(place) {
        Some((id, _)) => Some(id.as_str()),
        None => None,
    }
}

impl<G: Geometry> Features<G> {
    ghost use Rattle.std.specs.Prelude.{◌≡◌, ◌≤◌, length};
    ghost use Rattle.layer_core.specs.Layers.{IsLayer, IdAndShapeAre, ShapeIs, with_number};
    ghost use Rattle.layer_core.specs.Limits.{most_features};
    ghost use Rattle.layer_core.specs.Statistics.{counts_of};

    /// The features that these parts stand for.
    pub(crate) fn from_parts(parts: Parts<G>) -> Features<G>
        requires { StandForLayer parts.ids.items parts.slots.items parts.count }
        ensures { result ≡ contents_of (keys_of parts.ids.items) parts.slots.items }
    {
        let Parts { ids, slots, count } = parts;
        Features { ids, slots, count }
    }

    /// The parts that stand for these features.
    pub(crate) fn into_parts(self) -> Parts<G>
        ensures same { contents_of (keys_of result.ids.items) result.slots.items ≡ self }
        ensures stand { StandForLayer result.ids.items result.slots.items result.count }
    {
        Parts {
            ids: self.ids,
            slots: self.slots,
            count: self.count,
        }
    }

    /// The number of features.
    pub(crate) fn len(&self) -> usize
        ensures len { result ≡ length self.now.features }
        ensures few { result ≤ most_features }
        ensures layer { IsLayer self.now }
    {
        self.count
    }

    /// The id and the shape of the feature with this number.
    pub(crate) fn at(&self, number: u32) -> Option<(&str, &G)>
        ensures found { IdAndShapeAre result (with_number number self.now) }
        ensures layer { IsLayer self.now }
    {
        let slots = self.slots.as_slice();
        let slot = slot_at(slots, number)?;
        let ids = self.ids.as_slice();
        let text = id_at(ids, slot.place)?;
        Some((text, &slot.shape))
    }

    /// The shape of the feature with this number, which is found without reading its id.
    pub(crate) fn shape(&self, number: u32) -> Option<&G>
        ensures { ShapeIs result (with_number number self.now) }
    {
        let slots = self.slots.as_slice();
        let slot = slot_at(slots, number)?;
        Some(&slot.shape)
    }

    /// The features in the order of their numbers.
    #[tactic(auto, using(crate::proofs::TableLemmas::walk_placed))]
    pub(crate) fn iter(&self) -> Iter<'_, G>
        ensures features { result ≡ self.now.features }
        ensures layer { IsLayer self.now }
    {
        let ids = self.ids.as_slice();
        let slots = self.slots.as_slice();
        Iter::new(ids, slots)
    }

    /// The numbers of features, in all and of each dimension, with this height.
    pub(crate) fn stats(&self, height: u32) -> Stats
        ensures { result ≡ counts_of G.dim_of self.now height }
    {
        let mut stats = Stats {
            features: self.len() as u32,
            points: 0,
            segments: 0,
            rectangles: 0,
            height,
        };
        for feature in self.iter() {
            stats.count(feature.shape.dim());
        }
        stats
    }
}
