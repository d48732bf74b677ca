//! The features of a layer, one after another.

ghost use Rattle.std.specs.Prelude.{◌≡◌};
ghost use Rattle.std.specs.Iterator.{YieldsFirstBy, item_count};
ghost use Rattle.std.specs.Map.{keys_of};
ghost use Rattle.layer_core.specs.IdsAndSlots.{features_from, ids_of, IsWalk};
ghost use Rattle.layer_core.specs.Walks.{feature_read};

use crate::features::{NumberedId, Slot, id_at};
use geom_core::Shape;
use std::marker::Model;

/// A feature of a layer.
#[derive(Drop, PartialEq, Eq)]
pub struct FeatureRef<'a, G = Shape> {
    pub id: &'a str,
    pub number: u32,
    pub shape: &'a G,
}

/// The features of a layer, in layer order.
#[derive(Drop)]
pub struct Iter<'a, G = Shape> {
    ids: &'a [NumberedId],
    slots: &'a [Option<Slot<G>>],
    /// The number of the first slot.
    number: u32,
}

impl<'a, G> Model for Iter<'a, G> {
    ghost use Rattle.std.specs.Prelude.{List};
    ghost use Rattle.layer_core.specs.Layers.{Feature};

    ghost Value = { List (Feature G) };

    ghost use Rattle.std.specs.Map.{keys_of};
    ghost use Rattle.layer_core.specs.IdsAndSlots.{features_from, ids_of, IsWalk};

    ghost view = { λ it.
        features_from (ids_of (keys_of it.ids.now)) it.number it.slots.now };

    ghost invariant = { λ it. IsWalk it.ids.now it.number it.slots.now };
}

impl<'a, G> Iter<'a, G> {
    /// The features in these slots, of which the first has the number 0.
    pub(crate) fn new(ids: &'a [NumberedId], slots: &'a [Option<Slot<G>>]) -> Iter<'a, G>
        requires { IsWalk ids.now 0 slots.now }
        ensures { result ≡ features_from (ids_of (keys_of ids.now)) 0 slots.now }
    {
        Iter {
            ids,
            slots,
            number: 0,
        }
    }
}

impl<'a, G> Iterator for Iter<'a, G> {
    type Item = FeatureRef<'a, G>;

    ghost next_gives = { YieldsFirstBy feature_read (λ left. left) };

    ghost remaining = { item_count (λ left. left) };

    fn next(&mut self) -> Option<FeatureRef<'a, G>> {
        while let Some((first, others)) = self.slots.split_first() {
            let number = self.number;
            self.number += 1;
            self.slots = others;
            if let Some(slot) = first {
                let id = id_at(self.ids, slot.place)?;
                return Some(FeatureRef {
                    id,
                    number,
                    shape: &slot.shape,
                });
            }
        }
        None
    }
}
