//! The features of a layer while it is built or edited, found by id.

ghost use Rattle.std.specs.Prelude.{◌≡◌, Some, slice_get, IfSome, MatchOption};
ghost use Rattle.std.specs.Map.{keys_of, values_of};
ghost use Rattle.std.specs.Option.{option_map};
ghost use Rattle.layer_core.specs.IdsAndSlots.{ids_of, AreInverse};
ghost use Rattle.layer_edit_core.specs.FeaturesById.{IsAbsent, IsOnly};

use crate::ids::Ids;
use layer_core::{FeatureList, Geometry, Id, Parts, Slot, slot_at};
use std::alloc::{AllocError, Global};
use std::hash::RandomState;
use std::marker::Model;
use std::mem;

/// Features by id and by number. The parts are those of [`layer_core::Parts`], except that the ids
/// are found by their texts.
#[derive(Drop)]
pub(crate) struct FeaturesById<G> {
    ids: Ids,
    slots: Vec<Option<Slot<G>>>,
    count: usize,
}

impl<G> Model for FeaturesById<G> {
    ghost use Rattle.layer_edit_core.specs.FeaturesById.{FeaturesState};
    ghost use Rattle.layer_edit_core.specs.EditCodes.{coded_features};

    ghost Value = { FeaturesState G };

    ghost coded = { coded_features G.code };

    ghost use Rattle.std.specs.Prelude.{◌-◌, min, vec_len, vec_capacity};
    ghost use Rattle.std.specs.Map.{keys_of};
    ghost use Rattle.layer_core.specs.IdsAndSlots.{contents_of, StandForLayer};

    ghost view = { λ f. record {
      list = contents_of (keys_of f.ids.entries) f.slots.items;
      room = min f.ids.room (vec_capacity f.slots - vec_len f.slots);
      rising_room = min f.ids.rising_room (vec_capacity f.slots - vec_len f.slots);
    } };

    ghost invariant = { λ f. StandForLayer f.ids.entries f.slots.items f.count };
}

/// The number and the slot of the feature with this id.
fn locate<'a, G>(ids: &Ids, slots: &'a [Option<Slot<G>>], id: &str) -> Option<(u32, &'a Slot<G>)>
    requires { AreInverse (values_of ids.now.entries) slots.now }
    ensures found { MatchOption result
        (IsAbsent (ids_of (keys_of ids.now.entries)) id.now slots.now)
        (λ f. IsOnly (ids_of (keys_of ids.now.entries)) id.now slots.now f.0 f.1.now) }
    ensures place { IfSome result
        (λ f. slice_get (values_of ids.now.entries) f.1.now.place ≡ Some (Some f.0)) }
{
    let place = ids.place_of(id)?;
    let number = ids.number(place)?;
    let slot = slot_at(slots, number)?;
    Some((number, slot))
}

/// The shape of a slot that was taken out.
fn shape_of<G: Drop>(slot: Option<Slot<G>>) -> Option<G>
    ensures { result ≡ option_map (λ s. s.shape) slot }
{
    match slot {
        Some(slot) => Some(slot.shape),
        None => None,
    }
}

impl<G: Geometry> FeaturesById<G> {
    ghost use Rattle.std.specs.Prelude.{◌≡◌, ◌<◌, ◌≤◌, not, is_some, if◌then◌else◌, IfNone};
    ghost use Rattle.std.specs.Prelude.{None, true, false};
    ghost use Rattle.std.specs.Prelude.{IfOk, IsOk, OnOk, OnErr};
    ghost use Rattle.layer_core.specs.Layers.{empty, IsLayer, NumberAndShapeAre};
    ghost use Rattle.layer_core.specs.Layers.{with_id, inserted, deleted};
    ghost use Rattle.layer_core.specs.Ids.{id_bytes};
    ghost use Rattle.layer_core.specs.Limits.{most_features};

    /// No features. `state` hashes the ids.
    pub(crate) fn new(alloc: Global, state: RandomState) -> FeaturesById<G>
        ensures { result.list ≡ empty }
    {
        FeaturesById {
            ids: Ids::new(alloc, state),
            slots: Vec::new(alloc),
            count: 0,
        }
    }

    /// No features, and room for `count` features with ascending ids.
    pub(crate) fn with_room(
        alloc: Global,
        state: RandomState,
        count: usize,
    ) -> Result<FeaturesById<G>, AllocError>
        ensures none { IfOk result (λ features. features.list ≡ empty) }
        ensures room { IfOk result (λ features. count ≤ features.rising_room) }
    {
        Ok(FeaturesById {
            ids: Ids::with_room(alloc, state, count)?,
            slots: Vec::with_capacity(alloc, count)?,
            count: 0,
        })
    }

    /// The features of a list. `state` hashes the ids that are out of order.
    pub(crate) fn of_list(
        list: FeatureList<G>,
        state: RandomState,
    ) -> Result<FeaturesById<G>, AllocError>
        ensures { IfOk result (λ features. features.list ≡ list) }
    {
        let Parts { ids, slots, count } = list.into_parts();
        Ok(FeaturesById {
            ids: Ids::of_entries(ids, state)?,
            slots,
            count,
        })
    }

    /// The list of these features.
    pub(crate) fn into_list(self) -> Result<FeatureList<G>, AllocError>
        ensures { IfOk result (λ list. list ≡ self.list) }
    {
        let alloc = self.ids.allocator();
        let parts = Parts {
            ids: self.ids.into_entries()?,
            slots: self.slots,
            count: self.count,
        };
        FeatureList::from_parts(alloc, parts)
    }

    /// The allocator of the ids.
    pub(crate) fn allocator(&self) -> Global {
        self.ids.allocator()
    }

    /// A copy of an id that the layer can own.
    pub(crate) fn owned(&self, id: &str) -> Result<Id, AllocError>
        ensures { IfOk result (λ own. id_bytes own ≡ id.now) }
    {
        Id::from_str(self.allocator(), id)
    }

    /// The number of the next feature, which is the number of features ever inserted.
    pub(crate) fn next(&self) -> usize
        ensures next { result ≡ self.now.list.next }
        ensures few { result ≤ most_features }
    {
        self.slots.len()
    }

    /// The number and the shape of the feature with this id.
    pub(crate) fn find(&self, id: &str) -> Option<(u32, &G)>
        ensures found { NumberAndShapeAre result (with_id id.now self.now.list) }
        ensures layer { IsLayer self.now.list }
    {
        let slots = self.slots.as_slice();
        let (number, slot) = locate(&self.ids, slots, id)?;
        Some((number, &slot.shape))
    }

    /// Deletes the feature with this id and returns its shape.
    pub(crate) fn delete(&mut self, id: &str) -> Option<G>
        ensures shape { result ≡ option_map (λ f. f.shape) (with_id id.now self.old.list) }
        ensures deleted { self.new.list ≡ deleted self.old.list id.now }
        ensures none { IfNone result (self.new.list ≡ self.old.list) }
    {
        let slots = self.slots.as_slice();
        let (number, slot) = locate(&self.ids, slots, id)?;
        let place = slot.place;
        let taken = mem::replace(&mut self.slots[number as usize], None);
        self.ids.set_number(place, None);
        self.count -= 1;
        shape_of(taken)
    }

    /// Reserves room for one more feature.
    pub(crate) fn reserve(&mut self) -> Result<(), AllocError>
        ensures same { self.new.list ≡ self.old.list }
        ensures room { OnOk result (0 < self.new.room) }
    {
        self.slots.reserve(1)?;
        self.ids.reserve()?;
        Ok(())
    }

    /// The result of `insert` if no slot can be allocated: false if a feature has the id, else the
    /// error.
    fn double_or_refused(&self, id: &str) -> Result<bool, AllocError>
        ensures double { IfOk result
            (λ added. (added ≡ false) × (is_some (with_id id.now self.now.list) ≡ true)) }
        ensures refused { OnErr result (with_id id.now self.now.list ≡ None) }
    {
        match self.find(id) {
            Some(_) => Ok(false),
            None => Err(AllocError),
        }
    }

    /// Inserts a feature, or returns false if a feature has its id already. Only a new id can fail
    /// for lack of memory.
    pub(crate) fn insert(&mut self, id: Id, shape: G) -> Result<bool, AllocError>
        requires { self.old.list.next < most_features }
        ensures absent { IfOk result
            (λ added. added ≡ not (is_some (with_id (id_bytes id) self.old.list))) }
        ensures inserted { IfOk result (λ added. self.new.list
            ≡ (if added then inserted self.old.list (id_bytes id) shape else self.old.list)) }
        ensures err { OnErr result (self.new.list ≡ self.old.list) }
        ensures refused { OnErr result (with_id (id_bytes id) self.old.list ≡ None) }
        ensures succeeds { 0 < self.old.room → IsOk result }
    {
        let number = self.slots.len() as u32;
        // From here to the insertion of the id, nothing changes that an error would have to undo.
        let reserved = self.slots.reserve(1);
        if reserved.is_err() {
            return self.double_or_refused(id.as_str());
        }
        let (place, before) = self.ids.insert(id, Some(number))?;
        match before.flatten() {
            Some(live) => {
                // The feature that has the id keeps its number.
                self.ids.set_number(place, Some(live));
                Ok(false)
            }
            None => {
                self.slots.push_reserved(Some(Slot { place, shape }));
                self.count += 1;
                Ok(true)
            }
        }
    }
}
