//! The ids of a layer, found by their texts, each with its place and the number of its feature.

ghost use Rattle.std.specs.Prelude.{◌≡◌, ◌↔◌, ◌<◌, ◌+◌, None, IsTrue, IfOk, IsOk, OnOk, OnErr};
ghost use Rattle.std.specs.Prelude.{◌≤◌, [], length, position, take};
ghost use Rattle.std.specs.Cmp.Lexicographic.{bytes_decides, nat_list_eq_equiv};
ghost use Rattle.std.specs.Hash as fed;
ghost use Rattle.std.specs.List.{IsDistinct};
ghost use Rattle.std.specs.Map.{keys_of, lookup};
ghost use Rattle.std.specs.Str.{bytes_eq};
ghost use Rattle.std.proofs.Common.{ap};
ghost use Rattle.indexmap.specs.IndexMap.{index_map_len, insert_entry, spare};
ghost use Rattle.layer_core.specs.Ids.{id_bytes, id_eq};
ghost use Rattle.layer_edit_core.specs.RisingIds.{id_order, has_text, Rises, ComesAfter};
ghost use Rattle.layer_edit_core.specs.RisingIds.{place_and_number};

use indexmap::{Equivalent, IndexMap};
use layer_core::{Id, NumberedId};
use std::alloc::{AllocError, Global};
use std::cmp::Ordering;
use std::hash::RandomState;
use std::marker::Model;
use std::mem;

/// Ids with the numbers of their features, in the order of insertion.
type Others = IndexMap<Id, Option<u32>, RandomState>;

/// The place of an inserted id and, if it existed before, the number that it had.
type Inserted = Result<(usize, Option<Option<u32>>), AllocError>;

/// Each id that was ever inserted, with the number of its feature, if it currently has one.
///
/// An id keeps its place, and places count from 0 in the order of insertion. Most files have their
/// ids in ascending order and need no hash map: as long as each id comes after all before it, ids
/// are appended to a list that is searched by bisection. From the first id out of order, new ids
/// are inserted in a map, whose places follow those of the list.
#[derive(Drop)]
pub(crate) struct Ids {
    rising: Vec<NumberedId>,
    others: Others,
}

impl Model for Ids {
    ghost use Rattle.layer_edit_core.specs.RisingIds.{IdsState};
    ghost use Rattle.layer_edit_core.specs.EditCodes.{coded_ids};

    ghost Value = { IdsState };

    ghost coded = { coded_ids };

    ghost use Rattle.std.specs.Prelude.{◌-◌, ◌++◌, min, vec_len, vec_capacity};
    ghost use Rattle.indexmap.specs.IndexMap.{spare};
    ghost use Rattle.layer_edit_core.specs.RisingIds.{AreApart, room_before};

    ghost view = { λ ids. record {
      entries = ids.rising.items ++ ids.others.entries;
      room = min (spare ids.others) (vec_capacity ids.rising - vec_len ids.rising);
      rising_room = room_before ids.others.entries (vec_capacity ids.rising - vec_len ids.rising);
    } };

    ghost invariant = { λ ids. AreApart ids.rising.items ids.others.entries };
}

/// A text by which an id is looked up.
#[derive(Clone, Copy, PartialEq, Eq, Hash)]
struct IdText<'a>(&'a str);

impl Equivalent<Id> for IdText<'_> {
    ghost equivalent = { λ text id. bytes_eq text.0.now (id_bytes id) };

    ghost respects_hash = { λ text id same.
        ap fed.str ((bytes_decides text.0.now (id_bytes id)).0 same) };

    ghost respects_eq = { λ text a b.
        nat_list_eq_equiv.congr text.0.now (id_bytes a) (id_bytes b) };

    fn equivalent(&self, id: &Id) -> bool {
        self.0 == id.as_str()
    }
}

/// Compares an id with another text: by length, and by bytes if the lengths are equal.
fn compare(entry: &NumberedId, id: &str) -> Ordering
    ensures { result ≡ id_order (id_bytes entry.now.0) id.now }
{
    let own = entry.0.as_str();
    own.len().cmp(&id.len()).then_with(|| own.cmp(id))
}

/// The index of this id in an ascending list.
fn search(rising: &[NumberedId], id: &str) -> Option<usize>
    requires { Rises rising.now }
    ensures { result ≡ position (has_text id.now) (keys_of rising.now) }
{
    let found = rising.binary_search_by(|entry| compare(entry, id));
    found.ok()
}

/// Whether this id comes after all ids of an ascending list.
fn comes_after(rising: &[NumberedId], id: &str) -> bool
    requires { Rises rising.now }
    ensures { IsTrue result ↔ ComesAfter rising.now id.now }
{
    match rising.last() {
        Some(last) => compare(last, id).is_lt(),
        None => true,
    }
}

/// The place of an id at this index of the map, which follows the list.
fn place_behind(rising: &[NumberedId], others: &Others, place: usize) -> usize
    requires { place < index_map_len others.now }
    ensures { result ≡ length rising.now + place }
{
    // The map's length is bounded so that the sum fits.
    let _len = others.len();
    rising.len() + place
}

/// Inserts an id into the map after the list. Before its first id, the map reserves room for
/// `likely` ids.
fn insert_other(others: &mut Others, id: Id, number: Option<u32>, likely: usize) -> Inserted
    ensures before { IfOk result (λ r. r ≡ place_and_number id others.old.entries) }
    ensures within { IfOk result (λ r. r.0 < index_map_len others.new) }
    ensures after { OnOk result
        (others.new.entries ≡ insert_entry id_eq others.old.entries id number) }
    ensures err { OnErr result (others.new.entries ≡ others.old.entries) }
    ensures absent { OnErr result (lookup (id_eq id) others.old.entries ≡ None) }
    ensures succeeds { 0 < spare others.old → IsOk result }
{
    if others.is_empty() {
        // If this fails, it only costs time.
        let _room = others.reserve(likely);
    }
    Ok(others.insert_full(id, number)?)
}

/// How many of these ids, from the first on, come each after all before it.
fn rising_len(entries: &[NumberedId]) -> usize
    ensures within { result ≤ length entries.now }
    ensures rises { Rises (take result entries.now) }
{
    for (place, entry) in entries.iter().enumerate() {
        if !comes_after(&entries[..place], entry.0.as_str()) {
            return place;
        }
    }
    entries.len()
}

/// A map of these ids, in their order.
fn map_of(alloc: Global, entries: Vec<NumberedId>, state: RandomState) -> Result<Others, AllocError>
    requires { IsDistinct id_eq (keys_of entries.items) }
    ensures { IfOk result (λ others. others.entries ≡ entries.items) }
{
    let mut others = IndexMap::with_hasher(alloc, state);
    others.reserve(entries.len())?;
    for (id, number) in entries {
        others.insert(id, number)?;
    }
    Ok(others)
}

impl Ids {
    ghost use Rattle.std.specs.Prelude.{◌≤◌, [], Some, slice_get, option_map, IfSome, IsSome};
    ghost use Rattle.std.specs.List.{IsDistinct};
    ghost use Rattle.std.specs.Map.{values_of};
    ghost use Rattle.std.specs.Map.Iter.{deref_pair};
    ghost use Rattle.indexmap.specs.IndexMap.{set_value_at};
    ghost use Rattle.layer_core.specs.Ids.{id_eq};
    ghost use Rattle.layer_edit_core.specs.RisingIds.{HasRoom};

    /// No ids. `state` hashes the ids that are inserted into the map.
    #[tactic(auto, using(crate::proofs::Rules::no_ids))]
    pub(crate) fn new(alloc: Global, state: RandomState) -> Ids
        ensures { result.entries ≡ [] }
    {
        Ids {
            rising: Vec::new(alloc),
            others: IndexMap::with_hasher(alloc, state),
        }
    }

    /// No ids, and room for `count` ascending ids.
    #[tactic(auto, using(crate::proofs::Rules::no_ids))]
    pub(crate) fn with_room(
        alloc: Global,
        state: RandomState,
        count: usize,
    ) -> Result<Ids, AllocError>
        ensures none { IfOk result (λ ids. ids.entries ≡ []) }
        ensures room { IfOk result (λ ids. count ≤ ids.rising_room) }
    {
        Ok(Ids {
            rising: Vec::with_capacity(alloc, count)?,
            others: IndexMap::with_hasher(alloc, state),
        })
    }

    /// These ids by place. `state` hashes those from the first id out of order on.
    pub(crate) fn of_entries(
        mut entries: Vec<NumberedId>,
        state: RandomState,
    ) -> Result<Ids, AllocError>
        requires { IsDistinct id_eq (keys_of entries.items) }
        ensures { IfOk result (λ ids. ids.entries ≡ entries.items) }
    {
        let rising = rising_len(entries.as_slice());
        let others = entries.split_off(rising)?;
        let alloc = *entries.allocator();
        Ok(Ids {
            rising: entries,
            others: map_of(alloc, others, state)?,
        })
    }

    /// The ids by place, with their numbers.
    pub(crate) fn into_entries(self) -> Result<Vec<NumberedId>, AllocError>
        ensures { IfOk result (λ entries. entries.items ≡ self.entries) }
    {
        let mut entries = self.rising;
        entries.reserve(self.others.len())?;
        for entry in self.others {
            entries.push_reserved(entry);
        }
        Ok(entries)
    }

    /// The allocator of the texts of ids.
    pub(crate) fn allocator(&self) -> Global {
        *self.others.allocator()
    }

    /// The place of this id.
    pub(crate) fn place_of(&self, id: &str) -> Option<usize>
        ensures place { result ≡ position (has_text id.now) (keys_of self.now.entries) }
        ensures within { IfSome result (λ place. place < length self.now.entries) }
        ensures unique { IsDistinct id_eq (keys_of self.now.entries) }
    {
        if let Some(place) = search(self.rising.as_slice(), id) {
            return Some(place);
        }
        let place = self.others.get_index_of(IdText(id))?;
        Some(place_behind(self.rising.as_slice(), &self.others, place))
    }

    /// The id at this place and the number of its feature, if it currently has one.
    fn at(&self, place: usize) -> Option<(&Id, &Option<u32>)>
        ensures entry { option_map deref_pair result ≡ slice_get self.now.entries place }
        ensures found { IsSome result ↔ (place < length self.now.entries) }
    {
        match self.rising.get(place) {
            Some((id, number)) => Some((id, number)),
            None => self.others.get_index(place - self.rising.len()),
        }
    }

    /// The number of the feature whose id is at this place, if there currently is one.
    pub(crate) fn number(&self, place: usize) -> Option<u32>
        requires { place < length self.now.entries }
        ensures { slice_get (values_of self.now.entries) place ≡ Some result }
    {
        match self.at(place) {
            Some((_, number)) => *number,
            None => unreachable!(),
        }
    }

    /// Replaces the number of the id at this place.
    #[tactic(auto, using(crate::proofs::Rules::set_number))]
    pub(crate) fn set_number(&mut self, place: usize, number: Option<u32>)
        requires { place < length self.old.entries }
        ensures { self.new.entries ≡ set_value_at self.old.entries place number }
    {
        let rising = self.rising.len();
        if place < rising {
            self.rising[place].1 = number;
        } else {
            self.others[place - rising] = number;
        }
    }

    /// Reserves room for one more id.
    pub(crate) fn reserve(&mut self) -> Result<(), AllocError>
        ensures same { self.new.entries ≡ self.old.entries }
        ensures room { OnOk result (0 < self.new.room) }
    {
        self.rising.reserve(1)?;
        self.others.reserve(1)?;
        Ok(())
    }

    /// Gives an id a number, and returns its place and, if it existed before, the number that it
    /// had. Only a new id can fail for lack of memory.
    pub(crate) fn insert(&mut self, id: Id, number: Option<u32>) -> Inserted
        ensures before { IfOk result (λ r. r ≡ place_and_number id self.old.entries) }
        ensures after { OnOk result
            (self.new.entries ≡ insert_entry id_eq self.old.entries id number) }
        ensures unique { IsDistinct id_eq (keys_of self.new.entries) }
        ensures err { OnErr result (self.new.entries ≡ self.old.entries) }
        ensures absent { OnErr result (lookup (id_eq id) self.old.entries ≡ None) }
        ensures succeeds { HasRoom self.old (id_bytes id) → IsOk result }
    {
        if self.others.is_empty() && comes_after(self.rising.as_slice(), id.as_str()) {
            let place = self.rising.len();
            self.rising.push((id, number))?;
            return Ok((place, None));
        }
        if let Some(place) = search(self.rising.as_slice(), id.as_str()) {
            let entry = &mut self.rising[place];
            let before = mem::replace(&mut entry.1, number);
            return Ok((place, Some(before)));
        }
        let likely = self.rising.capacity() - self.rising.len();
        let (place, before) = insert_other(&mut self.others, id, number, likely)?;
        let place = place_behind(self.rising.as_slice(), &self.others, place);
        Ok((place, before))
    }
}
