//! Layers and their edits.

use crate::edited::{Edited, on_empty};
use crate::layers::{has_features, point, seen, state};
use crate::read_layers::{layer_of, points_file, whole};
use file_core::edits_of_bytes;
use geom_core::Shape;
use layer_core::{Edit, FeatureRef, Id, Layer, LayerFault, Side, Stats, is_id};
use layer_edit_core::{FeatureListBuilder, LayerEditor, apply_edit};
use std::alloc::{AllocError, AllocGlobal, Global};
use std::hash::RandomState;
use std::random::RandomSource;
use std::test::Fail;
use std::thread::Threads;

/// Ids of 64 and of 65 bytes.
const LONG: &str = "0123456789abcdef0123456789abcdef0123456789abcdef0123456789abcdef";

const TOO_LONG: &str = "0123456789abcdef0123456789abcdef0123456789abcdef0123456789abcdef0";

/// Ids of 16 and of 17 bytes.
const SHORT: &str = "0123456789abcdef";

const LONGER: &str = "0123456789abcdefg";

/// An insertion of a point under an id and at a place on the diagonal, and its result.
type Insertion = (&'static str, i64, Result<(), LayerFault>);

const ROW: &[Insertion] = &[
    ("a", 0, Ok(())),
    ("a", 1, Err(LayerFault::DoubleId)),
    ("", 0, Err(LayerFault::BadId)),
    (TOO_LONG, 0, Err(LayerFault::BadId)),
    (LONG, 0, Ok(())),
];

const OF_MANY_LENGTHS: &[Insertion] = &[
    ("0123456789abcde", 0, Ok(())),
    (SHORT, 1, Ok(())),
    (LONGER, 2, Ok(())),
    (LONG, 3, Ok(())),
    (SHORT, 4, Err(LayerFault::DoubleId)),
    (LONGER, 5, Err(LayerFault::DoubleId)),
];

/// Ascending ids, the shorter ones first, and then others.
const IN_ANY_ORDER: &[Insertion] = &[
    ("b", 0, Ok(())),
    ("c", 1, Ok(())),
    ("aa", 2, Ok(())),
    ("ab", 3, Ok(())),
    ("ab", 4, Err(LayerFault::DoubleId)),
    ("a", 5, Ok(())),
    ("b0", 6, Ok(())),
    ("b", 7, Err(LayerFault::DoubleId)),
    ("a", 8, Err(LayerFault::DoubleId)),
    ("b0", 9, Err(LayerFault::DoubleId)),
];

/// Ids before, between and after them.
const ABSENT: &[&str] = &["0", "bb", "d", "b1"];

const ONCE_MORE: &[Insertion] = &[("aa", 2, Ok(())), ("a", 5, Ok(())), ("c0", 7, Ok(()))];

const THREE: &[Insertion] = &[("a", 0, Ok(())), ("b", 1, Ok(())), ("c", 2, Ok(()))];

const AGAIN: &[Insertion] = &[("a", 9, Ok(()))];

const LISTED: &[(&str, u32)] = &[("b", 1), ("c", 2), ("a", 3)];

const EDITS: &[u8] = b"op,layer,id,wkt\r\ninsert,left,a,POINT (1 2)\r\n\
      insert,right,b,\"LINESTRING (0 0, 0 3)\"\r\ndelete,left,a,\r\n";

/// Whether the id of the layer's feature is found, with this number and shape.
fn finds(edited: &mut Edited, id: &str, number: u32, shape: Shape) -> Result<bool, AllocError> {
    Ok(edited.find(id)? == Some((number, shape)))
}

/// Whether each insertion has its result, and changes the layer unless it is refused.
fn inserts(alloc: Global, edited: &mut Edited, points: &[Insertion]) -> Result<bool, Fail> {
    for (id, x, answer) in points {
        let before = state(alloc, &edited.layer)?;
        let is_so = edited.insert(id, point(*x, *x)?) == *answer;
        let is_same = state(alloc, &edited.layer)?.as_str() == before.as_str();
        if !is_so || is_same != answer.is_err() {
            return Ok(false);
        }
    }
    Ok(true)
}

/// Whether the removal of an id fails because no feature has it, and changes nothing.
fn removes_none(alloc: Global, edited: &mut Edited, id: &str) -> Result<bool, Fail> {
    let before = state(alloc, &edited.layer)?;
    let is_refused = edited.remove(id) == Err(LayerFault::NoSuchId);
    Ok(is_refused && state(alloc, &edited.layer)?.as_str() == before.as_str())
}

/// Whether the removal of the feature with this id returns this shape.
fn removes(edited: &mut Edited, id: &str, shape: Shape) -> bool {
    edited.remove(id) == Ok(shape)
}

/// Whether an empty layer accepts the insertions of the example, and then refuses a removal.
fn takes_row(alloc: Global, edited: &mut Edited) -> Result<bool, Fail> {
    let inserted = inserts(alloc, edited, ROW)? && finds(edited, "a", 0, point(0, 0)?)?;
    Ok(inserted && removes_none(alloc, edited, "q")? && edited.layer.len() == 2)
}

#[test]
fn layer_edits(rt: HostRuntime) -> Result<(), Fail> {
    assert!(rt; on_empty(&rt, |edited| takes_row(rt.alloc(), edited))?);
    Ok(())
}

#[test]
fn id_texts(rt: HostRuntime) -> Result<(), Fail> {
    for text in ["a", SHORT, LONGER, LONG] {
        assert!(rt; Id::from_str(rt.alloc(), text)?.as_str() == text);
    }
    Ok(())
}

/// Whether an empty layer accepts ids of many lengths, finds them, and loses only the removed one.
fn takes_many_lengths(alloc: Global, edited: &mut Edited) -> Result<bool, Fail> {
    let (short, longer) = (point(1, 1)?, point(2, 2)?);
    let inserted = inserts(alloc, edited, OF_MANY_LENGTHS)? && finds(edited, SHORT, 1, short)?;
    let removed = finds(edited, LONGER, 2, longer)? && removes(edited, LONGER, longer);
    let is_gone = edited.find(LONGER)?.is_none();
    Ok(inserted && removed && is_gone && finds(edited, SHORT, 1, short)?)
}

#[test]
fn ids_of_many_lengths(rt: HostRuntime) -> Result<(), Fail> {
    assert!(rt; on_empty(&rt, |edited| takes_many_lengths(rt.alloc(), edited))?);
    Ok(())
}

/// Whether a layer has none of these ids.
fn finds_none(edited: &mut Edited, ids: &[&str]) -> Result<bool, AllocError> {
    for id in ids {
        if edited.find(id)?.is_some() {
            return Ok(false);
        }
    }
    Ok(true)
}

/// Whether an empty layer accepts ids in any order, and finds them and no others.
fn takes_any_order(alloc: Global, edited: &mut Edited) -> Result<bool, Fail> {
    let listed = inserts(alloc, edited, IN_ANY_ORDER)? && finds(edited, "ab", 3, point(3, 3)?)?;
    let others = finds(edited, "a", 4, point(5, 5)?)? && finds(edited, "b0", 5, point(6, 6)?)?;
    Ok(listed && others && finds_none(edited, ABSENT)?)
}

/// Whether the layer removes an id of each kind, and accepts both again.
fn takes_any_order_again(alloc: Global, edited: &mut Edited) -> Result<bool, Fail> {
    let first = takes_any_order(alloc, edited)?;
    let removed = removes(edited, "aa", point(2, 2)?) && removes(edited, "a", point(5, 5)?);
    let are_gone = finds_none(edited, &["aa", "a"])?;
    let again = inserts(alloc, edited, ONCE_MORE)? && finds(edited, "aa", 6, point(2, 2)?)?;
    Ok(first && removed && are_gone && again && finds(edited, "a", 7, point(5, 5)?)?)
}

#[test]
fn ids_in_any_order(rt: HostRuntime) -> Result<(), Fail> {
    assert!(rt; on_empty(&rt, |edited| takes_any_order_again(rt.alloc(), edited))?);
    Ok(())
}

/// Adds the points (0 0), (1 0), .. under these ids.
fn add_points(alloc: Global, loading: &mut FeatureListBuilder, ids: &[&str]) -> Result<(), Fail> {
    for (x, id) in (0..).zip(ids) {
        add_point(alloc, loading, id, x)?;
    }
    Ok(())
}

fn add_point(
    alloc: Global,
    loading: &mut FeatureListBuilder,
    id: &str,
    x: i64,
) -> Result<(), Fail> {
    if !is_id(id) {
        return Err(Fail::new("an id of another length"));
    }
    loading.add(Id::from_str(alloc, id)?, point(x, 0)?)?;
    Ok(())
}

/// The layer of points added one by one.
fn layer_of_added<R: RandomSource + AllocGlobal>(rt: &R, ids: &[&str]) -> Result<Layer, Fail> {
    let mut loading = FeatureListBuilder::new(rt.alloc(), RandomState::new(rt)?, ids.len())?;
    add_points(rt.alloc(), &mut loading, ids)?;
    Ok(loading.finish()?.finish(rt.alloc())?)
}

/// Whether the layer of three points added one by one has them.
fn has_added<R: RandomSource + AllocGlobal>(rt: &R) -> Result<bool, Fail> {
    let features = [
        ("a", point(0, 0)?),
        (LONG, point(1, 0)?),
        ("c", point(2, 0)?),
    ];
    let layer = layer_of_added(rt, &["a", LONG, "c"])?;
    Ok(seen(layer, |layer| has_features(layer, &features)))
}

#[test]
fn features_one_by_one(rt: HostRuntime) -> Result<(), Fail> {
    assert!(rt; has_added(&rt)?);
    Ok(())
}

/// A layer read from as many rows as the greatest number of features.
fn full_layer<R: Threads + Sync + RandomSource + AllocGlobal>(rt: &R) -> Result<Layer, Fail> {
    layer_of(rt, points_file(rt.alloc(), 1_000_000)?.as_bytes())
}

/// Whether an editor of a full layer refuses a new id, and has no feature of it.
fn refuses_new(full: &mut LayerEditor) -> Result<bool, Fail> {
    let is_refused = full.insert("new", point(0, 0)?) == Err(LayerFault::LayerFull);
    Ok(is_refused && full.find("new").is_none())
}

/// Whether an editor of a full layer refuses a new id, even after a removal.
fn stays_full(full: &mut LayerEditor) -> Result<bool, Fail> {
    let is_removed = refuses_new(full)? && full.remove("p7") == Ok(point(7, 0)?);
    Ok(is_removed && refuses_new(full)?)
}

/// Whether a full layer stays full, and then has one feature less.
fn is_one_less(full: &mut Edited) -> Result<bool, Fail> {
    let mut editor = full.take()?;
    let is_full = stays_full(&mut editor)?;
    full.give(editor)?;
    let less = Stats {
        features: 999_999,
        points: 999_999,
        ..full.layer.stats()
    };
    let is_counted = full.layer.stats() == less && full.layer.tree().len() == 999_999;
    Ok(is_full && is_counted && full.layer.at(7).is_none())
}

fn is_full_for_good<R: Threads + Sync + RandomSource + AllocGlobal>(rt: &R) -> Result<bool, Fail> {
    seen(Edited::of(rt, full_layer(rt)?)?, is_one_less)
}

/// The last part of the example on edits of a layer.
#[test]
fn layer_edits_when_full(rt: HostRuntime) -> Result<(), Fail> {
    assert!(rt; is_full_for_good(&rt)?);
    Ok(())
}

/// Deletes the feature a of a layer of three points, and inserts it again.
fn inserts_again(alloc: Global, edited: &mut Edited) -> Result<bool, Fail> {
    let removed = removes(edited, "a", point(0, 0)?);
    let is_gone = edited.layer.at(0).is_none() && edited.layer.shape(0).is_none();
    Ok(removed && is_gone && inserts(alloc, edited, AGAIN)?)
}

/// Whether an empty layer accepts three points, and then the first of them again after the others.
fn takes_again(alloc: Global, edited: &mut Edited) -> Result<bool, Fail> {
    let inserted = edited.layer.is_empty()
        && inserts(alloc, edited, THREE)?
        && inserts_again(alloc, edited)?;
    Ok(inserted && finds(edited, "a", 3, point(9, 9)?)? && edited.layer.len() == 3)
}

/// Whether this feature has the id and the number, and the layer finds it and its shape by its
/// number.
fn is_listed(layer: &Layer, feature: &FeatureRef<'_>, id: &str, number: u32) -> bool {
    match layer.at(number) {
        Some(found) => {
            feature.id == id
                && feature.number == number
                && found == (feature.id, feature.shape)
                && layer.shape(number) == Some(feature.shape)
        }
        None => false,
    }
}

/// Whether the iterator gives exactly the features of these ids and numbers, in this order.
fn has_listed(layer: &Layer, wanted: &[(&str, u32)]) -> bool {
    let mut features = layer.iter();
    for (id, number) in wanted {
        match features.next() {
            Some(feature) if is_listed(layer, &feature, id, *number) => {}
            _ => return false,
        }
    }
    features.next().is_none()
}

/// Whether an edited layer, initially empty, lists the expected features.
fn lists_again(alloc: Global, edited: &mut Edited) -> Result<bool, Fail> {
    Ok(takes_again(alloc, edited)? && has_listed(&edited.layer, LISTED))
}

#[test]
fn deleted_and_inserted_again(rt: HostRuntime) -> Result<(), Fail> {
    assert!(rt; on_empty(&rt, |edited| lists_again(rt.alloc(), edited))?);
    Ok(())
}

fn apply_all(
    edits: Vec<Edit>,
    left: &mut LayerEditor,
    right: &mut LayerEditor,
) -> Result<(), LayerFault> {
    for edit in edits {
        apply_edit(edit, left, right)?;
    }
    Ok(())
}

/// Whether each edit of the right layer is refused because its id exists.
fn are_doubles(edits: Vec<Edit>, left: &mut LayerEditor, right: &mut LayerEditor) -> bool {
    for edit in edits {
        let is_right = edit.side() == Side::Right;
        if is_right && apply_edit(edit, left, right) != Err(LayerFault::DoubleId) {
            return false;
        }
    }
    true
}

/// Applies the edits to both layers.
fn edits_both(edits: Vec<Edit>, left: &mut Edited, right: &mut Edited) -> Result<(), Fail> {
    let (mut left_editor, mut right_editor) = (left.take()?, right.take()?);
    apply_all(edits, &mut left_editor, &mut right_editor)?;
    left.give(left_editor)?;
    right.give(right_editor)?;
    Ok(())
}

/// Whether each edit of the right layer is refused, and leaves both layers unchanged.
fn are_doubles_alone(
    alloc: Global,
    edits: Vec<Edit>,
    left: &mut Edited,
    right: &mut Edited,
) -> Result<bool, Fail> {
    let before = (state(alloc, &left.layer)?, state(alloc, &right.layer)?);
    let (mut left_editor, mut right_editor) = (left.take()?, right.take()?);
    let are_doubles = are_doubles(edits, &mut left_editor, &mut right_editor);
    left.give(left_editor)?;
    right.give(right_editor)?;
    let is_left_same = state(alloc, &left.layer)?.as_str() == before.0.as_str();
    Ok(are_doubles && is_left_same && state(alloc, &right.layer)?.as_str() == before.1.as_str())
}

/// Applies the edits, and then those of the right layer again.
fn edits_twice(
    alloc: Global,
    edits: Vec<Edit>,
    again: Vec<Edit>,
    left: &mut Edited,
    right: &mut Edited,
) -> Result<bool, Fail> {
    edits_both(edits, left, right)?;
    let segment = Shape::new(0, 0, 0, 3).ok_or("a segment")?;
    let edited = left.layer.is_empty() && finds(right, "b", 0, segment)?;
    Ok(edited && are_doubles_alone(alloc, again, left, right)? && right.layer.len() == 1)
}

/// Whether a list of edits is read, and has the expected effect on two empty layers.
fn reads_edits(alloc: Global, left: &mut Edited, right: &mut Edited) -> Result<bool, Fail> {
    let edits = edits_of_bytes(alloc, EDITS, whole()?)?;
    let again = edits_of_bytes(alloc, EDITS, whole()?)?;
    Ok(edits.len() == 3 && edits_twice(alloc, edits, again, left, right)?)
}

/// Whether edits of a left layer and a new right one are read and applied.
fn reads_edits_of(rt: &HostRuntime, left: &mut Edited) -> Result<bool, Fail> {
    on_empty(rt, |right| reads_edits(rt.alloc(), left, right))
}

#[test]
fn edits_of_both_layers(rt: HostRuntime) -> Result<(), Fail> {
    assert!(rt; on_empty(&rt, |left| reads_edits_of(&rt, left))?);
    Ok(())
}
