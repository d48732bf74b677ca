//! What the pairs of a join tell of each left feature, as CSV: the number of its pairs, or that it
//! has none.

ghost use Rattle.std.specs.Prelude.{◌≡◌, ◌+◌, ◌<◌, ◌≤◌, ◌∷◌, [], All, ℕ, IfOk, OnOk, decimal};
ghost use Rattle.std.specs.Prelude.{length, map, slice_set};
ghost use Rattle.std.specs.List.{slice_index_or};
ghost use Rattle.pair_core.specs.Often.{occurrences};
ghost use Rattle.pair_core.specs.declared.often.Side.TheVariants.{Left};
ghost use Rattle.join_core.specs.Counts.{counts_text, unmatched_text};
ghost use Rattle.run_core.specs.CsvWriting.{AddsRow};

use csv::Writer;
use itoa::Buffer;
use layer_core::{Geometry, Layer};
use refine_core::AsPair;
use run_core::{new_rows, push_row, rows_text};
use std::alloc::{AllocError, Global};

/// The number of the pairs of each left feature: a CSV record `left,count`, and then one for each
/// feature of the layer, in order.
///
/// # Errors
/// If an allocation fails.
pub(crate) fn counts_text<G: Geometry, M: AsPair>(
    alloc: Global,
    left: &Layer<G>,
    matches: &[M],
) -> Result<Vec<u8>, AllocError>
    ensures { let pairs = map M.pair_of matches.now in
        IfOk result (λ text. text.items ≡ counts_text left.now.list pairs) }
{
    let counts = count_pairs(alloc, matches)?;
    let mut writer = new_rows(alloc);
    push_row(&mut writer, &[b"left", b"count"])?;
    for feature in left.iter() {
        let count = count_at(&counts, feature.number);
        push_count(&mut writer, feature.id, count)?;
    }
    rows_text(writer)
}

/// Writes an id and a number.
fn push_count(writer: &mut Writer<Vec<u8>>, id: &str, count: usize) -> Result<(), AllocError>
    ensures { OnOk result (AddsRow writer.old writer.new (id.now ∷ decimal count ∷ [])) }
{
    let mut digits = Buffer::new();
    let row = [id.as_bytes(), digits.format(count).as_bytes()];
    push_row(writer, &row)
}

/// The left features that are in no pair: a CSV record `left`, and then one for each of them, in
/// order.
///
/// # Errors
/// If an allocation fails.
pub(crate) fn unmatched_text<G: Geometry, M: AsPair>(
    alloc: Global,
    left: &Layer<G>,
    matches: &[M],
) -> Result<Vec<u8>, AllocError>
    ensures { let pairs = map M.pair_of matches.now in
        IfOk result (λ text. text.items ≡ unmatched_text left.now.list pairs) }
{
    let counts = count_pairs(alloc, matches)?;
    let mut writer = new_rows(alloc);
    push_row(&mut writer, &[b"left"])?;
    for feature in left.iter() {
        let count = count_at(&counts, feature.number);
        if count == 0 {
            let id = feature.id.as_bytes();
            push_row(&mut writer, &[id])?;
        }
    }
    rows_text(writer)
}

/// The number of the pairs of each left feature, by its number. Features without a pair may be left
/// out at the end.
fn count_pairs<M: AsPair>(alloc: Global, matches: &[M]) -> Result<Vec<usize>, AllocError>
    ensures { let pairs = map M.pair_of matches.now in
        IfOk result (λ counts. (n : ℕ)
        → slice_index_or counts.items n 0 ≡ occurrences Left n pairs) }
{
    let mut counts = Vec::from_elem(alloc, 0, left_limit(matches))?;
    for place in 0..matches.len() {
        let (left, _) = matches[place].as_pair();
        count_once(&mut counts, left as usize);
    }
    Ok(counts)
}

/// Adds one to the count at this place.
fn count_once(counts: &mut Vec<usize>, place: usize)
    requires within { place < length counts.old.items }
    requires few { slice_index_or counts.old.items place 0 + 1 ≤ 18446744073709551615 }
    ensures { let count = slice_index_or counts.old.items place 0 in
        counts.new.items ≡ slice_set counts.old.items place (count + 1) }
{
    counts[place] += 1;
}

/// A number that is greater than the left ones of these matches.
fn left_limit<M: AsPair>(matches: &[M]) -> usize
    ensures { All (λ a. (M.pair_of a).0 < result) matches.now }
{
    let mut limit = 0;
    for found in matches {
        limit = limit.max(found.as_pair().0 as usize + 1);
    }
    limit
}

/// The count of a number, or 0 past the end.
fn count_at(counts: &[usize], number: u32) -> usize
    ensures { result ≡ slice_index_or counts.now number 0 }
{
    match counts.get(number as usize) {
        Some(count) => *count,
        None => 0,
    }
}
