//! The report of a join, as CSV.

ghost use Rattle.std.specs.Prelude.{◌≡◌, ◌+◌, ◌<◌, ◌≤◌, ◌++◌, All, IfOk, IsOk, OnOk, length, map};
ghost use Rattle.std.specs.List.{flat_map};
ghost use Rattle.report_core.specs.Columns.{AreColumnsFor};
ghost use Rattle.report_core.specs.ReportRows.{AddsRows, AreRows, IsRowOf, header_line};
ghost use Rattle.report_core.specs.ReportRows.{name_in, right_part, text_or_none};
ghost use Rattle.report_core.specs.Reports.{IsReportBy};
ghost use Rattle.report_core.specs.Written.{joined};

use crate::columns::Columns;
use crate::csv_fields::push_field;
use crate::last_field::LastField;
use layer_core::{Geometry, Layer};
use refine_core::AsPair;
use std::alloc::{AllocError, Global};
use std::thread;
use std::thread::Threads;

/// The number of matches whose room is reserved before their records are written.
const BLOCK: usize = 32;

/// How a report is made: its last field, and the greatest number of threads that write it.
#[derive(Drop)]
pub struct ReportForm<'a, F> {
    pub field: &'a F,
    pub workers: u32,
}

/// The fields of a report's records: the ids, and the last field.
#[derive(Drop)]
pub(crate) struct Fields<'a, F> {
    pub(crate) ids: &'a Columns,
    pub(crate) last: &'a F,
}

/// The report of these matches, as texts to be concatenated: a CSV record `left,right` with the
/// name of the last column, if there is one, then one record for each match, with the ids of its
/// features and the last field. At most as many threads write it as the form says, each to a text
/// of its own.
///
/// # Errors
/// If an allocation fails.
pub fn report_by<R, F, G, M>(
    rt: &R,
    form: &ReportForm<'_, F>,
    left: &Layer<G>,
    right: &Layer<G>,
    matches: &[M],
) -> Result<Vec<Vec<u8>>, AllocError>
where
    R: AllocGlobal + Threads + Sync,
    F: LastField<G, M> + Sync,
    G: Geometry + Sync,
    M: AsPair + Sync,
    requires { All (F.is_match left.now.list right.now.list) matches.now }
    // concatenated, the report of pairs that two layers hold, for any number of workers, any type
    // of geometry and any last field: the header with the field's name, and for each pair in order
    // the ids and a field that its two geometries may have; of none, the ids alone
    ensures report { let field = form.now.field.now in
        let is = IsReportBy (F.name_of field) (F.is_field field) left.now.list right.now.list in
        IfOk result (λ texts. is (map M.pair_of matches.now) (joined texts.items)) }
    // no more texts than a header's and one for each worker
    ensures few { IfOk result (λ texts. length texts.items ≤ form.now.workers + 1) }
{
    if form.workers > 1 {
        chunked_report(rt, form, left, right, matches)
    } else {
        whole_report(rt.alloc(), form.field, left, right, matches)
    }
}

/// The report as a text for the header, and one for each chunk of the matches, each written by a
/// thread of its own.
fn chunked_report<R, F, G, M>(
    rt: &R,
    form: &ReportForm<'_, F>,
    left: &Layer<G>,
    right: &Layer<G>,
    matches: &[M],
) -> Result<Vec<Vec<u8>>, AllocError>
where
    R: AllocGlobal + Threads + Sync,
    F: LastField<G, M> + Sync,
    G: Geometry + Sync,
    M: AsPair + Sync,
    requires held { All (F.is_match left.now.list right.now.list) matches.now }
    requires workers { 0 < form.now.workers }
    ensures report { let field = form.now.field.now in
        let is = IsReportBy (F.name_of field) (F.is_field field) left.now.list right.now.list in
        IfOk result (λ texts. is (map M.pair_of matches.now) (joined texts.items)) }
    ensures few { IfOk result (λ texts. length texts.items ≤ form.now.workers + 1) }
{
    let chunks = chunk_rows(rt, form, left, right, matches)?;
    let mut texts = Vec::new(rt.alloc());
    let header = header_text(rt.alloc(), form.field.name())?;
    texts.push(header)?;
    push_all(&mut texts, chunks)?;
    Ok(texts)
}

/// The report as a single text.
#[tactic(auto, using(crate::proofs::ReportLemmas::report_alone))]
fn whole_report<F: LastField<G, M>, G: Geometry, M: AsPair>(
    alloc: Global,
    field: &F,
    left: &Layer<G>,
    right: &Layer<G>,
    matches: &[M],
) -> Result<Vec<Vec<u8>>, AllocError>
    requires { All (F.is_match left.now.list right.now.list) matches.now }
    ensures report { let is = IsReportBy (F.name_of field.now) (F.is_field field.now) in
        let pairs = map M.pair_of matches.now in IfOk result
        (λ texts. is left.now.list right.now.list pairs (joined texts.items)) }
    ensures single { IfOk result (λ texts. length texts.items ≡ 1) }
{
    let mut texts = Vec::new(alloc);
    texts.push(whole_text(alloc, field, left, right, matches)?)?;
    Ok(texts)
}

/// The report as one text.
fn whole_text<F: LastField<G, M>, G: Geometry, M: AsPair>(
    alloc: Global,
    field: &F,
    left: &Layer<G>,
    right: &Layer<G>,
    matches: &[M],
) -> Result<Vec<u8>, AllocError>
    requires { All (F.is_match left.now.list right.now.list) matches.now }
    ensures { let is = IsReportBy (F.name_of field.now) (F.is_field field.now) in
        let pairs = map M.pair_of matches.now in
        IfOk result (λ text. is left.now.list right.now.list pairs text.items) }
{
    let ids = Columns::new(alloc, left, right, matches)?;
    let mut text = header_text(alloc, field.name())?;
    let fields = Fields {
        ids: &ids,
        last: field,
    };
    push_rows(&mut text, left, right, &fields, matches)?;
    Ok(text)
}

/// The header, with this name of the last column, if there is one.
pub(crate) fn header_text(alloc: Global, name: Option<&str>) -> Result<Vec<u8>, AllocError>
    ensures { IfOk result (λ text. text.items ≡ header_line (name_in name.entry)) }
{
    let mut text = Vec::new(alloc);
    let Some(name) = name else {
        text.extend_from_slice(b"left,right\n")?;
        return Ok(text);
    };
    text.extend_from_slice(b"left,right,")?;
    push_field(alloc, &mut text, name.as_bytes())?;
    text.push(b'\n')?;
    Ok(text)
}

/// The records of each chunk of the matches, at most as many chunks as workers.
fn chunk_rows<R, F, G, M>(
    rt: &R,
    form: &ReportForm<'_, F>,
    left: &Layer<G>,
    right: &Layer<G>,
    matches: &[M],
) -> Result<Vec<Result<Vec<u8>, AllocError>>, AllocError>
where
    R: AllocGlobal + Threads + Sync,
    F: LastField<G, M> + Sync,
    G: Geometry + Sync,
    M: AsPair + Sync,
    requires held { All (F.is_match left.now.list right.now.list) matches.now }
    requires workers { 0 < form.now.workers }
    ensures rows { let name = F.name_of form.now.field.now in
        let is_field = F.is_field form.now.field.now in
        let row = IsRowOf M.pair_of name is_field left.now.list right.now.list in
        IfOk result (λ chunks. All IsOk chunks.items
        → AreRows row matches.now (flat_map text_or_none chunks.items)) }
    ensures few { IfOk result (λ chunks. length chunks.items ≤ form.now.workers) }
{
    let alloc = rt.alloc();
    let size = matches.len().div_ceil(form.workers as usize).max(1);
    let ids = &Columns::side_by_side(rt, left, right, matches)?;
    let last = form.field;
    let rows = move |_start: usize, chunk: &[M]| -> Result<Vec<u8>, AllocError>
        requires held { All (F.is_match left.now.list right.now.list) chunk.now }
        requires ids { AreColumnsFor M.pair_of left.now.list right.now.list chunk.now ids.now }
        ensures { let name = F.name_of last.entry.now in
            let is_field = F.is_field last.entry.now in
            let row = IsRowOf M.pair_of name is_field left.entry.now.list
            right.entry.now.list in
            IfOk result (λ text. AreRows row chunk.now text.items) }
    { rows_text(alloc, left, right, &Fields { ids, last }, chunk) };
    thread::map_chunks(rt, alloc, matches, size, &rows)
}

/// The records of these matches.
fn rows_text<F: LastField<G, M>, G: Geometry, M: AsPair>(
    alloc: Global,
    left: &Layer<G>,
    right: &Layer<G>,
    fields: &Fields<'_, F>,
    matches: &[M],
) -> Result<Vec<u8>, AllocError>
    requires held { All (F.is_match left.now.list right.now.list) matches.now }
    requires ids { AreColumnsFor M.pair_of left.now.list right.now.list matches.now
        fields.now.ids.now }
    ensures { let name = F.name_of fields.now.last.now in
        let is_field = F.is_field fields.now.last.now in
        let row = IsRowOf M.pair_of name is_field left.now.list right.now.list in
        IfOk result (λ text. AreRows row matches.now text.items) }
{
    let mut text = Vec::new(alloc);
    push_rows(&mut text, left, right, fields, matches)?;
    Ok(text)
}

/// Adds the records of these matches.
pub(crate) fn push_rows<F: LastField<G, M>, G: Geometry, M: AsPair>(
    text: &mut Vec<u8>,
    left: &Layer<G>,
    right: &Layer<G>,
    fields: &Fields<'_, F>,
    matches: &[M],
) -> Result<(), AllocError>
    requires held { All (F.is_match left.now.list right.now.list) matches.now }
    requires ids { AreColumnsFor M.pair_of left.now.list right.now.list matches.now
        fields.now.ids.now }
    ensures { let name = F.name_of fields.now.last.now in
        let is_field = F.is_field fields.now.last.now in
        let row = IsRowOf M.pair_of name is_field left.now.list right.now.list in
        OnOk result (AddsRows row matches.now text.old.items text.new.items) }
{
    text.reserve(matches.len().saturating_mul(fields.ids.likely_record()))?;
    let is_followed = fields.last.name().is_some();
    for place in 0..matches.len() {
        make_room(text, right, fields, matches, place)?;
        let found = &matches[place];
        let pair = found.as_pair();
        // These are read first, so that the processor fetches both ids at the same time.
        let left_field = fields.ids.left.at(pair.0);
        let left_id = left_field.unwrap();
        let right_field = fields.ids.right.at(pair.1);
        let right_id = right_field.unwrap();
        push_ids(text, left_id, right_id, is_followed)?;
        fields.last.push_field(text, found, left, right)?;
        text.push(b'\n')?;
    }
    Ok(())
}

/// Reserves room for the records of a block of matches, if one begins at `place`. The lookups for
/// it are spread over memory. They are made in short loops, so that the processor fetches the data
/// of many records at the same time.
fn make_room<F: LastField<G, M>, G: Geometry, M: AsPair>(
    text: &mut Vec<u8>,
    right: &Layer<G>,
    fields: &Fields<'_, F>,
    matches: &[M],
    place: usize,
) -> Result<(), AllocError>
    requires { place ≤ length matches.now }
    ensures { text.new.items ≡ text.old.items }
{
    if place % BLOCK != 0 {
        return Ok(());
    }
    let rest = &matches[place..];
    let block = &rest[..BLOCK.min(rest.len())];
    let room = room_of_records(fields.ids, block);
    let quoted = count_quoted(right, fields, block);
    text.reserve(room.saturating_add(quoted))
}

/// An estimate of the number of bytes of the records of a block, but for the quotes of their ids.
fn room_of_records<M: AsPair>(ids: &Columns, block: &[M]) -> usize {
    let mut room: usize = 0;
    for found in block {
        room = room.saturating_add(ids.room_of(found.as_pair()));
    }
    room
}

/// The number of matches of a block whose right id is in quotes. It reads what their records need
/// of the right layer.
fn count_quoted<F: LastField<G, M>, G: Geometry, M: AsPair>(
    right: &Layer<G>,
    fields: &Fields<'_, F>,
    block: &[M],
) -> usize {
    let mut count: usize = 0;
    for found in block {
        let is_quoted = fields.last.fetch(found, right)
            && fields.ids.right.is_quoted(found.as_pair().1);
        count = count.saturating_add(is_quoted.into());
    }
    count
}

/// Adds two ids, given as CSV fields with their commas. The second comma is left out if no field
/// follows.
#[inline(always)]
fn push_ids(
    text: &mut Vec<u8>,
    left: &[u8],
    right: &[u8],
    is_followed: bool,
) -> Result<(), AllocError>
    ensures { OnOk result
        (text.new.items ≡ text.old.items ++ (left.now ++ right_part is_followed right.now)) }
{
    text.extend_from_slice(left)?;
    if is_followed {
        text.extend_from_slice(right)
    } else {
        text.extend_from_slice(&right[..right.len().saturating_sub(1)])
    }
}

/// Adds these texts, or returns the error if an allocation failed for one of them.
pub(crate) fn push_all(
    texts: &mut Vec<Vec<u8>>,
    parts: Vec<Result<Vec<u8>, AllocError>>,
) -> Result<(), AllocError>
    ensures all { OnOk result (All IsOk parts.items) }
    ensures texts { OnOk result
        (joined texts.new.items ≡ joined texts.old.items ++ flat_map text_or_none parts.items) }
    ensures count { OnOk result
        (length texts.new.items ≡ length texts.old.items + length parts.items) }
{
    for part in parts {
        let text = part?;
        texts.push(text)?;
    }
    Ok(())
}
