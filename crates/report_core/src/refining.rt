//! The report of the candidates that satisfy a condition, which are decided as it is written.

ghost use Rattle.std.specs.Prelude.{◌≡◌, ◌+◌, ◌<◌, ◌≤◌, All, IfOk, IsOk, length};
ghost use Rattle.std.specs.List.{flat_map};
ghost use Rattle.refine_core.specs.Refinements.{IsPairIn};
ghost use Rattle.report_core.specs.Columns.{AreColumnsFor};
ghost use Rattle.report_core.specs.RefinedReports.{AreMatches, AreRefinedRows, IsRefinedReport};
ghost use Rattle.report_core.specs.ReportRows.{IsRowOf, text_or_none};
ghost use Rattle.report_core.specs.Reports.{IsReportBy};
ghost use Rattle.report_core.specs.Written.{joined};

use crate::columns::Columns;
use crate::last_field::LastField;
use crate::report::{Fields, header_text, push_all, push_rows};
use layer_core::{Geometry, Layer};
use refine_core::{Condition, Refined, refine_each};
use std::alloc::{AllocError, Global};
use std::thread;
use std::thread::Threads;

/// The number of candidates that are decided before the records of those that satisfy the condition
/// are written: few enough that their answers stay in the processor's cache.
const BLOCK: usize = 256;

/// How a report of candidates is made: the condition that decides them, the last field, and the
/// greatest number of threads that decide and write.
#[derive(Drop)]
pub struct RefiningForm<'a, C, F> {
    pub condition: &'a C,
    pub field: &'a F,
    pub workers: u32,
}

/// The report of the candidates that satisfy a condition, as texts to be concatenated: a CSV record
/// `left,right` with the name of the last column, then one record for each of these pairs, with the
/// ids of its features and the last field. Each thread decides and writes a part of the candidates,
/// and keeps no answers longer than it takes to write their records.
///
/// # Errors
/// If an allocation fails.
pub fn report_refining<R, C, F, G>(
    rt: &R,
    form: &RefiningForm<'_, C, F>,
    left: &Layer<G>,
    right: &Layer<G>,
    candidates: &[(u32, u32)],
) -> Result<Vec<Vec<u8>>, AllocError>
where
    R: AllocGlobal + Threads + Sync,
    C: Condition + Sync,
    C::Answer: Send + Drop,
    F: LastField<G, Refined<C::Answer>> + Sync,
    G: Geometry + Sync,
    requires workers { 0 < form.now.workers }
    requires near { All (IsPairIn (C.near form.now.condition.now)) candidates.now }
    requires matches { let condition = form.now.condition.now in
        let is_match = F.is_match left.now.list right.now.list in
        AreMatches (C.stands condition) (C.answers condition) is_match }
    // of the candidates of any condition, that report of the candidates that satisfy the condition,
    // all of them and no other, in order
    ensures report { let condition = form.now.condition.now in let field = form.now.field.now in
        let report = IsReportBy (F.name_of field) (F.is_field field) left.now.list right.now.list in
        let is = IsRefinedReport (C.stands condition) (C.answers condition) report in
        IfOk result (λ texts. is candidates.now (joined texts.items)) }
    // as above
    ensures few { IfOk result (λ texts. length texts.items ≤ form.now.workers + 1) }
{
    let chunks = refined_chunks(rt, form, left, right, candidates)?;
    let mut texts = Vec::new(rt.alloc());
    let header = header_text(rt.alloc(), form.field.name())?;
    texts.push(header)?;
    push_all(&mut texts, chunks)?;
    Ok(texts)
}

/// The records of each chunk of the candidates, at most as many chunks as workers.
fn refined_chunks<R, C, F, G>(
    rt: &R,
    form: &RefiningForm<'_, C, F>,
    left: &Layer<G>,
    right: &Layer<G>,
    candidates: &[(u32, u32)],
) -> Result<Vec<Result<Vec<u8>, AllocError>>, AllocError>
where
    R: AllocGlobal + Threads + Sync,
    C: Condition + Sync,
    C::Answer: Send + Drop,
    F: LastField<G, Refined<C::Answer>> + Sync,
    G: Geometry + Sync,
    requires workers { 0 < form.now.workers }
    requires near { All (IsPairIn (C.near form.now.condition.now)) candidates.now }
    requires matches { let condition = form.now.condition.now in
        let is_match = F.is_match left.now.list right.now.list in
        AreMatches (C.stands condition) (C.answers condition) is_match }
    ensures rows { let condition = form.now.condition.now in let field = form.now.field.now in
        let row = IsRowOf (λ found. found.pair) (F.name_of field) (F.is_field field)
        left.now.list right.now.list in
        let rows = AreRefinedRows (C.stands condition) (C.answers condition) row in
        IfOk result (λ chunks. All IsOk chunks.items
        → rows candidates.now (flat_map text_or_none chunks.items)) }
    ensures few { IfOk result (λ chunks. length chunks.items ≤ form.now.workers) }
{
    let alloc = rt.alloc();
    let size = candidates.len().div_ceil(form.workers as usize).max(1);
    let ids = &columns_of(rt, left, right, candidates, form.workers)?;
    let condition = form.condition;
    let last = form.field;
    let rows = move |_start: usize, chunk: &[(u32, u32)]| -> Result<Vec<u8>, AllocError>
        requires near { All (IsPairIn (C.near condition.now)) chunk.now }
        requires matches { let is_match = F.is_match left.now.list right.now.list in
            AreMatches (C.stands condition.now) (C.answers condition.now) is_match }
        requires ids { AreColumnsFor (λ pair. pair) left.now.list right.now.list chunk.now
            ids.now }
        ensures { let condition = condition.entry.now in
            let name = F.name_of last.entry.now in
            let is_field = F.is_field last.entry.now in
            let row = IsRowOf (λ found. found.pair) name is_field left.entry.now.list
            right.entry.now.list in
            let rows = AreRefinedRows (C.stands condition) (C.answers condition) row in
            IfOk result (λ text. rows chunk.now text.items) }
    { refined_text(alloc, condition, left, right, &Fields { ids, last }, chunk) };
    thread::map_chunks(rt, alloc, candidates, size, &rows)
}

/// The ids of both layers. With more than one worker, the two columns are made in parallel.
fn columns_of<R, G>(
    rt: &R,
    left: &Layer<G>,
    right: &Layer<G>,
    candidates: &[(u32, u32)],
    workers: u32,
) -> Result<Columns, AllocError>
where
    R: AllocGlobal + Threads + Sync,
    G: Geometry + Sync,
    ensures { IfOk result (AreColumnsFor (λ pair. pair) left.now.list right.now.list
        candidates.now) }
{
    if workers > 1 {
        Columns::side_by_side(rt, left, right, candidates)
    } else {
        Columns::new(rt.alloc(), left, right, candidates)
    }
}

/// The records of those of these candidates that satisfy the condition.
fn refined_text<C, F, G>(
    alloc: Global,
    condition: &C,
    left: &Layer<G>,
    right: &Layer<G>,
    fields: &Fields<'_, F>,
    candidates: &[(u32, u32)],
) -> Result<Vec<u8>, AllocError>
where
    C: Condition,
    C::Answer: Drop,
    F: LastField<G, Refined<C::Answer>>,
    G: Geometry,
    requires near { All (IsPairIn (C.near condition.now)) candidates.now }
    requires matches { let is_match = F.is_match left.now.list right.now.list in
        AreMatches (C.stands condition.now) (C.answers condition.now) is_match }
    requires ids { AreColumnsFor (λ pair. pair) left.now.list right.now.list candidates.now
        fields.now.ids.now }
    ensures { let name = F.name_of fields.now.last.now in
        let is_field = F.is_field fields.now.last.now in
        let row = IsRowOf (λ found. found.pair) name is_field left.now.list right.now.list in
        let rows = AreRefinedRows (C.stands condition.now) (C.answers condition.now) row in
        IfOk result (λ text. rows candidates.now text.items) }
{
    let room = candidates.len().saturating_mul(fields.ids.likely_record());
    let mut text = Vec::with_capacity(alloc, room)?;
    for block in candidates.chunks(BLOCK) {
        let refined = refine_each(alloc, condition, block)?;
        push_rows(&mut text, left, right, fields, refined.as_slice())?;
    }
    Ok(text)
}
