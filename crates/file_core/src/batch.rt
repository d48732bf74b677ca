//! Batches of rows, which are read ahead of their insertion.

ghost use Rattle.std.specs.Prelude.{◌≡◌, ◌<◌, ◌≤◌, [], false, All, IfOk, IfSome, Ok};
ghost use Rattle.file_core.specs.Batches.{AnswersRows, CanNumber, IsBatch, IsNext, all_rows};
ghost use Rattle.row_core.specs.LayerRows.{HasId, form_of};
ghost use Rattle.row_core.specs.Cuts.{IsClosed};
ghost use Rattle.file_core.specs.Parts.{IsParts};
ghost use Rattle.row_core.specs.Rows.{IsReading, has_unended, rows_left};
ghost use Rattle.file_core.specs.SkippedRows.{loaded_of};
ghost use Rattle.row_core.specs.Unread.{IsUnread};

use crate::cuts::cut;
use crate::insertion::add_parts;
use crate::loading::Loading;
use crate::parts::{Parts, read_four, read_two};
use format_core::Format;
use layer_core::Geometry;
use layer_edit_core::FeatureListBuilder;
use row_core::{LayerRowReader, ReadFault, ReadRow, Rows, Unread, is_plain, read_row};
use std::alloc::AllocError;
use std::thread;
use std::thread::Threads;

/// The number of rows in a batch that is read row by row, unless the file ends first.
const BATCH_ROWS: usize = 4_096;

/// The approximate number of bytes of a part.
const PART_BYTES: usize = 262_144;

/// The number of bytes from which more than one thread is worth its cost.
pub(crate) const MIN_THREADED_BYTES: usize = 65_536;

/// Consecutive rows of a file, in parts.
#[derive(Drop)]
pub(crate) struct Batch<G> {
    pub(crate) rows: Vec<Vec<ReadRow<G>>>,
    /// Whether more rows may follow, or the fault of the next row.
    pub(crate) more: Result<bool, ReadFault>,
}

/// Reads the next rows, one after another.
fn read_batch<'a, F: Format>(
    reader: LayerRowReader<F>,
    unread: Unread<'a>,
) -> (Unread<'a>, Batch<F::Geometry>)
    requires { IsUnread unread }
    ensures { IsNext (form_of F.reads reader) unread.entry result }
{
    match read_rows(reader, unread) {
        Ok(read) => read,
        Err(_) => {
            let no_rows = Vec::new(reader.alloc);
            let batch = Batch {
                rows: no_rows,
                more: Err(ReadFault::Memory),
            };
            // Nothing is read after a fault.
            (Unread::Text(b"".as_slice(), 0), batch)
        }
    }
}

/// The next rows, read one after another, or the error if an allocation fails.
fn read_rows<'a, F: Format>(
    reader: LayerRowReader<F>,
    unread: Unread<'a>,
) -> Result<(Unread<'a>, Batch<F::Geometry>), AllocError>
    requires { IsUnread unread }
    ensures { IfOk result (IsNext (form_of F.reads reader) unread.entry) }
{
    let mut rows = unread.into_rows(reader.alloc)?;
    let mut read = Vec::new(reader.alloc);
    let more = fill(reader, &mut read, &mut rows, BATCH_ROWS);
    let mut parts = Vec::new(reader.alloc);
    parts.push(read)?;
    Ok((Unread::Rows(rows), Batch { rows: parts, more }))
}

/// Reads the next rows, at most `most`, into an empty list, and returns whether more may follow.
pub(crate) fn fill<F: Format>(
    reader: LayerRowReader<F>,
    read: &mut Vec<ReadRow<F::Geometry>>,
    rows: &mut Rows,
    most: usize,
) -> Result<bool, ReadFault>
    requires empty { read.old.items ≡ [] }
    requires reading { IsReading rows.old }
    requires some { 0 < most }
    ensures batch { IsBatch (form_of F.reads reader) (Unread.Rows rows.old) read.new.items result
        (Unread.Rows rows.new) }
    ensures closed { result ≡ Ok false → has_unended rows.new ≡ false
        → All IsClosed (rows_left rows.old) }
{
    read.reserve(most)?;
    for _ in 0..most {
        let next = rows.next()?;
        let Some(number) = next else {
            return Ok(false);
        };
        let record = rows.row();
        let row = read_row(reader, number, record)?;
        read.push_reserved(row);
    }
    Ok(true)
}

/// The threads that read a file.
#[derive(Drop)]
pub(crate) struct Crew<'r, R> {
    pub(crate) rt: &'r R,
    /// How many of them read, at most.
    pub(crate) threads: u32,
}

impl<R> Crew<'_, R> {
    /// The number of parts that several threads read side by side.
    fn parts(&self) -> usize
        ensures { result ≤ 4 }
    {
        if self.threads < 4 { 2 } else { 4 }
    }
}

/// Reads the next rows, side by side if there are several threads.
pub(crate) fn read_next<'a, F: Format, R: Threads + Sync>(
    reader: LayerRowReader<F>,
    crew: &Crew<'_, R>,
    unread: Unread<'a>,
) -> (Unread<'a>, Batch<F::Geometry>)
    requires { IsUnread unread }
    ensures { IsNext (form_of F.reads reader) unread.entry result }
{
    if crew.threads > 1 {
        if let Some((behind, batch)) = read_parts(reader, crew, &unread) {
            return (behind, batch);
        }
    }
    read_batch(reader, unread)
}

/// The next rows, read side by side, if they are those of a text that isn't short.
fn read_parts<'a, F: Format, R: Threads + Sync>(
    reader: LayerRowReader<F>,
    crew: &Crew<'_, R>,
    unread: &Unread<'a>,
) -> Option<(Unread<'a>, Batch<F::Geometry>)>
    requires { IsUnread unread.now }
    ensures { IfSome result (IsNext (form_of F.reads reader) unread.now) }
{
    let Unread::Text(text, count) = unread else {
        return None;
    };
    let (round, rest) = cut(text, crew.parts() * PART_BYTES);
    if round.len() < MIN_THREADED_BYTES || !is_plain(rest) {
        return None;
    }
    let Parts { rows, count: read } = read_round(reader, crew, round)?;
    let behind = count.checked_add(read)?;
    if read == 0 {
        return None;
    }
    let batch = Batch {
        rows,
        more: Ok(true),
    };
    Some((Unread::Text(rest, behind), batch))
}

/// The rows of a text, read side by side.
fn read_round<F: Format, R: Threads + Sync>(
    reader: LayerRowReader<F>,
    crew: &Crew<'_, R>,
    text: &[u8],
) -> Option<Parts<F::Geometry>>
    ensures { IfSome result (IsParts (form_of F.reads reader) text.now) }
{
    match crew.parts() {
        2 => read_two(reader, crew.rt, text),
        _ => read_four(reader, crew.rt, text),
    }
}

/// Adds the given rows, and reads the next batch even if a row is refused: side by side if there
/// are several threads.
pub(crate) fn add_and_read<'a, F: Format, R: Threads + Sync>(
    reader: LayerRowReader<F>,
    crew: &Crew<'_, R>,
    loading: Loading<FeatureListBuilder<F::Geometry>>,
    read: Vec<Vec<ReadRow<F::Geometry>>>,
    unread: Unread<'a>,
) -> (
    Result<Loading<FeatureListBuilder<F::Geometry>>, ReadFault>,
    (Unread<'a>, Batch<F::Geometry>),
)
    requires ids { All HasId (all_rows read.items) }
    requires few { CanNumber (loaded_of loading) (all_rows read.items) }
    requires reading { IsUnread unread }
    ensures added { AnswersRows (loaded_of loading) (all_rows read.items) result.0 }
    ensures read { IsNext (form_of F.reads reader) unread.entry result.1 }
{
    let add = move || -> Result<Loading<FeatureListBuilder<F::Geometry>>, ReadFault>
        requires ids { All HasId (all_rows read.items) }
        requires few { CanNumber (loaded_of loading) (all_rows read.items) }
        ensures { AnswersRows (loaded_of loading) (all_rows read.items) result }
    { with_parts(loading, read) };
    let read_on = move || -> (Unread, Batch<F::Geometry>)
        requires { IsUnread unread }
        ensures { IsNext (form_of F.reads reader) unread.entry result }
    { read_next(reader, crew, unread) };
    if crew.threads > 1 {
        thread::join(crew.rt, add, read_on)
    } else {
        (add(), read_on())
    }
}

/// The rows before, with the rows of these parts added.
fn with_parts<G: Geometry>(
    mut loading: Loading<FeatureListBuilder<G>>,
    read: Vec<Vec<ReadRow<G>>>,
) -> Result<Loading<FeatureListBuilder<G>>, ReadFault>
    requires ids { All HasId (all_rows read.items) }
    requires few { CanNumber (loaded_of loading) (all_rows read.items) }
    ensures { AnswersRows (loaded_of loading) (all_rows read.items) result }
{
    add_parts(&mut loading, read)?;
    Ok(loading)
}
