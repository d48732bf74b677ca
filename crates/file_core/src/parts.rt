//! Parts of a text of records that are read in parallel.

ghost use Rattle.std.specs.Prelude.{◌≡◌, ◌++◌, IfSome};
ghost use Rattle.row_core.specs.LayerRows.{form_of};
ghost use Rattle.file_core.specs.Parts.{IsBoth, IsOnePart, IsParts};

use crate::batch::fill;
use crate::cuts::{cut, line_feeds};
use format_core::Format;
use row_core::{LayerRowReader, ReadRow, Rows, ends_with_feed, is_plain};
use std::alloc::Global;
use std::thread;
use std::thread::Threads;

/// The rows of a text, in parts.
#[derive(Drop)]
pub(crate) struct Parts<G> {
    pub(crate) rows: Vec<Vec<ReadRow<G>>>,
    /// The number of rows.
    pub(crate) count: u32,
}

impl<G: Drop> Parts<G> {
    /// These rows, followed by those of the text after theirs.
    #[tactic(auto, using(crate::proofs::BatchLemmas::all_rows_append))]
    fn and(self, mut others: Parts<G>) -> Option<Parts<G>>
        ensures { IfSome result (λ all. IsBoth self others all) }
    {
        let Parts { mut rows, count } = self;
        let count = count.checked_add(others.count)?;
        rows.append(&mut others.rows).ok()?;
        Some(Parts { rows, count })
    }
}

/// The rows of a text that begins and ends between two records, each half read in a thread of its
/// own. The result may be `None` for any text; it is `None` if the text isn't seen to be one, or if
/// a row has another fault than that of its geometry.
#[tactic(auto, using(crate::proofs::PartLemmas::parts_both))]
pub(crate) fn read_two<F: Format, R: Threads + Sync>(
    reader: LayerRowReader<F>,
    rt: &R,
    text: &[u8],
) -> Option<Parts<F::Geometry>>
    ensures { IfSome result (IsParts (form_of F.reads reader) text.now) }
{
    let (front, back) = cut(text, text.len() / 2);
    let read_front = move || -> Option<Parts<F::Geometry>>
        ensures { IfSome result (IsParts (form_of F.reads reader) front.entry.now) }
    { read_whole(reader, front) };
    let read_back = move || -> Option<Parts<F::Geometry>>
        ensures { IfSome result (IsParts (form_of F.reads reader) back.entry.now) }
    { read_whole(reader, back) };
    let (first, second) = thread::join(rt, read_front, read_back);
    first?.and(second?)
}

/// The rows of a text, read as by [`read_two`], but each quarter in a thread of its own.
#[tactic(auto, using(crate::proofs::PartLemmas::parts_both))]
pub(crate) fn read_four<F: Format, R: Threads + Sync>(
    reader: LayerRowReader<F>,
    rt: &R,
    text: &[u8],
) -> Option<Parts<F::Geometry>>
    ensures { IfSome result (IsParts (form_of F.reads reader) text.now) }
{
    let (front, back) = cut(text, text.len() / 2);
    let read_front = move || -> Option<Parts<F::Geometry>>
        ensures { IfSome result (IsParts (form_of F.reads reader) front.entry.now) }
    { read_two(reader, rt, front) };
    let read_back = move || -> Option<Parts<F::Geometry>>
        ensures { IfSome result (IsParts (form_of F.reads reader) back.entry.now) }
    { read_two(reader, rt, back) };
    let (first_two, last_two) = thread::join(rt, read_front, read_back);
    first_two?.and(last_two?)
}

/// The rows of a text, if it is seen to begin and end between two records.
#[tactic(auto, using(crate::proofs::PartLemmas::one_whole))]
fn read_whole<F: Format>(reader: LayerRowReader<F>, text: &[u8]) -> Option<Parts<F::Geometry>>
    ensures { IfSome result (IsParts (form_of F.reads reader) text.now) }
{
    // More rows than a u32 numbers are in no text that is shorter.
    if text.len() >= u32::MAX as usize || !is_plain(text) || !ends_with_feed(text) {
        return None;
    }
    let Ok(mut rows) = Rows::behind(reader.alloc, text, 0) else {
        return None;
    };
    let mut read = Vec::new(reader.alloc);
    // With other line ends there may be more rows; the text is then read row by row.
    let most = line_feeds(text).saturating_add(1);
    match fill(reader, &mut read, &mut rows, most) {
        Ok(false) if !rows.has_unended() => one_part(reader.alloc, read),
        _ => None,
    }
}

/// These rows as one part.
fn one_part<G: Drop>(alloc: Global, read: Vec<ReadRow<G>>) -> Option<Parts<G>>
    ensures { IfSome result (λ parts. IsOnePart read.items parts) }
{
    let Ok(count) = u32::try_from(read.len()) else {
        return None;
    };
    let mut rows = Vec::new(alloc);
    let pushed = rows.push(read);
    pushed.ok()?;
    Some(Parts { rows, count })
}
