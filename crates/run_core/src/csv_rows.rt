//! CSV rows in memory.

ghost use Rattle.std.specs.Prelude.{◌≡◌, [], List, ℕ, IfOk, OnOk, map};
ghost use Rattle.report_core.specs.CsvTexts.{csv_text};
ghost use Rattle.run_core.specs.CsvWriting.{HasRows, AddsRow};

use csv::Writer;
use std::alloc::{AllocError, Global};

/// A CSV writer over memory, without rows yet.
pub fn new_rows(alloc: Global) -> Writer<Vec<u8>>
    ensures { HasRows result [] }
{
    Writer::from_writer(Vec::new(alloc))
}

/// Adds a row after those written so far, with quotes around the fields that need them.
///
/// # Errors
/// If memory runs out; a writer over memory has no other error.
#[tactic(auto, using(crate::proofs::CsvLemmas::row_pushed))]
pub fn push_row(writer: &mut Writer<Vec<u8>>, row: &[&[u8]]) -> Result<(), AllocError>
    ensures { OnOk result (AddsRow writer.old writer.new (map (λ field. field.now) row.now)) }
{
    match writer.write_fields(row) {
        Ok(()) => Ok(()),
        Err(_) => Err(AllocError),
    }
}

/// The text of the rows written, each with a line feed.
///
/// # Errors
/// If memory runs out.
pub fn rows_text(writer: Writer<Vec<u8>>) -> Result<Vec<u8>, AllocError>
    ensures { IfOk result (λ text. (rows : List (List (List ℕ))) → HasRows writer rows
        → text.items ≡ csv_text rows) }
{
    match writer.into_inner() {
        Ok(text) => Ok(text),
        Err(_) => Err(AllocError),
    }
}
