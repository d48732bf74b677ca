//! The list of the rows that were skipped, as CSV.

ghost use Rattle.std.specs.Prelude.{◌≡◌, [], ◌∷◌, IfOk, OnOk, map};
ghost use Rattle.file_core.specs.SkippedRows.{skipped_content};
ghost use Rattle.run_core.specs.CsvWriting.{AddsRow, AddsRows};
ghost use Rattle.run_core.specs.EditedLayers.{skipped_lists};
ghost use Rattle.run_core.specs.SkippedTexts.{side_rows, skipped_row, skipped_text};

use crate::csv_rows::{new_rows, push_row, rows_text};
use crate::loaded::SkippedRows;
use csv::Writer;
use file_core::SkippedRow;
use itoa::Buffer;
use std::alloc::{AllocError, Global};

/// The rows that were skipped, as CSV: a record `side,row,id,fault`, and then a record for each row
/// of the left file and of the right one, in file order.
///
/// The side is `left` or `right`, the row its number in the file, from 1, after the header, and the
/// fault that of its geometry's text, as in the line of a file that is refused for it.
///
/// # Errors
/// If an allocation fails.
pub fn skipped_text(alloc: Global, rows: &SkippedRows) -> Result<Vec<u8>, AllocError>
    // a CSV record `side,row,id,fault`, and then one of each row, those of the left file before
    // those of the right one: its side, its number, its id and the words of its fault
    ensures { IfOk result (λ text. text.items ≡ skipped_text (skipped_lists rows.now)) }
{
    let mut writer = new_rows(alloc);
    push_row(&mut writer, &[b"side", b"row", b"id", b"fault"])?;
    push_side(&mut writer, "left", rows.left.as_slice())?;
    push_side(&mut writer, "right", rows.right.as_slice())?;
    rows_text(writer)
}

/// Writes the rows of one side.
fn push_side(
    writer: &mut Writer<Vec<u8>>,
    side: &str,
    rows: &[SkippedRow],
) -> Result<(), AllocError>
    ensures { OnOk result
        (AddsRows writer.old writer.new (side_rows side.now (map skipped_content rows.now))) }
{
    for row in rows {
        push_skipped(writer, side, row)?;
    }
    Ok(())
}

/// Writes a row's side, number, id and fault.
fn push_skipped(
    writer: &mut Writer<Vec<u8>>,
    side: &str,
    row: &SkippedRow,
) -> Result<(), AllocError>
    ensures { OnOk result
        (AddsRow writer.old writer.new (skipped_row side.now (skipped_content row.now))) }
{
    let mut number = Buffer::new();
    let number = number.format(row.row);
    let fault = row.as_fault();
    push_fields(writer, side, number, row.id.as_str(), fault.text())
}

/// Writes a row of four fields.
fn push_fields<'a>(
    writer: &mut Writer<Vec<u8>>,
    side: &'a str,
    number: &'a str,
    id: &'a str,
    fault: &'a str,
) -> Result<(), AllocError>
    ensures { OnOk result (AddsRow writer.old writer.new
        (side.now ∷ number.now ∷ id.now ∷ fault.now ∷ [])) }
{
    let row = [
        side.as_bytes(),
        number.as_bytes(),
        id.as_bytes(),
        fault.as_bytes(),
    ];
    push_row(writer, &row)
}
