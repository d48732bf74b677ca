//! Fields of CSV as text.

ghost use Rattle.std.specs.Prelude.{◌≡◌, ◌++◌, IfOk, OnOk};
ghost use Rattle.csv.specs.Writing.{default_writer, field_text, needs_quotes};
ghost use Rattle.report_core.specs.CsvTexts.{leading_field};

use csv::Writer;
use std::alloc::{AllocError, Global};

/// Adds a field and the comma after it.
pub(crate) fn push_leading_field(
    alloc: Global,
    text: &mut Vec<u8>,
    field: &[u8],
) -> Result<(), AllocError>
    ensures { OnOk result (text.new.items ≡ text.old.items ++ leading_field field.now) }
{
    push_field(alloc, text, field)?;
    text.push(b',')?;
    Ok(())
}

/// Adds a field, in quotes if it needs them.
pub(crate) fn push_field(alloc: Global, text: &mut Vec<u8>, field: &[u8]) -> Result<(), AllocError>
    ensures { OnOk result
        (text.new.items ≡ text.old.items ++ field_text default_writer field.now) }
{
    if needs_quotes(field) {
        let quoted = field_text(alloc, field)?;
        text.extend_from_slice(quoted.as_slice())
    } else {
        text.extend_from_slice(field)
    }
}

/// Whether a field needs quotes. Few fields do, and only these are passed to a CSV writer.
fn needs_quotes(field: &[u8]) -> bool
    ensures { result ≡ needs_quotes default_writer field.now }
{
    field
        .iter()
        .any(|byte| matches!(*byte, b',' | b'"' | b'\r' | b'\n'))
}

/// A field as a CSV writer writes it.
fn field_text(alloc: Global, field: &[u8]) -> Result<Vec<u8>, AllocError>
    ensures { IfOk result (λ text. text.items ≡ field_text default_writer field.now) }
{
    let mut writer = Writer::from_writer(Vec::new(alloc));
    match writer.write_field(field) {
        Ok(()) => match writer.into_inner() {
            Ok(text) => Ok(text),
            Err(_) => Err(AllocError),
        },
        Err(_) => Err(AllocError),
    }
}
