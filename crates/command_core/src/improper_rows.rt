//! Messages on the rows of layers whose geometries have improper rings.

ghost use Rattle.std.specs.Prelude.{◌≡◌, ◌+◌, ◌≤◌, ◌++◌, ◌↔◌, IsErr, IsTrue, length};
ghost use Rattle.command_core.specs.Endings.{IsToldOfRows};
ghost use Rattle.command_core.specs.ImproperRows.{first_rows, how_many, rows_line};

use arrayvec::ArrayString;
use itoa::Buffer;
use report_core::{Sink, WriteFailed, write_text};
use run_core::MarkedRows;
use std::alloc::Global;

/// The rows of a command's layers whose geometries have improper rings, by their numbers.
#[derive(Drop)]
pub struct ImproperRows {
    /// Those of the left and of the right file.
    pub layers: MarkedRows,
    /// Those of the file of a lone layer.
    pub layer: Vec<u32>,
}

impl ImproperRows {
    ghost use Rattle.std.specs.Prelude.{◌≡◌, []};
    ghost use Rattle.run_core.specs.Marks.{marked_lists, no_rows};

    /// No rows.
    pub fn none(alloc: Global) -> ImproperRows
        ensures layers { marked_lists result.layers ≡ no_rows }
        ensures layer { result.layer.items ≡ [] }
    {
        ImproperRows {
            layers: MarkedRows::none(alloc),
            layer: Vec::new(alloc),
        }
    }
}

/// The capacity of a line, in bytes.
const ROOM: usize = 192;

/// How many rows are named after the first.
const MORE: usize = 4;

/// Writes the line of the rows of an input, if there are any and the lines before were written.
///
/// # Errors
/// If the sink has failed.
pub fn tell_rows<E: Sink>(
    told: Result<(), WriteFailed>,
    input: &str,
    rows: &[u32],
    errors: &mut E,
) -> Result<(), WriteFailed>
    requires told { IsErr told ↔ IsTrue (E.has_failed errors.old) }
    requires short { length input.now ≤ 5 }
    ensures told { IsToldOfRows E.written E.has_failed errors.old errors.new input.now rows.now }
    ensures failed { IsErr result ↔ IsTrue (E.has_failed errors.new) }
{
    told?;
    if rows.is_empty() {
        return Ok(());
    }
    let line = rows_line(input, rows);
    write_text(errors, line.as_str().as_bytes())
}

/// The line of the rows of an input.
fn rows_line(input: &str, rows: &[u32]) -> ArrayString<ROOM>
    requires { length input.now ≤ 5 }
    ensures { result.bytes ≡ rows_line input.now rows.now }
{
    let mut line = ArrayString::new();
    line.push_str("rjoin: ");
    line.push_str(input);
    line.push_str(": even-odd rule for ");
    push_count(&mut line, rows.len());
    push_rows(&mut line, rows);
    line.push_str("\n");
    line
}

/// Adds how many rows there are.
fn push_count(line: &mut ArrayString<ROOM>, count: usize)
    requires { length line.old.bytes ≤ 32 }
    ensures text { line.new.bytes ≡ line.old.bytes ++ how_many count }
    ensures len { length line.new.bytes ≤ 96 }
{
    if count == 1 {
        line.push_str("1 feature with improper rings: row ");
    } else {
        line.push_str(Buffer::new().format(count));
        line.push_str(" features with improper rings: rows ");
    }
}

/// Adds the numbers of the first rows.
fn push_rows(line: &mut ArrayString<ROOM>, rows: &[u32])
    requires { length line.old.bytes ≤ 96 }
    ensures text { line.new.bytes ≡ line.old.bytes ++ first_rows rows.now }
    ensures len { length line.new.bytes ≤ 160 }
{
    let Some((first, others)) = rows.split_first() else {
        return;
    };
    line.push_str(Buffer::new().format(*first));
    let few = &others[..others.len().min(MORE)];
    for row in few {
        line.push_str(", ");
        line.push_str(Buffer::new().format(*row));
    }
}
