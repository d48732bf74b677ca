//! What is said on standard error of a command that succeeded.

ghost use Rattle.std.specs.Prelude.{◌≡◌, ◌↔◌, false, IsErr, IsTrue};
ghost use Rattle.command_core.specs.Endings.{IsLineOn, IsToldOf, IsToldOfFirst};
ghost use Rattle.command_core.specs.Skipping.{skipped_line};

use crate::improper::tell_improper;
use crate::improper_rows::{ImproperRows, tell_rows};
use itoa::Buffer;
use relate_any_core::Improper;
use report_core::{ShortText, Sink, WriteFailed};
use std::alloc::Global;

/// How many rows of the left and of the right file were skipped.
#[derive(Clone, Copy)]
pub struct SkippedCounts {
    pub left: usize,
    pub right: usize,
}

/// What there is to say of a command that succeeded.
#[derive(Drop)]
pub struct Notes {
    /// Which of the geometries of `relate` have improper rings.
    pub improper: Improper,
    /// How many rows were skipped, if the list of them was asked for.
    pub skipped: Option<SkippedCounts>,
    /// Which rows of the layers have improper rings.
    pub rows: ImproperRows,
}

impl Notes {
    ghost use Rattle.command_core.specs.Endings.{AreNoNotes};

    /// There is nothing to say.
    pub fn none(alloc: Global) -> Notes
        ensures { AreNoNotes result }
    {
        Notes {
            improper: Improper {
                first: false,
                second: false,
            },
            skipped: None,
            rows: ImproperRows::none(alloc),
        }
    }
}

/// Writes the line of the rows that were skipped, or one line for each geometry of `relate` with
/// improper rings, and then one line for each layer that has rows with such rings.
pub fn tell<E: Sink>(notes: &Notes, errors: &mut E)
    requires { E.has_failed errors.old ≡ false }
    ensures { IsToldOf E.written E.has_failed errors.old errors.new notes.now }
{
    let rows = &notes.rows;
    let told = tell_first(notes, errors);
    let told = tell_rows(told, "left", rows.layers.left.as_slice(), errors);
    let told = tell_rows(told, "right", rows.layers.right.as_slice(), errors);
    // If standard error fails, nothing more can be reported.
    let _ = tell_rows(told, "layer", rows.layer.as_slice(), errors);
}

/// Writes the line of the rows that were skipped, or one line for each geometry of `relate` with
/// improper rings: no command has both.
fn tell_first<E: Sink>(notes: &Notes, errors: &mut E) -> Result<(), WriteFailed>
    requires { E.has_failed errors.old ≡ false }
    ensures told { IsToldOfFirst E.written E.has_failed errors.old errors.new notes.now }
    ensures failed { IsErr result ↔ IsTrue (E.has_failed errors.new) }
{
    match notes.skipped {
        Some(counts) => tell_skipped(counts, errors),
        None => tell_improper(&notes.improper, errors),
    }
}

/// Writes the line of the rows that were skipped.
fn tell_skipped<E: Sink>(counts: SkippedCounts, errors: &mut E) -> Result<(), WriteFailed>
    requires { E.has_failed errors.old ≡ false }
    ensures told { IsLineOn E.written E.has_failed errors.old errors.new (skipped_line counts) }
    ensures failed { IsErr result ↔ IsTrue (E.has_failed errors.new) }
{
    let mut line = ShortText::begun();
    line.push("rows skipped: left ");
    line.push(Buffer::new().format(counts.left));
    line.push(", right ");
    line.push(Buffer::new().format(counts.right));
    line.write(errors)
}
