//! Executing a command: running it over its files, and reporting its end by an exit status and a
//! fault line.

ghost use Rattle.std.specs.Prelude.{◌≡◌, false, OnOk};
ghost use Rattle.run_core.specs.EditedLayers.{SkippedLists};
ghost use Rattle.command_core.specs.Commands.{CommandEnds};
ghost use Rattle.command_core.specs.Endings.{AreNoNotes, AreNotes, CommandIsDone};
ghost use Rattle.command_core.specs.Skipping.{SkipEnds};

use crate::inputs::Inputs;
use crate::layers::{execute_bounds, execute_stats, execute_window};
use crate::notes::{Notes, tell};
use crate::outputs::Outputs;
use crate::pairs::{PairRequest, execute_pairs};
use crate::relating::execute_relate;
use report_core::Sink;
use run_core::{RunFault, fault_line};
use std::random::RandomSource;
use std::sync::Wait;
use std::thread::Threads;
use words_core::Command;

/// The exit status of a command that failed.
pub const FAILED: u8 = 1;

/// Executes a command and returns the exit status: 0 if everything was written, otherwise 1 with
/// the line of the fault on `errors`. Lines on `errors` also name the geometries of `relate` whose
/// improper rings were accepted under the even-odd rule, or count the rows that were skipped, and
/// name rows of layers with such rings.
pub fn run_command<
    R: RandomSource + AllocGlobal + Threads + Wait + Sync,
    I: Inputs + Outputs,
    O: Sink,
    E: Sink,
>(rt: &R, files: &mut I, command: &Command<'_>, output: &mut O, errors: &mut E) -> u8
    requires output { O.has_failed output.old ≡ false }
    requires errors { E.has_failed errors.old ≡ false }
    // where it is known what lies at the paths, the command writes what its run promises of those
    // bytes, of boxes or of any geometry as the command says, and `relate --geometry any` the
    // letters of the matrix of the geometries that the two texts spell, or the fault of the first
    // that spells none; `NoFile` comes exactly for the first path that can't be opened; other
    // faults come where its run allows them over these bytes; the status is 0 exactly where all was
    // written and flushed, with a line for each geometry of `relate` whose improper rings were
    // taken by the even-odd rule, or the line that counts the rows skipped of both files where
    // their list is asked for, and then one line for each layer, left, right or lone, that has rows
    // with improper rings by the even-odd rule: how many, and the numbers of the first five; no
    // other line, and otherwise 1 with the line of the fault. Where the list is asked for, it is
    // stored, once, before the output is written: after success, and after `Write`, the file at its
    // path has exactly the rows of the files that are at fault only for their geometry; after every
    // other fault nothing is stored. With `--workers auto` all of this is the same as with any
    // number of workers
    ensures { CommandIsDone (I.files files.old) (I.stored files.old) (I.stored files.new)
        O.written O.is_flushed O.has_failed output.old output.new
        E.written E.has_failed errors.old errors.new command.now result }
{
    let mut notes = Notes::none(rt.alloc());
    match execute(rt, files, command, output, &mut notes) {
        Ok(()) => {
            tell(&notes, errors);
            0
        }
        Err(fault) => {
            // If standard error fails too, only the status is left to report the fault.
            let _ = fault_line(&fault, errors);
            FAILED
        }
    }
}

/// Executes a command, and records what there is to say of it.
fn execute<R: RandomSource + AllocGlobal + Threads + Wait + Sync, I: Inputs + Outputs, O: Sink>(
    rt: &R,
    files: &mut I,
    command: &Command<'_>,
    output: &mut O,
    notes: &mut Notes,
) -> Result<(), RunFault>
    requires output { O.has_failed output.old ≡ false }
    requires none { AreNoNotes notes.old }
    ensures ends { CommandEnds (I.files files.old) O.written O.is_flushed O.has_failed
        command.now output.old output.new result }
    ensures skips { (rows : SkippedLists) × SkipEnds (I.files files.old) command.now
        (I.stored files.old) (I.stored files.new) rows result
        × OnOk result (AreNotes (I.files files.old) command.now rows notes.new) }
{
    match command {
        Command::Relate(request) => {
            execute_relate(rt.alloc(), request, output, &mut notes.improper)
        }
        Command::Join(join) => {
            let improper = &mut notes.rows.layers;
            let request = PairRequest::Join(*join);
            execute_pairs(rt, files, &request, output, &mut notes.skipped, improper)
        }
        Command::Near(near) => {
            let improper = &mut notes.rows.layers;
            let request = PairRequest::Near(*near);
            execute_pairs(rt, files, &request, output, &mut notes.skipped, improper)
        }
        Command::Nearest(nearest) => {
            let improper = &mut notes.rows.layers;
            let request = PairRequest::Nearest(*nearest);
            execute_pairs(rt, files, &request, output, &mut notes.skipped, improper)
        }
        Command::Window { layer, wkt } => {
            execute_window(rt, files, layer, wkt, output, &mut notes.rows.layer)
        }
        Command::Stats(layer) => execute_stats(rt, files, layer, output, &mut notes.rows.layer),
        Command::Bounds(layer) => execute_bounds(rt, files, layer, output, &mut notes.rows.layer),
    }
}
