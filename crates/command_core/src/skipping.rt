//! Writing the output of a join, and before it the list of the rows that were skipped.

ghost use Rattle.std.specs.Prelude.{◌≡◌, ◌≢◌, false, IfErr, OnErr, OnOk};
ghost use Rattle.run_core.specs.EditedLayers.{skipped_lists};
ghost use Rattle.run_core.specs.Runs.{Ends};
ghost use Rattle.run_core.specs.Texts.{bytes_of_text};
ghost use Rattle.command_core.specs.Asked.{unreadable_for};
ghost use Rattle.command_core.specs.Skipping.{IsStoreFault, StoresFirst, StoresList, counts_for};

use crate::notes::{Notes, SkippedCounts};
use crate::outputs::{NotStored, Outputs};
use file_core::Unreadable;
use report_core::Sink;
use run_core::{JoinText, RunFault, SkippedRows, skipped_text};
use std::alloc::Global;

/// What becomes of rows whose geometry can't be read: they are skipped where the list of them is
/// asked for.
pub fn unreadable_for(skip: Option<&str>) -> Unreadable
    ensures { result ≡ unreadable_for skip.entry }
{
    match skip {
        Some(_) => Unreadable::Skip,
        None => Unreadable::Refuse,
    }
}

/// How many rows were skipped, if the list of them is asked for.
pub fn counts_for(rows: &SkippedRows, skip: Option<&str>) -> Option<SkippedCounts>
    ensures { result ≡ counts_for skip.entry (skipped_lists rows.now) }
{
    skip?;
    Some(SkippedCounts {
        left: rows.left.len(),
        right: rows.right.len(),
    })
}

/// Stores the list of skipped rows at its path, if there is one, and then writes the output.
pub fn write_made<W: Outputs, O: Sink>(
    alloc: Global,
    made: &JoinText,
    skip: Option<&str>,
    files: &mut W,
    output: &mut O,
) -> Result<(), RunFault>
    requires { O.has_failed output.old ≡ false }
    ensures writes { Ends (λ text. text ≡ bytes_of_text made.now.text)
        O.written O.is_flushed O.has_failed output.old output.new result }
    ensures stores { StoresFirst skip.entry (W.stored files.old) (W.stored files.new)
        (skipped_lists made.now.skipped) result }
    ensures faults { IfErr result (λ f. f ≢ RunFault.Write → IsStoreFault skip.entry f) }
{
    store_list(alloc, &made.skipped, skip, files)?;
    made.text.write(output)?;
    Ok(())
}

/// Stores the list of skipped rows at its path, if there is one.
fn store_list<W: Outputs>(
    alloc: Global,
    rows: &SkippedRows,
    skip: Option<&str>,
    files: &mut W,
) -> Result<(), RunFault>
    ensures ok { OnOk result (StoresList skip.entry (W.stored files.old) (W.stored files.new)
        (skipped_lists rows.now)) }
    ensures err { IfErr result (IsStoreFault skip.entry) }
    ensures untouched { OnErr result (W.stored files.new ≡ W.stored files.old) }
{
    let Some(path) = skip else {
        return Ok(());
    };
    let text = skipped_text(alloc, rows)?;
    match files.store(path, text.as_slice()) {
        Ok(()) => Ok(()),
        Err(NotStored) => Err(RunFault::NotStored),
    }
}
