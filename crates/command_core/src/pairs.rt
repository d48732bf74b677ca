//! Commands that find pairs of features of two layers, after a file of edits.

ghost use Rattle.std.specs.Prelude.{◌≡◌, false, OnOk};
ghost use Rattle.run_core.specs.EditedLayers.{SkippedLists};
ghost use Rattle.run_core.specs.Marks.{marked_lists};
ghost use Rattle.run_core.specs.SourceStates.{AreFresh};
ghost use Rattle.command_core.specs.Asked.{MakesAsked, known_bytes};
ghost use Rattle.command_core.specs.Commands.{CommandEnds};
ghost use Rattle.command_core.specs.ImproperRows.{AskedRows};
ghost use Rattle.command_core.specs.Requests.{asks, command_of};
ghost use Rattle.command_core.specs.Skipping.{SkipEnds, counts_for, skip_of};

use crate::inputs::Inputs;
use crate::joining::join_request_text;
use crate::near::near_request_text;
use crate::nearest::nearest_request_text;
use crate::notes::SkippedCounts;
use crate::opening::{hash_states, open_sources};
use crate::outputs::Outputs;
use crate::skipping::{counts_for, unreadable_for, write_made};
use file_core::Unreadable;
use report_core::Sink;
use row_core::Source;
use run_core::{JoinSources, JoinText, MarkedRows, RunFault};
use std::hash::RandomState;
use std::random::RandomSource;
use std::sync::Wait;
use std::thread::Threads;
use words_core::{JoinRequest, LayerPaths, NearRequest, NearestRequest};

/// A command that finds pairs of features of two layers.
#[derive(Clone, Copy)]
pub enum PairRequest<'a> {
    /// Those that stand in a relation.
    Join(JoinRequest<'a>),
    /// Those that are at most a distance apart.
    Near(NearRequest<'a>),
    /// Those of each left feature with the right ones that are nearest to it.
    Nearest(NearestRequest<'a>),
}

impl<'a> PairRequest<'a> {
    ghost use Rattle.std.specs.Prelude.{◌≡◌};
    ghost use Rattle.command_core.specs.Requests.{asks};

    /// The paths of the files.
    fn paths(&self) -> LayerPaths<'a>
        ensures { result ≡ (asks self.now).paths }
    {
        match self {
            PairRequest::Join(join) => join.paths,
            PairRequest::Near(near) => near.paths,
            PairRequest::Nearest(nearest) => nearest.paths,
        }
    }
}

/// Writes what is made of the pairs, and before it the list of the rows that were skipped, whose
/// numbers are recorded, if it is asked for. Records the rows with improper rings.
pub fn execute_pairs<
    R: RandomSource + AllocGlobal + Threads + Wait + Sync,
    I: Inputs + Outputs,
    O: Sink,
>(
    rt: &R,
    files: &mut I,
    request: &PairRequest<'_>,
    output: &mut O,
    skipped: &mut Option<SkippedCounts>,
    improper: &mut MarkedRows,
) -> Result<(), RunFault>
    requires { O.has_failed output.old ≡ false }
    ensures ends { CommandEnds (I.files files.old) O.written O.is_flushed O.has_failed
        (command_of request.now) output.old output.new result }
    ensures skips { (rows : SkippedLists) × SkipEnds (I.files files.old) (command_of request.now)
        (I.stored files.old) (I.stored files.new) rows result
        × OnOk result (skipped.new ≡ counts_for (skip_of (command_of request.now)) rows) }
    ensures rows { let asked = asks request.now in
        let bytes = known_bytes (I.files files.old) asked.paths in
        OnOk result (AskedRows asked bytes (marked_lists improper.new)) }
{
    let paths = request.paths();
    let mut sources = open_sources(files, &paths)?;
    let states = hash_states(rt)?;
    let unreadable = unreadable_for(paths.skip);
    let made = request_text(rt, request, unreadable, states, &mut sources, improper)?;
    *skipped = counts_for(&made.skipped, paths.skip);
    write_made(rt.alloc(), &made, paths.skip, files, output)
}

/// What is made of the pairs of opened files, and the rows that were skipped, where `unreadable` is
/// [`Unreadable::Skip`]. `states` hash the ids of the two layers.
fn request_text<R: AllocGlobal + Threads + Wait + Sync, F: Source>(
    rt: &R,
    request: &PairRequest<'_>,
    unreadable: Unreadable,
    states: (RandomState, RandomState),
    sources: &mut JoinSources<F, F, F>,
    improper: &mut MarkedRows,
) -> Result<JoinText, RunFault>
    requires { AreFresh F.has_failed F.has_failed F.has_failed sources.old }
    ensures { MakesAsked (asks request.now) unreadable F.remaining F.has_failed sources.old
        sources.new (marked_lists improper.new) result }
{
    match request {
        PairRequest::Join(join) => {
            join_request_text(rt, join, unreadable, states, sources, improper)
        }
        PairRequest::Near(near) => {
            near_request_text(rt, near, unreadable, states, sources, improper)
        }
        PairRequest::Nearest(nearest) => {
            nearest_request_text(rt, nearest, unreadable, states, sources, improper)
        }
    }
}
