//! Searches for the nearest features of two layers of boxes or of any geometry, after a file of
//! edits.

ghost use Rattle.run_core.specs.Marks.{marked_lists};
ghost use Rattle.run_core.specs.SourceStates.{AreFresh};
ghost use Rattle.command_core.specs.Asked.{MakesAsked};
ghost use Rattle.command_core.specs.Requests.{nearest_asks};

use crate::workers::options_for;
use file_core::Unreadable;
use format_core::AnyFormat;
use near_run_core::{NearForm, NearestJob, nearest_text};
use row_core::Source;
use run_core::{ImproperRings, JoinSources, JoinText, MarkedRows, RunFault, Unmarked};
use std::hash::RandomState;
use std::sync::Wait;
use std::thread::Threads;
use words_core::{Geometries, NearestRequest};

/// The report of the nearest features of opened files, and the rows that were skipped, where
/// `unreadable` is [`Unreadable::Skip`]. `states` hash the ids of the two layers.
pub fn nearest_request_text<R: AllocGlobal + Threads + Wait + Sync, F: Source>(
    rt: &R,
    nearest: &NearestRequest<'_>,
    unreadable: Unreadable,
    states: (RandomState, RandomState),
    sources: &mut JoinSources<F, F, F>,
    improper: &mut MarkedRows,
) -> Result<JoinText, RunFault>
    requires { AreFresh F.has_failed F.has_failed F.has_failed sources.old }
    ensures { MakesAsked (nearest_asks nearest.now) unreadable F.remaining F.has_failed sources.old
        sources.new (marked_lists improper.new) result }
{
    let job = NearestJob {
        scale: nearest.scale,
        query: nearest.query,
        options: options_for(rt, nearest.options, nearest.workers),
    };
    match nearest.geometries {
        Geometries::Box => {
            let form = NearForm {
                format: nearest.scale,
                marks: Unmarked,
            };
            nearest_text(rt, &job, form, unreadable, states, sources, improper)
        }
        Geometries::Any(rings) => {
            let format = AnyFormat {
                scale: nearest.scale,
                rings,
            };
            let marks = ImproperRings { rings };
            let form = NearForm { format, marks };
            nearest_text(rt, &job, form, unreadable, states, sources, improper)
        }
    }
}
