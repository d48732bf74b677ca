//! Joins of two layers of boxes or of any geometry by distance, after a file of edits.

ghost use Rattle.run_core.specs.Marks.{marked_lists};
ghost use Rattle.run_core.specs.SourceStates.{AreFresh};
ghost use Rattle.command_core.specs.Asked.{MakesAsked};
ghost use Rattle.command_core.specs.Requests.{near_asks};

use crate::workers::options_for;
use file_core::Unreadable;
use format_core::AnyFormat;
use near_run_core::{NearForm, NearJob, near_text};
use row_core::Source;
use run_core::{ImproperRings, JoinSources, JoinText, MarkedRows, RunFault, Unmarked};
use std::hash::RandomState;
use std::sync::Wait;
use std::thread::Threads;
use words_core::{Geometries, NearRequest};

/// The report of a join of opened files by distance, and the rows that were skipped, where
/// `unreadable` is [`Unreadable::Skip`]. `states` hash the ids of the two layers.
pub fn near_request_text<R: AllocGlobal + Threads + Wait + Sync, F: Source>(
    rt: &R,
    near: &NearRequest<'_>,
    unreadable: Unreadable,
    states: (RandomState, RandomState),
    sources: &mut JoinSources<F, F, F>,
    improper: &mut MarkedRows,
) -> Result<JoinText, RunFault>
    requires { AreFresh F.has_failed F.has_failed F.has_failed sources.old }
    ensures { MakesAsked (near_asks near.now) unreadable F.remaining F.has_failed sources.old
        sources.new (marked_lists improper.new) result }
{
    let job = NearJob {
        scale: near.scale,
        distance: near.distance,
        nearness: near.nearness,
        options: options_for(rt, near.options, near.workers),
    };
    match near.geometries {
        Geometries::Box => {
            let form = NearForm {
                format: near.scale,
                marks: Unmarked,
            };
            near_text(rt, &job, form, unreadable, states, sources, improper)
        }
        Geometries::Any(rings) => {
            let format = AnyFormat {
                scale: near.scale,
                rings,
            };
            let marks = ImproperRings { rings };
            let form = NearForm { format, marks };
            near_text(rt, &job, form, unreadable, states, sources, improper)
        }
    }
}
