//! Joins of two layers of boxes or of any geometry, after a file of edits.

ghost use Rattle.run_core.specs.Marks.{marked_lists};
ghost use Rattle.run_core.specs.SourceStates.{AreFresh};
ghost use Rattle.command_core.specs.Asked.{MakesAsked};
ghost use Rattle.command_core.specs.Requests.{join_asks};

use crate::workers::options_for;
use file_core::Unreadable;
use format_core::AnyFormat;
use join_core::{JoinJob, join_text};
use row_core::Source;
use run_core::{ImproperRings, JoinSources, JoinText, MarkedRows, RunFault, Unmarked};
use std::hash::RandomState;
use std::sync::Wait;
use std::thread::Threads;
use words_core::{Condition, JoinRequest};

/// The report or the picture of a join of opened files, and the rows that were skipped, where
/// `unreadable` is [`Unreadable::Skip`]. `states` hash the ids of the two layers.
pub fn join_request_text<R: AllocGlobal + Threads + Wait + Sync, F: Source>(
    rt: &R,
    join: &JoinRequest<'_>,
    unreadable: Unreadable,
    states: (RandomState, RandomState),
    sources: &mut JoinSources<F, F, F>,
    improper: &mut MarkedRows,
) -> Result<JoinText, RunFault>
    requires { AreFresh F.has_failed F.has_failed F.has_failed sources.old }
    ensures { MakesAsked (join_asks join.now) unreadable F.remaining F.has_failed sources.old
        sources.new (marked_lists improper.new) result }
{
    let JoinRequest { scale, product, .. } = *join;
    let options = options_for(rt, join.options, join.workers);
    match join.condition {
        Condition::Boxes(relation) => {
            let job = JoinJob {
                format: scale,
                marks: Unmarked,
                relation,
                options,
                product,
            };
            join_text(rt, &job, unreadable, states, sources, improper)
        }
        Condition::Any(relation) => {
            let rings = relation.rings();
            let job = JoinJob {
                format: AnyFormat { scale, rings },
                marks: ImproperRings { rings },
                relation,
                options,
                product,
            };
            join_text(rt, &job, unreadable, states, sources, improper)
        }
    }
}
