//! Joins of two files of layers by distance, after a file of edits.

ghost use Rattle.std.specs.Prelude.{IfOk, IfErr};
ghost use Rattle.layer_core.specs.Edits.{both};
ghost use Rattle.near_core.specs.Formats.{ReadsGrown};
ghost use Rattle.run_core.specs.EditedLayers.{IsLateFault, files_by};
ghost use Rattle.run_core.specs.Marks.{marked_lists};
ghost use Rattle.run_core.specs.SourceStates.{AreFresh, HasFailed};
ghost use Rattle.run_core.specs.TextRuns.{MakesText, texts_of_all};
ghost use Rattle.run_core.specs.Texts.{bytes_of_text};
ghost use Rattle.near_run_core.specs.NearRuns.{IsNearReport, IsGrownMarked};

use crate::distance_field::GrownDistanceField;
use crate::grown_marks::GrownMarks;
use crate::job::NearJob;
use file_core::{LayerReader, Unreadable};
use filter_core::meeting_layers;
use format_core::Format;
use layer_core::Layer;
use near_core::{Grown, GrownFormat, NearFeatures, Planar};
use report_core::{RefiningForm, report_refining};
use row_core::Source;
use run_core::{JoinSources, JoinText, MarkedRows, Marks, RunFault, Text, load};
use std::hash::RandomState;
use std::sync::Wait;
use std::thread::Threads;

/// How the geometries of a join by distance, or of a search for the nearest, are read, and which of
/// them are marked.
#[derive(Clone, Copy)]
pub struct NearForm<F, M> {
    pub format: F,
    pub marks: M,
}

/// The report of a join of two layers by distance as text, after the edits of both, and the rows
/// that were skipped, where `unreadable` is [`Unreadable::Skip`]: a CSV record
/// `left,right,distance`, and then a record for each pair of features whose geometries are at most
/// the job's distance apart, or that also share no point, in layer order. The distance is that of
/// the two geometries, rounded to the nearest unit of the scale, and half a unit up. `marked`
/// becomes the rows of the files whose geometries have the property of the form.
///
/// `states` hash the ids of the two layers, which are read and edited as by [`load`].
///
/// # Errors
/// The first fault of the files and the edits, as there. After these, lack of memory or of threads.
pub fn near_text<R, G, F, M, A, B, E>(
    rt: &R,
    job: &NearJob,
    form: NearForm<F, M>,
    unreadable: Unreadable,
    states: (RandomState, RandomState),
    sources: &mut JoinSources<A, B, E>,
    marked: &mut MarkedRows,
) -> Result<JoinText, RunFault>
where
    R: AllocGlobal + Threads + Wait + Sync,
    G: Planar + Send + Sync,
    G::Form: Sync,
    G::Square: Send + Drop,
    F: Format<Geometry = G>,
    M: Marks<G> + Copy,
    A: Source,
    B: Source,
    E: Source,
    requires { AreFresh A.has_failed B.has_failed E.has_failed sources.old }
    // of geometries that are read by the form's format, with the job's distance: by `MakesText`,
    // the report of exactly the pairs of the edited layers' features that are near, or near and
    // apart, as the job asks, each once, in layer order, with `left,right,distance` in place of
    // `left,right,matrix`. The last field is the root of the squared distance of the two
    // geometries, a fraction, rounded to the nearest unit of the job's scale and half a unit up,
    // and printed as coordinates are at that scale
    ensures { let job = job.now in let reads = ReadsGrown (F.reads form.format) job.distance in
        let files = files_by unreadable reads A.remaining B.remaining E.remaining sources.old in
        MakesText (texts_of_all (IsNearReport G.has_point job.nearness job.scale))
        (IsGrownMarked (M.is_marked form.marks)) files
        (HasFailed A.has_failed B.has_failed E.has_failed sources.new) (marked_lists marked.new)
        result }
{
    let workers = job.options.workers();
    let reader = LayerReader {
        rt,
        alloc: rt.alloc(),
        format: GrownFormat {
            format: form.format,
            distance: job.distance,
        },
        threads: workers,
    };
    let marks = GrownMarks { marks: form.marks };
    let loaded = load(&reader, &marks, unreadable, states, sources, marked)?;
    let (left, right) = &loaded.layers;
    let text = report(rt, job, left, right);
    loaded.finish(rt, workers, text)
}

/// The report of two layers.
fn report<R, G>(
    rt: &R,
    job: &NearJob,
    left: &Layer<Grown<G>>,
    right: &Layer<Grown<G>>,
) -> Result<Text, RunFault>
where
    R: AllocGlobal + Threads + Wait + Sync,
    G: Planar + Sync,
    G::Form: Sync,
    G::Square: Send + Drop,
    ensures ok { let is = IsNearReport G.has_point job.now.nearness job.now.scale in
        let layers = both left.now.list right.now.list in
        IfOk result (λ text. is layers (bytes_of_text text)) }
    ensures err { IfErr result IsLateFault }
{
    let candidates = meeting_layers(rt, left, right, &job.options)?;
    let pairs = candidates.pairs();
    let condition = NearFeatures::new(rt.alloc(), left, right, pairs, job.nearness)?;
    let field = GrownDistanceField { scale: job.scale };
    let form = RefiningForm {
        condition: &condition,
        field: &field,
        workers: job.options.workers(),
    };
    let texts = report_refining(rt, &form, left, right, pairs)?;
    Ok(Text::Report(texts))
}
