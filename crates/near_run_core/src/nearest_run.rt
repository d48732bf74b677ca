//! Searches for the nearest features of two files of layers, after a file of edits.

ghost use Rattle.std.specs.Prelude.{IfOk, IfErr};
ghost use Rattle.layer_core.specs.Edits.{both};
ghost use Rattle.run_core.specs.EditedLayers.{IsLateFault, files_by};
ghost use Rattle.run_core.specs.Marks.{marked_lists};
ghost use Rattle.run_core.specs.SourceStates.{AreFresh, HasFailed};
ghost use Rattle.run_core.specs.TextRuns.{MakesText, texts_of_all};
ghost use Rattle.run_core.specs.Texts.{bytes_of_text};
ghost use Rattle.near_run_core.specs.NearestRuns.{IsNearestReport};

use crate::distance_field::DistanceField;
use crate::job::NearestJob;
use crate::run::NearForm;
use file_core::{LayerReader, Unreadable};
use format_core::Format;
use layer_core::Layer;
use near_core::Planar;
use nearest_core::nearest_layers;
use report_core::{ReportForm, report_by};
use row_core::Source;
use run_core::{JoinSources, JoinText, MarkedRows, Marks, RunFault, Text, load};
use std::hash::RandomState;
use std::sync::Wait;
use std::thread::Threads;

/// The report of the nearest features of two layers as text, after the edits of both, and the rows
/// that were skipped, where `unreadable` is [`Unreadable::Skip`]: a CSV record
/// `left,right,distance`, and then for each left feature one record for each of the right ones that
/// are nearest to it, as the job's query asks for them. The records are in the order of the left
/// layer, then by distance, and then in the order of the right layer. The distance is that of the
/// two geometries, rounded to the nearest unit of the scale, and half a unit up. `marked` becomes
/// the rows of the files whose geometries have the property of the form.
///
/// `states` hash the ids of the two layers, which are read and edited as by [`load`].
///
/// # Errors
/// The first fault of the files and the edits, as there. After these, lack of memory or of threads.
pub fn nearest_text<R, G, F, M, A, B, E>(
    rt: &R,
    job: &NearestJob,
    form: NearForm<F, M>,
    unreadable: Unreadable,
    states: (RandomState, RandomState),
    sources: &mut JoinSources<A, B, E>,
    marked: &mut MarkedRows,
) -> Result<JoinText, RunFault>
where
    R: AllocGlobal + Threads + Wait + Sync,
    G: Planar + Send + Sync,
    G::Form: Sync,
    G::Square: Send + Sync + Drop,
    F: Format<Geometry = G>,
    M: Marks<G> + Copy,
    A: Source,
    B: Source,
    E: Source,
    requires { AreFresh A.has_failed B.has_failed E.has_failed sources.old }
    // of geometries that are read by the form's format: by `MakesText`, the report, for each left
    // feature of the edited layers, in layer order, of exactly its pairs with the right ones that
    // the job's query asks for, each once, the nearest first and then in the order of the right
    // layer. The columns and the last field are as `near_text` writes them
    ensures { let job = job.now in let reads = F.reads form.format in
        let files = files_by unreadable reads A.remaining B.remaining E.remaining sources.old in
        MakesText (texts_of_all (IsNearestReport G.Square.fraction G.has_point job.query job.scale))
        (M.is_marked form.marks) files
        (HasFailed A.has_failed B.has_failed E.has_failed sources.new) (marked_lists marked.new)
        result }
{
    let workers = job.options.workers();
    let reader = LayerReader {
        rt,
        alloc: rt.alloc(),
        format: form.format,
        threads: workers,
    };
    let loaded = load(&reader, &form.marks, unreadable, states, sources, marked)?;
    let (left, right) = &loaded.layers;
    let text = report(rt, job, left, right);
    loaded.finish(rt, workers, text)
}

/// The report of two layers.
fn report<R, G>(
    rt: &R,
    job: &NearestJob,
    left: &Layer<G>,
    right: &Layer<G>,
) -> Result<Text, RunFault>
where
    R: AllocGlobal + Threads + Wait + Sync,
    G: Planar + Sync,
    G::Form: Sync,
    G::Square: Send + Sync + Drop,
    ensures ok { let is = IsNearestReport G.Square.fraction G.has_point job.now.query
        job.now.scale in
        let layers = both left.now.list right.now.list in
        IfOk result (λ text. is layers (bytes_of_text text)) }
    ensures err { IfErr result IsLateFault }
{
    let workers = job.options.workers();
    // The numbers of a layer's features are distinct, as its length's contract says.
    let _left = left.len();
    let matches = nearest_layers(rt, left, right, &job.query, workers)?;
    let field = DistanceField { scale: job.scale };
    let form = ReportForm {
        field: &field,
        workers,
    };
    let texts = report_by(rt, &form, left, right, matches.as_slice())?;
    Ok(Text::Report(texts))
}
