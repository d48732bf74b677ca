//! Joins of two files of layers after a file of edits.

ghost use Rattle.layer_core.specs.Edits.{both};
ghost use Rattle.join_core.specs.Products.{join_making};
ghost use Rattle.run_core.specs.EditedLayers.{files_by};
ghost use Rattle.run_core.specs.Marks.{marked_lists};
ghost use Rattle.run_core.specs.SourceStates.{AreFresh, HasFailed};
ghost use Rattle.run_core.specs.TextRuns.{IsMade, MakesText};

use crate::any_product::any_product;
use crate::box_product::box_product;
use crate::job::JoinJob;
use crate::output::can_be_made;
use crate::relation::{LayersRelation, RelatedLayers};
use file_core::{LayerReader, Unreadable};
use format_core::Format;
use layer_core::{Geometry, Layer};
use pair_core::{Options, Product};
use row_core::Source;
use run_core::{JoinSources, JoinText, MarkedRows, Marks, RunFault, Text, load};
use std::hash::RandomState;
use std::sync::Wait;
use std::thread::Threads;

/// The product of a join of two layers as text, and the rows that were skipped, where `unreadable`
/// is [`Unreadable::Skip`]. `states` hash the ids of the two layers, which are read and edited as
/// by [`load`]. `marked` becomes the rows of the files whose geometries the job marks.
///
/// # Errors
/// The first fault of the files and the edits, as there. If a picture is asked for and the edited
/// layers have more than `MAX_DRAWN` features together, they aren't joined, and the fault is
/// `TooManyToDraw`. After these, lack of memory or of threads.
pub fn join_text<R, G, F, M, C, A, B, E>(
    rt: &R,
    job: &JoinJob<F, M, C>,
    unreadable: Unreadable,
    states: (RandomState, RandomState),
    sources: &mut JoinSources<A, B, E>,
    marked: &mut MarkedRows,
) -> Result<JoinText, RunFault>
where
    R: AllocGlobal + Threads + Wait + Sync,
    G: Geometry + Send,
    F: Format<Geometry = G>,
    M: Marks<G>,
    C: LayersRelation<G>,
    A: Source,
    B: Source,
    E: Source,
    requires { AreFresh A.has_failed B.has_failed E.has_failed sources.old }
    // of boxes or of any geometry, read by the job's format: by `MakesText`, what the job asks for:
    // the report of the edited layers' pairs or of the first pair of each left feature, with their
    // matrices or of the pairs alone; the number of each left feature's pairs; the left features
    // that are in none; or the picture of the pairs, which no layers have that have more than
    // 100,000 features. The pairs are those that stand in the job's relation: of boxes by cells; of
    // any geometry by points of the plane, and only of geometries whose rings the relation takes;
    // the letters are those of the matrix by which they stand in it
    ensures { let job = job.now in let reads = F.reads job.format in
        let files = files_by unreadable reads A.remaining B.remaining E.remaining sources.old in
        MakesText (join_making job.product (C.joining job.relation)) (M.is_marked job.marks) files
        (HasFailed A.has_failed B.has_failed E.has_failed sources.new) (marked_lists marked.new)
        result }
{
    let workers = job.options.workers();
    let reader = LayerReader {
        rt,
        alloc: rt.alloc(),
        format: job.format,
        threads: workers,
    };
    let loaded = load(&reader, &job.marks, unreadable, states, sources, marked)?;
    let (left, right) = &loaded.layers;
    let text = product(rt, job.product, &job.options, &job.relation, left, right);
    loaded.finish(rt, workers, text)
}

/// The product of two layers.
fn product<R: AllocGlobal + Threads + Wait + Sync, G: Geometry, C: LayersRelation<G>>(
    rt: &R,
    product: Product,
    options: &Options,
    relation: &C,
    left: &Layer<G>,
    right: &Layer<G>,
) -> Result<Text, RunFault>
    ensures { let layers = both left.now.list right.now.list in
        IsMade (join_making product (C.joining relation.now)) layers result }
{
    if !can_be_made(product, left, right) {
        return Err(RunFault::TooManyToDraw);
    }
    match relation.of_layers(left, right) {
        RelatedLayers::Boxes(relation, left, right) => {
            box_product(rt, product, options, relation, left, right)
        }
        RelatedLayers::Any(relation, left, right) => {
            any_product(rt, product, options, relation, left, right)
        }
    }
}
