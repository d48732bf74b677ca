//! The join of two layers of any geometry: a filter by boxes, and a refinement by matrices.

ghost use Rattle.std.specs.Prelude.{◌≡◌, All, IfOk, IfErr};
ghost use Rattle.relation_core.specs.declared.relation.Relation.TheVariants as relations;
ghost use Rattle.pair_core.specs.Options.{batch_of, cut_of};
ghost use Rattle.parallel_core.specs.Faults.{IsWant};
ghost use Rattle.filter_core.specs.Joins.{StandIn, IsJoinList, HasMarks};
ghost use Rattle.refine_core.specs.Refinements.{pairs_of};
ghost use Rattle.any_join_core.specs.Matches.{AreRelated, BoxesMeet, HasMatrix};

use crate::features::RelatedFeatures;
use crate::outcome::AnyOutcome;
use any_geometry_core::AnyGeometry;
use any_relation_core::AnyRelation;
use filter_core::meeting_layers;
use layer_core::Layer;
use pair_core::Options;
use parallel_core::JoinFault;
use refine_core::refine_pairs;
use relation_core::Matrix;
use std::sync::Wait;
use std::thread::Threads;

/// The pairs of numbers of the left and right features that stand in the relation, in order, each
/// with its matrix.
///
/// Workers find the pairs whose boxes meet. Large geometries that occur in several of these are
/// prepared, and then workers decide each pair by its two geometries. A relation for proper rings
/// holds for no geometry that was read by the even-odd rule. All workers have ended when the call
/// returns.
///
/// # Errors
/// `Memory` if an allocation fails, and `NoThread` if a worker's thread can't be started.
pub fn join_any<R: AllocGlobal + Threads + Wait + Sync>(
    rt: &R,
    left: &Layer<AnyGeometry>,
    right: &Layer<AnyGeometry>,
    relation: &AnyRelation,
    options: &Options,
) -> Result<AnyOutcome<Matrix>, JoinFault>
    // over every schedule, exactly the pairs of a left and a right feature that stand in the
    // relation, each once, in layer order
    ensures pairs { let related = StandIn (AreRelated relation.now) left.now.list right.now.list in
        IfOk result (λ outcome. IsJoinList related (pairs_of outcome.matches.items)) }
    // each with its matrix by points of the plane
    ensures matrices { let matrix = HasMatrix left.now.list right.now.list in
        IfOk result (λ outcome. All matrix outcome.matches.items) }
    // the filter's delivery, as of `meeting_layers`: exactly the pairs whose boxes meet, each once,
    // in layer order
    ensures candidates { let meet = StandIn BoxesMeet left.now.list right.now.list in
        IfOk result (λ outcome. IsJoinList meet outcome.candidates.pairs) }
    ensures marks { let cut = cut_of options.now in let size = batch_of options.now in
        IfOk result (λ outcome. HasMarks relations.Intersects left.now.root right.now.root cut size
        outcome.candidates) }
    // no fault but out of memory or of threads
    ensures err { IfErr result IsWant }
{
    let candidates = meeting_layers(rt, left, right, options)?;
    let (alloc, workers) = (rt.alloc(), options.workers());
    let condition = RelatedFeatures::new(alloc, left, right, candidates.pairs(), relation)?;
    let matches = refine_pairs(rt, alloc, &condition, candidates.pairs(), workers)?;
    Ok(AnyOutcome {
        candidates,
        matches,
    })
}
