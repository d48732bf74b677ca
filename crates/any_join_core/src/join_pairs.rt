//! The join of two layers of any geometry for the pairs alone.

ghost use Rattle.std.specs.Prelude.{IfOk, IfErr};
ghost use Rattle.relation_core.specs.declared.relation.Relation.TheVariants as relations;
ghost use Rattle.pair_core.specs.Options.{batch_of, cut_of};
ghost use Rattle.parallel_core.specs.Faults.{IsWant};
ghost use Rattle.filter_core.specs.Joins.{StandIn, IsJoinList, HasMarks};
ghost use Rattle.refine_core.specs.Refinements.{pairs_of};
ghost use Rattle.any_join_core.specs.Matches.{AreRelated, BoxesMeet};

use crate::outcome::AnyOutcome;
use crate::pairs::RelatedPairs;
use any_geometry_core::AnyGeometry;
use any_relation_core::AnyRelation;
use filter_core::meeting_layers;
use layer_core::Layer;
use pair_core::Options;
use parallel_core::JoinFault;
use refine_core::refine_pairs;
use std::sync::Wait;
use std::thread::Threads;

/// The pairs of numbers of the left and right features that stand in the relation, in order, as
/// [`join_any`](crate::join_any) finds them, but without their matrices: of each only as much is
/// computed as tells whether the pair stands in the relation, which takes less time.
///
/// # Errors
/// `Memory` if an allocation fails, and `NoThread` if a worker's thread can't be started.
pub fn join_any_pairs<R: AllocGlobal + Threads + Wait + Sync>(
    rt: &R,
    left: &Layer<AnyGeometry>,
    right: &Layer<AnyGeometry>,
    relation: &AnyRelation,
    options: &Options,
) -> Result<AnyOutcome<()>, JoinFault>
    // over every schedule, as of `join_any`
    ensures pairs { let related = StandIn (AreRelated relation.now) left.now.list right.now.list in
        IfOk result (λ outcome. IsJoinList related (pairs_of outcome.matches.items)) }
    ensures candidates { let meet = StandIn BoxesMeet left.now.list right.now.list in
        IfOk result (λ outcome. IsJoinList meet outcome.candidates.pairs) }
    ensures marks { let cut = cut_of options.now in let size = batch_of options.now in
        IfOk result (λ outcome. HasMarks relations.Intersects left.now.root right.now.root cut size
        outcome.candidates) }
    ensures err { IfErr result IsWant }
{
    let candidates = meeting_layers(rt, left, right, options)?;
    let (alloc, workers) = (rt.alloc(), options.workers());
    let condition = RelatedPairs::new(alloc, left, right, candidates.pairs(), relation)?;
    let matches = refine_pairs(rt, alloc, &condition, candidates.pairs(), workers)?;
    Ok(AnyOutcome {
        candidates,
        matches,
    })
}
