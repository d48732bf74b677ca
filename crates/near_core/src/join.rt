//! The join of two layers by distance: a filter by grown boxes, and a refinement by the exact
//! distance.

ghost use Rattle.std.specs.Prelude.{All, IfOk, IfErr};
ghost use Rattle.relation_core.specs.declared.relation.Relation.TheVariants as relations;
ghost use Rattle.pair_core.specs.Options.{batch_of, cut_of};
ghost use Rattle.parallel_core.specs.Faults.{IsWant};
ghost use Rattle.filter_core.specs.Joins.{StandIn, IsJoinList, HasMarks};
ghost use Rattle.refine_core.specs.Refinements.{pairs_of};
ghost use Rattle.near_core.specs.Near.{AreWanted, BoxesMeet, HasSquare};

use crate::features::NearFeatures;
use crate::grown::Grown;
use crate::listed::refine_list;
use crate::outcome::NearOutcome;
use distance_core::Nearness;
use filter_core::meeting_layers;
use layer_core::Layer;
use pair_core::Options;
use parallel_core::JoinFault;
use planar_core::Planar;
use std::sync::Wait;
use std::thread::Threads;

/// The pairs of numbers of the left and right features that are near, or near and apart, in order,
/// each with the square of its distance.
///
/// Workers find the pairs whose grown boxes meet. The forms of large geometries that occur in
/// several of these are made, and then workers decide each pair by its two geometries. All workers
/// have ended when the call returns.
///
/// # Errors
/// `Memory` if an allocation fails, and `NoThread` if a worker's thread can't be started.
pub fn near_layers<R, G>(
    rt: &R,
    left: &Layer<Grown<G>>,
    right: &Layer<Grown<G>>,
    nearness: Nearness,
    options: &Options,
) -> Result<NearOutcome<G::Square>, JoinFault>
where
    R: AllocGlobal + Threads + Wait + Sync,
    G: Planar + Sync,
    G::Form: Sync,
    G::Square: Send + Drop,
    // over every schedule, exactly the pairs of a left and a right feature that are near, or near
    // and apart, as is asked for, each once, in layer order
    ensures pairs { let wanted = StandIn (AreWanted G.has_point nearness) left.now.list
        right.now.list in
        IfOk result (λ outcome. IsJoinList wanted (pairs_of outcome.matches.items)) }
    // each with the squared distance of its two geometries: a whole number for boxes, and a fraction
    // for geometries of any kind
    ensures squares { let square = HasSquare G.Square.fraction G.has_point left.now.list
        right.now.list in
        IfOk result (λ outcome. All square outcome.matches.items) }
    // the filter's delivery, as of `meeting_layers`, of the grown boxes
    ensures candidates { let meet = StandIn (BoxesMeet G.box_of) left.now.list right.now.list in
        IfOk result (λ outcome. IsJoinList meet outcome.candidates.pairs) }
    ensures marks { let cut = cut_of options.now in let size = batch_of options.now in
        IfOk result (λ outcome. HasMarks relations.Intersects left.now.root right.now.root cut size
        outcome.candidates) }
    // no fault but out of memory or of threads
    ensures err { IfErr result IsWant }
{
    let candidates = meeting_layers(rt, left, right, options)?;
    let (alloc, workers) = (rt.alloc(), options.workers());
    let condition = NearFeatures::new(alloc, left, right, candidates.pairs(), nearness)?;
    let matches = refine_list(rt, alloc, &condition, candidates.pairs(), workers)?;
    Ok(NearOutcome {
        candidates,
        matches,
    })
}
