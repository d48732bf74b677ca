//! The pairs of two layers whose boxes stand in a relation, by the tasks of a plan of their trees.

ghost use Rattle.std.specs.Prelude.{IfOk, IfErr};
ghost use Rattle.relation_core.specs.JoinRelations.{relation_of};
ghost use Rattle.descent_core.specs.Plans.{IsPlan};
ghost use Rattle.pair_core.specs.Options.{batch_of, cut_of};
ghost use Rattle.parallel_core.specs.Faults.{IsWant};
ghost use Rattle.filter_core.specs.Joins.{BoxesStandIn, StandIn, IsJoinList};
ghost use Rattle.filter_core.specs.Joins.{HasMarks, RowsAreJoinList};

use deliver_core::Outcome;
use descent_core::Plan;
use layer_core::{Geometry, Layer};
use pair_core::Options;
use parallel_core::{Gate, Gated, JoinFault, run_workers};
use relation_core::JoinRelation;
use std::alloc::{AllocError, Global};
use std::sync::Wait;
use std::thread::Threads;

/// The pairs of numbers of the left and right features whose boxes stand in the relation, in order,
/// with the marks of their delivery.
///
/// The trees of the two layers are cut into tasks, to the depth that the options give. Workers draw
/// the tasks and descend the two subtrees of each: one on the caller's thread, several each in a
/// thread of its own. All workers have ended when the call returns.
///
/// # Errors
/// `Memory` if an allocation fails, and `NoThread` if a worker's thread can't be started.
#[tactic(auto, using(crate::proofs::TreeJoinLemmas::delivered))]
pub fn join_layers<R: AllocGlobal + Threads + Wait + Sync, G: Geometry>(
    rt: &R,
    left: &Layer<G>,
    right: &Layer<G>,
    relation: &JoinRelation,
    options: &Options,
) -> Result<Outcome, JoinFault>
    // over every schedule, exactly the pairs of a left and a right feature whose boxes stand in the
    // relation, each once, in layer order, where a box is its own box
    ensures pairs { let boxes = BoxesStandIn G.box_of (relation_of relation.now) in
        let stand = StandIn boxes left.now.list right.now.list in
        IfOk result (λ outcome. IsJoinList stand outcome.pairs) }
    // for the plan of the two trees at that cut, a closed legal history in which each task's marks
    // are those of its script
    ensures marks { let cut = cut_of options.now in let size = batch_of options.now in
        IfOk result (HasMarks (relation_of relation.now) left.now.root right.now.root cut size) }
    // no fault but out of memory or of threads
    ensures err { IfErr result IsWant }
{
    let plan = plan_of(rt.alloc(), left, right, options.cut())?;
    run_workers(rt, &plan, relation, options)
}

/// The same pairs and marks, found by workers that enter a gate with each task that they draw.
///
/// # Errors
/// `Memory` if an allocation fails, and `NoThread` if a worker's thread can't be started.
#[tactic(auto, using(crate::proofs::TreeJoinLemmas::delivered))]
pub fn join<R: AllocGlobal + Threads + Wait + Sync, G: Geometry, D: Gate + Sync>(
    rt: &R,
    left: &Layer<G>,
    right: &Layer<G>,
    relation: &JoinRelation,
    options: &Options,
    gate: &D,
) -> Result<Outcome, JoinFault>
    // as of `join_layers`
    ensures pairs { let boxes = BoxesStandIn G.box_of (relation_of relation.now) in
        let stand = StandIn boxes left.now.list right.now.list in
        IfOk result (λ outcome. IsJoinList stand outcome.pairs) }
    ensures marks { let cut = cut_of options.now in let size = batch_of options.now in
        IfOk result (HasMarks (relation_of relation.now) left.now.root right.now.root cut size) }
    ensures err { IfErr result IsWant }
{
    let plan = plan_of(rt.alloc(), left, right, options.cut())?;
    let rows = Gated {
        rt,
        rows: &plan,
        gate,
    };
    run_workers(rt, &rows, relation, options)
}

/// The tasks of two layers, at this cut.
fn plan_of<'a, G: Geometry>(
    alloc: Global,
    left: &'a Layer<G>,
    right: &'a Layer<G>,
    cut: u8,
) -> Result<Plan<'a>, AllocError>
    ensures plan { IfOk result (IsPlan left.now.root right.now.root cut) }
    ensures rows { IfOk result (RowsAreJoinList G.box_of left.now.list right.now.list) }
{
    // The invariant of a layer says that numbers ascend along it.
    let _lens = (left.len(), right.len());
    let left_tree = left.tree();
    let right_tree = right.tree();
    Plan::new(alloc, left_tree, right_tree, cut)
}
