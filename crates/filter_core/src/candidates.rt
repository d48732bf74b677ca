//! The pairs of two layers whose boxes meet, which a refinement decides by the geometries.

ghost use Rattle.std.specs.Prelude.{◌≡◌, IfOk, IfErr};
ghost use Rattle.relation_core.specs.JoinRelations.{relation_of};
ghost use Rattle.relation_core.specs.declared.relation.Relation.TheVariants as relations;
ghost use Rattle.pair_core.specs.Options.{batch_of, cut_of};
ghost use Rattle.parallel_core.specs.Faults.{IsWant};
ghost use Rattle.filter_core.specs.Joins.{BoxesMeet, StandIn, IsJoinList, HasMarks};

use crate::pairs::join_layers;
use deliver_core::Outcome;
use layer_core::{Geometry, Layer};
use pair_core::Options;
use parallel_core::JoinFault;
use relation_core::{JoinRelation, Relation};
use std::sync::Wait;
use std::thread::Threads;

/// The pairs of numbers of the left and right features whose boxes meet, in order, with the marks
/// of their delivery, found as by [`join_layers`].
///
/// # Errors
/// `Memory` if an allocation fails, and `NoThread` if a worker's thread can't be started.
#[tactic(auto, using(crate::proofs::MeetingLemmas::meeting_pairs))]
pub fn meeting_layers<R: AllocGlobal + Threads + Wait + Sync, G: Geometry>(
    rt: &R,
    left: &Layer<G>,
    right: &Layer<G>,
    options: &Options,
) -> Result<Outcome, JoinFault>
    // exactly the pairs whose boxes meet, each once, in layer order
    ensures pairs { let meet = StandIn (BoxesMeet G.box_of) left.now.list right.now.list in
        IfOk result (λ outcome. IsJoinList meet outcome.pairs) }
    // as above, by the relation of boxes that meet
    ensures marks { let cut = cut_of options.now in let size = batch_of options.now in
        IfOk result (HasMarks relations.Intersects left.now.root right.now.root cut size) }
    ensures err { IfErr result IsWant }
{
    let relation = meeting();
    join_layers(rt, left, right, &relation, options)
}

/// The relation of boxes that meet.
fn meeting() -> JoinRelation
    ensures { relation_of result ≡ relations.Intersects }
{
    match JoinRelation::new(Relation::Intersects) {
        Ok(relation) => relation,
        Err(_) => unreachable!(),
    }
}
