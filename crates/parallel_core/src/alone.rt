//! The only worker of a join, which works on the caller's thread and offers what it finds to the
//! collector itself.

ghost use Rattle.std.specs.Prelude.{◌≡◌, ◌<◌, ◌∷◌, [], IfOk, length};
ghost use Rattle.relation_core.specs.JoinRelations.{relation_of};
ghost use Rattle.deliver_core.specs.Scripts.{script, body_content};
ghost use Rattle.parallel_core.specs.Offers.{HasOffered, Offers};

use crate::fused_collector::FusedCollector;
use crate::rows::Rows;
use deliver_core::{Body, Message};
use relation_core::JoinRelation;
use std::alloc::{AllocError, Global};

/// Processes the tasks in the order of their numbers, and offers the script of each to a collector.
pub(crate) fn offer_all<P: Rows>(
    alloc: Global,
    rows: &P,
    relation: &JoinRelation,
    batch: u32,
) -> Result<FusedCollector, AllocError>
    requires batch { 0 < batch }
    ensures tasks { IfOk result (λ it. it.collector.tasks ≡ length (P.tasks rows.now)) }
    ensures offered { let plan = P.tasks rows.now in
        IfOk result (HasOffered (relation_of relation.now) plan batch (length plan)) }
{
    let tasks = rows.len();
    let mut fused = FusedCollector::new(alloc, tasks)?;
    for task in 0..tasks {
        let row = rows.row_of(alloc, task, relation)?;
        offer_script(alloc, &mut fused, task, &row, batch)?;
    }
    Ok(fused)
}

/// Offers the script of a task: its row in batches of this size, the last of which is what is left,
/// and then the end.
fn offer_script(
    alloc: Global,
    fused: &mut FusedCollector,
    task: u32,
    row: &[(u32, u32)],
    batch: u32,
) -> Result<(), AllocError>
    requires batch { 0 < batch }
    ensures { IfOk result (λ _. Offers (script task batch row.now) fused.old fused.new) }
{
    let mut number = 0;
    for piece in row.chunks(batch as usize) {
        let pairs = Vec::from_slice(alloc, piece)?;
        offer(fused, task, Body::Batch(number, pairs));
        number += 1;
    }
    offer(fused, task, Body::End(number));
    Ok(())
}

/// Offers a message of a task.
fn offer(fused: &mut FusedCollector, task: u32, body: Body)
    ensures { Offers (body_content task body ∷ []) fused.old fused.new }
{
    fused.take_in(Message {
        port: 0,
        task,
        body,
    });
}
