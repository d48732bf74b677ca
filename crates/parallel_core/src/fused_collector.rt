//! A fused collector: after its first refusal it is offered no further message.

ghost use Rattle.std.specs.Prelude.{◌≡◌, List, [], ◌∷◌, ◌++◌, true, false, IsOk, IsPermutation};
ghost use Rattle.std.specs.Prelude.{IsSorted, IfOk, IfErr};
ghost use Rattle.pair_core.specs.Pairs.{pair_cmp};
ghost use Rattle.deliver_core.specs.Marks.{IsClosed, IsLegalHistory};
ghost use Rattle.deliver_core.specs.Scripts.{Content, content_of};
ghost use Rattle.parallel_core.specs.Faults.{fault_of};
ghost use Rattle.parallel_core.specs.FusedCollectors.{HasTakenIn};

use crate::fault::JoinFault;
use deliver_core::{Collector, Message, Outcome, Refusal};
use std::alloc::{AllocError, Global};
use std::thread::Threads;

/// A collector and its first refusal, if any.
#[derive(Drop)]
pub(crate) struct FusedCollector {
    collector: Collector,
    accepted: Result<(), Refusal>,
}

impl FusedCollector {
    /// A fused collector of `tasks` tasks.
    pub(crate) fn new(alloc: Global, tasks: u32) -> Result<FusedCollector, AllocError>
        ensures tasks { IfOk result (λ it. it.collector.tasks ≡ tasks) }
        ensures empty { IfOk result (λ it. HasTakenIn [] it.collector it.accepted) }
    {
        Ok(FusedCollector {
            collector: Collector::new(alloc, tasks)?,
            accepted: Ok(()),
        })
    }

    /// Offers a message to the collector, or drops it if a message was refused before.
    #[tactic(auto, using(crate::proofs::TakingIn::not_ok))]
    pub(crate) fn take_in(&mut self, message: Message)
        ensures tasks { self.new.collector.tasks ≡ self.old.collector.tasks }
        ensures more { (contents : List Content)
            → HasTakenIn contents self.old.collector self.old.accepted
            → let next = content_of message ∷ [] in
            HasTakenIn (contents ++ next) self.new.collector self.new.accepted }
    {
        if self.accepted.is_ok() {
            self.accepted = self.collector.offer(message);
        }
    }

    /// The outcome, or the reason that there is none: the first refusal, a worker out of memory, or
    /// a task without an end. With more than one worker, threads share the sort of the pairs.
    pub(crate) fn finish<R: Threads + Sync>(
        self,
        rt: &R,
        workers: u32,
        ok: bool,
    ) -> Result<Outcome, JoinFault>
        ensures refused { IfErr self.accepted (λ r. result ≡ Err (fault_of r)) }
        ensures want { IsOk self.accepted → ok ≡ false → result ≡ Err JoinFault.Memory }
        ensures closed { IsOk self.accepted → ok ≡ true
            → IsClosed self.collector.tasks self.collector.marks → IsOk result }
        ensures all { IfOk result (λ outcome. IsOk self.accepted × (ok ≡ true)
            × (outcome.marks ≡ self.collector.marks)
            × IsLegalHistory self.collector.tasks outcome.marks) }
        ensures pairs { IfOk result (λ outcome. IsSorted pair_cmp outcome.pairs
            × IsPermutation self.collector.pairs outcome.pairs) }
    {
        self.accepted?;
        if !ok {
            return Err(JoinFault::Memory);
        }
        let finished = if workers > 1 {
            self.collector.finish_by_threads(rt)
        } else {
            self.collector.finish()
        };
        Ok(finished?)
    }
}
