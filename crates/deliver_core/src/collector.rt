//! The collector, which accepts each task's batches in order, each once, and then its end, and
//! returns all pairs in ascending order.

ghost use Rattle.std.specs.Prelude.{◌≡◌, ◌↔◌, ◌<◌, [], true, false, length, All, IfOk, IfErr, IsOk};
ghost use Rattle.std.specs.Prelude.{OnOk, OnErr, IsOkUnless, IfSome, IfNone, IsPermutation};
ghost use Rattle.std.specs.Prelude.{IsSorted};
ghost use Rattle.std.specs.List.{AllWithin, HoldsAt};
ghost use Rattle.deliver_core.specs.Marks.{IsLegalHistory, IsClosed};
ghost use Rattle.deliver_core.specs.Scripts.{content_of, batch_of, end_of, IsBye};
ghost use Rattle.deliver_core.specs.Collectors.{awaited, refusal_of, accept, RefusesIllegal};
ghost use Rattle.deliver_core.specs.Collectors.{IsLeastOpen};
ghost use Rattle.pair_core.specs.Pairs.{pair_cmp};

use crate::faults::{Finish, Refusal};
use crate::mark::Mark;
use crate::message::{Body, Message};
use pair_core::{sort_pairs, sort_pairs_by_threads};
use std::alloc::{AllocError, Global};
use std::marker::Model;
use std::thread::Threads;

/// The progress of a task: the number of batches accepted, and whether its end was.
#[derive(Clone, Copy)]
struct Progress {
    next: u64,
    ended: bool,
}

/// Collects the batches of tasks, however the messages of different tasks interleave.
#[derive(Drop)]
pub struct Collector {
    /// By task.
    progress: Vec<Progress>,
    marks: Vec<Mark>,
    pairs: Vec<(u32, u32)>,
}

impl Model for Collector {
    ghost use Rattle.deliver_core.specs.Collectors.{Collection};
    ghost use Rattle.deliver_core.specs.Progress.{Tells};
    ghost use Rattle.std.specs.Prelude.{length};

    ghost Value = { Collection };

    ghost view = { λ c. record {
      tasks = length c.progress.items;
      marks = c.marks.items;
      pairs = c.pairs.items;
    } };

    ghost invariant = { λ c. Tells c.progress.items c.marks.items };
}

impl Collector {
    /// A collector of the tasks 0 to `tasks` - 1, which has accepted nothing.
    pub fn new(alloc: Global, tasks: u32) -> Result<Collector, AllocError>
        ensures { IfOk result (λ c. c ≡ record { tasks = tasks; marks = []; pairs = [] }) }
    {
        let start = Progress {
            next: 0,
            ended: false,
        };
        Ok(Collector {
            progress: vec![in alloc; start; tasks as usize]?,
            marks: Vec::new(alloc),
            pairs: Vec::new(alloc),
        })
    }

    /// The marks of the accepted messages, in the order of acceptance.
    pub fn taken(&self) -> &[Mark]
        // those that were accepted, in order
        ensures marks { result.now ≡ self.now.marks }
        // what was accepted is a legal history at every moment
        ensures history { IsLegalHistory self.now.tasks result.now }
    {
        self.marks.as_slice()
    }

    /// Accepts a message, or refuses and drops it. A refusal changes nothing. `Memory` is returned
    /// only for a message that would be accepted otherwise.
    pub fn offer(&mut self, message: Message) -> Result<(), Refusal>
        // the message's mark and pairs are added at the end
        ensures ok { OnOk result (self.new ≡ accept self.old (content_of message)) }
        // a refusal changes nothing
        ensures err { OnErr result (self.new ≡ self.old) }

        // Which messages are refused, and why. Any other is refused only for lack of memory, and a
        // bye never is.
        // each comes exactly in its order
        ensures refused { IfSome (refusal_of self.old (content_of message))
            (λ refusal. result ≡ Err refusal) }
        // no other but for memory
        ensures accepted { IfNone (refusal_of self.old (content_of message))
            (IsOkUnless result Refusal.Memory) }
        // a bye is never refused
        ensures bye { IsBye (content_of message) → IsOk result }
    {
        let Message {
            port: _,
            task,
            body,
        } = message;
        match body {
            Body::Batch(number, pairs) => self.accept_batch(task, number, pairs),
            Body::End(count) => self.accept_end(task, count),
            Body::Bye(_) => Ok(()),
        }
    }

    /// Returns all pairs in ascending order, or the least task that has no end. It allocates no
    /// memory.
    pub fn finish(self) -> Result<Outcome, Finish>
        // Ok exactly where every task has ended
        ensures closed { IsOk result ↔ IsClosed self.tasks self.marks }
        // otherwise it names the first that hasn't
        ensures least_open { IfErr result (IsLeastOpen self) }

        // The pairs are the accepted ones, with multiplicity, in ascending order.
        // the accepted pairs with multiplicity, ascending
        ensures as_often { IfOk result (λ outcome. IsPermutation self.pairs outcome.pairs) }
        ensures ascending { IfOk result (λ outcome. IsSorted pair_cmp outcome.pairs) }

        // the marks
        ensures marks { IfOk result (λ outcome. outcome.marks ≡ self.marks) }
        ensures history { IfOk result (λ outcome. IsLegalHistory self.tasks outcome.marks) }
    {
        let mut outcome = self.ended()?;
        outcome.sort();
        Ok(outcome)
    }

    /// Does the same as `finish`. Threads share the sort, up to two for each processor.
    pub fn finish_by_threads<R: Threads + Sync>(self, rt: &R) -> Result<Outcome, Finish>
        // as of `Collector::finish`
        ensures closed { IsOk result ↔ IsClosed self.tasks self.marks }
        ensures least_open { IfErr result (IsLeastOpen self) }

        // The pairs are the accepted ones, with multiplicity, in ascending order.
        ensures as_often { IfOk result (λ outcome. IsPermutation self.pairs outcome.pairs) }
        ensures ascending { IfOk result (λ outcome. IsSorted pair_cmp outcome.pairs) }

        ensures marks { IfOk result (λ outcome. outcome.marks ≡ self.marks) }
        ensures history { IfOk result (λ outcome. IsLegalHistory self.tasks outcome.marks) }
    {
        let mut outcome = self.ended()?;
        outcome.sort_by_threads(rt);
        Ok(outcome)
    }

    /// All pairs and marks in the order in which they were accepted, or the least task that has no
    /// end.
    fn ended(self) -> Result<Outcome, Finish>
        ensures closed { IsOk result ↔ IsClosed self.tasks self.marks }
        ensures least_open { IfErr result (IsLeastOpen self) }
        ensures pairs { IfOk result (λ outcome. outcome.pairs ≡ self.pairs) }
        ensures marks { IfOk result (λ outcome. outcome.marks ≡ self.marks) }
        ensures history { IfOk result (λ outcome. IsLegalHistory self.tasks outcome.marks) }
    {
        let Collector {
            progress,
            marks,
            pairs,
        } = self;
        let tasks = progress.as_slice();
        if let Some(task) = first_open(tasks) {
            return Err(Finish::Open(task as u32));
        }
        Ok(Outcome { marks, pairs })
    }

    fn accept_batch(
        &mut self,
        task: u32,
        number: u64,
        mut pairs: Vec<(u32, u32)>,
    ) -> Result<(), Refusal>
        ensures ok { OnOk result (self.new ≡ accept self.old (batch_of task number pairs.items)) }
        ensures err { OnErr result (self.new ≡ self.old) }
        ensures refused { IfSome (refusal_of self.old (batch_of task number pairs.items))
            (λ refusal. result ≡ Err refusal) }
        ensures accepted { IfNone (refusal_of self.old (batch_of task number pairs.items))
            (IsOkUnless result Refusal.Memory) }
    {
        let next = self.awaited(task)?;
        if number < next {
            return Err(Refusal::Double);
        }
        if number > next {
            return Err(Refusal::Gap);
        }
        self.marks.reserve(1)?;
        self.pairs.append(&mut pairs)?;
        self.marks.push_reserved(Mark::Batch(task, number));
        self.progress[task as usize].next += 1;
        Ok(())
    }

    fn accept_end(&mut self, task: u32, count: u64) -> Result<(), Refusal>
        ensures ok { OnOk result (self.new ≡ accept self.old (end_of task count)) }
        ensures err { OnErr result (self.new ≡ self.old) }
        ensures refused { IfSome (refusal_of self.old (end_of task count))
            (λ refusal. result ≡ Err refusal) }
        ensures accepted { IfNone (refusal_of self.old (end_of task count))
            (IsOkUnless result Refusal.Memory) }
    {
        let batches = self.awaited(task)?;
        if count != batches {
            return Err(Refusal::WrongCount);
        }
        self.marks.reserve(1)?;
        self.marks.push_reserved(Mark::End(task, count));
        self.progress[task as usize].ended = true;
        Ok(())
    }

    /// The number that the next batch of a task must have.
    fn awaited(&self, task: u32) -> Result<u64, Refusal>
        ensures { result ≡ awaited self.now task }
    {
        let progress = self.progress.get(task as usize).ok_or(Refusal::Stranger)?;
        if progress.ended {
            return Err(Refusal::AfterEnd);
        }
        Ok(progress.next)
    }
}

/// The first task that hasn't ended.
fn first_open(progress: &[Progress]) -> Option<usize>
    ensures none { IfNone result (All (λ p. p.ended ≡ true) progress.now) }
    ensures within { IfSome result (λ task. task < length progress.now) }
    ensures not_ended { IfSome result
        (λ task. HoldsAt (λ p. p.ended ≡ false) progress.now task) }
    ensures first { IfSome result (AllWithin (λ p. p.ended ≡ true) progress.now 0) }
{
    progress.iter().position(|p| !p.ended)
}

/// Law of refusals: a collector refuses a message, other than for lack of memory, if and only if
/// accepting it would make the history illegal.
pub fn refusal_law()
    ensures { RefusesIllegal }
{}

/// All pairs and marks of a finished collector.
#[derive(Drop)]
pub struct Outcome {
    marks: Vec<Mark>,
    pairs: Vec<(u32, u32)>,
}

impl Model for Outcome {
    ghost use Rattle.deliver_core.specs.Collectors.{Delivery};

    ghost Value = { Delivery };

    ghost view = { λ o. record { marks = o.marks.items; pairs = o.pairs.items } };
}

impl Outcome {
    /// Sorts the pairs in ascending order.
    fn sort(&mut self)
        ensures as_often { IsPermutation self.old.pairs self.new.pairs }
        ensures ascending { IsSorted pair_cmp self.new.pairs }
        ensures marks { self.new.marks ≡ self.old.marks }
    {
        sort_pairs(self.pairs.as_mut_slice());
    }

    /// Sorts the pairs in ascending order. Threads share the work, up to two for each processor.
    fn sort_by_threads<R: Threads + Sync>(&mut self, rt: &R)
        ensures as_often { IsPermutation self.old.pairs self.new.pairs }
        ensures ascending { IsSorted pair_cmp self.new.pairs }
        ensures marks { self.new.marks ≡ self.old.marks }
    {
        sort_pairs_by_threads(rt, self.pairs.as_mut_slice());
    }

    /// The accepted pairs, with multiplicity, in ascending order.
    pub fn pairs(&self) -> &[(u32, u32)]
        ensures { result.now ≡ self.now.pairs }
    {
        self.pairs.as_slice()
    }

    /// The marks of the accepted messages, in the order of acceptance.
    pub fn taken(&self) -> &[Mark]
        ensures { result.now ≡ self.now.marks }
    {
        self.marks.as_slice()
    }
}
