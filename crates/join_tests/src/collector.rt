//! The collector: whole histories, refusals and their texts, numbers that no worker sends, and
//! refused allocations.

ghost use Rattle.std.specs.Prelude.{◌≤◌};

use Said::{Batch, Bye, End};
use deliver_core::{Body, Collector, Finish, Mark, Message, Outcome, Refusal};
use std::alloc::{AllocError, Global};
use std::fmt::Display;
use std::test::Fail;

/// The content of a message: a batch of a task, with its number and pairs; the end of a task, with
/// the number of its batches; or a bye.
#[derive(Clone, Copy)]
enum Said<'a> {
    Batch(u32, u64, &'a [(u32, u32)]),
    End(u32, u64),
    Bye,
}

fn message(alloc: Global, said: Said<'_>) -> Result<Message, AllocError> {
    let (task, body) = match said {
        Batch(task, number, pairs) => (task, Body::Batch(number, Vec::from_slice(alloc, pairs)?)),
        End(task, count) => (task, Body::End(count)),
        Bye => (9, Body::Bye(true)),
    };
    Ok(Message {
        port: 0,
        task,
        body,
    })
}

/// Whether a message has this result, and a refusal leaves the marks unchanged.
fn answers(
    alloc: Global,
    collector: &mut Collector,
    said: Said<'_>,
    answer: Result<(), Refusal>,
) -> Result<bool, AllocError> {
    let before = collector.taken().to_vec(alloc)?;
    let given = collector.offer(message(alloc, said)?);
    Ok(given == answer && (answer.is_ok() || collector.taken() == before.as_slice()))
}

/// Whether messages have these results, in turn.
fn answers_all(
    alloc: Global,
    collector: &mut Collector,
    offers: &[(Said<'_>, Result<(), Refusal>)],
) -> Result<bool, AllocError> {
    for (said, answer) in offers {
        if !answers(alloc, collector, *said, *answer)? {
            return Ok(false);
        }
    }
    Ok(true)
}

/// Whether a collector ends with these pairs and marks.
fn ends_with(collector: Collector, pairs: &[(u32, u32)], marks: &[Mark]) -> bool {
    match collector.finish() {
        Ok(outcome) => outcome.pairs() == pairs && outcome.taken() == marks,
        Err(_) => false,
    }
}

/// Whether a new collector of `tasks` tasks has these results for messages, and ends with these
/// pairs and marks.
fn collects(
    alloc: Global,
    tasks: u32,
    offers: &[(Said<'_>, Result<(), Refusal>)],
    pairs: &[(u32, u32)],
    marks: &[Mark],
) -> Result<bool, AllocError> {
    let mut collector = Collector::new(alloc, tasks)?;
    let are_answered = answers_all(alloc, &mut collector, offers)?;
    Ok(ends_with(collector, pairs, marks) && are_answered)
}

const PAIRS: &[(u32, u32)] = &[(3, 1), (2, 9), (3, 1)];

/// One batch and the end of task 0, with messages to refuse in between.
const ONE_BATCH: &[(Said<'static>, Result<(), Refusal>)] = &[
    (Batch(2, 0, PAIRS), Err(Refusal::Stranger)),
    (Batch(0, 1, PAIRS), Err(Refusal::Gap)),
    (Batch(0, 0, PAIRS), Ok(())),
    (Batch(0, 0, PAIRS), Err(Refusal::Double)),
    (End(0, 2), Err(Refusal::WrongCount)),
    (End(0, 1), Ok(())),
    (Batch(0, 1, PAIRS), Err(Refusal::AfterEnd)),
    (End(0, 1), Err(Refusal::AfterEnd)),
    (Bye, Ok(())),
];

/// Whether a collector of two tasks can't finish after task 0 alone.
fn stays_open(alloc: Global) -> Result<bool, AllocError> {
    let mut collector = Collector::new(alloc, 2)?;
    let are_answered = answers_all(alloc, &mut collector, ONE_BATCH)?;
    let are_marked = collector.taken() == [Mark::Batch(0, 0), Mark::End(0, 1)].as_slice();
    Ok(collector.finish().err() == Some(Finish::Open(1)) && are_answered && are_marked)
}

/// Whether a collector of two tasks delivers task 0 if the end of task 1 comes first.
fn ends_both(alloc: Global) -> Result<bool, AllocError> {
    let mut collector = Collector::new(alloc, 2)?;
    let is_ended = answers(alloc, &mut collector, End(1, 0), Ok(()))?;
    let are_answered = answers_all(alloc, &mut collector, ONE_BATCH)?;
    let marks = [Mark::End(1, 0), Mark::Batch(0, 0), Mark::End(0, 1)];
    Ok(ends_with(collector, &[(2, 9), (3, 1), (3, 1)], &marks) && is_ended && are_answered)
}

#[test]
fn collector_refusals(rt: HostRuntime) -> Result<(), Fail> {
    assert!(rt; stays_open(rt.alloc())?);
    assert!(rt; ends_both(rt.alloc())?);
    assert!(rt; collects(rt.alloc(), 0, &[], &[], &[])?);
    Ok(())
}

/// The messages of two tasks, the second one first.
const TURNED: &[(Said<'static>, Result<(), Refusal>)] = &[
    (Batch(1, 0, &[(5, 0), (4, 7)]), Ok(())),
    (Batch(1, 1, &[(4, 2)]), Ok(())),
    (End(1, 2), Ok(())),
    (Batch(0, 0, &[(0, 1), (9, 9)]), Ok(())),
    (End(0, 1), Ok(())),
];

const TURNED_MARKS: &[Mark] = &[
    Mark::Batch(1, 0),
    Mark::Batch(1, 1),
    Mark::End(1, 2),
    Mark::Batch(0, 0),
    Mark::End(0, 1),
];

#[test]
fn collector_order(rt: HostRuntime) -> Result<(), Fail> {
    let pairs = [(0, 1), (4, 2), (4, 7), (5, 0), (9, 9)];
    assert!(rt; collects(rt.alloc(), 2, TURNED, &pairs, TURNED_MARKS)?);
    Ok(())
}

/// More pairs than are sorted by one thread alone. It is a prime number, so steps of any lesser
/// length visit each place once.
const MANY: u32 = 10_007;

/// A step between pairs that are far apart.
const STRIDE: u32 = 7_919;

/// `MANY` distinct pairs. By steps of 1 they ascend.
fn pairs_by_steps(alloc: Global, step: u32) -> Result<Vec<(u32, u32)>, AllocError>
    requires { step ≤ STRIDE }
{
    let mut pairs = Vec::with_capacity(alloc, MANY as usize)?;
    for count in 0..MANY {
        let place = count * step % MANY;
        pairs.push((place / 100, place % 100))?;
    }
    Ok(pairs)
}

/// A collector that has accepted these pairs, and the end of their task.
fn collector_of(alloc: Global, pairs: &[(u32, u32)]) -> Result<Collector, AllocError> {
    let mut collector = Collector::new(alloc, 1)?;
    let offers = [(Batch(0, 0, pairs), Ok(())), (End(0, 1), Ok(()))];
    answers_all(alloc, &mut collector, &offers)?;
    Ok(collector)
}

/// Whether these pairs were delivered.
fn delivers(answer: Result<Outcome, Finish>, pairs: &[(u32, u32)]) -> bool {
    answer.is_ok_and(|outcome| outcome.pairs() == pairs)
}

/// Sorting by threads has the same result as by one.
#[test]
fn many_pairs(rt: HostRuntime) -> Result<(), Fail> {
    let sorted = pairs_by_steps(rt.alloc(), 1)?;
    let scrambled = pairs_by_steps(rt.alloc(), STRIDE)?;
    assert!(rt; delivers(collector_of(rt.alloc(), &scrambled)?.finish(), &sorted));
    let by_threads = collector_of(rt.alloc(), &scrambled)?.finish_by_threads(&rt);
    assert!(rt; delivers(by_threads, &sorted));
    Ok(())
}

/// A collector of two tasks, the first of which has ended.
fn half_ended(alloc: Global) -> Result<Collector, AllocError> {
    let mut collector = Collector::new(alloc, 2)?;
    answers(alloc, &mut collector, End(0, 0), Ok(()))?;
    Ok(collector)
}

#[test]
fn open_task(rt: HostRuntime) -> Result<(), Fail> {
    let open = Some(Finish::Open(1));
    assert!(rt; half_ended(rt.alloc())?.finish().err() == open);
    assert!(rt; half_ended(rt.alloc())?.finish_by_threads(&rt).err() == open);
    Ok(())
}

/// Numbers that no worker sends, to a collector of one task.
const STRANGE: &[(Said<'static>, Result<(), Refusal>)] = &[
    (Batch(0, u64::MAX, &[]), Err(Refusal::Gap)),
    (End(0, u64::MAX), Err(Refusal::WrongCount)),
    (End(u32::MAX, 0), Err(Refusal::Stranger)),
    (End(0, 0), Ok(())),
    (Batch(0, 0, &[]), Err(Refusal::AfterEnd)),
    (Batch(0, 1, &[]), Err(Refusal::AfterEnd)),
    (Batch(0, u64::MAX, &[]), Err(Refusal::AfterEnd)),
    (Bye, Ok(())),
];

/// Messages to a collector of no task.
const STRANGERS: &[(Said<'static>, Result<(), Refusal>)] = &[
    (Batch(0, 0, &[]), Err(Refusal::Stranger)),
    (Batch(u32::MAX, 1, PAIRS), Err(Refusal::Stranger)),
    (End(0, 0), Err(Refusal::Stranger)),
    (End(7, 1), Err(Refusal::Stranger)),
];

#[test]
fn broken_12(rt: HostRuntime) -> Result<(), Fail> {
    assert!(rt; collects(rt.alloc(), 1, STRANGE, &[], &[Mark::End(0, 0)])?);
    assert!(rt; collects(rt.alloc(), 0, STRANGERS, &[], &[])?);
    Ok(())
}

/// The message, made again if an allocation fails.
fn made(alloc: Global, said: Said<'_>) -> Result<Message, AllocError> {
    match message(alloc, said) {
        Ok(message) => Ok(message),
        Err(AllocError) => message(alloc, said),
    }
}

/// Whether a message is accepted, or a failed allocation changes nothing and it is accepted then.
fn takes(alloc: Global, collector: &mut Collector, said: Said<'_>) -> Result<bool, AllocError> {
    let before = collector.taken().len();
    match collector.offer(made(alloc, said)?) {
        Ok(()) => Ok(true),
        Err(Refusal::Memory) if collector.taken().len() == before => {
            Ok(collector.offer(message(alloc, said)?).is_ok())
        }
        Err(_) => Ok(false),
    }
}

/// A collector of `tasks` tasks, made again if an allocation fails.
fn collector_at_last(alloc: Global, tasks: u32) -> Result<Collector, AllocError> {
    match Collector::new(alloc, tasks) {
        Ok(collector) => Ok(collector),
        Err(AllocError) => Collector::new(alloc, tasks),
    }
}

/// Whether a collector accepts a batch, and then has its mark.
fn takes_a_batch(alloc: Global, collector: &mut Collector) -> Result<bool, AllocError> {
    let is_taken = takes(alloc, collector, Batch(0, 0, PAIRS))?;
    Ok(is_taken && collector.taken() == [Mark::Batch(0, 0)].as_slice())
}

/// Passes with each allocation failing in turn.
#[test]
fn refused_5(rt: HostRuntime) -> Result<(), Fail> {
    assert!(rt; takes_a_batch(rt.alloc(), &mut collector_at_last(rt.alloc(), 2)?)?);
    Ok(())
}

/// Whether a collector accepts twenty batches of task 0 and its end.
fn takes_twenty(alloc: Global, collector: &mut Collector) -> Result<bool, AllocError> {
    for number in 0..20 {
        if !takes(alloc, collector, Batch(0, number, &[(9, 9), (0, 0)]))? {
            return Ok(false);
        }
    }
    takes(alloc, collector, End(0, 20))
}

/// Whether these are twenty pairs of each of two kinds.
fn are_forty(pairs: &[(u32, u32)]) -> bool {
    pairs.len() == 40
        && pairs.iter().take(20).all(|pair| *pair == (0, 0))
        && pairs.iter().skip(20).all(|pair| *pair == (9, 9))
}

/// Whether a collector has accepted 21 messages, with twenty pairs of each of two kinds.
fn has_forty(collector: Collector) -> bool {
    let is_whole = collector.taken().len() == 21;
    match collector.finish() {
        Ok(outcome) => is_whole && are_forty(outcome.pairs()),
        Err(_) => false,
    }
}

/// Whether a collector accepts twenty batches, and has their pairs.
fn grows(alloc: Global) -> Result<bool, AllocError> {
    let mut collector = collector_at_last(alloc, 1)?;
    let are_taken = takes_twenty(alloc, &mut collector)?;
    Ok(has_forty(collector) && are_taken)
}

#[test]
fn collector_growths(rt: HostRuntime) -> Result<(), Fail> {
    assert!(rt; grows(rt.alloc())?);
    Ok(())
}

/// Whether a fault is displayed as this text.
fn shows(alloc: Global, fault: &impl Display, text: &str) -> Result<bool, AllocError> {
    Ok(format!(in alloc; "{fault}")?.as_str() == text)
}

/// Refusals, and their displayed texts.
const REFUSALS: &[(Refusal, &str)] = &[
    (Refusal::Stranger, "the task isn't one of the collector's"),
    (Refusal::AfterEnd, "the task has ended"),
    (Refusal::Double, "the batch was accepted before"),
    (Refusal::Gap, "a batch before this one is missing"),
    (
        Refusal::WrongCount,
        "the end doesn't give the number of the task's batches",
    ),
    (Refusal::Memory, "out of memory"),
];

/// The texts of refusals, and of a fault that names its task.
#[test]
fn fault_texts(rt: HostRuntime) -> Result<(), Fail> {
    for &(refusal, text) in REFUSALS {
        assert!(rt; shows(rt.alloc(), &refusal, text)?);
    }
    assert!(rt; shows(rt.alloc(), &Finish::Open(65_535), "task 65535 has no end")?);
    Ok(())
}
