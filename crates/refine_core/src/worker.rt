//! A worker, which draws chunks from the board until none is left, and refines each.

ghost use Rattle.std.specs.Prelude.{◌≡◌, ◌<◌, ◌++◌, ℕ, All, IfOk, OnOk, length};
ghost use Rattle.deliver_core.specs.Boards.{fresh_seat};
ghost use Rattle.refine_core.specs.Chunks.{IsChunkNumber};
ghost use Rattle.refine_core.specs.Parts.{IsShare};
ghost use Rattle.refine_core.specs.Refinements.{AreRefined, IsPairIn, refined_as};

use crate::chunks::chunk;
use crate::condition::Condition;
use crate::refined::Refined;
use deliver_core::{Board, BoardSeat};
use std::alloc::{AllocError, Global};

/// The pairs of a chunk that satisfy the condition.
#[derive(Drop)]
pub(crate) struct Part<A> {
    pub(crate) chunk: u32,
    pub(crate) refined: Vec<Refined<A>>,
}

/// A worker's seat, which has met the end of the chunks, and the parts of the chunks that it drew.
#[derive(Drop)]
pub(crate) struct Share<A> {
    pub(crate) seat: BoardSeat,
    pub(crate) parts: Vec<Part<A>>,
}

/// The inputs that the workers share: the pairs to refine by the condition, and the board from
/// which the chunks of the pairs are drawn.
#[derive(Drop)]
pub(crate) struct Job<'a, C> {
    pub(crate) alloc: Global,
    pub(crate) condition: &'a C,
    pub(crate) pairs: &'a [(u32, u32)],
    pub(crate) board: &'a Board,
}

/// Draws chunks until none is left, and refines each.
pub(crate) fn work<C: Condition>(
    job: &Job<'_, C>,
    mut seat: BoardSeat,
) -> Result<Share<C::Answer>, AllocError>
where
    C::Answer: Drop,
    requires near { All (IsPairIn (C.near job.now.condition.now)) job.now.pairs.now }
    requires chunks { (number : ℕ) → number < job.now.board.now.tasks
        → IsChunkNumber (length job.now.pairs.now) number }
    requires seat { seat ≡ fresh_seat job.now.board.now }
    ensures { let stands = C.stands job.now.condition.now in
        let answers = C.answers job.now.condition.now in
        IfOk result (IsShare stands answers job.now.board.now job.now.pairs.now) }
{
    let mut parts = Vec::new(job.alloc);
    while let Some(number) = job.board.claim(&mut seat) {
        let refined = refine_each(job.alloc, job.condition, chunk(job.pairs, number))?;
        parts.push(Part {
            chunk: number,
            refined,
        })?;
    }
    Ok(Share { seat, parts })
}

/// Decides these pairs one after another: those that satisfy the condition, in order, each with its
/// answer.
///
/// # Errors
/// If an allocation fails.
pub fn refine_each<C: Condition>(
    alloc: Global,
    condition: &C,
    pairs: &[(u32, u32)],
) -> Result<Vec<Refined<C::Answer>>, AllocError>
where
    C::Answer: Drop,
    requires { All (IsPairIn (C.near condition.now)) pairs.now }
    ensures { let stands = C.stands condition.now in
        let answers = C.answers condition.now in
        IfOk result (λ refined. AreRefined stands answers pairs.now refined.items) }
{
    let mut refined = Vec::with_capacity(alloc, count_fetched(condition, pairs))?;
    for pair in pairs {
        let (left, right) = *pair;
        let found = condition.decide(alloc, left, right)?;
        push_found(&mut refined, (left, right), found)?;
    }
    Ok(refined)
}

/// The number of pairs for which the condition fetches data. In this loop, which decides nothing,
/// the processor fetches the data of many pairs at the same time.
fn count_fetched<C: Condition>(condition: &C, pairs: &[(u32, u32)]) -> usize {
    let mut count: usize = 0;
    for (left, right) in pairs {
        count = count.saturating_add(condition.fetch(*left, *right).into());
    }
    count
}

/// Adds a pair if it has an answer.
fn push_found<A: Drop>(
    refined: &mut Vec<Refined<A>>,
    pair: (u32, u32),
    found: Option<A>,
) -> Result<(), AllocError>
    ensures { OnOk result (refined.new.items ≡ refined.old.items ++ refined_as pair found) }
{
    if let Some(answer) = found {
        refined.push(Refined { pair, answer })?;
    }
    Ok(())
}
