//! The refinement of a list of pairs, by one thread or several.

ghost use Rattle.std.specs.Prelude.{◌≡◌, ◌<◌, ◌≤◌, ℕ, Bool, All, IfOk, length};
ghost use Rattle.deliver_core.specs.Boards.{fresh_seat};
ghost use Rattle.refine_core.specs.Chunks.{IsChunkNumber};
ghost use Rattle.refine_core.specs.Parts.{IsShare};
ghost use Rattle.refine_core.specs.Refinements.{AreRefined, HoldsEachOnce, IsInOrder};
ghost use Rattle.refine_core.specs.Refinements.{IsPairIn, pairs_of};

use crate::chunks::chunk_count;
use crate::condition::Condition;
use crate::in_order::{gather, join_rows, rows_of};
use crate::laws::refinement_law;
use crate::refined::Refined;
use crate::worker::{Job, Share, refine_each, work};
use deliver_core::{Board, BoardSeat};
use pair_core::MAX_WORKERS;
use std::alloc::{AllocError, Global};
use std::thread;
use std::thread::Threads;

/// The pairs of a list that satisfy a condition, in the order of the list, each with its answer.
/// `workers` workers decide them, including the caller's thread: one worker starts no thread.
///
/// Each worker draws chunks of the list until none is left. If a thread can't be started, the
/// others do its work.
///
/// # Errors
/// If an allocation fails.
pub fn refine_pairs<C: Condition + Sync, R: Threads + Sync>(
    rt: &R,
    alloc: Global,
    condition: &C,
    pairs: &[(u32, u32)],
    workers: u32,
) -> Result<Vec<Refined<C::Answer>>, AllocError>
where
    C::Answer: Send + Drop,
    requires workers { (1 ≤ workers) × (workers ≤ MAX_WORKERS) }
    requires near { All (IsPairIn (C.near condition.now)) pairs.now }
    // of any list of near pairs, for any number of workers, whichever chunks each of them draws:
    // the pairs that satisfy the condition, all of them and no other, in the list's order, each
    // with an answer of its own
    ensures refined { let stands = C.stands condition.now in
        let answers = C.answers condition.now in
        IfOk result (λ refined. AreRefined stands answers pairs.now refined.items) }
    // where the list holds each near pair once and no other, each pair that satisfies the condition
    // once and no other
    ensures each_once { HoldsEachOnce (C.near condition.now) pairs.now
        → let stands = C.stands condition.now in
        IfOk result (λ refined. HoldsEachOnce stands (pairs_of refined.items)) }
    // a list in any order, such as the ascending one, stays in it
    ensures in_order { (before : ℕ × ℕ → ℕ × ℕ → Bool) → IsInOrder before pairs.now
        → IfOk result (λ refined. IsInOrder before (pairs_of refined.items)) }
{
    refinement_law(condition);
    refine_by_workers(rt, alloc, condition, pairs, workers)
}

/// The pairs of a list that satisfy the condition. With one worker, or at most one pair, it starts
/// no thread.
fn refine_by_workers<C: Condition + Sync, R: Threads + Sync>(
    rt: &R,
    alloc: Global,
    condition: &C,
    pairs: &[(u32, u32)],
    workers: u32,
) -> Result<Vec<Refined<C::Answer>>, AllocError>
where
    C::Answer: Send + Drop,
    requires workers { (1 ≤ workers) × (workers ≤ MAX_WORKERS) }
    requires near { All (IsPairIn (C.near condition.now)) pairs.now }
    ensures { let stands = C.stands condition.now in
        let answers = C.answers condition.now in
        IfOk result (λ refined. AreRefined stands answers pairs.now refined.items) }
{
    if workers == 1 || pairs.len() < 2 {
        return refine_each(alloc, condition, pairs);
    }
    let chunks = chunk_count(pairs.len());
    let (board, seats) = Board::new(alloc, chunks, workers.min(chunks))?;
    let job = Job {
        alloc,
        condition,
        pairs,
        board: &board,
    };
    let shares = run_workers(rt, &job, seats)?;
    let (seats, parts) = gather(alloc, shares)?;
    board.close(seats);
    let rows = rows_of(alloc, chunks, parts)?;
    join_rows(alloc, rows)
}

/// The results of the workers, one for each of these seats.
fn run_workers<C: Condition + Sync, R: Threads + Sync>(
    rt: &R,
    job: &Job<'_, C>,
    seats: Vec<BoardSeat>,
) -> Result<Vec<Result<Share<C::Answer>, AllocError>>, AllocError>
where
    C::Answer: Send + Drop,
    requires near { All (IsPairIn (C.near job.now.condition.now)) job.now.pairs.now }
    requires chunks { (number : ℕ) → number < job.now.board.now.tasks
        → IsChunkNumber (length job.now.pairs.now) number }
    requires seats { All (λ seat. seat ≡ fresh_seat job.now.board.now) seats.items }
    ensures len { IfOk result (λ shares. length shares.items ≡ length seats.items) }
    ensures shares { let stands = C.stands job.now.condition.now in
        let answers = C.answers job.now.condition.now in
        let given = IsShare stands answers job.now.board.now job.now.pairs.now in
        IfOk result (λ shares. All (λ share. IfOk share given) shares.items) }
{
    let share = |seat: BoardSeat| work(job, seat);
    thread::map_vec(rt, seats, &share)
}
