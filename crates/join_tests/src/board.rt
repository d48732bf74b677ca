//! The board from outside: claims in turn, limits, refused allocations, and four threads.

ghost use Rattle.std.specs.Prelude.{◌≡◌, ◌≤◌, length, replicate, All, IfOk};
ghost use Rattle.deliver_core.specs.Boards.{IsSeatOf, fresh_seat};

use deliver_core::{Board, BoardSeat, draws_law};
use pair_core::MAX_WORKERS;
use std::alloc::{AllocError, Global};
use std::test::Fail;
use std::thread;
use std::thread::Threads;

/// More numbers than any test here draws, except one.
const MANY: u32 = 65_536;

/// Claims for two seats in turn, and returns whether each pair of claims has the expected results.
fn claim_in_turn(
    board: &Board,
    first: &mut BoardSeat,
    second: &mut BoardSeat,
    answers: &[[Option<u32>; 2]],
) -> bool
    requires { IsSeatOf board.now first.old × IsSeatOf board.now second.old }
    ensures { IsSeatOf board.now first.new × IsSeatOf board.now second.new }
{
    for [of_first, of_second] in answers {
        if (board.claim(first), board.claim(second)) != (*of_first, *of_second) {
            return false;
        }
    }
    true
}

/// Whether the board returns the seats with these counts, done or not.
fn come_back(board: Board, seats: Vec<BoardSeat>, wanted: &[(u32, bool)]) -> bool
    requires all { length seats.items ≡ board.seats }
    requires own { All (IsSeatOf board) seats.items }
{
    let seats = board.close(seats);
    let found = seats.iter().map(|seat| (seat.count(), seat.done()));
    found.eq(wanted.iter().copied())
}

/// A board, made again if an allocation fails.
fn board_at_last(
    alloc: Global,
    tasks: u32,
    seats: u32,
) -> Result<(Board, Vec<BoardSeat>), AllocError>
    requires { (1 ≤ seats) × (seats ≤ MAX_WORKERS) }
    ensures board { IfOk result (λ r. r.0.seats ≡ seats) }
    ensures seats { IfOk result (λ r. r.1.items ≡ replicate seats (fresh_seat r.0)) }
{
    match Board::new(alloc, tasks, seats) {
        Ok(made) => Ok(made),
        Err(AllocError) => Board::new(alloc, tasks, seats),
    }
}

/// Whether the two seats of a board of three tasks draw the expected numbers in turn; never `None`.
/// It takes no memory.
fn draw_three(board: Board, mut seats: Vec<BoardSeat>) -> Option<bool>
    requires board { board.seats ≡ 2 }
    requires seats { seats.items ≡ replicate 2 (fresh_seat board) }
{
    let mut second = seats.pop()?;
    let mut first = seats.pop()?;
    let answers = [[Some(0), Some(1)], [Some(2), None], [None, None]];
    let are_claimed = claim_in_turn(&board, &mut first, &mut second, &answers);
    seats.push(first).ok()?;
    seats.push(second).ok()?;
    Some(come_back(board, seats, &[(2, true), (1, true)]) && are_claimed)
}

#[test]
fn board_and_outlet(rt: HostRuntime) -> Result<(), Fail> {
    let (board, seats) = Board::new(rt.alloc(), 3, 2)?;
    draws_law();
    assert!(rt; draw_three(board, seats) == Some(true));
    Ok(())
}

/// Passes with each allocation failing in turn.
#[test]
fn refused_6(rt: HostRuntime) -> Result<(), Fail> {
    let (board, seats) = board_at_last(rt.alloc(), 3, 2)?;
    assert!(rt; draw_three(board, seats) == Some(true));
    Ok(())
}

/// Whether a seat of a board of five tasks is returned after two claims.
fn comes_back_early(alloc: Global) -> Result<bool, AllocError> {
    let (board, mut seats) = Board::new(alloc, 5, 1)?;
    let claims = (board.claim(&mut seats[0]), board.claim(&mut seats[0]));
    Ok(come_back(board, seats, &[(2, false)]) && claims == (Some(0), Some(1)))
}

#[test]
fn board_early_close(rt: HostRuntime) -> Result<(), Fail> {
    assert!(rt; comes_back_early(rt.alloc())?);
    Ok(())
}

/// Whether a board without tasks gives none to the last of sixteen seats.
fn gives_none(alloc: Global) -> Result<bool, AllocError> {
    let (board, mut seats) = Board::new(alloc, 0, 16)?;
    Ok(seats.len() == 16 && board.claim(&mut seats[15]) == None)
}

/// Whether a board with the greatest number of tasks of a plan gives all to its only seat.
fn gives_most(alloc: Global) -> Result<bool, AllocError> {
    let (board, mut seats) = Board::new(alloc, MANY, 1)?;
    let Some(seat) = seats.pop() else {
        return Ok(false);
    };
    let worker = draw_all(alloc, &board, seat);
    Ok(worker.drawn.iter().copied().eq(0..MANY) && worker.seat.done())
}

#[test]
fn board_limits(rt: HostRuntime) -> Result<(), Fail> {
    assert!(rt; gives_none(rt.alloc())?);
    assert!(rt; gives_most(rt.alloc())?);
    Ok(())
}

/// Whether all four seats of a board are returned, and have met the end.
fn four_are_done(board: Board, seats: Vec<BoardSeat>) -> bool
    requires all { board.seats ≡ 4 }
    requires own { All (IsSeatOf board) seats.items }
{
    seats.len() == 4 && board.close(seats).iter().all(BoardSeat::done)
}

/// Whether four threads, each of which records its numbers, draw all of ten thousand numbers.
fn four_draw_all<R: Threads + Sync>(rt: &R, alloc: Global) -> Result<bool, AllocError> {
    let (board, seats) = Board::new(alloc, 10_000, 4)?;
    let workers = draw_in_threads(rt, alloc, &board, seats)?;
    let are_in_order = workers.iter().all(Worker::is_in_order);
    let (seats, drawn) = gathered(alloc, &board, workers)?;
    let are_done = four_are_done(board, seats);
    Ok(are_in_order && are_done && drawn.iter().copied().eq(0..10_000))
}

#[test]
fn board_threads(rt: HostRuntime) -> Result<(), Fail> {
    assert!(rt; four_draw_all(&rt, rt.alloc())?);
    Ok(())
}

/// A worker's seat, and the numbers that it recorded.
#[derive(Drop)]
struct Worker {
    seat: BoardSeat,
    drawn: Vec<u32>,
}

impl Worker {
    /// Whether its numbers ascend, and their count is that of its seat.
    fn is_in_order(&self) -> bool {
        self.drawn.is_sorted_by(|a, b| a < b) && self.drawn.len() == self.seat.count() as usize
    }
}

/// Claims until the seat gets `None`, or memory runs out.
fn draw_all(alloc: Global, board: &Board, mut seat: BoardSeat) -> Worker
    requires { IsSeatOf board.now seat }
    ensures { IsSeatOf board.now result.seat }
{
    let mut drawn = Vec::new(alloc);
    for _ in 0..=MANY {
        let Some(number) = board.claim(&mut seat) else {
            break;
        };
        if drawn.push(number).is_err() {
            break;
        }
    }
    Worker { seat, drawn }
}

/// Draws in one thread for each seat.
fn draw_in_threads<R: Threads + Sync>(
    rt: &R,
    alloc: Global,
    board: &Board,
    seats: Vec<BoardSeat>,
) -> Result<Vec<Worker>, AllocError>
    requires { All (IsSeatOf board.now) seats.items }
    ensures { IfOk result (λ workers. All (λ w. IsSeatOf board.now w.seat) workers.items) }
{
    thread::map_vec(rt, seats, &|seat| draw_all(alloc, board, seat))
}

/// The seats and all numbers of these workers, in ascending order.
fn gathered(
    alloc: Global,
    board: &Board,
    mut workers: Vec<Worker>,
) -> Result<(Vec<BoardSeat>, Vec<u32>), AllocError>
    requires { All (λ w. IsSeatOf board.now w.seat) workers.items }
    ensures { IfOk result (λ r. All (IsSeatOf board.now) r.0.items) }
{
    let mut seats = Vec::new(alloc);
    let mut drawn = Vec::new(alloc);
    while let Some(worker) = workers.pop() {
        drawn.extend_from_slice(&worker.drawn)?;
        seats.push(worker.seat)?;
    }
    drawn.sort_unstable();
    Ok((seats, drawn))
}
