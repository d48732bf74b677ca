//! The board, from which workers draw the numbers of tasks.

ghost use Rattle.std.specs.Prelude.{◌≡◌, ℕ, ◌+◌, ◌<◌, ◌≤◌, List, [], ◌∷◌, ◌++◌, true, false, All};
ghost use Rattle.std.specs.Prelude.{Any, None, IfSome, IfNone, IfOk, map, replicate, length};
ghost use Rattle.std.specs.Prelude.{flat_map};
ghost use Rattle.deliver_core.specs.Draws.{AreNumbersBelow};
ghost use Rattle.deliver_core.specs.BoardRule.{ObeysRule};
ghost use Rattle.pair_core.specs.Limits.{most_workers};
ghost use Rattle.deliver_core.specs.declared.board.rule.SeatView.{SeatView};

mod rule;
mod seat;

use atomic_table::Table;
use rule::{Draw, EachOnce, JoinSeats, SeatView, Size, SplitSeat};
pub use seat::BoardSeat;
use std::alloc::{AllocError, Global};
use std::marker::Model;

/// Hands out the task numbers from 0, each to one seat once. Its state is one atomic word, the next
/// number to draw.
#[derive(Drop)]
pub struct Board {
    table: Table<(), SeatView, Size, EachOnce, Global>,
    tasks: u32,
}

impl Model for Board {
    ghost use Rattle.deliver_core.specs.Boards.{BoardValue, IsMadeFor};

    ghost Value = { BoardValue };

    ghost view = { λ b. record {
      id = b.table.shared.table_id;
      tasks = b.tasks;
      seats = b.table.shared.key.seats;
    } };

    ghost invariant = { λ b. IsMadeFor b.table.shared.table_id b.table.shared.key b.tasks };
}

impl Board {
    ghost use Rattle.deliver_core.specs.Boards.{fresh_seat, spent_seat, size_of, IsSeatOf};
    ghost use Rattle.deliver_core.specs.Boards.{IsAfterNumber, IsAfterEnd, IsDraw};

    /// A board of `tasks` tasks and its seats, which have drawn nothing. There are at most
    /// [`pair_core::MAX_WORKERS`] seats.
    pub fn new(alloc: Global, tasks: u32, seats: u32) -> Result<(Board, Vec<BoardSeat>), AllocError>
        requires { (1 ≤ seats) × (seats ≤ most_workers) }
        // has the given numbers of tasks and seats
        ensures board { IfOk result (λ r. (r.0.tasks ≡ tasks) × (r.0.seats ≡ seats)) }
        // are that number of fresh seats
        ensures seats { IfOk result (λ r. r.1.items ≡ replicate seats (fresh_seat r.0)) }
    {
        let mut given = Vec::with_capacity(alloc, seats as usize)?;
        let (table, mut first) = Table::of_words(alloc, &[0], &Size { tasks, seats })?;
        for _ in 1..seats {
            let place = table.shared.split_seat::<SplitSeat>(&mut first);
            given.push_reserved(BoardSeat::fresh(place));
        }
        given.push_reserved(BoardSeat::fresh(first));
        Ok((Board { table, tasks }, given))
    }

    /// Draws the next number for this seat, or returns `None` if none is left.
    ///
    /// A draw is one `fetch_add` of 1 on the board's word; a seat that has already met the end does
    /// nothing. The call allocates no memory, never waits and always returns.
    pub fn claim(&self, seat: &mut BoardSeat) -> Option<u32>
        requires { IsSeatOf self.now seat.old }
        // it stays a seat of this board
        ensures seat { IsSeatOf self.now seat.new }

        // The number is that of a task, greater than all that the seat has drawn, and is added to
        // them.
        // over every schedule, a number above all that the seat drew
        ensures number { IfSome result (IsAfterNumber self.now seat.old seat.new) }
        // the seat has met the end
        ensures none { IfNone result (IsAfterEnd seat.old seat.new) }

        // A seat that isn't done makes a draw at the board's table, whatever the word was. A seat
        // that is done makes no step.
        // one draw, of which the board's table knows
        ensures draw { seat.old.done ≡ false → IsDraw self.now seat.old seat.new }

        // For every word and all knowledge of the seats that satisfy the board's rule.
        // the word never overflows
        ensures word_bound { (word : ℕ) (views : List SeatView)
            → ObeysRule (size_of self.now) word views → word ≤ self.now.tasks + self.now.seats }
    {
        if seat.done {
            return None;
        }
        let Some(place) = &mut seat.place else {
            unreachable!()
        };
        let word = self.table.shared.fetch_add::<Draw>(place, 0, 1);
        if word < u64::from(self.tasks) {
            seat.count += 1;
            Some(word as u32)
        } else {
            seat.done = true;
            None
        }
    }

    /// Closes the board, given all its seats. They are returned spent, in the same order.
    pub fn close(self, mut seats: Vec<BoardSeat>) -> Vec<BoardSeat>
        requires all { length seats.items ≡ self.seats }
        requires own { All (IsSeatOf self) seats.items }

        // Each number that was drawn is that of a task, and one seat drew it, once. If a seat has
        // met the end, the numbers of all tasks were drawn.
        // all seats' numbers are together those below some n, each once, and all tasks' where any
        // seat is done
        ensures numbers { (n : ℕ) × (n ≤ self.tasks)
            × AreNumbersBelow n (flat_map (λ s. s.drawn) seats.items)
            × (Any (λ s. s.done ≡ true) seats.items → n ≡ self.tasks) }
        // each count is right
        ensures counted { All (λ s. s.count ≡ length s.drawn) seats.items }
        // the seats come back spent
        ensures spent { result.items ≡ map spent_seat seats.items }
    {
        let Board { table, tasks: _ } = self;
        let count = seats.len();
        let mut all = seats[0].retire();
        for i in 1..count {
            let place = seats[i].retire();
            table.shared.join_seat::<JoinSeats>(&mut all, place);
        }
        let closed = table.close_with(all);
        closed.free();
        seats
    }
}
