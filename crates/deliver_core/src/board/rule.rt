//! The rule of the board's word: each number below it was drawn by one seat, once.

use atomic_table::{Join, Play, Split, TableRule};
use std::collections::LinkedList;

/// The number of tasks and of seats of a board.
#[derive(Clone, Copy)]
pub struct Size {
    pub tasks: u32,
    pub seats: u32,
}

/// The knowledge of a seat at the board's table: the board's numbers of tasks and seats, the number
/// of seats that it stands for (its parts), the numbers that they have drawn, and how many of their
/// draws found no number. No value of this type is ever made.
pub struct SeatView {
    pub tasks: u32,
    pub seats: u32,
    pub parts: u32,
    pub drawn: LinkedList<u32>,
    pub over: u32,
}

/// Each number below the word that is a task's was drawn once.
pub struct EachOnce;

impl TableRule<(), SeatView, Size> for EachOnce {
    ghost use Rattle.std.specs.Prelude.{[]};
    ghost use Rattle.deliver_core.specs.BoardRule.{TableObeysRule, seat_view};

    ghost holds = { TableObeysRule };

    ghost first = { λ size. seat_view size.tasks size.seats size.seats [] 0 };
}

/// One draw: a `fetch_add` of 1 on the word.
pub struct Draw;

impl Play<(), SeatView> for Draw {
    ghost use Rattle.deliver_core.specs.BoardRule.{Drew};

    ghost then = { Drew };
}

/// Gives one of the seats that a view stands for a view of its own.
pub struct SplitSeat;

impl Split<SeatView> for SplitSeat {
    ghost use Rattle.std.specs.Prelude.{◌-◌, []};
    ghost use Rattle.deliver_core.specs.BoardRule.{seat_view};

    ghost left = { λ v. seat_view v.tasks v.seats (v.parts - 1) v.drawn v.over };

    ghost right = { λ v. seat_view v.tasks v.seats 1 [] 0 };
}

/// Adds another view's seats, and the numbers that they drew, to this view.
pub struct JoinSeats;

impl Join<SeatView> for JoinSeats {
    ghost use Rattle.std.specs.Prelude.{◌+◌, ◌++◌, []};
    ghost use Rattle.deliver_core.specs.BoardRule.{seat_view};

    ghost both = { λ v w.
        seat_view v.tasks v.seats (v.parts + w.parts) (v.drawn ++ w.drawn) (v.over + w.over) };

    ghost spent = { seat_view 0 0 0 [] 0 };
}
