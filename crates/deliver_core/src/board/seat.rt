//! A worker's seat at the board.

ghost use Rattle.std.specs.Prelude.{◌≡◌, [], length, IsSome};

use super::rule::SeatView;
use atomic_table::Seat;
use std::marker::Model;

/// The right of one worker to draw from one board. It counts the numbers that it has drawn; the
/// numbers themselves are visible to contracts only.
#[derive(Drop)]
pub struct BoardSeat {
    /// The seat at the board's table, until the board is closed.
    pub(super) place: Option<Seat<(), SeatView>>,
    pub(super) count: u32,
    pub(super) done: bool,
}

impl Model for BoardSeat {
    ghost use Rattle.deliver_core.specs.Boards.{SeatValue, seat_value, IsCountedSeat};

    ghost Value = { SeatValue };

    ghost view = { λ s. seat_value s.place s.count s.done };

    ghost invariant = { λ s. IsCountedSeat s.place s.count s.done };
}

impl BoardSeat {
    ghost use Rattle.deliver_core.specs.Boards.{fresh_seat, spent_seat, board_of, IsCounted};

    /// A seat that has drawn nothing.
    pub(super) fn fresh(place: Seat<(), SeatView>) -> BoardSeat
        requires slots { place.me.1 ≡ [] }
        requires view { (place.me.0.parts ≡ 1) × (place.me.0.drawn ≡ [])
            × (place.me.0.over ≡ 0) }
        ensures { result ≡ fresh_seat (board_of place) }
    {
        BoardSeat {
            place: Some(place),
            count: 0,
            done: false,
        }
    }

    /// Takes out the seat at the table, and leaves this seat spent.
    pub(super) fn retire(&mut self) -> Seat<(), SeatView>
        requires { IsSome self.old.board }
        ensures spent { self.new ≡ spent_seat self.old }
        ensures board { self.old.board ≡ Some (board_of result) }
        ensures drawn { result.me.0.drawn ≡ self.old.drawn }
        ensures counted { IsCounted result self.old.count self.old.done }
    {
        let Some(place) = self.place.take() else {
            unreachable!()
        };
        place
    }

    /// The number of draws that gave a number.
    pub fn count(&self) -> u32
        // how many numbers it drew
        ensures count { result ≡ self.now.count }
        // as many as its list has, until the board is closed
        ensures drawn { IsSome self.now.board → result ≡ length self.now.drawn }
    {
        self.count
    }

    /// Whether it has met the end of the numbers.
    pub fn done(&self) -> bool
        ensures { result ≡ self.now.done }
    {
        self.done
    }
}
