//! Delivery: workers draw numbered tasks from one atomic word, and send their batches to one
//! collector through one bounded queue.
#![tactic(auto)]

mod board;
mod board_laws;
mod collector;
mod faults;
mod mark;
mod message;
mod outlet;
mod outlet_laws;
mod owners;
mod pass_view;
mod port;
mod script;
mod tap;

pub use board::{Board, BoardSeat};
pub use board_laws::draws_law;
pub use collector::{Collector, Outcome, refusal_law};
pub use faults::{Finish, Refusal};
pub use mark::Mark;
pub use message::{Body, Message};
pub use outlet::{MAX_WAITING, Outlet};
pub use outlet_laws::outlet_law;
pub use owners::owners_law;
pub use port::Port;
pub use script::script_law;
pub use tap::Tap;
