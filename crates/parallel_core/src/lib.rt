//! The workers of a join: each draws tasks from the board and sends their scripts through its port,
//! and the thread that started them receives the messages. A single worker is the caller's thread.
#![tactic(auto)]

mod alone;
mod delivery;
mod fault;
mod fused_collector;
mod gate;
mod job;
mod pause;
mod receiver;
mod rows;
mod script;
mod team;
mod working;

pub use delivery::run_workers;
pub use fault::JoinFault;
pub use gate::{Gate, Gated, OpenGate};
pub use job::Job;
pub use rows::Rows;
pub use working::{Worked, worker};
