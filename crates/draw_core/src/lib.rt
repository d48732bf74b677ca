//! A picture of two layers and of their matching pairs, as SVG 1.1.
#![tactic(auto)]

mod drawing;
mod drawn;
mod element;
mod figure;
mod frame;
mod label;
mod marks;
mod number;
mod outline;

pub use drawing::{MAX_DRAWN, can_be_drawn, picture};
pub use drawn::Drawn;
pub use frame::Frame;
