//! The command line of rjoin as a `clap` definition: its commands, their arguments, and the help.
#![tactic(auto)]

mod help;
mod usage;

pub use usage::usage_of;
