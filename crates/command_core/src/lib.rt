//! The commands of rjoin as a library: from the words of the command line to the output, the fault
//! lines and the exit status, over any implementation of [`Inputs`].
#![tactic(auto)]

mod command;
mod improper;
mod improper_rows;
mod inputs;
mod joining;
mod layers;
mod near;
mod nearest;
mod notes;
mod opening;
mod outputs;
mod pairs;
mod program;
mod relating;
mod skipping;
mod word_fault;
mod workers;

pub use command::{FAILED, run_command};
pub use inputs::{Inputs, NotOpened};
pub use outputs::{NotStored, Outputs};
pub use program::{run_program, run_words};
pub use word_fault::{word_line, word_status};
pub use words_core::{
    Command, Condition, Geometries, JoinRequest, LayerPaths, LayerRequest, NearRequest,
    NearestRequest, RelateRequest, WordFault, Workers, is_standard_input, read_words,
};
