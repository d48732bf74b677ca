//! The words of the command line read as a command or a fault, by what `clap` finds in them.
#![tactic(auto)]

mod condition;
mod hint;
mod reading;
mod standard_input;
mod words;

pub use condition::{Condition, Geometries};
pub use standard_input::is_standard_input;
pub use words::{
    Command, JoinRequest, LayerPaths, LayerRequest, NearRequest, NearestRequest, RelateRequest,
    WordFault, Workers, read_words,
};
