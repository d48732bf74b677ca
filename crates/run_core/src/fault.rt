//! The faults that end a run, and the input at fault.

ghost use Rattle.std.specs.Prelude.{◌≡◌};
ghost use Rattle.run_core.specs.declared.fault.RunFault.TheVariants as run_faults;

use layer_core::LayerFault;
use parallel_core::JoinFault;
use report_core::WriteFailed;
use row_core::ReadFault;
use std::alloc::AllocError;
use thiserror::Error;
use wkt_any_core::GeometryFault;
use wkt_core::WktFault;

/// An input of a run.
#[derive(Clone, Copy, Debug, PartialEq, Eq)]
pub enum Input {
    /// The first of two geometries.
    First,
    /// The second of two geometries.
    Second,
    /// The left layer.
    Left,
    /// The right layer.
    Right,
    /// The list of edits.
    Edits,
    /// The layer of a command that reads only one.
    Layer,
    /// The geometry of a window.
    Window,
}

impl Input {
    ghost use Rattle.std.specs.Prelude.{◌≤◌, length};
    ghost use Rattle.run_core.specs.FaultTexts.{input_word};

    /// The name of the input in messages.
    pub fn word(self) -> &'static str
        // the name of the input in a fault's line
        ensures word { result.now ≡ input_word self }
        // at most 6 bytes
        ensures short { length result.now ≤ 6 }
    {
        match self {
            Input::First => "first",
            Input::Second => "second",
            Input::Left => "left",
            Input::Right => "right",
            Input::Edits => "edits",
            Input::Layer => "layer",
            Input::Window => "window",
        }
    }
}

/// Why a run failed. Rows are counted from 1, after the header.
#[derive(Clone, Copy, Debug, PartialEq, Eq, Error)]
pub enum RunFault {
    /// The file of an input can't be opened.
    #[error("{input}: cannot be opened", input = .0.word())]
    NoFile(Input),
    /// The file of an input can't be read.
    #[error("{input}: {1}", input = .0.word())]
    Read(Input, ReadFault),
    /// The text of a point, segment or rectangle can't be read.
    #[error("{input}: {1}", input = .0.word())]
    Wkt(Input, WktFault),
    /// The text of a geometry of any direction can't be read.
    #[error("{input}: {1}", input = .0.word())]
    Geometry(Input, GeometryFault),
    /// The edit of this row is refused.
    #[error("edits: row {0}: {1}")]
    Edit(u32, LayerFault),
    /// The layers can't be joined.
    #[error(transparent)]
    Join(JoinFault),
    /// The layers have more features than a picture may have.
    #[error("more than 100000 features to draw")]
    TooManyToDraw,
    /// Writing to the output failed.
    #[error("write failed")]
    Write,
    /// The file of the rows that were skipped can't be written.
    #[error("skip: cannot be written")]
    NotStored,
    /// Memory ran out.
    #[error("no memory")]
    Memory,
    /// The system provides no random keys for hashing ids.
    #[error("no random keys for hashing")]
    NoKeys,
}

impl From<JoinFault> for RunFault {
    ghost from_gives = { λ fault e. e ≡ run_faults.Join fault };

    fn from(fault: JoinFault) -> RunFault {
        RunFault::Join(fault)
    }
}

impl From<WriteFailed> for RunFault {
    ghost from_gives = { λ _ e. e ≡ run_faults.Write };

    fn from(_: WriteFailed) -> RunFault {
        RunFault::Write
    }
}

impl From<AllocError> for RunFault {
    ghost from_gives = { λ _ e. e ≡ run_faults.Memory };

    fn from(_: AllocError) -> RunFault {
        RunFault::Memory
    }
}
