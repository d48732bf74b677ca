//! How a command opens its files.

ghost use Rattle.std.specs.Prelude.{◌≡◌, ℕ, List, Option, None, false, IfOk, IfSome};
ghost use Rattle.command_core.specs.Opening.{Opens};

use row_core::Source;
use thiserror::Error;

/// A file can't be opened.
#[derive(Clone, Copy, Debug, PartialEq, Eq, Error)]
#[error("cannot be opened")]
pub struct NotOpened;

/// Opens files by their paths.
pub trait Inputs {
    type File: Source + Drop;

    /// The content of the file at each path, if known: its bytes, or `None` if it can't be opened.
    ghost files: { Self → Option (List ℕ → Option (List ℕ)) } = { λ _. None };

    /// Opens the file at a path, for reading from its start.
    fn open(&self, path: &str) -> Result<Self::File, NotOpened>
        // of whatever opens files, it answers what lies at the path
        ensures file { IfSome (files self.now) (λ at.
            Opens Self.File.remaining (at path.now) result) }
        // a file that hasn't failed
        ensures fresh { IfOk result (λ file. Self.File.has_failed file ≡ false) };
}
