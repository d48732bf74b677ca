//! How a command stores a file.

ghost use Rattle.std.specs.Prelude.{◌≡◌, None, OnOk, OnErr};
ghost use Rattle.command_core.specs.Storing.{Stored, Stores};

use thiserror::Error;

/// A file can't be written.
#[derive(Clone, Copy, Debug, PartialEq, Eq, Error)]
#[error("cannot be written")]
pub struct NotStored;

/// Stores files by their paths.
pub trait Outputs {
    /// The files that were stored, in order, if they are known.
    ghost stored: { Self → Stored } = { λ _. None };

    /// Stores these bytes as the file at a path, in place of what is there. A file is stored whole
    /// or not at all.
    fn store(&mut self, path: &str, bytes: &[u8]) -> Result<(), NotStored>
        // of whatever stores files, the file at the path has exactly these bytes
        ensures ok { OnOk result (Stores (stored self.old) (stored self.new) path.now bytes.now) }
        // otherwise nothing is stored
        ensures err { OnErr result (stored self.new ≡ stored self.old) };
}
