//! The rows of a layer's file that are skipped, since their geometry can't be read.

use format_core::TextFault;
use layer_core::Id;
use row_core::ReadFault;

/// How a layer is read that has rows whose geometry can't be read.
#[derive(Clone, Copy, PartialEq, Eq)]
pub enum Unreadable {
    /// The first such row is a fault of the file.
    Refuse,
    /// The layer is read without these rows.
    Skip,
}

/// A row that is not in the layer, since its geometry can't be read.
#[derive(Drop)]
pub struct SkippedRow {
    /// The row's number in its file, from 1, after the header.
    pub row: u32,
    pub id: Id,
    pub fault: TextFault,
}

impl SkippedRow {
    ghost use Rattle.std.specs.Prelude.{◌≡◌};
    ghost use Rattle.row_core.specs.RowFaults.{fault_of_text};

    /// The fault of the file if it is read with this row.
    pub fn as_fault(&self) -> ReadFault
        ensures { result ≡ fault_of_text self.now.row self.now.fault }
    {
        ReadFault::of_text(self.row, self.fault)
    }
}

/// The layer or the features read of a file, and the rows that were skipped, in file order.
#[derive(Drop)]
pub struct WithSkipped<T> {
    pub read: T,
    pub skipped: Vec<SkippedRow>,
}
