//! The faults of reading a file.

use crate::beginning::Beginning;
use format_core::TextFault;
use layer_core::LayerFault;
use std::alloc::AllocError;
use thiserror::Error;
use wkt_any_core::GeometryFault;
use wkt_core::WktFault;

/// Why a file can't be read. Rows are counted from 1, after the header.
#[derive(Clone, Copy, Debug, PartialEq, Eq, Error)]
pub enum ReadFault {
    /// A read failed.
    #[error("read failed")]
    Io,
    /// The file has more than [`crate::max_file_bytes`] bytes.
    #[error("file is too long")]
    TooLong,
    /// The file doesn't begin with the names of its columns, but with this.
    #[error("wrong header")]
    Header(Beginning),
    /// This row doesn't have the fields of its kind of file.
    #[error("row {0}: wrong fields")]
    Row(u32),
    /// The geometry of this row can't be read as a box; whether it can be as one of any kind.
    #[error("row {0}: {1}")]
    Wkt(u32, WktFault, bool),
    /// The geometry of this row can't be read as one of any kind.
    #[error("row {0}: {1}")]
    Geometry(u32, GeometryFault),
    /// The layer refuses this row.
    #[error("row {0}: {1}")]
    Layer(u32, LayerFault),
    /// Memory ran out.
    #[error("no memory")]
    Memory,
}

impl ReadFault {
    ghost use Rattle.std.specs.Prelude.{◌≡◌, ◌≢◌, ◌≤◌, length};
    ghost use Rattle.row_core.specs.FaultTexts.{cause_text, row_of};
    ghost use Rattle.row_core.specs.RowFaults.{fault_of_text};
    ghost use Rattle.row_core.specs.RowFaults.{fault_of_row};

    /// The fault of a row that the layer refuses. Lack of memory is no fault of the row.
    pub fn of_row(number: u32, fault: LayerFault) -> ReadFault
        // that of a row which a layer refuses, or whose geometry's text has a fault
        ensures fault { result ≡ fault_of_row number fault }
        // never `Io`
        ensures no_io { result ≢ ReadFault.Io }
    {
        match fault {
            LayerFault::Memory => ReadFault::Memory,
            _ => ReadFault::Layer(number, fault),
        }
    }

    /// The fault of a row whose geometry can't be read.
    pub fn of_text(number: u32, fault: TextFault) -> ReadFault
        // as of `ReadFault::of_row`
        ensures fault { result ≡ fault_of_text number fault }
        ensures no_io { result ≢ ReadFault.Io }
    {
        match fault {
            TextFault::Wkt(fault, any) => ReadFault::Wkt(number, fault, any),
            TextFault::Geometry(fault) => ReadFault::Geometry(number, fault),
        }
    }

    /// The number of the row at fault, if there is one.
    pub fn row(&self) -> Option<u32>
        ensures { result ≡ row_of self.now }
    {
        match self {
            ReadFault::Row(row) | ReadFault::Layer(row, _) => Some(*row),
            ReadFault::Wkt(row, ..) | ReadFault::Geometry(row, _) => Some(*row),
            ReadFault::Io | ReadFault::TooLong | ReadFault::Memory => None,
            ReadFault::Header(_) => None,
        }
    }

    /// The fault in a few words, at most 70 bytes, without the row's number.
    pub fn text(&self) -> &'static str
        // the words of the fault, without the row
        ensures text { result.now ≡ cause_text self.now }
        // at most 70 bytes
        ensures short { length result.now ≤ 70 }
    {
        match self {
            ReadFault::Io => "read failed",
            ReadFault::TooLong => "file is too long",
            ReadFault::Header(_) => "wrong header",
            ReadFault::Row(_) => "wrong fields",
            ReadFault::Wkt(_, fault, _) => fault.text(),
            ReadFault::Geometry(_, fault) => fault.text(),
            ReadFault::Layer(_, fault) => fault.text(),
            ReadFault::Memory => "no memory",
        }
    }
}

impl From<AllocError> for ReadFault {
    ghost use Rattle.std.specs.Prelude.{◌≡◌};
    ghost use Rattle.row_core.specs.declared.read_fault.ReadFault.TheVariants.{Memory};

    ghost from_gives = { λ _ fault. fault ≡ Memory };

    fn from(_error: AllocError) -> ReadFault {
        ReadFault::Memory
    }
}
