//! Reading the geometry of a row of a file of edits.

ghost use Rattle.std.specs.Prelude.{◌≡◌, ◌≢◌, Ok, Err, IfOk, IfErr};
ghost use Rattle.row_core.specs.RowFaults.{HasTextFault};

use crate::read_fault::ReadFault;
use format_core::Format;
use std::alloc::Global;

/// A reader of rows of edits: the allocator, and the format of their geometries.
#[derive(Clone, Copy)]
pub struct RowReader<F> {
    pub alloc: Global,
    pub format: F,
}

impl<F: Format> RowReader<F> {
    /// The geometry of the row with this number.
    #[inline(always)]
    pub fn geometry(self, number: u32, text: &[u8]) -> Result<F::Geometry, ReadFault>
        // what a text reads as by the format
        ensures reads { IfOk result (λ shape. (F.reads self.format).text text.now (Ok shape)) }
        // its fault, with the row's number, unless memory is refused
        ensures fault { IfErr result (λ fault. fault ≢ ReadFault.Memory
            → HasTextFault (F.reads self.format).text number text.now fault) }
        // never `Io`
        ensures no_io { result ≢ Err ReadFault.Io }
    {
        match self.format.read(self.alloc, text)? {
            Ok(shape) => Ok(shape),
            Err(fault) => Err(ReadFault::of_text(number, fault)),
        }
    }
}
