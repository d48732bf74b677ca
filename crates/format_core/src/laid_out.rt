//! Formats whose files have a layout of their own.

use crate::format::Format;
use crate::layout::Layout;
use crate::text_fault::TextFault;
use number_core::Limits;
use std::alloc::{AllocError, Global};

/// The geometries of a format, in files with this layout.
#[derive(Clone, Copy, PartialEq, Eq)]
pub struct LaidOut<'a, F> {
    pub layout: Layout<'a>,
    pub format: F,
}

impl<F: Format> Format for LaidOut<'_, F> {
    ghost use Rattle.format_core.specs.Layouts.{laid_out};

    type Geometry = F::Geometry;

    ghost reads = { λ laid. laid_out laid.layout (F.reads laid.format) };

    fn layout(&self) -> Layout<'_> {
        self.layout
    }

    fn limits(&self) -> Limits {
        self.format.limits()
    }

    #[inline(always)]
    fn read(
        &self,
        alloc: Global,
        text: &[u8],
    ) -> Result<Result<F::Geometry, TextFault>, AllocError> {
        self.format.read(alloc, text)
    }
}
