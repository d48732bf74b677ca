//! How the text of a geometry of any kind reads.

use crate::format::Format;
use crate::layout::Layout;
use crate::text_fault::TextFault;
use any_geometry_core::AnyGeometry;
use number_core::Limits;
use plane_core::Rings;
use std::alloc::{AllocError, Global};
use wkt_core::Scale;

/// Geometries of any kind, with coordinates at a scale, and rings as a rule allows them.
#[derive(Clone, Copy, PartialEq, Eq)]
pub struct AnyFormat {
    pub scale: Scale,
    pub rings: Rings,
}

impl Format for AnyFormat {
    ghost use Rattle.std.specs.Prelude.{IfOk};
    ghost use Rattle.format_core.specs.Formats.{ReadsAny};

    type Geometry = AnyGeometry;

    ghost reads = { λ format. ReadsAny format.scale format.rings };

    fn layout(&self) -> Layout<'_> {
        Layout::plain()
    }

    fn limits(&self) -> Limits {
        Limits::Any
    }

    fn read(
        &self,
        alloc: Global,
        text: &[u8],
    ) -> Result<Result<AnyGeometry, TextFault>, AllocError> {
        match geometry_text_core::read(alloc, text, self.scale, self.rings)? {
            Ok(geometry) => Ok(Ok(AnyGeometry::new(geometry, self.rings))),
            Err(fault) => Ok(Err(TextFault::Geometry(fault))),
        }
    }
}
