//! How the files of layers read: their layout, and the texts of their geometries.

ghost use Rattle.std.specs.Prelude.{IfOk};
ghost use Rattle.format_core.specs.Formats.{SpellsAny};

use crate::layout::Layout;
use crate::text_fault::TextFault;
use geom_core::Shape;
use number_core::Limits;
use plane_core::Rings;
use std::alloc::{AllocError, Global};
use wkt_core::Scale;

/// How files of layers are laid out, and how the texts of their geometries, of one type, read.
pub trait Format: Copy + Send + Sync {
    ghost use Rattle.std.specs.Prelude.{◌≡◌, IfOk};
    ghost use Rattle.format_core.specs.Layouts.{Reading};

    /// A geometry that a text spells.
    type Geometry: layer_core::Geometry + Send;

    /// The layout and the limits of the files, and the geometry that a text spells, or the text's
    /// fault.
    ghost reads: { Self → Reading Self.Geometry };

    /// The layout of the files.
    fn layout(&self) -> Layout<'_>
        ensures { result ≡ (reads self.now).layout };

    /// Those of the files and their layers.
    fn limits(&self) -> Limits
        ensures { result ≡ (reads self.now).limits };

    /// Reads a text. The outer error means that memory ran out.
    fn read(
        &self,
        alloc: Global,
        text: &[u8],
    ) -> Result<Result<Self::Geometry, TextFault>, AllocError>
        ensures { IfOk result ((reads self.now).text text.now) };
}

/// Boxes, with coordinates at a scale.
impl Format for Scale {
    ghost use Rattle.std.specs.Prelude.{IfOk};
    ghost use Rattle.format_core.specs.Formats.{ReadsBox};

    type Geometry = Shape;

    ghost reads = { ReadsBox };

    fn layout(&self) -> Layout<'_> {
        Layout::plain()
    }

    fn limits(&self) -> Limits {
        Limits::Boxes
    }

    #[inline(always)]
    fn read(&self, alloc: Global, text: &[u8]) -> Result<Result<Shape, TextFault>, AllocError> {
        match wkt_core::read(text, *self) {
            Ok(shape) => Ok(Ok(shape)),
            Err(fault) => {
                let any = spells_any(alloc, text, *self)?;
                Ok(Err(TextFault::Wkt(fault, any)))
            }
        }
    }
}

/// Whether a text spells a geometry of any kind, with proper rings.
#[inline(never)]
fn spells_any(alloc: Global, text: &[u8], scale: Scale) -> Result<bool, AllocError>
    ensures { IfOk result (SpellsAny scale text.now) }
{
    let read = geometry_text_core::read(alloc, text, scale, Rings::Proper)?;
    Ok(read.is_ok())
}
