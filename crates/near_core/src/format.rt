//! How the text of a geometry reads for a join by distance.

use crate::grown::Grown;
use distance_core::Distance;
use format_core::{Format, Layout, Limits, TextFault};
use std::alloc::{AllocError, Global};

/// Geometries, as a format reads them, all with one distance.
#[derive(Clone, Copy, PartialEq, Eq)]
pub struct GrownFormat<F> {
    pub format: F,
    pub distance: Distance,
}

impl<F: Format> Format for GrownFormat<F> {
    ghost use Rattle.near_core.specs.Formats.{ReadsGrown};

    type Geometry = Grown<F::Geometry>;

    ghost reads = { λ f. ReadsGrown (F.reads f.format) f.distance };

    fn layout(&self) -> Layout<'_> {
        self.format.layout()
    }

    fn limits(&self) -> Limits {
        self.format.limits()
    }

    #[inline(always)]
    fn read(
        &self,
        alloc: Global,
        text: &[u8],
    ) -> Result<Result<Grown<F::Geometry>, TextFault>, AllocError> {
        match self.format.read(alloc, text)? {
            Ok(geometry) => Ok(Ok(Grown {
                geometry,
                distance: self.distance,
            })),
            Err(fault) => Ok(Err(fault)),
        }
    }
}
