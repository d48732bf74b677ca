//! Properties of geometries, of those that also have the distance of a join.

use layer_core::Geometry;
use near_core::Grown;
use run_core::Marks;
use std::alloc::{AllocError, Global};

/// A property of geometries, of those that also have a distance.
#[derive(Clone, Copy)]
pub(crate) struct GrownMarks<M> {
    pub(crate) marks: M,
}

impl<G: Geometry, M: Marks<G>> Marks<Grown<G>> for GrownMarks<M> {
    ghost use Rattle.near_run_core.specs.NearRuns.{IsGrownMarked};

    ghost is_marked = { λ grown. IsGrownMarked (M.is_marked grown.marks) };

    fn marks_any(&self) -> bool {
        self.marks.marks_any()
    }

    fn marks(&self, alloc: Global, grown: &Grown<G>) -> Result<bool, AllocError> {
        self.marks.marks(alloc, &grown.geometry)
    }
}
