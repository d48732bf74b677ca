//! What is computed once of a geometry that occurs in many pairs.

use std::alloc::{AllocError, Global};

/// Which geometries of a type `G` are large, and what the prepared form of each is, of a type `P`.
pub trait Preparation<G, P> {
    /// The prepared forms of a geometry, as contracts see them.
    ghost is_form: { G → P → Type 0 };

    /// The number of vertices of a geometry. One that has many is large.
    fn vertex_count(geometry: &G) -> usize;
}

/// How a geometry is prepared. Its form may borrow from it.
pub trait Prepare<'a, G, P>: Preparation<G, P> {
    ghost use Rattle.std.specs.Prelude.{IfOk};

    /// A prepared form of a geometry.
    ///
    /// # Errors
    /// If an allocation fails.
    fn prepare(alloc: Global, geometry: &'a G) -> Result<P, AllocError>
        ensures { IfOk result (Self.is_form geometry.now) };
}
