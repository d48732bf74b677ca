//! The index of a geometry for its distances to others.

ghost use Rattle.std.specs.Prelude.{IfOk, OnOk};
ghost use Rattle.plane_core.specs.Figures.{IsGeometry};
ghost use Rattle.geometry_distance_core.specs.Measured.{IsSkeletonOf, ArePointEdges};

use edge_index_core::IndexedOutline;
use geom_core::Shape;
use plane_core::{Edge, Geometry, Kind, Outline, Vertex};
use std::alloc::{AllocError, Global};

/// The box of a geometry and an index of its edges. Its single points are indexed as edges without
/// a length.
#[derive(Drop)]
pub struct GeometryIndex {
    pub(crate) edges: IndexedOutline,
    pub(crate) bounds: Shape,
}

impl GeometryIndex {
    ghost use Rattle.geometry_distance_core.specs.Measured.{IsIndexOf};

    /// Indexes a geometry.
    ///
    /// # Errors
    /// If an allocation fails.
    pub fn new(alloc: Global, geometry: &Geometry) -> Result<GeometryIndex, AllocError>
        ensures { IfOk result (IsIndexOf geometry.now) }
    {
        let bounds = geometry.bounds();
        let skeleton = skeleton_of(alloc, geometry)?;
        let edges = IndexedOutline::new(alloc, skeleton)?;
        Ok(GeometryIndex { edges, bounds })
    }
}

/// Single points as edges without a length.
fn point_edges(alloc: Global, points: &[Vertex]) -> Result<Vec<Edge>, AllocError>
    ensures { IfOk result (λ es. ArePointEdges points.now es.items) }
{
    let mut edges = Vec::with_capacity(alloc, points.len())?;
    for v in points {
        edges.push(Edge { a: *v, b: *v })?;
    }
    Ok(edges)
}

/// The outline of a geometry, with single points as edges.
fn skeleton_of(alloc: Global, geometry: &Geometry) -> Result<Outline, AllocError>
    ensures skeleton { IfOk result (IsSkeletonOf geometry.now) }
    ensures geometry { OnOk result (IsGeometry geometry.now) }
{
    let outline = geometry.outline(alloc)?;
    match outline.kind {
        Kind::Points => Ok(Outline {
            kind: Kind::Points,
            edges: point_edges(alloc, &outline.ends)?,
            ends: outline.ends,
        }),
        Kind::Lines | Kind::Areas => Ok(outline),
    }
}
