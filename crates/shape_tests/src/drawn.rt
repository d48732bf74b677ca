//! Geometries given by the coordinates of their vertices.

use plane_core::{Geometry, Kind, Vertex};
use std::alloc::{AllocError, Global};
use std::test::Fail;

/// The vertices of a point, a polyline or a ring.
pub type Path<'a> = &'a [(i64, i64)];

/// A kind with its points, polylines or rings.
pub type Drawn<'a> = (Kind, &'a [Path<'a>]);

/// The geometry of a kind with these paths.
pub fn geometry(alloc: Global, (kind, paths): Drawn<'_>) -> Result<Geometry, Fail> {
    let mut vertices = Vec::new(alloc);
    let mut ends = Vec::new(alloc);
    let mut end = 0u32;
    for path in paths {
        for (x, y) in *path {
            vertices.push(Vertex::new(*x, *y).ok_or("a coordinate out of range")?)?;
            end = end.wrapping_add(1);
        }
        ends.push(end)?;
    }
    Ok(Geometry::new(kind, ends, vertices).ok_or("no geometry")?)
}
