//! A matrix with each allocation refused in turn.

use arrangement_core::relate;
use plane_core::{Geometry, Kind, Vertex};
use std::alloc::{AllocError, Global};

/// A kind, the end of each path, and the coordinates of all vertices.
type Listed<'a> = (Kind, &'a [u32], &'a [(i64, i64)]);

/// The listed geometry, if it is valid.
fn geometry(alloc: Global, (kind, ends, all): Listed<'_>) -> Result<Option<Geometry>, AllocError> {
    let mut vertices = Vec::new(alloc);
    for (x, y) in all {
        match Vertex::new(*x, *y) {
            Some(v) => vertices.push(v)?,
            None => return Ok(None),
        }
    }
    let ends = Vec::from_slice(alloc, ends)?;
    Ok(Geometry::new(kind, ends, vertices))
}

/// The same, made again if an allocation fails.
fn geometry_at_last(alloc: Global, listed: Listed<'_>) -> Option<Geometry> {
    for _ in 0..10 {
        if let Ok(made) = geometry(alloc, listed) {
            return made;
        }
    }
    None
}

/// The matrix of two geometries, computed again if an allocation fails.
fn matrix_at_last(alloc: Global, a: &Geometry, b: &Geometry) -> Option<[u8; 9]> {
    for _ in 0..10 {
        if let Ok(matrix) = relate(alloc, a, b) {
            return Some(matrix.text());
        }
    }
    None
}

/// The matrix of two listed geometries.
fn matrix_of(alloc: Global, first: Listed<'_>, second: Listed<'_>) -> Option<[u8; 9]> {
    let a = geometry_at_last(alloc, first)?;
    let b = geometry_at_last(alloc, second)?;
    matrix_at_last(alloc, &a, &b)
}

/// Passes with each allocation failing in turn: after a failure, the same call gives the same
/// matrix.
#[test]
fn refused_matrix(rt: HostRuntime) {
    let first: Listed<'_> = (Kind::Areas, &[4], &[(0, 0), (4, 0), (0, 4), (0, 0)]);
    let second: Listed<'_> = (Kind::Lines, &[2, 4], &[(1, 1), (1, 5), (1, 5), (3, 5)]);
    assert!(&rt; matrix_of(rt.alloc(), first, second) == Some(*b"1020F1102"));
}
