//! The single points of two geometries, and those of them that may be on an edge.

ghost use Rattle.std.specs.Prelude.{◌≡◌, ◌++◌, List, OnOk};
ghost use Rattle.plane_core.specs.declared.vertex.Vertex.{Vertex};
ghost use Rattle.noding_core.specs.ReadOffs.{points_by};
ghost use Rattle.arrangement_core.specs.Single.{HasAlong};

use edge_index_core::IndexedOutline;
use plane_core::{Edge, Kind, Vertex};
use std::alloc::AllocError;
use std::marker::Model;

/// The points of two geometries, as far as these consist of points. In contracts their value is the
/// list of them.
#[derive(Drop)]
pub(crate) struct Points<'a> {
    pub(crate) first: &'a IndexedOutline,
    pub(crate) second: &'a IndexedOutline,
}

impl<'a> Model for Points<'a> {
    ghost use Rattle.std.specs.Prelude.{List};
    ghost use Rattle.plane_core.specs.declared.vertex.Vertex.{Vertex};
    ghost use Rattle.noding_core.specs.ReadOffs.{outline_points};

    ghost Value = { List Vertex };

    ghost view = { λ p. outline_points p.first.now p.second.now };
}

/// Adds points of a geometry, if it consists of points, among them all that are on an edge.
fn push_along(found: &mut Vec<Vertex>, own: &IndexedOutline, e: &Edge) -> Result<(), AllocError>
    ensures { let points = points_by own.now.kind own.now.ends.items in
        OnOk result ((done : List Vertex) → HasAlong e.now done found.old.items
        → HasAlong e.now (done ++ points) found.new.items) }
{
    match own.outline().kind {
        Kind::Points => {
            let along = own.ends_along(e);
            found.extend_from_slice(along)?;
            Ok(())
        }
        Kind::Lines => Ok(()),
        Kind::Areas => Ok(()),
    }
}

/// Replaces vertices by points, among them all that are on an edge.
pub(crate) fn find_along(
    found: &mut Vec<Vertex>,
    points: &Points,
    e: &Edge,
) -> Result<(), AllocError>
    ensures { OnOk result (HasAlong e.now points.now found.new.items) }
{
    found.clear();
    push_along(found, points.first, e)?;
    push_along(found, points.second, e)?;
    Ok(())
}
