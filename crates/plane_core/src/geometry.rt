//! Points, polylines and areas, as one list of vertices.

ghost use Rattle.std.specs.Prelude.{◌≡◌, ◌++◌, ◌↔◌, ◌<◌, All, List, length, OnOk, IfOk, IsSome};
ghost use Rattle.std.specs.Prelude.{IfSome};
ghost use Rattle.std.specs.List.{flat_map, slice_index_or};
ghost use Rattle.geom_core.specs.declared.shape.Shape.{Shape};
ghost use Rattle.geom_core.specs.Cells.{IsIn};
ghost use Rattle.plane_core.specs.declared.vertex.Vertex.{Vertex};
ghost use Rattle.plane_core.specs.Figures.{Figure, IsGeometry, edges, dim_of};
ghost use Rattle.plane_core.specs.Outlines.{path_ends, IsOutlineOf};
ghost use Rattle.plane_core.specs.Stored.{paths_of, stored_figure, AreCuts, IsStored};
ghost use Rattle.plane_core.specs.Vertices.{paths_in, vertices_of, HoldsVertex};

use crate::check::is_stored;
use crate::edge::Edge;
use crate::envelope::envelope_of;
use crate::outline::{Kind, Outline};
use crate::path::{edge_at, last_or};
use crate::stored_paths::{path_at, path_count};
use crate::vertex::Vertex;
use geom_core::Shape;
use std::alloc::{AllocError, Global};
use std::marker::Model;

/// Points, polylines, or the rings of polygons: the concatenated vertices of all paths, and the end
/// of each path. Points have no ends. A layer holds very many geometries, so that neither list has
/// room for more.
#[derive(Drop)]
pub struct Geometry {
    kind: Kind,
    ends: Vec<u32>,
    vertices: Vec<Vertex>,
}

impl Model for Geometry {
    ghost Value = { Figure };

    ghost view = { λ g. stored_figure g.kind g.ends.items g.vertices.items };

    ghost invariant = { λ g. IsStored g.kind g.ends.items g.vertices.items };
}

/// Adds the edges of a path.
fn push_edges(found: &mut Vec<Edge>, path: &[Vertex]) -> Result<(), AllocError>
    ensures { OnOk result (found.new.items ≡ found.old.items ++ edges path.now) }
{
    for i in 1..path.len() {
        let e = edge_at(path, i);
        found.push(e)?;
    }
    Ok(())
}

/// Adds the first and the last vertex of a path.
fn push_ends(found: &mut Vec<Vertex>, path: &[Vertex]) -> Result<(), AllocError>
    ensures { OnOk result (found.new.items ≡ found.old.items ++ path_ends path.now) }
{
    if let Some((first, rest)) = path.split_first() {
        let last = last_or(*first, rest);
        found.push(*first)?;
        found.push(last)?;
    }
    Ok(())
}

/// Adds the edges of all paths.
fn push_all_edges(
    found: &mut Vec<Edge>,
    ends: &[u32],
    vertices: &[Vertex],
) -> Result<(), AllocError>
    requires { AreCuts 0 ends.now (length vertices.now) }
    ensures { let paths = paths_of 0 ends.now vertices.now in
        OnOk result (found.new.items ≡ found.old.items ++ flat_map edges paths) }
{
    let mut start = 0;
    for end in ends {
        let next = *end as usize;
        push_edges(found, &vertices[start..next])?;
        start = next;
    }
    Ok(())
}

/// Adds the first and the last vertex of each path.
fn push_all_ends(
    found: &mut Vec<Vertex>,
    ends: &[u32],
    vertices: &[Vertex],
) -> Result<(), AllocError>
    requires { AreCuts 0 ends.now (length vertices.now) }
    ensures { let paths = paths_of 0 ends.now vertices.now in
        OnOk result (found.new.items ≡ found.old.items ++ flat_map path_ends paths) }
{
    let mut start = 0;
    for end in ends {
        let next = *end as usize;
        push_ends(found, &vertices[start..next])?;
        start = next;
    }
    Ok(())
}

/// The number of edges of paths, for which room is reserved: one fewer than vertices in each.
fn edge_count(ends: &[u32], vertices: &[Vertex]) -> usize {
    vertices.len().saturating_sub(ends.len())
}

/// The outline of polylines.
fn lines_outline(alloc: Global, cuts: &[u32], vertices: &[Vertex]) -> Result<Outline, AllocError>
    requires { AreCuts 0 cuts.now (length vertices.now) }
    ensures { IfOk result (IsOutlineOf (stored_figure Kind.Lines cuts.now vertices.now)) }
{
    let mut edges = Vec::with_capacity(alloc, edge_count(cuts, vertices))?;
    push_all_edges(&mut edges, cuts, vertices)?;
    let mut ends = Vec::with_capacity(alloc, cuts.len().saturating_mul(2))?;
    push_all_ends(&mut ends, cuts, vertices)?;
    Ok(Outline {
        kind: Kind::Lines,
        edges,
        ends,
    })
}

/// The outline of rings.
fn areas_outline(alloc: Global, cuts: &[u32], vertices: &[Vertex]) -> Result<Outline, AllocError>
    requires { AreCuts 0 cuts.now (length vertices.now) }
    ensures { IfOk result (IsOutlineOf (stored_figure Kind.Areas cuts.now vertices.now)) }
{
    let mut edges = Vec::with_capacity(alloc, edge_count(cuts, vertices))?;
    push_all_edges(&mut edges, cuts, vertices)?;
    Ok(Outline {
        kind: Kind::Areas,
        edges,
        ends: Vec::new(alloc),
    })
}

/// The same list, without room for more.
fn fitted<T>(mut items: Vec<T>) -> Vec<T>
    ensures { result.items ≡ items.items }
{
    items.shrink_to_fit();
    items
}

/// The ends of paths, if the kind has any.
fn needed_ends(kind: Kind, mut ends: Vec<u32>) -> Vec<u32>
    ensures stored { (vs : List Vertex) → IsStored kind ends.items vs
        → IsStored kind result.items vs }
    ensures figure { (vs : List Vertex)
        → stored_figure kind result.items vs ≡ stored_figure kind ends.items vs }
{
    match kind {
        Kind::Points => {
            ends.clear();
            ends
        }
        Kind::Lines => ends,
        Kind::Areas => ends,
    }
}

/// The outline of single points.
fn points_outline(alloc: Global, cuts: &[u32], vertices: &[Vertex]) -> Result<Outline, AllocError>
    ensures { IfOk result (IsOutlineOf (stored_figure Kind.Points cuts.now vertices.now)) }
{
    Ok(Outline {
        kind: Kind::Points,
        edges: Vec::new(alloc),
        ends: Vec::from_slice(alloc, vertices)?,
    })
}

impl Geometry {
    /// The geometry of a kind from the concatenated vertices of its paths and the end of each path,
    /// or `None` if these form none.
    ///
    /// For points, each vertex is a point, and the ends don't matter. A polyline has at least two
    /// vertices, and consecutive ones differ; a ring is a polyline whose last vertex equals its
    /// first. There must be at least one path.
    pub fn new(kind: Kind, ends: Vec<u32>, vertices: Vec<Vertex>) -> Option<Geometry>
        // Some exactly for points, for polylines without two equal vertices in a row, and for rings
        // that end where they begin as well
        ensures some { IsSome result ↔ IsStored kind ends.items vertices.items }
        // the geometry is that of these vertices
        ensures figure { IfSome result (λ g. g ≡ stored_figure kind ends.items vertices.items) }
    {
        if is_stored(kind, &ends, &vertices) {
            Some(Geometry {
                kind,
                ends: fitted(needed_ends(kind, ends)),
                vertices: fitted(vertices),
            })
        } else {
            None
        }
    }

    /// The dimension: 0 for points, 1 for polylines, 2 for areas.
    pub fn dim(&self) -> u8
        ensures { result ≡ dim_of self.now }
    {
        match self.kind {
            Kind::Points => 0,
            Kind::Lines => 1,
            Kind::Areas => 2,
        }
    }

    /// The number of vertices of all paths. A ring's last vertex, which equals its first, counts
    /// too.
    pub fn vertex_count(&self) -> usize
        ensures { result ≡ length (vertices_of self.now) }
    {
        self.vertices.as_slice().len()
    }

    /// The number of paths: of polylines or rings, or 1 for points.
    pub fn path_count(&self) -> usize
        ensures { result ≡ length (paths_in self.now) }
    {
        path_count(self.kind, &self.ends, &self.vertices)
    }

    /// The vertices of the path at this index.
    pub fn path(&self, i: usize) -> &[Vertex]
        requires { i < length (paths_in self.now) }
        ensures { (none : List Vertex) → result.now ≡ slice_index_or (paths_in self.now) i none }
    {
        path_at(self.kind, &self.ends, &self.vertices, i)
    }

    /// The smallest shape that contains all vertices, from their least to their greatest
    /// coordinates.
    pub fn bounds(&self) -> Shape
        // a shape that contains all vertices
        ensures holds { All (HoldsVertex result) (vertices_of self.now) }
        // each other that does so contains it
        ensures least { (s : Shape) → All (HoldsVertex s) (vertices_of self.now) → IsIn result s }
    {
        envelope_of(&self.vertices)
    }

    /// The edges of the geometry, with its points or the ends of its polylines.
    pub fn outline(&self, alloc: Global) -> Result<Outline, AllocError>
        // its edges, and its points or the ends of its polylines
        ensures outline { IfOk result (IsOutlineOf self.now) }
        // it is a geometry
        ensures geometry { OnOk result (IsGeometry self.now) }
    {
        match self.kind {
            Kind::Points => points_outline(alloc, &self.ends, &self.vertices),
            Kind::Lines => lines_outline(alloc, &self.ends, &self.vertices),
            Kind::Areas => areas_outline(alloc, &self.ends, &self.vertices),
        }
    }
}
