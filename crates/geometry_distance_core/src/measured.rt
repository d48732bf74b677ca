//! Geometries with an index, and their distances.

ghost use Rattle.std.specs.Prelude.{◌≡◌, ◌↔◌, ◌<◌, List, length, IfSome, IsSome};
ghost use Rattle.std.specs.Prelude.{IsTrue, ◌⊎◌};
ghost use Rattle.std.specs.List.{list_any, slice_index_or};
ghost use Rattle.plane_core.specs.declared.vertex.Vertex.{Vertex};
ghost use Rattle.plane_core.specs.Figures.{IsGeometry, dim_of, part_of};
ghost use Rattle.plane_core.specs.Points.{at};
ghost use Rattle.plane_core.specs.Vertices.{paths_in};
ghost use Rattle.distance_core.specs.Units.{units_of};
ghost use Rattle.distance_core.specs.Distances.{AreWithin};
ghost use Rattle.distance_core.specs.ShapePoints.{IsPointOf};
ghost use Rattle.distance_core.specs.Fractions.{IsSquareOf};
ghost use Rattle.geometry_distance_core.specs.NearestPairs.{IsNearest};
ghost use Rattle.geometry_distance_core.specs.Measured.{IsIndexOf, of_skeletons, starts_in};
ghost use Rattle.geometry_distance_core.specs.Measured.{is_within};
ghost use Rattle.geometry_distance_core.specs.Measured.{HasStartIn, HasStartInArea};

use crate::index::GeometryIndex;
use crate::nearest::Nearest;
use crate::search::with_outline;
use distance_core::{Distance, SquaredFraction, squared_distance};
use edge_index_core::bounds_of;
use plane_core::{Geometry, Part, Place, Vertex};
use std::marker::Model;

/// A geometry with its index, for its distances to any number of others. In contracts its value is
/// the geometry.
#[derive(Drop)]
pub struct MeasuredGeometry<'a> {
    geometry: &'a Geometry,
    index: &'a GeometryIndex,
}

impl<'a> Model for MeasuredGeometry<'a> {
    ghost use Rattle.plane_core.specs.Figures.{Figure};
    ghost use Rattle.geometry_distance_core.specs.Measured.{IsIndexOf};

    ghost Value = { Figure };

    ghost view = { λ m. m.geometry.now };

    ghost invariant = { λ m. IsIndexOf m.geometry.now m.index.now };
}

impl<'a> MeasuredGeometry<'a> {
    /// A geometry with its index.
    pub fn new(geometry: &'a Geometry, index: &'a GeometryIndex) -> MeasuredGeometry<'a>
        requires { IsIndexOf geometry.now index.now }
        ensures { result ≡ geometry.now }
    {
        MeasuredGeometry { geometry, index }
    }

    /// Whether one of some vertices is a point of the geometry.
    fn has_any(&self, vertices: &[Vertex]) -> bool
        ensures { result ≡ list_any (λ v. is_within (part_of self.now (at v))) vertices.now }
    {
        vertices.iter().any(|v| self.has(v))
    }

    /// Whether a vertex is a point of the geometry.
    fn has(&self, v: &Vertex) -> bool
        ensures { result ≡ is_within (part_of self.now (at v.now)) }
    {
        match self.index.edges.standing_at(&Place::at(v)).part {
            Part::Interior | Part::Boundary => true,
            Part::Exterior => false,
        }
    }

    /// The single points, if the path is of such, or the first vertex of the path at an index.
    fn starts(&self, i: usize) -> &[Vertex]
        requires { i < length (paths_in self.now) }
        ensures { (none : List Vertex) → result.now
            ≡ starts_in (dim_of self.now) (slice_index_or (paths_in self.now) i none) }
    {
        let path = self.geometry.path(i);
        if self.geometry.dim() == 0 {
            path
        } else {
            &path[..path.len().min(1)]
        }
    }

    /// Whether a single point of another geometry, or the first vertex of one of its paths, is a
    /// point of this one.
    fn has_start_of(&self, other: &MeasuredGeometry) -> bool
        ensures { IsTrue result ↔ HasStartIn other.now self.now }
    {
        for i in 0..other.geometry.path_count() {
            if self.has_any(other.starts(i)) {
                return true;
            }
        }
        false
    }

    /// Whether the geometry is an area that has such a vertex.
    fn contains_start_of(&self, other: &MeasuredGeometry) -> bool
        ensures { IsTrue result ↔ HasStartInArea other.now self.now }
    {
        self.geometry.dim() == 2 && self.has_start_of(other)
    }

    /// The least squared distance of the edges and those of another geometry, if it is at most the
    /// square of a distance.
    fn nearest_edges(&self, other: &MeasuredGeometry, distance: Distance) -> Nearest
        ensures distance { result.distance ≡ distance }
        ensures nearest { IsNearest result (of_skeletons self.now other.now) }
    {
        let mut nearest = Nearest::of_none(distance);
        for e in self.index.edges.edges() {
            let bounds = bounds_of(e);
            let is_far = nearest.is_past(squared_distance(&bounds, &other.index.bounds));
            if is_far {
                continue;
            }
            nearest = with_outline(nearest, e, &bounds, &other.index.edges);
        }
        nearest
    }
}

/// Whether one of two geometries is an area that has such a vertex of the other.
fn has_start_in_area(first: &MeasuredGeometry, second: &MeasuredGeometry) -> bool
    ensures { IsTrue result
        ↔ HasStartInArea first.now second.now ⊎ HasStartInArea second.now first.now }
{
    if second.contains_start_of(first) {
        return true;
    }
    first.contains_start_of(second)
}

/// The least squared distance of the edges of two geometries, if it is at most the square of a
/// distance, found by the edges of the one that has fewer.
fn nearest_of(first: &MeasuredGeometry, second: &MeasuredGeometry, distance: Distance) -> Nearest
    ensures distance { result.distance ≡ distance }
    ensures nearest { IsNearest result (of_skeletons first.now second.now) }
    ensures geometries { IsGeometry first.now × IsGeometry second.now }
{
    if first.index.edges.edges().len() <= second.index.edges.edges().len() {
        first.nearest_edges(second, distance)
    } else {
        second.nearest_edges(first, distance)
    }
}

/// The squared distance of two closed geometries, if they are at most a distance apart: 0 if they
/// share a point.
///
/// They share a point if their edges and single points do, or if one of them is an area that has a
/// single point of the other, or the first vertex of a path of it. Otherwise they are as far apart
/// as their edges and single points.
pub fn square_within(
    first: &MeasuredGeometry,
    second: &MeasuredGeometry,
    distance: Distance,
) -> Option<SquaredFraction>
    // a fraction exactly where the closed geometries are at most the distance apart, and none
    // otherwise
    ensures within { IsSome result
        ↔ AreWithin (units_of distance) (IsPointOf first.now) (IsPointOf second.now) }
    // it is the least squared distance of a point of the one and a point of the other, so 0 where
    // they share a point
    ensures square { IfSome result
        (λ square. IsSquareOf square (IsPointOf first.now) (IsPointOf second.now)) }
{
    let nearest = nearest_of(first, second, distance);
    if nearest.is_zero() {
        return nearest.square;
    }
    if has_start_in_area(first, second) {
        Some(SquaredFraction::whole(0))
    } else {
        nearest.square
    }
}
