//! The outline of a geometry: its edges with its points or ends, which decide where a point lies.

ghost use Rattle.std.specs.Prelude.{◌≡◌, ℕ, List, [], ◌∷◌, ◌++◌};
ghost use Rattle.plane_core.specs.declared.edge.Edge.{Edge};
ghost use Rattle.plane_core.specs.declared.vertex.Vertex.{Vertex};
ghost use Rattle.plane_core.specs.Points.{Point};
ghost use Rattle.plane_core.specs.Places.{point_of};
ghost use Rattle.plane_core.specs.Outlines.{outline_part, outline_above, count_at};
ghost use Rattle.plane_core.specs.Figures.{points_part, areas_part};
ghost use Rattle.plane_core.specs.Outlines.{IsScan, inside, ends_part, rings_above};

use crate::edge::Edge;
use crate::part::Part;
use crate::place::Place;
use crate::spot::Spot;
use crate::vertex::Vertex;

/// The kind of a geometry, by its dimension.
#[derive(Clone, Copy, PartialEq, Eq)]
pub enum Kind {
    /// Single points.
    Points,
    /// Polylines.
    Lines,
    /// The rings of polygons, both shells and holes.
    Areas,
}

/// The edges of a geometry, with its points or both ends of each of its polylines.
#[derive(Drop)]
pub struct Outline {
    pub kind: Kind,
    pub edges: Vec<Edge>,
    pub ends: Vec<Vertex>,
}

/// The part of a geometry in which a point lies, and the part in which the points just above it
/// lie.
#[derive(Clone, Copy, PartialEq, Eq)]
pub struct Standing {
    pub part: Part,
    pub above: Part,
}

/// How a set of edges lies to a point.
#[derive(Clone, Copy, PartialEq, Eq)]
pub struct Scan {
    /// The point is on one of the edges.
    pub is_on: bool,
    /// The number of edges that pass strictly below the point, excluding their right ends, is odd.
    pub is_odd_below: bool,
    /// The same, including edges that pass through the point.
    pub is_odd_at_or_below: bool,
}

impl Scan {
    /// The scan of no edges.
    pub fn empty() -> Scan
        ensures { (p : Point) → IsScan [] p result }
    {
        Scan {
            is_on: false,
            is_odd_below: false,
            is_odd_at_or_below: false,
        }
    }

    /// The scan with one more edge.
    #[inline]
    pub fn with(self, e: &Edge, p: &Spot) -> Scan
        ensures { let q = point_of p.now.place in
            (es : List Edge) → IsScan es q self → IsScan (es ++ e.now ∷ []) q result }
    {
        let lie = p.lie_of(e);
        Scan {
            is_on: self.is_on | lie.is_on,
            is_odd_below: self.is_odd_below != lie.is_below,
            is_odd_at_or_below: self.is_odd_at_or_below != lie.is_at_or_below,
        }
    }
}

/// The scan of some edges.
fn scan_of(edges: &[Edge], p: &Spot) -> Scan
    ensures { IsScan edges.now (point_of p.now.place) result }
{
    let mut scan = Scan::empty();
    for e in edges {
        scan = scan.with(e, p);
    }
    scan
}

/// The number of vertices that equal a point.
fn count_at(vertices: &[Vertex], p: &Place) -> usize
    ensures { result ≡ count_at vertices.now (point_of p.now) }
{
    vertices.iter().filter(|v| p.is_at(v)).count()
}

/// The part of rings for a point that is on no edge, by whether an odd number of edges is below it.
fn inside(is_odd: bool) -> Part
    ensures { result ≡ inside is_odd }
{
    if is_odd {
        Part::Interior
    } else {
        Part::Exterior
    }
}

/// The standing of a point in single points, from the number of those that equal it.
fn points_standing(here: usize) -> Standing
    ensures part { (points : List Vertex) (p : Point) → here ≡ count_at points p
        → result.part ≡ points_part points p }
    ensures above { result.above ≡ Part.Exterior }
{
    let part = if here > 0 {
        Part::Interior
    } else {
        Part::Exterior
    };
    Standing {
        part,
        above: Part::Exterior,
    }
}

/// The standing of a point in polylines, from the number of their ends that equal it and a scan of
/// their edges.
fn lines_standing(here: usize, scan: Scan) -> Standing
    ensures part { (ends : List Vertex) (es : List Edge) (p : Point) → here ≡ count_at ends p
        → IsScan es p scan → result.part ≡ ends_part ends es p }
    ensures above { result.above ≡ Part.Exterior }
{
    let part = if here % 2 == 1 {
        Part::Boundary
    } else if scan.is_on {
        Part::Interior
    } else {
        Part::Exterior
    };
    Standing {
        part,
        above: Part::Exterior,
    }
}

/// The standing of a point in rings, from a scan of their edges.
fn areas_standing(scan: Scan) -> Standing
    ensures part { (es : List Edge) (p : Point) → IsScan es p scan → result.part ≡ areas_part es p }
    ensures above { (es : List Edge) (p : Point) → IsScan es p scan
        → result.above ≡ rings_above es p }
{
    let part = if scan.is_on {
        Part::Boundary
    } else {
        inside(scan.is_odd_below)
    };
    Standing {
        part,
        above: inside(scan.is_odd_at_or_below),
    }
}

impl Outline {
    /// The scan of all edges at a point.
    pub fn scan_at(&self, p: &Place) -> Scan
        ensures { IsScan self.now.edges.items (point_of p.now) result }
    {
        let spot = Spot::of(p);
        scan_of(&self.edges, &spot)
    }

    /// The number of the points, or of the ends of polylines, that equal a point.
    pub fn count_at(&self, p: &Place) -> usize
        ensures { result ≡ count_at self.now.ends.items (point_of p.now) }
    {
        count_at(&self.ends, p)
    }

    /// The part in which a point lies, and the part just above it.
    pub fn standing_at(&self, p: &Place) -> Standing
        // the part of the geometry in which a point lies
        ensures part { result.part ≡ outline_part self.now (point_of p.now) }
        // the part of all points just above it; by all edges and ends, or by that scan and that
        // number
        ensures above { result.above ≡ outline_above self.now (point_of p.now) }
    {
        self.standing_by(self.scan_at(p), self.count_at(p))
    }

    /// The same, from a scan of all edges at the point and the number of the points, or of the ends
    /// of polylines, that equal it.
    pub fn standing_by(&self, scan: Scan, here: usize) -> Standing
        // as of `Outline::standing_at`
        ensures part { (p : Point) → IsScan self.now.edges.items p scan
            → here ≡ count_at self.now.ends.items p → result.part ≡ outline_part self.now p }
        ensures above { (p : Point) → IsScan self.now.edges.items p scan
            → result.above ≡ outline_above self.now p }
    {
        match self.kind {
            Kind::Points => points_standing(here),
            Kind::Lines => lines_standing(here, scan),
            Kind::Areas => areas_standing(scan),
        }
    }
}
