//! The geometry that the paths of a text form.

ghost use Rattle.std.specs.Prelude.{◌≡◌, length, IfSome, IfNone};
ghost use Rattle.std.specs.List.{list_all};
ghost use Rattle.plane_core.specs.Figures.{IsGeometry};
ghost use Rattle.plane_core.specs.Stored.{AreCuts, IsStored, paths_of, stored_figure};
ghost use Rattle.wkt_any_core.specs.Drawing.{kind_for, AreAllowed};
ghost use Rattle.wkt_any_core.specs.Widths.{are_allowed, is_level, is_wide};

use crate::paths::Paths;
use plane_core::{Edge, Geometry, Kind, Rings, Vertex};
use wkt_core::Keyword;

fn kind_for(keyword: Keyword) -> Kind
    ensures { result ≡ kind_for keyword }
{
    match keyword {
        Keyword::Point => Kind::Points,
        Keyword::LineString => Kind::Lines,
        Keyword::Polygon => Kind::Areas,
    }
}

/// Whether a vertex lies on the line of an edge.
fn is_level(edge: &Edge, vertex: &Vertex) -> bool
    ensures { result ≡ is_level edge.now vertex.now }
{
    edge.side_of(vertex) == 0
}

/// Whether the vertices lie on the line of an edge.
fn are_level(edge: &Edge, vertices: &[Vertex]) -> bool
    ensures { result ≡ list_all (is_level edge.now) vertices.now }
{
    vertices.iter().all(|v| is_level(edge, v))
}

/// Whether some vertex doesn't lie on the line of the first two.
fn is_wide(ring: &[Vertex]) -> bool
    ensures { result ≡ is_wide ring.now }
{
    match ring {
        [a, b, rest @ ..] => {
            let edge = Edge { a: *a, b: *b };
            !are_level(&edge, rest)
        }
        _ => false,
    }
}

/// Whether no ring has all its vertices on one line.
fn are_wide(ends: &[u32], vertices: &[Vertex]) -> bool
    requires { AreCuts 0 ends.now (length vertices.now) }
    ensures { result ≡ list_all is_wide (paths_of 0 ends.now vertices.now) }
{
    let mut start = 0usize;
    let mut are_right = true;
    for end in ends {
        let next = *end as usize;
        let is_right = is_wide(&vertices[start..next]);
        are_right = are_right & is_right;
        start = next;
    }
    are_right
}

/// Whether the rule allows the paths, if they are rings.
fn are_allowed(kind: Kind, rings: Rings, ends: &[u32], vertices: &[Vertex]) -> bool
    requires { AreCuts 0 ends.now (length vertices.now) }
    ensures { result ≡ are_allowed kind rings (paths_of 0 ends.now vertices.now) }
{
    match kind {
        Kind::Areas => match rings {
            Rings::Proper => are_wide(ends, vertices),
            Rings::EvenOdd => true,
        },
        _ => true,
    }
}

/// The geometry of the paths under a keyword, if they form one.
pub(crate) fn geometry_of(keyword: Keyword, paths: Paths, rings: Rings) -> Option<Geometry>
    requires { AreCuts 0 paths.ends.items (length paths.vertices.items) }
    ensures some { IfSome result (λ g.
        (g ≡ stored_figure (kind_for keyword) paths.ends.items paths.vertices.items)
        × IsGeometry g × AreAllowed rings g) }
    ensures none { IfNone result (
        let g = stored_figure (kind_for keyword) paths.ends.items paths.vertices.items in
        IsGeometry g → AreAllowed rings g → ⊥) }
{
    let kind = kind_for(keyword);
    let is_allowed = are_allowed(kind, rings, &paths.ends, &paths.vertices);
    if is_allowed {
        Geometry::new(kind, paths.ends, paths.vertices)
    } else {
        None
    }
}
