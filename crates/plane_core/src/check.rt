//! Whether vertices and the ends of paths form a geometry.

ghost use Rattle.std.specs.Prelude.{◌≡◌, length, IsTrue};
ghost use Rattle.plane_core.specs.Stored.{AreCuts, AreCutsFor, paths_of};
ghost use Rattle.plane_core.specs.Checks.{are_cuts, are_cuts_for, is_same_vertex, has_length};
ghost use Rattle.plane_core.specs.Checks.{is_path, is_closed, is_ring, is_filled, is_stored};
ghost use Rattle.std.specs.List.{list_all};

use crate::edge::Edge;
use crate::outline::Kind;
use crate::path::{edge_at, last_or};
use crate::vertex::Vertex;

/// Whether no path ends before it starts, and the last one ends with the vertices.
fn are_cuts(ends: &[u32], n: usize) -> bool
    ensures { result ≡ are_cuts 0 ends.now n }
{
    let mut start = 0usize;
    for end in ends {
        let next = *end as usize;
        if next < start {
            return false;
        }
        start = next;
    }
    start == n
}

/// The same of a kind whose geometries have paths; points need no ends.
fn are_cuts_for(kind: Kind, ends: &[u32], n: usize) -> bool
    ensures { result ≡ are_cuts_for kind ends.now n }
{
    match kind {
        Kind::Points => true,
        Kind::Lines => are_cuts(ends, n),
        Kind::Areas => are_cuts(ends, n),
    }
}

fn is_same_vertex(v: &Vertex, w: &Vertex) -> bool
    ensures { result ≡ is_same_vertex v.now w.now }
{
    let level = v.x == w.x;
    let straight = v.y == w.y;
    level & straight
}

fn has_length(e: &Edge) -> bool
    ensures { result ≡ has_length e.now }
{
    !is_same_vertex(&e.a, &e.b)
}

/// Whether a path has at least two vertices, and consecutive ones differ.
fn is_path(path: &[Vertex]) -> bool
    ensures { result ≡ is_path path.now }
{
    let mut is_stepping = true;
    for i in 1..path.len() {
        let e = edge_at(path, i);
        let is_step = has_length(&e);
        is_stepping = is_stepping & is_step;
    }
    let is_long = 2 <= path.len();
    is_stepping & is_long
}

/// Whether the last vertex of a path equals its first.
fn is_closed(path: &[Vertex]) -> bool
    ensures { result ≡ is_closed path.now }
{
    match path.split_first() {
        None => true,
        Some((first, rest)) => {
            let last = last_or(*first, rest);
            is_same_vertex(&last, first)
        }
    }
}

fn is_ring(path: &[Vertex]) -> bool
    ensures { result ≡ is_ring path.now }
{
    let is_path = is_path(path);
    let is_closed = is_closed(path);
    is_path & is_closed
}

fn are_paths(ends: &[u32], vertices: &[Vertex]) -> bool
    requires { AreCuts 0 ends.now (length vertices.now) }
    ensures { result ≡ list_all is_path (paths_of 0 ends.now vertices.now) }
{
    let mut start = 0usize;
    let mut are_right = true;
    for end in ends {
        let next = *end as usize;
        let is_right = is_path(&vertices[start..next]);
        are_right = are_right & is_right;
        start = next;
    }
    are_right
}

fn are_rings(ends: &[u32], vertices: &[Vertex]) -> bool
    requires { AreCuts 0 ends.now (length vertices.now) }
    ensures { result ≡ list_all is_ring (paths_of 0 ends.now vertices.now) }
{
    let mut start = 0usize;
    let mut are_right = true;
    for end in ends {
        let next = *end as usize;
        let is_right = is_ring(&vertices[start..next]);
        are_right = are_right & is_right;
        start = next;
    }
    are_right
}

/// Whether there is at least one path, and each has the form that the kind requires.
fn is_filled(kind: Kind, ends: &[u32], vertices: &[Vertex]) -> bool
    requires { AreCutsFor kind ends.now (length vertices.now) }
    ensures { result ≡ is_filled kind ends.now vertices.now }
{
    let has_vertices = 0 < vertices.len();
    let has_paths = 0 < ends.len();
    match kind {
        Kind::Points => has_vertices,
        Kind::Lines => {
            let are_right = are_paths(ends, vertices);
            has_paths & are_right
        }
        Kind::Areas => {
            let are_right = are_rings(ends, vertices);
            has_paths & are_right
        }
    }
}

/// Whether the concatenated vertices of paths, with the end of each path, form a geometry of a
/// kind.
pub(crate) fn is_stored(kind: Kind, ends: &[u32], vertices: &[Vertex]) -> bool
    ensures { result ≡ is_stored kind ends.now vertices.now }
{
    if are_cuts_for(kind, ends, vertices.len()) {
        is_filled(kind, ends, vertices)
    } else {
        false
    }
}
