//! Printing a geometry.

ghost use Rattle.std.specs.Prelude.{◌≡◌, ◌++◌, List, Option, Ok, IfOk, OnOk, codes};
ghost use Rattle.std.specs.String.{string_bytes};
ghost use Rattle.number_core.specs.Scales.{limits_of};
ghost use Rattle.plane_core.specs.declared.rings.Rings.{Rings};
ghost use Rattle.plane_core.specs.Vertices.{paths_in};
ghost use Rattle.wkt_core.specs.declared.keyword.Keyword.{Keyword};
ghost use Rattle.wkt_core.specs.declared.position.Position.{Position};
ghost use Rattle.wkt_any_core.specs.Canonical.{separated, separator, vertex_text, path_text};
ghost use Rattle.wkt_any_core.specs.Canonical.{point_text, points_text, lines_text, areas_text};
ghost use Rattle.wkt_any_core.specs.Canonical.{part_text, canonical};
ghost use Rattle.wkt_any_core.specs.Readings.{Reads, ReadsAs};

use plane_core::{Geometry, Vertex};
use std::alloc::{AllocError, Global};
use wkt_core::{Limits, Position, Scale, push_point};

/// Adds the separator before the item at this index.
#[tactic(auto, using(crate::proofs::PrinterLemmas::before_item))]
fn push_separator(text: &mut String, i: usize) -> Result<(), AllocError>
    ensures { OnOk result (string_bytes text.new ≡ string_bytes text.old ++ separator i) }
{
    if i == 0 { Ok(()) } else { text.push_str(", ") }
}

/// Adds the two numbers of a vertex.
fn push_vertex(text: &mut String, vertex: &Vertex, scale: Scale) -> Result<(), AllocError>
    ensures { OnOk result (string_bytes text.new
        ≡ string_bytes text.old ++ vertex_text scale vertex.now) }
{
    push_point(text, &Position::new(vertex.x, vertex.y), scale)
}

/// Adds vertices, with a comma and a space between them.
fn push_vertices(text: &mut String, path: &[Vertex], scale: Scale) -> Result<(), AllocError>
    ensures { OnOk result (string_bytes text.new
        ≡ string_bytes text.old ++ separated (vertex_text scale) path.now) }
{
    for (i, vertex) in path.iter().enumerate() {
        push_separator(text, i)?;
        push_vertex(text, vertex, scale)?;
    }
    Ok(())
}

/// Adds vertices in parentheses.
fn push_path(text: &mut String, path: &[Vertex], scale: Scale) -> Result<(), AllocError>
    ensures { OnOk result (string_bytes text.new
        ≡ string_bytes text.old ++ path_text scale path.now) }
{
    text.push_str("(")?;
    push_vertices(text, path, scale)?;
    text.push_str(")")
}

/// Adds points, each in parentheses, with a comma and a space between them.
fn push_points(text: &mut String, points: &[Vertex], scale: Scale) -> Result<(), AllocError>
    ensures { OnOk result (string_bytes text.new
        ≡ string_bytes text.old ++ separated (point_text scale) points.now) }
{
    for (i, point) in points.iter().enumerate() {
        push_separator(text, i)?;
        push_path(text, &[*point], scale)?;
    }
    Ok(())
}

/// Adds a polyline, or a ring as a polygon.
fn push_part(
    text: &mut String,
    path: &[Vertex],
    is_ring: bool,
    scale: Scale,
) -> Result<(), AllocError>
    ensures { OnOk result (string_bytes text.new
        ≡ string_bytes text.old ++ part_text scale is_ring path.now) }
{
    if is_ring {
        text.push_str("(")?;
        push_path(text, path, scale)?;
        text.push_str(")")
    } else {
        push_path(text, path, scale)
    }
}

/// Adds the polylines of a geometry, or its rings as polygons, with a comma and a space between
/// them.
fn push_parts(
    text: &mut String,
    geometry: &Geometry,
    are_rings: bool,
    scale: Scale,
) -> Result<(), AllocError>
    ensures { OnOk result (string_bytes text.new ≡ string_bytes text.old
        ++ separated (part_text scale are_rings) (paths_in geometry.now)) }
{
    for i in 0..geometry.path_count() {
        let path = geometry.path(i);
        push_separator(text, i)?;
        push_part(text, path, are_rings, scale)?;
    }
    Ok(())
}

/// Adds the text of points.
fn push_any_points(text: &mut String, points: &[Vertex], scale: Scale) -> Result<(), AllocError>
    ensures { OnOk result (string_bytes text.new
        ≡ string_bytes text.old ++ points_text scale points.now) }
{
    if points.len() == 1 {
        text.push_str("POINT ")?;
        push_points(text, points, scale)
    } else {
        text.push_str("MULTIPOINT (")?;
        push_points(text, points, scale)?;
        text.push_str(")")
    }
}

/// Adds a word and the parts of a geometry.
fn push_one(
    text: &mut String,
    word: &str,
    geometry: &Geometry,
    are_rings: bool,
    scale: Scale,
) -> Result<(), AllocError>
    ensures { OnOk result (string_bytes text.new ≡ string_bytes text.old
        ++ (word.now ++ separated (part_text scale are_rings) (paths_in geometry.now))) }
{
    text.push_str(word)?;
    push_parts(text, geometry, are_rings, scale)
}

/// Adds a word with its opening parenthesis, the parts of a geometry, and the closing one.
fn push_many(
    text: &mut String,
    word: &str,
    geometry: &Geometry,
    are_rings: bool,
    scale: Scale,
) -> Result<(), AllocError>
    ensures { OnOk result (string_bytes text.new ≡ string_bytes text.old
        ++ (word.now ++ separated (part_text scale are_rings) (paths_in geometry.now)
        ++ codes ")")) }
{
    text.push_str(word)?;
    push_parts(text, geometry, are_rings, scale)?;
    text.push_str(")")
}

/// Adds the text of polylines.
fn push_lines(text: &mut String, geometry: &Geometry, scale: Scale) -> Result<(), AllocError>
    ensures { OnOk result (string_bytes text.new
        ≡ string_bytes text.old ++ lines_text scale (paths_in geometry.now)) }
{
    if geometry.path_count() == 1 {
        push_one(text, "LINESTRING ", geometry, false, scale)
    } else {
        push_many(text, "MULTILINESTRING (", geometry, false, scale)
    }
}

/// Adds the text of rings.
fn push_areas(text: &mut String, geometry: &Geometry, scale: Scale) -> Result<(), AllocError>
    ensures { OnOk result (string_bytes text.new
        ≡ string_bytes text.old ++ areas_text scale (paths_in geometry.now)) }
{
    if geometry.path_count() == 1 {
        push_one(text, "POLYGON ", geometry, true, scale)
    } else {
        push_many(text, "MULTIPOLYGON (", geometry, true, scale)
    }
}

/// Adds the canonical text of a geometry.
fn push_geometry(text: &mut String, geometry: &Geometry, scale: Scale) -> Result<(), AllocError>
    ensures { OnOk result (string_bytes text.new
        ≡ string_bytes text.old ++ canonical scale geometry.now) }
{
    match geometry.dim() {
        0 => push_any_points(text, geometry.path(0), scale),
        1 => push_lines(text, geometry, scale),
        _ => push_areas(text, geometry, scale),
    }
}

/// The canonical text of the geometry: that of a single point, polyline or polygon if it has one
/// vertex or one path, otherwise the `MULTI` form, with the vertices as they were read. Numbers
/// have the form of `wkt_core::print`; one space follows the keyword and separates the two numbers
/// of a point, and a comma and a space separate points and lists.
///
/// A geometry doesn't record which rings belong to one polygon, so each of several rings is printed
/// as a polygon of its own, even a hole. By the even-odd rule that is the same area.
///
/// # Errors
/// If an allocation fails.
pub fn print(alloc: Global, geometry: &Geometry, scale: Scale) -> Result<String, AllocError>
    // the canonical spelling at the scale
    ensures text { IfOk result (λ text. string_bytes text ≡ canonical scale geometry.now) }
    // A geometry that was read, by any rule and at any scale, is printed such that it reads the
    // same.
    // a geometry that was read is spelled by it, under the same rule for rings and at any scale
    // with the limits of any geometry, so that it is read again
    ensures again { (rings : Rings) (keyword : Keyword) (places : Option (List (List Position)))
        → limits_of scale ≡ Limits.Any → ReadsAs rings keyword places (Ok geometry.now)
        → Reads scale rings (canonical scale geometry.now) (Ok geometry.now) }
{
    let mut text = String::new(alloc);
    push_geometry(&mut text, geometry, scale)?;
    Ok(text)
}
