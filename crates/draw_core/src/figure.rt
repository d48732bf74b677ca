//! Points, polylines and areas of any direction as SVG paths.

ghost use Rattle.std.specs.Prelude.{◌≡◌, ◌++◌, OnOk, codes};
ghost use Rattle.std.specs.List.{flat_map};
ghost use Rattle.std.specs.String.{string_bytes};
ghost use Rattle.draw_core.specs.Figures.{moved_to, dot, polyline, path_by};
ghost use Rattle.draw_core.specs.Figures.{figure_path, figure_start};

use crate::drawn::Drawn;
use crate::frame::Frame;
use crate::number::push_number;
use crate::outline::path_start;
use any_geometry_core::AnyGeometry;
use plane_core::{Geometry, Vertex};
use std::alloc::AllocError;

/// Adds a path command that goes to a vertex.
fn push_vertex(
    text: &mut String,
    frame: &Frame,
    command: &str,
    vertex: &Vertex,
) -> Result<(), AllocError>
    ensures { OnOk result (string_bytes text.new
        ≡ string_bytes text.old ++ moved_to frame.now command.now vertex.now) }
{
    push_number(text, command, frame.x_at(vertex))?;
    push_number(text, " ", frame.y_at(vertex))
}

/// Adds a point.
fn push_dot(text: &mut String, frame: &Frame, vertex: &Vertex) -> Result<(), AllocError>
    ensures { OnOk result
        (string_bytes text.new ≡ string_bytes text.old ++ dot frame.now vertex.now) }
{
    push_vertex(text, frame, "M", vertex)?;
    text.push_str("h0v0")
}

/// Adds points.
fn push_dots(text: &mut String, frame: &Frame, points: &[Vertex]) -> Result<(), AllocError>
    ensures { OnOk result (string_bytes text.new
        ≡ string_bytes text.old ++ flat_map (dot frame.now) points.now) }
{
    for vertex in points {
        push_dot(text, frame, vertex)?;
    }
    Ok(())
}

/// Adds a line to each of these vertices.
fn push_steps(text: &mut String, frame: &Frame, path: &[Vertex]) -> Result<(), AllocError>
    ensures { OnOk result (string_bytes text.new
        ≡ string_bytes text.old ++ flat_map (moved_to frame.now (codes "L")) path.now) }
{
    for vertex in path {
        push_vertex(text, frame, "L", vertex)?;
    }
    Ok(())
}

/// Adds a polyline.
fn push_polyline(text: &mut String, frame: &Frame, path: &[Vertex]) -> Result<(), AllocError>
    ensures { OnOk result
        (string_bytes text.new ≡ string_bytes text.old ++ polyline frame.now path.now) }
{
    let Some((first, rest)) = path.split_first() else {
        return Ok(());
    };
    push_vertex(text, frame, "M", first)?;
    push_steps(text, frame, rest)
}

/// Adds a path of a geometry of this dimension: points, a polyline or a ring.
fn push_path(text: &mut String, frame: &Frame, dim: u8, path: &[Vertex]) -> Result<(), AllocError>
    ensures { OnOk result
        (string_bytes text.new ≡ string_bytes text.old ++ path_by frame.now dim path.now) }
{
    if dim == 0 {
        return push_dots(text, frame, path);
    }
    push_polyline(text, frame, path)?;
    if dim == 1 {
        return Ok(());
    }
    text.push_str("z")
}

/// Adds all paths of a geometry.
fn push_paths(text: &mut String, frame: &Frame, geometry: &Geometry) -> Result<(), AllocError>
    ensures { OnOk result (string_bytes text.new
        ≡ string_bytes text.old ++ figure_path frame.now geometry.now) }
{
    let dim = geometry.dim();
    for i in 0..geometry.path_count() {
        push_path(text, frame, dim, geometry.path(i))?;
    }
    Ok(())
}

/// A geometry of any kind is drawn with all its paths.
impl Drawn for AnyGeometry {
    ghost use Rattle.any_geometry_core.specs.AnyGeometries.{figure_of};
    ghost use Rattle.plane_core.specs.Figures.{dim_of};
    ghost use Rattle.draw_core.specs.Figures as drawn_figures;

    ghost start_of = { λ g. drawn_figures.figure_start (dim_of (figure_of g)) };

    ghost path_of = { λ view g. drawn_figures.figure_path view (figure_of g) };

    fn start(&self, is_match: bool) -> &'static str {
        figure_start(self.geometry().dim(), is_match)
    }

    fn push_path(&self, frame: &Frame, text: &mut String) -> Result<(), AllocError> {
        push_paths(text, frame, self.geometry())
    }
}

/// The start of the path element of a geometry of this dimension.
fn figure_start(dim: u8, is_match: bool) -> &'static str
    ensures { result.now ≡ figure_start dim is_match }
{
    if dim == 0 {
        return path_start(dim, is_match);
    }
    match (dim == 1, is_match) {
        (true, true) => "<path fill=\"none\" class=\"match\" d=\"",
        (true, false) => "<path fill=\"none\" d=\"",
        (false, true) => "<path fill-rule=\"evenodd\" class=\"match\" d=\"",
        (false, false) => "<path fill-rule=\"evenodd\" d=\"",
    }
}
