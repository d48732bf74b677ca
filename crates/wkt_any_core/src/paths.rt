//! The vertices of all paths of a text, collected as they are read.

ghost use Rattle.std.specs.Prelude.{◌≡◌};
ghost use Rattle.wkt_any_core.specs.Drawing.{skips_dots};
ghost use Rattle.number_core.specs.declared.scale.Scale.{Scale};
ghost use Rattle.wkt_core.specs.Grammar.{RawPoint};
ghost use Rattle.wkt_core.specs.PointSteps.{point_read};
ghost use Rattle.wkt_any_core.specs.Held.{IsVertexOf};

use plane_core::{Rings, Vertex};
use std::alloc::{AllocError, Global};
use wkt_core::{Keyword, ReadPoint};

/// The concatenated vertices of all paths and the end of each path, with the path that is being
/// read.
#[derive(Drop)]
pub struct Paths {
    pub(crate) vertices: Vec<Vertex>,
    pub(crate) ends: Vec<u32>,
    /// The vertices of the path that is being read.
    open: Vec<Vertex>,
    /// Whether each number so far is a whole number of units and in range.
    pub(crate) are_good: bool,
    /// Whether a path whose points are all equal is left out.
    skips_dots: bool,
}

/// Whether rings whose points are all equal are left out.
fn skips_dots(rings: Rings, keyword: Keyword) -> bool
    ensures { result ≡ skips_dots rings keyword }
{
    match keyword {
        Keyword::Polygon => rings == Rings::EvenOdd,
        _ => false,
    }
}

/// The vertex of a point that was read, if its numbers are whole and in range.
fn vertex_of(point: &ReadPoint) -> Option<Vertex>
    ensures { (scale : Scale) (p : RawPoint)
        → point.now ≡ point_read scale p → IsVertexOf scale p result }
{
    if !point.whole {
        return None;
    }
    let position = point.position?;
    Vertex::new(position.x, position.y)
}

impl Paths {
    ghost use Rattle.std.specs.Prelude.{◌≡◌, OnOk};
    ghost use Rattle.number_core.specs.declared.scale.Scale.{Scale};
    ghost use Rattle.wkt_core.specs.Grammar.{RawPoint};
    ghost use Rattle.wkt_core.specs.PointSteps.{point_read};
    ghost use Rattle.wkt_any_core.specs.Drawing.{skips_dots};
    ghost use Rattle.wkt_any_core.specs.Held.{AddsPoint, IsAdded, IsBare, IsEnded, IsStepped};
    ghost use Rattle.wkt_any_core.specs.Held.{IsKept, IsTaken};

    /// No paths of a geometry of this kind; nothing has been read.
    pub fn new(alloc: Global, keyword: Keyword, rings: Rings) -> Paths
        ensures { IsBare result (skips_dots rings keyword) }
    {
        let skips_dots = skips_dots(rings, keyword);
        Paths {
            vertices: Vec::new(alloc),
            ends: Vec::new(alloc),
            open: Vec::new(alloc),
            are_good: true,
            skips_dots,
        }
    }

    /// Extends the path to a vertex, unless it is there already.
    fn step_to(&mut self, vertex: Vertex) -> Result<(), AllocError>
        ensures { OnOk result (IsStepped self.old vertex self.new) }
    {
        if let Some(last) = self.open.last() {
            let stays = last.x == vertex.x && last.y == vertex.y;
            if stays {
                return Ok(());
            }
        }
        self.open.push(vertex)?;
        Ok(())
    }

    /// Extends the path to the vertex of a point, or notes that the point has none.
    ///
    /// # Errors
    /// If an allocation fails.
    pub fn add(&mut self, vertex: Option<Vertex>) -> Result<(), AllocError>
        // the path that is being read goes to the vertex, unless it is there already; where there
        // is none, the paths are bad
        ensures { OnOk result (IsAdded self.old vertex self.new) }
    {
        match vertex {
            Some(vertex) => self.step_to(vertex),
            None => {
                self.are_good = false;
                Ok(())
            }
        }
    }

    /// Adds a point to the path that is being read.
    pub(crate) fn push(&mut self, point: &ReadPoint) -> Result<(), AllocError>
        ensures { OnOk result ((scale : Scale) (p : RawPoint)
            → point.now ≡ point_read scale p → AddsPoint scale self.old p self.new) }
    {
        let vertex = vertex_of(point);
        self.add(vertex)
    }

    /// Adds the path that was read to those before it.
    fn keep_path(&mut self) -> Result<(), AllocError>
        ensures { OnOk result (IsKept self.old self.new) }
    {
        // Most geometries have one path, and take no room for more.
        if self.ends.is_empty() {
            self.vertices.reserve_exact(self.open.len())?;
            self.ends.reserve_exact(1)?;
        }
        self.vertices.extend_from_slice(&self.open)?;
        let Ok(end) = u32::try_from(self.vertices.len()) else {
            return Err(AllocError);
        };
        self.ends.push(end)?;
        Ok(())
    }

    /// Adds the path that was read to those before it, unless it is left out.
    fn keep_unless(&mut self, is_left_out: bool) -> Result<(), AllocError>
        ensures { OnOk result (IsTaken self.old is_left_out self.new) }
    {
        if is_left_out {
            Ok(())
        } else {
            self.keep_path()
        }
    }

    /// Ends the path that is being read.
    ///
    /// # Errors
    /// If an allocation fails, or there are 2^32 vertices or more.
    pub fn end_path(&mut self) -> Result<(), AllocError>
        // the path that was read stands behind those before, unless it is a single point of a
        // polygon and the rule leaves it out
        ensures { OnOk result (IsEnded self.old self.new) }
    {
        let is_dot = self.open.len() == 1;
        let is_left_out = self.skips_dots & is_dot;
        self.keep_unless(is_left_out)?;
        self.open.clear();
        Ok(())
    }
}
