//! Edges that lie entirely on one side of a box.

ghost use Rattle.std.specs.Prelude.{◌≡◌};
ghost use Rattle.edge_index_core.specs.Beyond.{is_left, is_right, is_low, is_high, is_beyond};

use geom_core::Shape;
use plane_core::Edge;

#[inline]
fn is_left(e: &Edge, bounds: &Shape) -> bool
    ensures { result ≡ is_left bounds.now e.now }
{
    let limit = bounds.x1();
    e.a.x < limit && e.b.x < limit
}

#[inline]
fn is_right(e: &Edge, bounds: &Shape) -> bool
    ensures { result ≡ is_right bounds.now e.now }
{
    let limit = bounds.x2();
    limit < e.a.x && limit < e.b.x
}

#[inline]
fn is_low(e: &Edge, bounds: &Shape) -> bool
    ensures { result ≡ is_low bounds.now e.now }
{
    let limit = bounds.y1();
    e.a.y < limit && e.b.y < limit
}

#[inline]
fn is_high(e: &Edge, bounds: &Shape) -> bool
    ensures { result ≡ is_high bounds.now e.now }
{
    let limit = bounds.y2();
    limit < e.a.y && limit < e.b.y
}

/// Whether an edge lies entirely on one side of a box.
#[inline]
pub fn is_beyond(e: &Edge, bounds: &Shape) -> bool
    ensures { result ≡ is_beyond bounds.now e.now }
{
    is_left(e, bounds) || is_right(e, bounds) || is_low(e, bounds) || is_high(e, bounds)
}
