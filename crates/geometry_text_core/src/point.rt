//! A point of two doubles.

ghost use Rattle.std.specs.Prelude.{◌≡◌, ◌↔◌, ℕ, ℤ, List, Option, IfOk, IfSome, IfNone, IsSome};
ghost use Rattle.number_core.specs.Scales.{IsInRange};
ghost use Rattle.wkt_core.specs.declared.position.Position.{Position};
ghost use Rattle.geometry_text_core.specs.Positions.{IsUnits, IsPosition, TakesPosition};
ghost use Rattle.geometry_text_core.specs.Positions.{position_at};
ghost use Rattle.geometry_text_core.specs.Held.{AddsPosition};

use crate::order::Order;
use double_core::{rounded_units, units};
use plane_core::Vertex;
use std::alloc::AllocError;
use wkt_any_core::Paths;
use wkt_core::{Rounding, Scale};

/// The units of a double at a scale, by its shortest decimal, if they are whole or are rounded.
fn units_at(bits: u64, scale: Scale) -> Option<i64>
    ensures some { IfSome result (λ z. IsUnits scale bits z) }
    ensures none { IfNone result ((z : ℤ) → IsUnits scale bits z → ⊥) }
{
    let digits = scale.digits();
    match scale.rounding() {
        Rounding::Exact => units(bits, digits).ok(),
        Rounding::Nearest => rounded_units(bits, digits).ok(),
    }
}

/// The vertex with these units, if they are within the limits of the scale.
fn vertex_within(x: i64, y: i64, scale: Scale) -> Option<Vertex>
    ensures some { IsSome result ↔ (IsInRange scale x × IsInRange scale y) }
    ensures x { IfSome result (λ v. v.x ≡ x) }
    ensures y { IfSome result (λ v. v.y ≡ y) }
{
    let most = scale.limits().units();
    if x.unsigned_abs() <= most && y.unsigned_abs() <= most {
        Vertex::new(x, y)
    } else {
        None
    }
}

/// The vertex of a point of two doubles, if its units are whole or are rounded, and in range.
fn vertex_at(x: u64, y: u64, scale: Scale) -> Option<Vertex>
    ensures { IsPosition scale x y (position_at result) }
{
    let x = units_at(x, scale)?;
    let y = units_at(y, scale)?;
    vertex_within(x, y, scale)
}

/// Reads the point at the start of bytes, and returns the bytes after it.
pub(crate) fn read_point<'a>(
    order: Order,
    bytes: &'a [u8],
    scale: Scale,
    paths: &mut Paths,
) -> Result<Option<&'a [u8]>, AllocError>
    ensures some { IfOk result (λ read. IfSome read (λ rest. (p : Option Position)
        × TakesPosition scale order bytes.now p rest.now
        × AddsPosition paths.old p paths.new)) }
    ensures none { IfOk result (λ read. IfNone read ((p : Option Position) (rest : List ℕ)
        → TakesPosition scale order bytes.now p rest → ⊥)) }
{
    let Some((x, middle)) = order.read_double(bytes) else {
        return Ok(None);
    };
    let Some((y, rest)) = order.read_double(middle) else {
        return Ok(None);
    };
    let vertex = vertex_at(x, y, scale);
    paths.add(vertex)?;
    Ok(Some(rest))
}
