//! The head of a geometry: the order of its numbers, and its kind.

ghost use Rattle.std.specs.Prelude.{◌≡◌, ◌+◌, ℕ, List, IfSome, IfNone};
ghost use Rattle.wkt_any_core.specs.declared.heading.Heading.{Heading};
ghost use Rattle.geometry_text_core.specs.declared.order.Order.{Order};
ghost use Rattle.geometry_text_core.specs.Binary.{code_of, heading_code, TakesKind};
ghost use Rattle.geometry_text_core.specs.Binary.{TakesHead};

use crate::order::Order;
use wkt_any_core::Heading;
use wkt_core::Keyword;

/// The flag of a code that an SRID follows.
const SRID_FLAG: u32 = 0x2000_0000;

/// The kind of a single geometry.
fn one(keyword: Keyword) -> Heading
    ensures { heading_code result ≡ code_of keyword }
{
    Heading {
        is_multi: false,
        keyword,
    }
}

/// The kind of many geometries.
fn many(keyword: Keyword) -> Heading
    ensures { heading_code result ≡ 3 + code_of keyword }
{
    Heading {
        is_multi: true,
        keyword,
    }
}

/// The kind of geometry with this code.
fn heading_of(code: u32) -> Option<Heading>
    ensures some { IfSome result (λ heading. heading_code heading ≡ code) }
    ensures none { IfNone result ((heading : Heading) → heading_code heading ≡ code → ⊥) }
{
    match code {
        1 => Some(one(Keyword::Point)),
        2 => Some(one(Keyword::LineString)),
        3 => Some(one(Keyword::Polygon)),
        4 => Some(many(Keyword::Point)),
        5 => Some(many(Keyword::LineString)),
        6 => Some(many(Keyword::Polygon)),
        _ => None,
    }
}

/// The kind at the start of bytes, and the bytes after it and after an SRID.
fn read_kind(order: Order, bytes: &[u8]) -> Option<(Heading, &[u8])>
    ensures some { IfSome result (λ r. TakesKind order bytes.now r.0 r.1.now) }
    ensures none { IfNone result
        ((heading : Heading) (rest : List ℕ) → TakesKind order bytes.now heading rest → ⊥) }
{
    let (code, rest) = order.read_number(bytes)?;
    if code < SRID_FLAG {
        let heading = heading_of(code)?;
        Some((heading, rest))
    } else {
        let heading = heading_of(code - SRID_FLAG)?;
        let (_, behind) = order.read_number(rest)?;
        Some((heading, behind))
    }
}

/// The order of a geometry's numbers and its kind, at the start of bytes, and the bytes after them.
pub(crate) fn read_head(bytes: &[u8]) -> Option<(Order, Heading, &[u8])>
    ensures some { IfSome result (λ r. TakesHead bytes.now (r.0, r.1) r.2.now) }
    ensures none { IfNone result ((head : Order × Heading) (rest : List ℕ)
        → TakesHead bytes.now head rest → ⊥) }
{
    let (order, rest) = Order::read(bytes)?;
    let (heading, behind) = read_kind(order, rest)?;
    Some((order, heading, behind))
}
