//! The distance of two geometries that are near.

ghost use Rattle.std.specs.Prelude.{◌≡◌, ◌↔◌, IfOk, IsSome, IfSome, IsTrue, min};
ghost use Rattle.distance_core.specs.Units.{units_of};
ghost use Rattle.planar_core.specs.Forms.{AreFormsOf};
ghost use Rattle.near_core.specs.Near.{AreNear, AreWanted, HaveSquare, IsZeroIn};

use crate::grown::Grown;
use distance_core::{Distance, Nearness};
use planar_core::{Forms, Planar, Square};
use std::alloc::{AllocError, Global};

/// The square of the distance of two geometries, if they are near, and apart if this is asked for.
///
/// # Errors
/// If an allocation fails.
#[inline]
pub(crate) fn square_if_wanted<G: Planar>(
    alloc: Global,
    nearness: Nearness,
    first: &Grown<G>,
    second: &Grown<G>,
    forms: Forms<G::Form>,
) -> Result<Option<G::Square>, AllocError>
    requires { AreFormsOf G.is_form first.now.geometry second.now.geometry forms }
    ensures wanted { IfOk result (λ found. IsSome found
        ↔ AreWanted G.has_point nearness first.now second.now) }
    ensures square { IfOk result (λ found. IfSome found
        (λ s. HaveSquare G.Square.fraction G.has_point s first.now second.now)) }
{
    let found = square_if_near(alloc, first, second, forms)?;
    match nearness {
        Nearness::Within => Ok(found),
        Nearness::Apart => { if is_zero(&found) { Ok(None) } else { Ok(found) } }
    }
}

/// Whether a square was found that is 0.
fn is_zero<S: Square>(found: &Option<S>) -> bool
    ensures { IsTrue result ↔ IsZeroIn S.fraction found.now }
{
    match found {
        Some(square) => square.is_zero(),
        None => false,
    }
}

/// The square of the distance of two geometries, if they are near.
///
/// # Errors
/// If an allocation fails.
#[inline]
fn square_if_near<G: Planar>(
    alloc: Global,
    first: &Grown<G>,
    second: &Grown<G>,
    forms: Forms<G::Form>,
) -> Result<Option<G::Square>, AllocError>
    requires { AreFormsOf G.is_form first.now.geometry second.now.geometry forms }
    ensures near { IfOk result (λ found. IsSome found
        ↔ AreNear G.has_point first.now second.now) }
    ensures square { IfOk result (λ found. IfSome found
        (λ s. HaveSquare G.Square.fraction G.has_point s first.now second.now)) }
{
    let distance = lesser(first.distance, second.distance);
    G::square_within(alloc, &first.geometry, &second.geometry, forms, distance)
}

/// The lesser of two distances.
fn lesser(first: Distance, second: Distance) -> Distance
    ensures { units_of result ≡ min (units_of first) (units_of second) }
{
    if first.units() <= second.units() {
        first
    } else {
        second
    }
}
