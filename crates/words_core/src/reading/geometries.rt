//! Reading how geometries are written: scale and rounding, their kind, and the rule for rings.

ghost use Rattle.std.specs.Prelude.{◌≡◌, ◌≢◌, ◌≤◌, IfOk, IfErr, IfSome, IfNone};
ghost use Rattle.number_core.specs.ScaleLimits.{most_digits};
ghost use Rattle.number_core.specs.Scales.{digits_of, limits_of};
ghost use Rattle.words_core.specs.Readings.{AreGeometriesIn, AreLimitsIn, HasGeometryFault};
ghost use Rattle.words_core.specs.Readings.{HasScaleFault, scale_fault};
ghost use Rattle.words_core.specs.Readings.{IsNoRingRule, IsRoundingIn, IsScaleIn, NamesNoKind};
ghost use Rattle.words_core.specs.Readings.{NamesRings};
ghost use Rattle.words_core.specs.Readings.{found_in, text_in};

use super::arguments::{missing, number, optional};
use crate::condition::Geometries;
use crate::words::WordFault;
use clap::ArgMatches;
use number_core::{Limits, Rounding, Scale};
use plane_core::Rings;
use std::alloc::Global;

/// Whether numbers are rounded.
fn read_rounding(given: &ArgMatches<'_>) -> Rounding
    ensures { IsRoundingIn (found_in given.now) result }
{
    match optional(given, "round") {
        Some("true") => Rounding::Nearest,
        _ => Rounding::Exact,
    }
}

/// Whose limits numbers have.
fn read_limits(given: &ArgMatches<'_>) -> Limits
    ensures { AreLimitsIn (found_in given.now) result }
{
    match optional(given, "geometry") {
        Some("any") => Limits::Any,
        _ => Limits::Boxes,
    }
}

/// The fault of a number of decimals beyond these limits.
fn scale_fault(limits: Limits) -> WordFault
    ensures { result ≡ scale_fault limits }
{
    match limits {
        Limits::Boxes => WordFault::Scale,
        Limits::Any => WordFault::ScaleOfAny,
    }
}

pub fn read_scale(alloc: Global, given: &ArgMatches<'_>) -> Result<Scale, WordFault>
    ensures ok { IfOk result (IsScaleIn (found_in given.now)) }
    ensures few { IfOk result (λ scale. digits_of scale ≤ most_digits (limits_of scale)) }
    ensures err { IfErr result (λ f. f ≢ WordFault.Memory → HasScaleFault (found_in given.now) f) }
{
    let digits = number(alloc, given, "scale")?;
    let limits = read_limits(given);
    match Scale::within(limits, digits) {
        Some(scale) => Ok(scale.with_rounding(read_rounding(given))),
        None => Err(scale_fault(limits)),
    }
}

/// Reads the kind of geometries.
pub fn read_geometries(alloc: Global, given: &ArgMatches<'_>) -> Result<Geometries, WordFault>
    ensures ok { IfOk result (AreGeometriesIn (found_in given.now)) }
    ensures err { IfErr result (λ f. f ≢ WordFault.Memory
        → HasGeometryFault (found_in given.now) f) }
{
    match named_geometries(given) {
        Some(geometries) => Ok(geometries),
        None => Err(geometry_fault(alloc, given)),
    }
}

/// The kind of geometries that the words name, or `None` if they name none.
pub fn named_geometries(given: &ArgMatches<'_>) -> Option<Geometries>
    ensures some { IfSome result (AreGeometriesIn (found_in given.now)) }
    ensures none { IfNone result (NamesNoKind (found_in given.now)) }
{
    let rings = optional(given, "rings");
    match optional(given, "geometry") {
        Some("box") => match rings {
            None => Some(Geometries::Box),
            Some(_) => None,
        },
        Some("any") => ring_rule(rings).map(Geometries::Any),
        _ => None,
    }
}

/// The fault of words that name no kind of geometries.
pub fn geometry_fault(alloc: Global, given: &ArgMatches<'_>) -> WordFault
    requires { NamesNoKind (found_in given.now) }
    ensures { result ≢ WordFault.Memory → HasGeometryFault (found_in given.now) result }
{
    match optional(given, "geometry") {
        None => missing(alloc, "geometry"),
        Some("box") => WordFault::RingsOfBoxes,
        Some("any") => WordFault::Rings,
        Some(_) => WordFault::Geometry,
    }
}

/// The rule for rings that a word names; proper rings without a word.
fn ring_rule(word: Option<&str>) -> Option<Rings>
    ensures some { IfSome result (NamesRings (text_in word.entry)) }
    ensures none { IfNone result (IsNoRingRule (text_in word.entry)) }
{
    match word {
        None => Some(Rings::Proper),
        Some("proper") => Some(Rings::Proper),
        Some("even-odd") => Some(Rings::EvenOdd),
        Some(_) => None,
    }
}
