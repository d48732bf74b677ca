//! Reading a join by distance.

ghost use Rattle.std.specs.Prelude.{◌≢◌, codes, IfOk, IfErr};
ghost use Rattle.words_core.specs.Readings.{HasDistanceFault, HasNearFault, IsCommandIn};
ghost use Rattle.words_core.specs.Readings.{IsDistanceIn, IsNearnessIn, found_in};

use super::arguments::{optional, required};
use super::distance::{distance_fault, distance_of};
use super::geometries::{read_geometries, read_scale};
use super::options::read_options;
use super::paths::read_paths;
use crate::words::{Command, NearRequest, WordFault};
use clap::ArgMatches;
use distance_core::{Distance, Nearness};
use number_core::Scale;
use std::alloc::Global;

/// Reads a join by distance. A fault of the distance comes after all others but that of the kind of
/// geometries.
pub fn read_near<'a>(alloc: Global, given: &ArgMatches<'a>) -> Result<Command<'a>, WordFault>
    ensures ok { IfOk result (IsCommandIn (codes "near") (found_in given.now)) }
    ensures err { IfErr result (λ f. f ≢ WordFault.Memory → HasNearFault (found_in given.now) f) }
{
    let paths = read_paths(alloc, given)?;
    let (options, workers) = read_options(alloc, given)?;
    let scale = read_scale(alloc, given)?;
    let distance = read_distance(alloc, given, scale)?;
    let geometries = read_geometries(alloc, given)?;
    Ok(Command::Near(NearRequest {
        paths,
        distance,
        nearness: read_nearness(given),
        options,
        workers,
        scale,
        geometries,
    }))
}

/// Reads the distance, in units of the scale.
fn read_distance(alloc: Global, given: &ArgMatches<'_>, scale: Scale) -> Result<Distance, WordFault>
    ensures ok { IfOk result (IsDistanceIn (found_in given.now) scale) }
    ensures err { IfErr result (λ f. f ≢ WordFault.Memory
        → HasDistanceFault (found_in given.now) scale f) }
{
    let word = required(alloc, given, "distance")?;
    match distance_of(word.as_bytes(), scale) {
        Some(distance) => Ok(distance),
        None => Err(distance_fault(scale.limits())),
    }
}

/// Whether pairs that share a point are left out.
fn read_nearness(given: &ArgMatches<'_>) -> Nearness
    ensures { IsNearnessIn (found_in given.now) result }
{
    match optional(given, "apart") {
        Some("true") => Nearness::Apart,
        _ => Nearness::Within,
    }
}
