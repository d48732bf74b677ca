//! Reading a search for the nearest features.

ghost use Rattle.std.specs.Prelude.{◌≡◌, ◌≢◌, codes, IfOk, IfErr};
ghost use Rattle.clap.specs.Words.{first_of};
ghost use Rattle.distance_core.specs.Queries.{most_of, within_of};
ghost use Rattle.words_core.specs.Readings.{HasNearestFault, HasQueryFault, IsCommandIn};
ghost use Rattle.number_core.specs.Scales.{limits_of};
ghost use Rattle.words_core.specs.Readings.{IsNoReach, IsReachIn, distance_fault, found_in};
ghost use Rattle.words_core.specs.Readings.{number_at};

use super::arguments::{number, optional};
use super::distance::{distance_fault, distance_of};
use super::geometries::{read_geometries, read_scale};
use super::options::read_options;
use super::paths::read_paths;
use crate::words::{Command, NearestRequest, WordFault};
use clap::ArgMatches;
use distance_core::{Distance, Query};
use number_core::Scale;
use std::alloc::Global;

/// Reads a search for the nearest features. Faults of the distance and of the number of features
/// come after all others but that of the kind of geometries.
pub fn read_nearest<'a>(alloc: Global, given: &ArgMatches<'a>) -> Result<Command<'a>, WordFault>
    ensures ok { IfOk result (IsCommandIn (codes "nearest") (found_in given.now)) }
    ensures err { IfErr result (λ f. f ≢ WordFault.Memory
        → HasNearestFault (found_in given.now) f) }
{
    let paths = read_paths(alloc, given)?;
    let (options, workers) = read_options(alloc, given)?;
    let scale = read_scale(alloc, given)?;
    let query = read_query(alloc, given, scale)?;
    let geometries = read_geometries(alloc, given)?;
    Ok(Command::Nearest(NearestRequest {
        paths,
        query,
        options,
        workers,
        scale,
        geometries,
    }))
}

/// Reads how many features are sought, and within which distance.
fn read_query(alloc: Global, given: &ArgMatches<'_>, scale: Scale) -> Result<Query, WordFault>
    ensures most { IfOk result (λ query.
        number_at (codes "most") (found_in given.now) ≡ Some (most_of query)) }
    ensures reach { IfOk result (λ query.
        IsReachIn (found_in given.now) scale (within_of query)) }
    ensures err { IfErr result (λ f. f ≢ WordFault.Memory
        → HasQueryFault (found_in given.now) scale f) }
{
    let within = read_reach(given, scale)?;
    let most = number(alloc, given, "most")?;
    match Query::new(most, within) {
        Some(query) => Ok(query),
        None => Err(WordFault::Most),
    }
}

/// Reads the distance within which features are sought, in units of the scale, if one is given.
fn read_reach(given: &ArgMatches<'_>, scale: Scale) -> Result<Option<Distance>, WordFault>
    ensures ok { IfOk result (IsReachIn (found_in given.now) scale) }
    ensures none { IfErr result (λ _.
        IsNoReach (first_of (codes "distance") (found_in given.now)) scale) }
    ensures fault { IfErr result (λ f. f ≡ distance_fault (limits_of scale)) }
{
    let Some(word) = optional(given, "distance") else {
        return Ok(None);
    };
    match distance_of(word.as_bytes(), scale) {
        Some(distance) => Ok(Some(distance)),
        None => Err(distance_fault(scale.limits())),
    }
}
