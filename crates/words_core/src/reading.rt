//! Reading the matches of `clap` as a command.

mod arguments;
mod distance;
mod geometries;
mod join;
mod layout;
mod near;
mod nearest;
mod options;
mod paths;
mod relation;

ghost use Rattle.std.specs.Prelude.{◌≡◌, ◌≢◌, codes, IfOk, IfErr};
ghost use Rattle.clap.specs.Words.{subcommand_rows_of};
ghost use Rattle.words_core.specs.Readings.{HasCommandFault, HasLayerFault, HasMetFault};
ghost use Rattle.words_core.specs.Readings.{HasRelateFault, HasWindowFault, IsCommandIn};
ghost use Rattle.words_core.specs.Readings.{IsLayerIn, IsMetAs, found_in};

use crate::words::{Command, LayerRequest, RelateRequest, WordFault};
use arguments::{missing, required};
use clap::ArgMatches;
use geometries::{read_geometries, read_scale};
use join::{read_draw, read_join};
use layout::read_layout;
use near::read_near;
use nearest::read_nearest;
use std::alloc::Global;

/// Reads the command that the matches name.
pub fn read_command<'a>(alloc: Global, matches: &ArgMatches<'a>) -> Result<Command<'a>, WordFault>
    ensures ok { IfOk result (IsMetAs (subcommand_rows_of matches.now)) }
    ensures err { IfErr result (λ f. f ≢ WordFault.Memory
        → HasMetFault (subcommand_rows_of matches.now) f) }
{
    match matches.subcommand() {
        Some(met) => read_named(alloc, met.0, met.1),
        None => Err(missing(alloc, "COMMAND")),
    }
}

/// Reads the command of this name from the matches of its arguments.
fn read_named<'a>(
    alloc: Global,
    name: &str,
    given: &ArgMatches<'a>,
) -> Result<Command<'a>, WordFault>
    ensures ok { IfOk result (IsCommandIn name.now (found_in given.now)) }
    ensures err { IfErr result (λ f. f ≢ WordFault.Memory
        → HasCommandFault (found_in given.now) f name.now) }
{
    match name {
        "relate" => read_relate(alloc, given),
        "join" => read_join(alloc, given),
        "near" => read_near(alloc, given),
        "nearest" => read_nearest(alloc, given),
        "draw" => read_draw(alloc, given),
        "window" => read_window(alloc, given),
        "stats" => read_stats(alloc, given),
        "bounds" => read_bounds(alloc, given),
        _ => Err(missing(alloc, "COMMAND")),
    }
}

fn read_relate<'a>(alloc: Global, given: &ArgMatches<'a>) -> Result<Command<'a>, WordFault>
    ensures ok { IfOk result (IsCommandIn (codes "relate") (found_in given.now)) }
    ensures err { IfErr result (λ f. f ≢ WordFault.Memory → HasRelateFault (found_in given.now) f) }
{
    let a = required(alloc, given, "A")?;
    let b = required(alloc, given, "B")?;
    let scale = read_scale(alloc, given)?;
    let geometries = read_geometries(alloc, given)?;
    Ok(Command::Relate(RelateRequest {
        a,
        b,
        scale,
        geometries,
    }))
}

fn read_window<'a>(alloc: Global, given: &ArgMatches<'a>) -> Result<Command<'a>, WordFault>
    ensures ok { IfOk result (IsCommandIn (codes "window") (found_in given.now)) }
    ensures err { IfErr result (λ f. f ≢ WordFault.Memory → HasWindowFault (found_in given.now) f) }
{
    let wkt = required(alloc, given, "WKT")?;
    let layer = read_layer(alloc, given)?;
    Ok(Command::Window { layer, wkt })
}

fn read_stats<'a>(alloc: Global, given: &ArgMatches<'a>) -> Result<Command<'a>, WordFault>
    ensures ok { IfOk result (IsCommandIn (codes "stats") (found_in given.now)) }
    ensures err { IfErr result (λ f. f ≢ WordFault.Memory → HasLayerFault (found_in given.now) f) }
{
    let layer = read_layer(alloc, given)?;
    Ok(Command::Stats(layer))
}

fn read_bounds<'a>(alloc: Global, given: &ArgMatches<'a>) -> Result<Command<'a>, WordFault>
    ensures ok { IfOk result (IsCommandIn (codes "bounds") (found_in given.now)) }
    ensures err { IfErr result (λ f. f ≢ WordFault.Memory → HasLayerFault (found_in given.now) f) }
{
    let layer = read_layer(alloc, given)?;
    Ok(Command::Bounds(layer))
}

/// Reads a layer's path, and how to read the layer.
fn read_layer<'a>(alloc: Global, given: &ArgMatches<'a>) -> Result<LayerRequest<'a>, WordFault>
    ensures ok { IfOk result (IsLayerIn (found_in given.now)) }
    ensures err { IfErr result (λ f. f ≢ WordFault.Memory → HasLayerFault (found_in given.now) f) }
{
    let path = required(alloc, given, "LAYER")?;
    let layout = read_layout(given)?;
    let scale = read_scale(alloc, given)?;
    let geometries = read_geometries(alloc, given)?;
    Ok(LayerRequest {
        path,
        layout,
        scale,
        geometries,
    })
}
