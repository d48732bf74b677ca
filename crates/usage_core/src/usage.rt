//! The `clap` definition of the program, and those of its commands.

mod arguments;
mod workers;

ghost use Rattle.std.specs.Prelude.{◌≡◌, [], codes, map, IfOk};
ghost use Rattle.clap.specs.Simple.{new_shape};
ghost use Rattle.usage_core.specs.Tables.{about_told, argument_rule, shape_told};
ghost use Rattle.usage_core.specs.Usage.{AddsRules, HasUsage, IsBegun};
ghost use Rattle.usage_core.specs.Usage.{bounds_about, draw_about, draw_rules};
ghost use Rattle.usage_core.specs.Usage.{join_about, join_rules};
ghost use Rattle.usage_core.specs.Usage.{layer_only_rules, near_about, near_rules, nearest_about};
ghost use Rattle.usage_core.specs.Usage.{nearest_rules, program_about, program_shape};
ghost use Rattle.usage_core.specs.Usage.{program_usage, relate_about, relate_rules, stats_about};
ghost use Rattle.usage_core.specs.Usage.{subcommand_shape, subcommand_shapes, usage_of};
ghost use Rattle.usage_core.specs.Usage.{window_about, window_rules};
ghost use Rattle.usage_core.specs.declared.usage.workers.WorkersValue.{WorkersValue};

use crate::help;
use arguments::{
    Argument, DRAW_ARGUMENTS, JOIN_ARGUMENTS, LAYER_ARGUMENTS, NEAR_ARGUMENTS, NEAREST_ARGUMENTS,
    RELATE_ARGUMENTS, WINDOW_ARGUMENTS, declared_argument,
};
use clap::Command;
use std::alloc::{AllocError, Global};
use workers::{WorkersValue, workers_value};

/// A command, or an error if an allocation fails.
type Built<'a> = Result<Command<'a>, AllocError>;

/// A command of the program.
#[derive(Clone, Copy)]
struct Subcommand {
    name: &'static str,
    about: &'static str,
    help: &'static str,
    arguments: &'static [Argument],
}

/// The `clap` definition of the program by which these words are read: `--workers` takes any text
/// where they give it `auto`, and else a number.
///
/// # Errors
/// An error if an allocation fails.
pub fn usage_of<'a>(alloc: Global, words: &[&str]) -> Result<Command<'a>, AllocError>
    // a `clap` command with exactly the rules of a literal in `specs/Usage.antt`, by which
    // `--workers` takes any text where the words give it `auto`, and else a number
    ensures { IfOk result (HasUsage (usage_of (map (λ word. word.now) words.now))) }
{
    let value = workers_value(words);
    program_usage(alloc, value)
}

/// The `clap` definition of the program, in which `--workers` takes such a value.
fn program_usage<'a>(alloc: Global, value: WorkersValue) -> Built<'a>
    ensures { IfOk result (HasUsage (program_usage value)) }
{
    let table = subcommands();
    let subcommands = table.as_slice();
    let mut program = program_begun(alloc);
    for subcommand in subcommands {
        let command = declared_command(alloc, subcommand, value)?;
        program = program.subcommand(command)?;
    }
    Ok(program)
}

/// The commands of the program.
fn subcommands() -> [Subcommand; 8]
    ensures { (value : WorkersValue) → map (shape_told value) result ≡ subcommand_shapes value }
{
    [
        relate(),
        join(),
        near(),
        nearest(),
        draw(),
        window(),
        stats(),
        bounds(),
    ]
}

fn relate() -> Subcommand
    ensures shape { (value : WorkersValue)
        → shape_told value result ≡ subcommand_shape (codes "relate") relate_rules }
    ensures about { about_told result ≡ relate_about }
{
    Subcommand {
        name: "relate",
        about: "Writes the DE-9IM matrix of two geometries",
        help: help::RELATE,
        arguments: &RELATE_ARGUMENTS,
    }
}

fn join() -> Subcommand
    ensures shape { (value : WorkersValue)
        → shape_told value result ≡ subcommand_shape (codes "join") (join_rules value) }
    ensures about { about_told result ≡ join_about }
{
    Subcommand {
        name: "join",
        about: "Writes the pairs of features of two layers that stand in a relation",
        help: help::JOIN,
        arguments: &JOIN_ARGUMENTS,
    }
}

fn near() -> Subcommand
    ensures shape { (value : WorkersValue)
        → shape_told value result ≡ subcommand_shape (codes "near") (near_rules value) }
    ensures about { about_told result ≡ near_about }
{
    Subcommand {
        name: "near",
        about: "Writes the pairs of features of two layers that are at most a distance apart",
        help: help::NEAR,
        arguments: &NEAR_ARGUMENTS,
    }
}

fn nearest() -> Subcommand
    ensures shape { (value : WorkersValue)
        → shape_told value result ≡ subcommand_shape (codes "nearest") (nearest_rules value) }
    ensures about { about_told result ≡ nearest_about }
{
    Subcommand {
        name: "nearest",
        about: "Writes for each feature of a layer the nearest ones of another, with distances",
        help: help::NEAREST,
        arguments: &NEAREST_ARGUMENTS,
    }
}

fn draw() -> Subcommand
    ensures shape { (value : WorkersValue)
        → shape_told value result ≡ subcommand_shape (codes "draw") (draw_rules value) }
    ensures about { about_told result ≡ draw_about }
{
    Subcommand {
        name: "draw",
        about: "Writes a picture of two layers and of the pairs that stand in a relation, as SVG",
        help: help::DRAW,
        arguments: &DRAW_ARGUMENTS,
    }
}

fn window() -> Subcommand
    ensures shape { (value : WorkersValue)
        → shape_told value result ≡ subcommand_shape (codes "window") window_rules }
    ensures about { about_told result ≡ window_about }
{
    Subcommand {
        name: "window",
        about: "Writes the ids of the features of a layer that meet a geometry",
        help: help::WINDOW,
        arguments: &WINDOW_ARGUMENTS,
    }
}

fn stats() -> Subcommand
    ensures shape { (value : WorkersValue)
        → shape_told value result ≡ subcommand_shape (codes "stats") layer_only_rules }
    ensures about { about_told result ≡ stats_about }
{
    Subcommand {
        name: "stats",
        about: "Counts the features of a layer by kind, and the levels of its tree",
        help: help::STATS,
        arguments: &LAYER_ARGUMENTS,
    }
}

fn bounds() -> Subcommand
    ensures shape { (value : WorkersValue)
        → shape_told value result ≡ subcommand_shape (codes "bounds") layer_only_rules }
    ensures about { about_told result ≡ bounds_about }
{
    Subcommand {
        name: "bounds",
        about: "Writes the corners of the features of a layer",
        help: help::BOUNDS,
        arguments: &LAYER_ARGUMENTS,
    }
}

fn program_begun<'a>(alloc: Global) -> Command<'a>
    ensures { IsBegun program_shape program_about result }
{
    begun(
        alloc,
        "rjoin",
        "Joins two layers of geometries by a spatial relation",
        help::PROGRAM,
    )
    .version("0.2.0")
    .subcommand_required(true)
}

/// The `clap` definition of a command.
fn declared_command<'a>(alloc: Global, command: &Subcommand, value: WorkersValue) -> Built<'a>
    ensures { IfOk result (HasUsage (record { top = shape_told value command.now; subs = [] })) }
{
    let begun = begun(alloc, command.name, command.about, command.help);
    with_arguments(alloc, begun, command.arguments, value)
}

/// The command with these arguments added.
fn with_arguments<'a>(
    alloc: Global,
    command: Command<'a>,
    arguments: &[Argument],
    value: WorkersValue,
) -> Built<'a>
    ensures { IfOk result (AddsRules command.entry (map (argument_rule value) arguments.now)) }
{
    let mut command = command;
    for argument in arguments {
        let arg = declared_argument(alloc, *argument, value);
        command = command.arg(arg)?;
    }
    Ok(command)
}

/// A command without arguments.
fn begun<'a>(alloc: Global, name: &'a str, about: &'a str, help: &'a str) -> Command<'a>
    ensures { IsBegun (new_shape name.entry.now) about.entry.now result }
{
    Command::new(alloc, name).about(about).after_help(help)
}
