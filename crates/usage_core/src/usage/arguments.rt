//! The arguments of the commands, and their `clap` definitions.

ghost use Rattle.usage_core.specs.Tables.{argument_rule};
ghost use Rattle.usage_core.specs.Usage.{IsArgument, default_rule, flag_rule, geometry_rule};
ghost use Rattle.usage_core.specs.Usage.{numeric_rule, optional_rule, positional_rule};
ghost use Rattle.usage_core.specs.Usage.{required_rule, side_rule, workers_rule};

use super::workers::WorkersValue;
use clap::{Arg, ArgAction, value_parser};
use std::alloc::Global;

/// An argument of a command.
#[derive(Clone, Copy)]
pub(crate) enum Argument {
    /// A required positional argument.
    Positional {
        name: &'static str,
        help: &'static str,
    },
    /// An option with an unsigned integer value.
    Number {
        name: &'static str,
        help: &'static str,
        default: &'static str,
    },
    /// A required option with a text as its value.
    Required {
        name: &'static str,
        help: &'static str,
    },
    /// An option with a text as its value.
    Optional {
        name: &'static str,
        help: &'static str,
    },
    /// An option of one of two layers with a text as its value, which the help calls `value`.
    Side {
        name: &'static str,
        value: &'static str,
        help: &'static str,
    },
    /// An option without a value.
    Flag {
        name: &'static str,
        help: &'static str,
    },
    Workers,
    Geometry,
}

pub(crate) const RELATE_ARGUMENTS: [Argument; 6] = [
    Argument::Positional {
        name: "A",
        help: "First geometry, as well-known text",
    },
    Argument::Positional {
        name: "B",
        help: "Second geometry, as well-known text",
    },
    SCALE,
    ROUND,
    Argument::Geometry,
    RINGS,
];

pub(crate) const JOIN_ARGUMENTS: [Argument; 22] = [
    LEFT,
    RIGHT,
    RELATION,
    PAIRS,
    FIRST,
    COUNT,
    UNMATCHED,
    EDITS,
    SKIP,
    Argument::Workers,
    BATCH,
    CUT,
    SCALE,
    ROUND,
    Argument::Geometry,
    RINGS,
    COLUMNS,
    DELIMITER,
    LEFT_COLUMNS,
    RIGHT_COLUMNS,
    LEFT_DELIMITER,
    RIGHT_DELIMITER,
];

pub(crate) const DRAW_ARGUMENTS: [Argument; 18] = [
    LEFT,
    RIGHT,
    RELATION,
    EDITS,
    SKIP,
    Argument::Workers,
    BATCH,
    CUT,
    SCALE,
    ROUND,
    Argument::Geometry,
    RINGS,
    COLUMNS,
    DELIMITER,
    LEFT_COLUMNS,
    RIGHT_COLUMNS,
    LEFT_DELIMITER,
    RIGHT_DELIMITER,
];

pub(crate) const NEAR_ARGUMENTS: [Argument; 19] = [
    LEFT,
    RIGHT,
    DISTANCE,
    APART,
    EDITS,
    SKIP,
    Argument::Workers,
    BATCH,
    CUT,
    SCALE,
    ROUND,
    Argument::Geometry,
    RINGS,
    COLUMNS,
    DELIMITER,
    LEFT_COLUMNS,
    RIGHT_COLUMNS,
    LEFT_DELIMITER,
    RIGHT_DELIMITER,
];

pub(crate) const NEAREST_ARGUMENTS: [Argument; 19] = [
    LEFT,
    RIGHT,
    MOST,
    REACH,
    EDITS,
    SKIP,
    Argument::Workers,
    BATCH,
    CUT,
    SCALE,
    ROUND,
    Argument::Geometry,
    RINGS,
    COLUMNS,
    DELIMITER,
    LEFT_COLUMNS,
    RIGHT_COLUMNS,
    LEFT_DELIMITER,
    RIGHT_DELIMITER,
];

pub(crate) const WINDOW_ARGUMENTS: [Argument; 8] = [
    LAYER,
    Argument::Positional {
        name: "WKT",
        help: "Geometry of the window, as well-known text",
    },
    SCALE,
    ROUND,
    Argument::Geometry,
    RINGS,
    COLUMNS,
    DELIMITER,
];

/// The arguments of `stats` and of `bounds`.
pub(crate) const LAYER_ARGUMENTS: [Argument; 7] = [
    LAYER,
    SCALE,
    ROUND,
    Argument::Geometry,
    RINGS,
    COLUMNS,
    DELIMITER,
];

const LAYER: Argument = Argument::Positional {
    name: "LAYER",
    help: "CSV file of the layer",
};

const LEFT: Argument = Argument::Positional {
    name: "LEFT",
    help: "CSV file of the left layer",
};

const RIGHT: Argument = Argument::Positional {
    name: "RIGHT",
    help: "CSV file of the right layer",
};

const BATCH: Argument = Argument::Number {
    name: "batch",
    help: "Pairs per batch, 1 to 4096",
    default: "256",
};

const CUT: Argument = Argument::Number {
    name: "cut",
    help: "Rounds of cutting the trees into tasks, 0 to 8",
    default: "2",
};

const RELATION: Argument = Argument::Required {
    name: "relation",
    help: "Name of a relation, or mask of nine letters",
};

const PAIRS: Argument = Argument::Flag {
    name: "pairs",
    help: "Write the two ids of each pair, without the matrix",
};

const FIRST: Argument = Argument::Flag {
    name: "first",
    help: "Write the first pair of each left feature alone",
};

const COUNT: Argument = Argument::Flag {
    name: "count",
    help: "Write the number of pairs of each left feature in place of the pairs",
};

const UNMATCHED: Argument = Argument::Flag {
    name: "unmatched",
    help: "Write the left features without a pair in place of the pairs",
};

const DISTANCE: Argument = Argument::Required {
    name: "distance",
    help: "Greatest distance of a pair, read as a coordinate is",
};

const REACH: Argument = Argument::Optional {
    name: "distance",
    help: "Greatest distance of a pair, read as a coordinate is",
};

const MOST: Argument = Argument::Number {
    name: "most",
    help: "Number of nearest features sought for each left one",
    default: "1",
};

const APART: Argument = Argument::Flag {
    name: "apart",
    help: "Leave out pairs that share a point",
};

const EDITS: Argument = Argument::Optional {
    name: "edits",
    help: "CSV file of edits, which are applied before the join",
};

const SKIP: Argument = Argument::Optional {
    name: "skip",
    help: "CSV file for rows whose geometry can't be read, which are left out",
};

const ROUND: Argument = Argument::Flag {
    name: "round",
    help: "Read each number as the nearest one of these decimals",
};

/// The number of decimals of all coordinates.
const SCALE: Argument = Argument::Number {
    name: "scale",
    help: "Decimals of a coordinate, 0 to 6; any geometry 0 to 15",
    default: "0",
};

const RINGS: Argument = Argument::Optional {
    name: "rings",
    help: "Rings that --geometry any accepts, proper (the default) or even-odd",
};

const COLUMNS: Argument = Argument::Optional {
    name: "columns",
    help: "Names of a layer's columns, ID,GEOMETRY or GEOMETRY",
};

const DELIMITER: Argument = Argument::Optional {
    name: "delimiter",
    help: "Character between a layer's fields, \",\" (the default), \";\" or tab",
};

const LEFT_COLUMNS: Argument = Argument::Side {
    name: "left-columns",
    value: "names",
    help: "Names of the left layer's columns, in place of --columns",
};

const RIGHT_COLUMNS: Argument = Argument::Side {
    name: "right-columns",
    value: "names",
    help: "Names of the right layer's columns, in place of --columns",
};

const LEFT_DELIMITER: Argument = Argument::Side {
    name: "left-delimiter",
    value: "sep",
    help: "Character between the left layer's fields, in place of --delimiter",
};

const RIGHT_DELIMITER: Argument = Argument::Side {
    name: "right-delimiter",
    value: "sep",
    help: "Character between the right layer's fields, in place of --delimiter",
};

/// The `clap` definition of an argument, where `--workers` takes such a value.
pub(crate) fn declared_argument<'a>(
    alloc: Global,
    argument: Argument,
    value: WorkersValue,
) -> Arg<'a>
    ensures { IsArgument (argument_rule value argument) result }
{
    match argument {
        Argument::Positional { name, help } => positional(alloc, name, help),
        Argument::Number {
            name,
            help,
            default,
        } => numeric(alloc, name, help, default),
        Argument::Required { name, help } => required(alloc, name, help),
        Argument::Optional { name, help } => optional(alloc, name, help),
        Argument::Side { name, value, help } => side(alloc, name, value, help),
        Argument::Flag { name, help } => flag(alloc, name, help),
        Argument::Workers => workers(alloc, value),
        Argument::Geometry => geometry(alloc),
    }
}

/// A required positional argument.
fn positional<'a>(alloc: Global, name: &'a str, help: &'a str) -> Arg<'a>
    ensures { IsArgument (positional_rule name.entry.now) result }
{
    Arg::new(alloc, name).help(help).required(true)
}

/// An option with an unsigned integer value.
fn numeric<'a>(alloc: Global, name: &'a str, help: &'a str, default: &'a str) -> Arg<'a>
    ensures { IsArgument (numeric_rule name.entry.now default.entry.now) result }
{
    Arg::new(alloc, name)
        .long(name)
        .help(help)
        .value_parser(value_parser!(u32))
        .default_value(default)
}

/// A required option with a text as its value.
fn required<'a>(alloc: Global, name: &'a str, help: &'a str) -> Arg<'a>
    ensures { IsArgument (required_rule name.entry.now) result }
{
    Arg::new(alloc, name).long(name).help(help).required(true)
}

/// An option with a text as its value.
fn optional<'a>(alloc: Global, name: &'a str, help: &'a str) -> Arg<'a>
    ensures { IsArgument (optional_rule name.entry.now) result }
{
    Arg::new(alloc, name).long(name).help(help)
}

/// An option of one of two layers with a text as its value, which the help calls `value`.
fn side<'a>(alloc: Global, name: &'a str, value: &'a str, help: &'a str) -> Arg<'a>
    ensures { IsArgument (side_rule name.entry.now) result }
{
    Arg::new(alloc, name)
        .long(name)
        .value_name(value)
        .help(help)
}

/// An option without a value.
fn flag<'a>(alloc: Global, name: &'a str, help: &'a str) -> Arg<'a>
    ensures { IsArgument (flag_rule name.entry.now) result }
{
    Arg::new(alloc, name)
        .long(name)
        .help(help)
        .action(ArgAction::SetTrue)
}

fn workers<'a>(alloc: Global, value: WorkersValue) -> Arg<'a>
    ensures { IsArgument (workers_rule value) result }
{
    let help = "Number of threads, 1 to 16, or auto for one per processor";
    match value {
        WorkersValue::Number => numeric(alloc, "workers", help, "4"),
        WorkersValue::Text => defaulted(alloc, "workers", help, "4"),
    }
}

fn geometry<'a>(alloc: Global) -> Arg<'a>
    ensures { IsArgument geometry_rule result }
{
    defaulted(
        alloc,
        "geometry",
        "Kind of the geometries, box or any",
        "box",
    )
}

/// An option with a text as its value, which has a default.
fn defaulted<'a>(alloc: Global, name: &'a str, help: &'a str, default: &'a str) -> Arg<'a>
    ensures { IsArgument (default_rule name.entry.now default.entry.now) result }
{
    Arg::new(alloc, name)
        .long(name)
        .help(help)
        .default_value(default)
}
