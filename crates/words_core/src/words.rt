//! The commands that the words of the command line may ask for.

ghost use Rattle.std.specs.Prelude.{◌≡◌, ◌≢◌, map};
ghost use Rattle.clap.specs.Words.{kind_of};
ghost use Rattle.words_core.specs.Readings.{IsUsageFault, ReadAs};
ghost use Rattle.words_core.specs.declared.words.WordFault.TheVariants as word_faults;

use crate::condition::{Condition, Geometries};
use crate::reading::read_command;
use clap::error::ErrorKind;
use distance_core::{Distance, Nearness, Query};
use format_core::Layout;
use number_core::Scale;
use pair_core::{OptionFault, Options, Product};
use relation_core::{AllowsDisjoint, MaskFault};
use std::alloc::{AllocError, Global};
use thiserror::Error;
use usage_core::usage_of;

/// Two geometries given as texts, and how to read them.
#[derive(Clone, Copy, PartialEq, Eq)]
pub struct RelateRequest<'a> {
    pub a: &'a str,
    pub b: &'a str,
    pub scale: Scale,
    pub geometries: Geometries,
}

/// The paths of the files of two layers, and of their edits, if there are any, and how each layer's
/// file is laid out.
#[derive(Clone, Copy, PartialEq, Eq)]
pub struct LayerPaths<'a> {
    pub left: &'a str,
    pub right: &'a str,
    pub edits: Option<&'a str>,
    /// The path at which the rows whose geometry can't be read are listed; without one, such a row
    /// is a fault.
    pub skip: Option<&'a str>,
    /// The layout of the left layer's file.
    pub left_layout: Layout<'a>,
    /// The layout of the right layer's file.
    pub right_layout: Layout<'a>,
}

/// How the number of workers of the options is meant.
#[derive(Clone, Copy, PartialEq, Eq)]
pub enum Workers {
    /// That many.
    Exact,
    /// One for each processor that the system has for the process, and at most that many.
    Auto,
}

/// Two layers to join after edits, how to read and join them, and what to write.
#[derive(Clone, Copy, PartialEq, Eq)]
pub struct JoinRequest<'a> {
    pub product: Product,
    pub paths: LayerPaths<'a>,
    pub condition: Condition,
    pub options: Options,
    pub workers: Workers,
    pub scale: Scale,
}

/// Two layers to join by distance after edits, and how to read and join them.
#[derive(Clone, Copy, PartialEq, Eq)]
pub struct NearRequest<'a> {
    pub paths: LayerPaths<'a>,
    /// In units of the scale.
    pub distance: Distance,
    pub nearness: Nearness,
    pub options: Options,
    pub workers: Workers,
    pub scale: Scale,
    pub geometries: Geometries,
}

/// Two layers, how to read them after edits, and which features of the second are sought for each
/// of the first.
#[derive(Clone, Copy, PartialEq, Eq)]
pub struct NearestRequest<'a> {
    pub paths: LayerPaths<'a>,
    /// Its distance is in units of the scale.
    pub query: Query,
    pub options: Options,
    pub workers: Workers,
    pub scale: Scale,
    pub geometries: Geometries,
}

/// A layer, and how to read it.
#[derive(Clone, Copy, PartialEq, Eq)]
pub struct LayerRequest<'a> {
    pub path: &'a str,
    pub layout: Layout<'a>,
    pub scale: Scale,
    pub geometries: Geometries,
}

/// A command of the program, with its arguments. Texts and paths borrow from the words.
#[derive(Clone, Copy, PartialEq, Eq)]
pub enum Command<'a> {
    /// Write the matrix of two geometries.
    Relate(RelateRequest<'a>),
    /// Write what is asked for of the pairs of features of two layers that stand in a relation.
    Join(JoinRequest<'a>),
    /// Write the pairs of features of two layers that are at most a distance apart, with their
    /// distances.
    Near(NearRequest<'a>),
    /// Write for each feature of a layer those of another that are nearest to it, with their
    /// distances.
    Nearest(NearestRequest<'a>),
    /// Write the ids of a layer's features that meet the geometry of a text.
    Window {
        layer: LayerRequest<'a>,
        wkt: &'a str,
    },
    /// Write counts of a layer's features.
    Stats(LayerRequest<'a>),
    /// Write the corners of the boxes of a layer's features.
    Bounds(LayerRequest<'a>),
}

/// Why the words are no command.
#[derive(Debug, Drop, Error)]
pub enum WordFault {
    /// The words don't fit the usage, or ask for help: `text` is the text to show.
    #[error("{text}")]
    Usage { text: String, help: bool },
    /// The relation is neither a name nor a mask.
    #[error("--relation: {0}")]
    Relation(MaskFault),
    /// The relation holds for disjoint features too.
    #[error("--relation: disjoint features may fit")]
    AllowsDisjoint,
    /// A number is out of its range.
    #[error(transparent)]
    Options(OptionFault),
    /// The number of decimals is greater than a coordinate of a box can have.
    #[error("--scale must be 0 to 6")]
    Scale,
    /// The number of decimals is greater than a coordinate of any geometry can have.
    #[error("--scale must be 0 to 15")]
    ScaleOfAny,
    /// The distance of boxes is no number of the scale, or out of range.
    #[error("--distance must be a number of the scale, 0 to 4000000000000 units")]
    Distance,
    /// The distance of any geometry is no number of the scale, or out of range.
    #[error("--distance must be a number of the scale, 0 to 4000000000000000000 units")]
    DistanceOfAny,
    /// The number of nearest features is 0.
    #[error("--most must be 1 to 4294967295")]
    Most,
    /// The word of `--geometry` is neither `box` nor `any`.
    #[error("--geometry must be box or any")]
    Geometry,
    /// `--rings` is given without `--geometry any`.
    #[error("--rings needs --geometry any")]
    RingsOfBoxes,
    /// The word of `--rings` is neither `proper` nor `even-odd`.
    #[error("--rings must be proper or even-odd")]
    Rings,
    /// The word of `--delimiter` names no character that may lie between fields.
    #[error("--delimiter must be , ; or tab")]
    Delimiter,
    /// The word of `--left-delimiter` names no character that may lie between fields.
    #[error("--left-delimiter must be , ; or tab")]
    LeftDelimiter,
    /// The word of `--right-delimiter` names no character that may lie between fields.
    #[error("--right-delimiter must be , ; or tab")]
    RightDelimiter,
    /// Memory ran out.
    #[error("no memory")]
    Memory,
}

impl From<MaskFault> for WordFault {
    ghost from_gives = { λ fault e. e ≡ word_faults.Relation fault };

    fn from(fault: MaskFault) -> WordFault {
        WordFault::Relation(fault)
    }
}

impl From<AllowsDisjoint> for WordFault {
    ghost from_gives = { λ _ e. e ≡ word_faults.AllowsDisjoint };

    fn from(_: AllowsDisjoint) -> WordFault {
        WordFault::AllowsDisjoint
    }
}

impl From<OptionFault> for WordFault {
    ghost from_gives = { λ fault e. e ≡ word_faults.Options fault };

    fn from(fault: OptionFault) -> WordFault {
        WordFault::Options(fault)
    }
}

impl From<AllocError> for WordFault {
    ghost from_gives = { λ _ e. e ≡ word_faults.Memory };

    fn from(_: AllocError) -> WordFault {
        WordFault::Memory
    }
}

/// Reads the words of the command line, of which the first is the program's name.
pub fn read_words<'a>(alloc: Global, words: &'a [&'a str]) -> Result<Command<'a>, WordFault>
    // by the specification of `clap` and the usage of `usage_of`, the command that the words name,
    // each of its fields from its own argument; a join's product is the one that `--pairs`,
    // `--first`, `--count` and `--unmatched` ask for; for the number of workers `auto`, which
    // stands for the greatest number, of which there are at most as many as processors, or else a
    // number, which `clap` checks; where `clap` refuses the words, a fault of a kind that it may
    // have, which is help exactly where help or the version is asked for; otherwise the first fault
    // in the order options of a join that exclude each other, arguments, two files at `-`, a list
    // of skipped rows at `-` or at the path of another file of the command, `--delimiter` or that
    // of a side, which stands in its place, relation, whether it holds for disjoint geometries of
    // the kind that the words name, the three numbers, scale, `--distance`, `--most`, `--geometry`,
    // `--rings`. The scale has the limits of any geometry where `--geometry any` is given, and else
    // those of boxes. A distance is the value of its whole word by the grammar of numbers at the
    // scale; a word that spells none is a fault. No other comes but out of memory
    ensures { ReadAs (map (λ word. word.now) words.now) result }
{
    let program = usage_of(alloc, words)?;
    match program.try_get_matches_from(words) {
        Ok(matches) => read_command(alloc, &matches),
        Err(error) => Err(usage_fault(alloc, &error)),
    }
}

/// The fault of words that `clap` refuses, or that ask for help.
fn usage_fault(alloc: Global, error: &clap::Error) -> WordFault
    ensures memory { kind_of error.now ≡ ErrorKind.OutOfMemory → result ≡ WordFault.Memory }
    ensures told { result ≢ WordFault.Memory → IsUsageFault (kind_of error.now) result }
{
    if matches!(error.kind(), ErrorKind::OutOfMemory) {
        return WordFault::Memory;
    }
    let help = !error.use_stderr();
    match format!(in alloc; "{error}") {
        Ok(text) => WordFault::Usage { text, help },
        Err(AllocError) => WordFault::Memory,
    }
}
