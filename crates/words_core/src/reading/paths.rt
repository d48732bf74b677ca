//! Reading the paths of two layers and of their edits, and the layouts of the layers' files.

ghost use Rattle.std.specs.Prelude.{◌≡◌, ◌≢◌, IfOk, IfErr};
ghost use Rattle.words_core.specs.Readings.{ArePathsIn, NeedsPaths, found_in, is_taken};
ghost use Rattle.words_core.specs.Readings.{share_input, text_in};

use super::arguments::{optional, required, usage_fault};
use super::layout::{read_left_layout, read_right_layout};
use crate::standard_input::is_standard_input;
use crate::words::{LayerPaths, WordFault};
use clap::ArgMatches;
use std::alloc::Global;

/// Reads the paths, and how each layer's file is laid out. At most one of the files may be standard
/// input, and the list of skipped rows has to be another file.
pub fn read_paths<'a>(alloc: Global, given: &ArgMatches<'a>) -> Result<LayerPaths<'a>, WordFault>
    ensures ok { IfOk result (ArePathsIn (found_in given.now)) }
    ensures err { IfErr result (λ f. f ≢ WordFault.Memory → NeedsPaths (found_in given.now) f ⊥) }
{
    let left = required(alloc, given, "LEFT")?;
    let right = required(alloc, given, "RIGHT")?;
    let edits = optional(given, "edits");
    if shares_input(left, right, edits) {
        return Err(usage_fault(
            alloc,
            "error: only one of LEFT, RIGHT and --edits can be -\n",
        ));
    }
    let skip = optional(given, "skip");
    if is_taken(left, right, edits, skip) {
        return Err(usage_fault(alloc, "error: --skip needs a file of its own\n"));
    }
    let left_layout = read_left_layout(given)?;
    let right_layout = read_right_layout(given)?;
    Ok(LayerPaths {
        left,
        right,
        edits,
        skip,
        left_layout,
        right_layout,
    })
}

/// Whether the list of skipped rows would be written to standard output or over a file of the join.
fn is_taken(left: &str, right: &str, edits: Option<&str>, skip: Option<&str>) -> bool
    ensures { result ≡ is_taken left.now right.now (text_in edits.entry) (text_in skip.entry) }
{
    let Some(path) = skip else {
        return false;
    };
    let is_edits = match edits {
        Some(edits) => path == edits,
        None => false,
    };
    is_standard_input(path) || path == left || path == right || is_edits
}

/// Whether at least two of the files of a join are standard input.
fn shares_input(left: &str, right: &str, edits: Option<&str>) -> bool
    ensures { result ≡ share_input left.now right.now (text_in edits.entry) }
{
    let (left, right) = (is_standard_input(left), is_standard_input(right));
    let edits = match edits {
        Some(edits) => is_standard_input(edits),
        None => false,
    };
    (left && right) || ((left || right) && edits)
}
