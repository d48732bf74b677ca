//! Reading how the files of layers are laid out: their columns, and the character between fields.

ghost use Rattle.std.specs.Prelude.{◌≡◌, codes, IfOk, IfErr};
ghost use Rattle.words_core.specs.Readings.{AreColumnNames, HasDelimiterFault, HasLeftFault};
ghost use Rattle.words_core.specs.Readings.{HasOwnDelimiterFault, HasRightFault, IsLayoutIn};
ghost use Rattle.words_core.specs.Readings.{IsLeftLayoutIn, IsNoDelimiter, IsRightLayoutIn};
ghost use Rattle.words_core.specs.Readings.{NamesColumns, NamesDelimiter, found_in, own_or_common};
ghost use Rattle.words_core.specs.Readings.{text_in};

use super::arguments::optional;
use crate::words::WordFault;
use clap::ArgMatches;
use format_core::{Columns, Delimiter, Layout};

/// Reads the layout of the file of a lone layer.
pub fn read_layout<'a>(given: &ArgMatches<'a>) -> Result<Layout<'a>, WordFault>
    ensures ok { IfOk result (IsLayoutIn (found_in given.now)) }
    ensures err { IfErr result (HasDelimiterFault (found_in given.now)) }
{
    let delimiter = delimiter_of(optional(given, "delimiter"), WordFault::Delimiter)?;
    let columns = columns_of(optional(given, "columns"));
    Ok(Layout { delimiter, columns })
}

/// Reads the layout of the left layer's file, by its own options and else by those of both layers.
pub fn read_left_layout<'a>(given: &ArgMatches<'a>) -> Result<Layout<'a>, WordFault>
    ensures ok { IfOk result (IsLeftLayoutIn (found_in given.now)) }
    ensures err { IfErr result (HasLeftFault (found_in given.now)) }
{
    let delimiter = own_delimiter(given, "left-delimiter", WordFault::LeftDelimiter)?;
    let columns = columns_of(own_or_common(given, "left-columns", "columns"));
    Ok(Layout { delimiter, columns })
}

/// Reads the layout of the right layer's file, by its own options and else by those of both layers.
pub fn read_right_layout<'a>(given: &ArgMatches<'a>) -> Result<Layout<'a>, WordFault>
    ensures ok { IfOk result (IsRightLayoutIn (found_in given.now)) }
    ensures err { IfErr result (HasRightFault (found_in given.now)) }
{
    let delimiter = own_delimiter(given, "right-delimiter", WordFault::RightDelimiter)?;
    let columns = columns_of(own_or_common(given, "right-columns", "columns"));
    Ok(Layout { delimiter, columns })
}

/// The word of a side's own option, and without one that of the option for both layers.
fn own_or_common<'a>(given: &ArgMatches<'a>, own: &str, common: &str) -> Option<&'a str>
    ensures { own_or_common own.now common.now (found_in given.now) ≡ text_in result }
{
    match optional(given, own) {
        Some(word) => Some(word),
        None => optional(given, common),
    }
}

/// The character between the fields of a side by the option of this name, whose word is at fault in
/// this way if it names none, and without one by the option for both layers.
fn own_delimiter(
    given: &ArgMatches<'_>,
    own: &str,
    fault: WordFault,
) -> Result<Delimiter, WordFault>
    ensures ok { let rows = found_in given.now in
        IfOk result (NamesDelimiter (own_or_common own.now (codes "delimiter") rows)) }
    ensures err { IfErr result (HasOwnDelimiterFault own.now fault (found_in given.now)) }
{
    match optional(given, own) {
        Some(word) => delimiter_of(Some(word), fault),
        None => delimiter_of(optional(given, "delimiter"), WordFault::Delimiter),
    }
}

/// The character between fields that a word names, or this fault; a comma without a word.
fn delimiter_of(word: Option<&str>, fault: WordFault) -> Result<Delimiter, WordFault>
    ensures ok { IfOk result (NamesDelimiter (text_in word.entry)) }
    ensures none { IfErr result (λ _. IsNoDelimiter (text_in word.entry)) }
    ensures fault { IfErr result (λ f. f ≡ fault) }
{
    match word {
        None => Ok(Delimiter::Comma),
        Some(",") => Ok(Delimiter::Comma),
        Some(";") => Ok(Delimiter::Semicolon),
        Some("tab") => Ok(Delimiter::Tab),
        Some("\t") => Ok(Delimiter::Tab),
        Some(_) => Err(fault),
    }
}

/// The columns that a word names; without a word the file has exactly the usual ones.
fn columns_of(word: Option<&str>) -> Columns<'_>
    ensures { NamesColumns (text_in word.entry) result }
{
    match word {
        None => Columns::Exact,
        Some(names) => named_columns(names),
    }
}

/// The columns with these names, of which that of the ids stands before the first comma.
fn named_columns(names: &str) -> Columns<'_>
    ensures { AreColumnNames names.now result }
{
    match names.split_once(',') {
        Some((id, geometry)) => Columns::Named {
            id: Some(id),
            geometry,
        },
        None => Columns::Named {
            id: None,
            geometry: names,
        },
    }
}
