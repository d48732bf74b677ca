//! The values of single arguments, and the faults of words.

ghost use Rattle.std.specs.Prelude.{◌≡◌, ◌≢◌, Some, None, IfOk, IfErr};
ghost use Rattle.clap.specs.Words.{first_of};
ghost use Rattle.words_core.specs.Readings.{Says, found_in, missing_text, number_at, text_in};

use crate::words::WordFault;
use clap::ArgMatches;
use std::alloc::{AllocError, Global};

/// The value of an argument that `clap` requires.
pub fn required<'a>(alloc: Global, given: &ArgMatches<'a>, name: &str) -> Result<&'a str, WordFault>
    ensures ok { IfOk result (λ value.
        first_of name.now (found_in given.now) ≡ Some value.now) }
    ensures none { IfErr result (λ _. first_of name.now (found_in given.now) ≡ None) }
    ensures told { IfErr result (λ f. f ≢ WordFault.Memory → Says (missing_text name.now) f) }
{
    match given.get_str(name) {
        Some(value) => Ok(value),
        None => Err(missing(alloc, name)),
    }
}

/// The value of an optional argument.
pub fn optional<'a>(given: &ArgMatches<'a>, name: &str) -> Option<&'a str>
    ensures { first_of name.now (found_in given.now) ≡ text_in result }
{
    given.get_str(name)
}

/// The value of a number, which is required or has a default.
pub fn number(alloc: Global, given: &ArgMatches<'_>, name: &str) -> Result<u32, WordFault>
    ensures ok { IfOk result (λ value. number_at name.now (found_in given.now) ≡ Some value) }
    ensures none { IfErr result (λ _. number_at name.now (found_in given.now) ≡ None) }
    ensures told { IfErr result (λ f. f ≢ WordFault.Memory → Says (missing_text name.now) f) }
{
    match given.get_one::<u32>(name) {
        Some(value) => Ok(value),
        None => Err(missing(alloc, name)),
    }
}

/// The fault of an argument without a value.
pub fn missing(alloc: Global, name: &str) -> WordFault
    ensures { result ≢ WordFault.Memory → Says (missing_text name.now) result }
{
    match format!(in alloc; "error: {name} is missing\n") {
        Ok(text) => WordFault::Usage { text, help: false },
        Err(AllocError) => WordFault::Memory,
    }
}

/// The fault of words that this text refuses.
pub fn usage_fault(alloc: Global, text: &str) -> WordFault
    ensures { result ≢ WordFault.Memory → Says text.now result }
{
    match String::from_str(alloc, text) {
        Ok(text) => WordFault::Usage { text, help: false },
        Err(AllocError) => WordFault::Memory,
    }
}
