//! Tests of commands, from outside: their words, the texts of help, runs with each allocation
//! refused in turn, and paths that no file has.
#![tactic(auto)]

#[cfg(test)]
mod any_words;
#[cfg(test)]
mod command_help;
#[cfg(test)]
mod command_refused;
#[cfg(test)]
mod commands;
#[cfg(test)]
mod help_texts;
#[cfg(test)]
mod near_words;
#[cfg(test)]
mod nearest_words;
#[cfg(test)]
mod read_words;
#[cfg(test)]
mod runs;
#[cfg(test)]
mod shelf;
#[cfg(test)]
mod skip_words;
#[cfg(test)]
mod usage_help;
#[cfg(test)]
mod word_faults;
#[cfg(test)]
mod words_refused;
#[cfg(test)]
mod workers;
