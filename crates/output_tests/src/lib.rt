//! Tests of pictures and of reports of layers of any geometry, from outside: texts written by hand.
#![tactic(auto)]

#[cfg(test)]
mod any_layers;
#[cfg(test)]
mod any_pictures;
#[cfg(test)]
mod draw_refused;
#[cfg(test)]
mod layers;
#[cfg(test)]
mod matching;
#[cfg(test)]
mod parity;
#[cfg(test)]
mod pictures;
#[cfg(test)]
mod refining;
#[cfg(test)]
mod report_refused;
#[cfg(test)]
mod reports;
