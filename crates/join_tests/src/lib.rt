//! Tests of joins of two layers from outside: the parts of a join by workers, pairs and marks of
//! small layers worked out by hand, by relation, by distance and of nearest features, and refused
//! allocations.
#![tactic(auto)]

#[cfg(test)]
mod any_join_layers;
#[cfg(test)]
mod any_join_refused;
#[cfg(test)]
mod any_joins;
#[cfg(test)]
mod any_nearest_layers;
#[cfg(test)]
mod any_nearest_refused;
#[cfg(test)]
mod board;
#[cfg(test)]
mod boxes;
#[cfg(test)]
mod collector;
#[cfg(test)]
mod descent_refused;
#[cfg(test)]
mod descent_rows;
#[cfg(test)]
mod early_ends;
#[cfg(test)]
mod even_sums;
#[cfg(test)]
mod expected;
#[cfg(test)]
mod formats;
#[cfg(test)]
mod full_outlet;
#[cfg(test)]
mod gates;
#[cfg(test)]
mod giving_up;
#[cfg(test)]
mod join_layers;
#[cfg(test)]
mod join_scan;
#[cfg(test)]
mod large;
#[cfg(test)]
mod lists;
#[cfg(test)]
mod meeting;
#[cfg(test)]
mod near_joins;
#[cfg(test)]
mod near_layers;
#[cfg(test)]
mod near_plain;
#[cfg(test)]
mod near_refused;
#[cfg(test)]
mod nearest_joins;
#[cfg(test)]
mod nearest_layers;
#[cfg(test)]
mod nearest_plain;
#[cfg(test)]
mod nearest_refused;
#[cfg(test)]
mod options;
#[cfg(test)]
mod outlet;
#[cfg(test)]
mod pairs;
#[cfg(test)]
mod prepared;
#[cfg(test)]
mod scripts;
#[cfg(test)]
mod shapes;
#[cfg(test)]
mod teams;
#[cfg(test)]
mod workers;
