//! Tests of trees, layers and their files from outside: worked rows of `rtree_core`, edits compared
//! with a plain list, counts, files and cuts between parts, refused allocations, and devices that
//! fail.
#![tactic(auto)]

#[cfg(test)]
mod any_files;
#[cfg(test)]
mod broken;
#[cfg(test)]
mod devices;
#[cfg(test)]
mod edited;
#[cfg(test)]
mod edits;
#[cfg(test)]
mod file_refused_memory;
#[cfg(test)]
mod files;
#[cfg(test)]
mod layer_mixed;
#[cfg(test)]
mod layer_refused_memory;
#[cfg(test)]
mod layers;
#[cfg(test)]
mod parts;
#[cfg(test)]
mod pruned;
#[cfg(test)]
mod read_layers;
#[cfg(test)]
mod refused;
#[cfg(test)]
mod rows;
#[cfg(test)]
mod rtree_mixed;
#[cfg(test)]
mod skipped;
#[cfg(test)]
mod skipped_parts;
#[cfg(test)]
mod skipping;
#[cfg(test)]
mod sorted;
#[cfg(test)]
mod stats;
#[cfg(test)]
mod threads;
#[cfg(test)]
mod trees;
