//! Tests of what no clause of the crates of shapes and geometries states, from `geom_core` to
//! `relate_any_core`: worked examples of matrices, relations, distances and proper rings, texts
//! read and printed, plain scans that are independent of the code, and refused allocations.
#![tactic(auto)]

#[cfg(test)]
mod binary_doubles;
#[cfg(test)]
mod binary_readings;
#[cfg(test)]
mod distance_shapes;
#[cfg(test)]
mod distances;
#[cfg(test)]
mod doubles;
#[cfg(test)]
mod drawings;
#[cfg(test)]
mod drawn;
#[cfg(test)]
mod edges;
#[cfg(test)]
mod geom_matrices;
#[cfg(test)]
mod geom_readings;
#[cfg(test)]
mod geom_shapes;
#[cfg(test)]
mod grids;
#[cfg(test)]
mod joinable;
#[cfg(test)]
mod long_texts;
#[cfg(test)]
mod many;
#[cfg(test)]
mod masks;
#[cfg(test)]
mod matrix_scan;
#[cfg(test)]
mod plain;
#[cfg(test)]
mod plane_matrices;
#[cfg(test)]
mod plane_refused;
#[cfg(test)]
mod prepared;
#[cfg(test)]
mod printings;
#[cfg(test)]
mod refused_memory;
#[cfg(test)]
mod related;
#[cfg(test)]
mod relation_scan;
#[cfg(test)]
mod ring_refused;
#[cfg(test)]
mod rings;
#[cfg(test)]
mod roots;
#[cfg(test)]
mod roundings;
#[cfg(test)]
mod rows;
#[cfg(test)]
mod scales;
#[cfg(test)]
mod wkt_any_readings;
#[cfg(test)]
mod zigzags;
