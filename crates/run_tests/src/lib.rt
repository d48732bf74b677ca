//! Tests of runs over readers and writers, from outside: readers and writers that fail, refused
//! allocations, joins by any options, and the lines of faults.
#![tactic(auto)]

#[cfg(test)]
mod bounds_runs;
#[cfg(test)]
mod broken;
#[cfg(test)]
mod device;
#[cfg(test)]
mod example;
#[cfg(test)]
mod fault_lines;
#[cfg(test)]
mod join_refused;
#[cfg(test)]
mod join_running;
#[cfg(test)]
mod layer_runs;
#[cfg(test)]
mod near_refused;
#[cfg(test)]
mod near_running;
#[cfg(test)]
mod relating;
#[cfg(test)]
mod thousand_joins;
#[cfg(test)]
mod told_faults;
