//! The features of the rows of a layer's file up to some row, and the rows that were skipped.

ghost use Rattle.std.specs.Prelude.{◌≡◌, ◌+◌, ◌≤◌, IfOk};
ghost use Rattle.row_core.specs.Rows.{most_rows};
ghost use Rattle.file_core.specs.SkippedRows.{begun, loaded_of, rows_in};

use crate::skipped::{SkippedRow, Unreadable};
use layer_core::Geometry;
use layer_edit_core::FeatureListBuilder;
use std::alloc::{AllocError, Global};
use std::hash::RandomState;

/// The features of the rows up to some row, as a list, and the rows that were skipped. Each row is
/// one or the other.
#[derive(Drop)]
pub(crate) struct Loading<T> {
    pub(crate) features: T,
    pub(crate) skipped: Vec<SkippedRow>,
    pub(crate) unreadable: Unreadable,
    pub(crate) alloc: Global,
}

/// Before the first row, with memory for this number of features. `state` hashes the ids.
pub(crate) fn begin<G: Geometry>(
    alloc: Global,
    state: RandomState,
    unreadable: Unreadable,
    likely_rows: usize,
) -> Result<Loading<FeatureListBuilder<G>>, AllocError>
    ensures { IfOk result (λ loading. loaded_of loading ≡ begun unreadable) }
{
    Ok(Loading {
        features: FeatureListBuilder::new(alloc, state, likely_rows)?,
        skipped: Vec::new(alloc),
        unreadable,
        alloc,
    })
}

/// The number of the next row.
#[tactic(auto, using(crate::proofs::LoadedLemmas::length_skipped))]
pub(crate) fn next_row<G: Geometry>(loading: &Loading<FeatureListBuilder<G>>) -> u32
    requires { rows_in (loaded_of loading.now) + 1 ≤ most_rows }
    ensures { result ≡ rows_in (loaded_of loading.now) + 1 }
{
    loading.features.inserted() + loading.skipped.len() as u32 + 1
}
