//! The nearest features of a layer to each feature of another.

ghost use Rattle.std.specs.Prelude.{◌≡◌, All, IfOk, IsOk};
ghost use Rattle.std.specs.List.{flat_map};
ghost use Rattle.layer_core.specs.Layers.{IsLayer};
ghost use Rattle.nearest_core.specs.Matches.{AreMatches, feature_numbers};
ghost use Rattle.nearest_core.specs.Matches.{matches_or_none};

use crate::matches::LayerSearch;
use crate::matching::{Matching as _, matches_by_chunks};
use crate::prepared::{LARGE, PreparedLayer};
use distance_core::Query;
use layer_core::{Geometry, Layer};
use planar_core::Planar;
use refine_core::Refined;
use std::alloc::{AllocError, Global};
use std::thread::Threads;

/// For each feature of the left layer the features of the right one that are nearest to it, as a
/// query asks for them: in the order of the left layer, then by their distances, and then in the
/// order of the right layer. Each has the square of its distance.
///
/// The forms of the right geometries that are large are made first, each once, by the caller's
/// thread. Then at most `workers` threads search, each for the left features of a chunk of its own.
/// 0 and 1 start no thread. If a thread can't be started, the others do its work.
///
/// # Errors
/// If an allocation fails.
pub fn nearest_layers<R, G>(
    rt: &R,
    left: &Layer<G>,
    right: &Layer<G>,
    query: &Query,
    workers: u32,
) -> Result<Vec<Refined<G::Square>>, AllocError>
where
    R: AllocGlobal + Threads + Sync,
    G: Planar + Sync,
    G::Form: Sync,
    G::Square: Send + Drop,
    // for any number of threads: for each left feature, in layer order, exactly the neighbours that
    // are asked for, each once with its squared distance, the nearest first and then in layer order
    ensures { IfOk result (λ matches. AreMatches G.Square.fraction G.has_point query.now
        right.now.list left.now.list.features matches.items) }
{
    let alloc = rt.alloc();
    let numbers = numbers_in(alloc, left)?;
    let right = PreparedLayer::<G>::with_large(alloc, right, LARGE)?;
    let search = LayerSearch {
        left,
        right: &right,
        query,
    };
    if workers <= 1 {
        return search.matches_of(alloc, &numbers);
    }
    let size = numbers.len().div_ceil(workers as usize).max(1);
    let parts = matches_by_chunks(rt, &numbers, &search, size)?;
    concatenated(alloc, parts)
}

/// The numbers of the features of a layer, in order.
fn numbers_in<G: Geometry>(alloc: Global, layer: &Layer<G>) -> Result<Vec<u32>, AllocError>
    ensures numbers { IfOk result (λ numbers. numbers.items ≡ feature_numbers layer.now.list) }
    ensures layer { IfOk result (λ _. IsLayer layer.now.list) }
{
    let mut numbers = Vec::with_capacity(alloc, layer.len())?;
    for feature in layer.iter() {
        numbers.push(feature.number)?;
    }
    Ok(numbers)
}

/// The matches of all chunks, or the error of one.
fn concatenated<M: Drop>(
    alloc: Global,
    parts: Vec<Result<Vec<Refined<M>>, AllocError>>,
) -> Result<Vec<Refined<M>>, AllocError>
    ensures all { IfOk result (λ _. All IsOk parts.items) }
    ensures matches { IfOk result (λ all. all.items ≡ flat_map matches_or_none parts.items) }
{
    let mut all = Vec::new(alloc);
    for part in parts {
        let mut matches = part?;
        all.append(&mut matches)?;
    }
    Ok(all)
}
