//! The matches of a list of left features, one after another.

ghost use Rattle.std.specs.Prelude.{◌≡◌, ◌++◌, IfOk, OnOk, map};
ghost use Rattle.nearest_core.specs.Matches.{AddsRow, AreMatchesOf, paired};

use crate::matching::Matching;
use crate::neighbour::Neighbour;
use crate::prepared::PreparedLayer;
use crate::search::{Room, search};
use crate::sought::Sought;
use distance_core::Query;
use layer_core::Layer;
use planar_core::{Planar, Square};
use refine_core::Refined;
use std::alloc::{AllocError, Global};

/// A search for the features of a right layer that are nearest to those of a left one.
#[derive(Drop)]
pub(crate) struct LayerSearch<'a, G: Planar> {
    pub(crate) left: &'a Layer<G>,
    pub(crate) right: &'a PreparedLayer<'a, G>,
    pub(crate) query: &'a Query,
}

impl<'a, G: Planar> Matching for LayerSearch<'a, G> {
    ghost use Rattle.nearest_core.specs.Matches.{IsNumberRow};

    type Answer = G::Square;

    ghost is_row = { λ s. IsNumberRow G.Square.fraction G.has_point s.query.now s.right.now
        s.left.now.list };

    fn matches_of(
        &self,
        alloc: Global,
        numbers: &[u32],
    ) -> Result<Vec<Refined<G::Square>>, AllocError> {
        matches_of(alloc, numbers, self.left, self.right, self.query)
    }
}

/// The matches of the left features with these numbers, in order.
pub(crate) fn matches_of<G: Planar>(
    alloc: Global,
    numbers: &[u32],
    left: &Layer<G>,
    right: &PreparedLayer<'_, G>,
    query: &Query,
) -> Result<Vec<Refined<G::Square>>, AllocError>
    ensures { IfOk result (λ matches. AreMatchesOf G.Square.fraction G.has_point query.now right.now
        left.now.list numbers.now matches.items) }
{
    let mut room = Room::new(alloc);
    let mut matches = Vec::new(alloc);
    for number in numbers {
        push_matches(alloc, &mut matches, *number, left, right, query, &mut room)?;
    }
    Ok(matches)
}

/// Adds the matches of the left feature with this number.
fn push_matches<'a, G: Planar>(
    alloc: Global,
    matches: &mut Vec<Refined<G::Square>>,
    number: u32,
    left: &Layer<G>,
    right: &PreparedLayer<'a, G>,
    query: &Query,
    room: &mut Room<'a, G::Square>,
) -> Result<(), AllocError>
    ensures { let old = matches.old.items in OnOk result (AddsRow G.Square.fraction G.has_point
        query.now right.now left.now.list number old matches.new.items) }
{
    let Some(geometry) = left.shape(number) else {
        return Ok(());
    };
    let form = geometry.form(alloc)?;
    let sought = Sought {
        geometry,
        form: &form,
        bounds: geometry.bounds(),
        query,
    };
    search(alloc, right, &sought, room)?;
    push_row(matches, number, &room.found)
}

/// Adds the matches of one left feature with these right ones.
fn push_row<S: Square>(
    matches: &mut Vec<Refined<S>>,
    left: u32,
    found: &[Neighbour<S>],
) -> Result<(), AllocError>
    ensures { OnOk result (matches.new.items ≡ matches.old.items ++ map (paired left) found.now) }
{
    for neighbour in found {
        matches.push(Refined {
            pair: (left, neighbour.number),
            answer: neighbour.square,
        })?;
    }
    Ok(())
}
