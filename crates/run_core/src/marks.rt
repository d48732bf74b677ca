//! The rows of a layer's file whose geometries have a property, by their numbers.

ghost use Rattle.std.specs.Prelude.{◌≡◌, IfOk, map};
ghost use Rattle.file_core.specs.SkippedRows.{skipped_content};
ghost use Rattle.run_core.specs.Marks.{IsOther, MarkedFrom, SkipsTo, numbers_of};

use file_core::SkippedRow;
use layer_core::{Geometry, Iter};
use std::alloc::{AllocError, Global};

/// A property that some geometries have, of which a run lists the rows.
pub trait Marks<G: Geometry> {
    ghost use Rattle.std.specs.Prelude.{◌≡◌, ◌↔◌, false, IfOk, IsTrue};

    ghost is_marked: { Self → G → Type 0 };

    /// Whether some geometry may have the property. If none may, none is tested.
    fn marks_any(&self) -> bool
        ensures { result ≡ false → (g : G) → ¬ (is_marked self.now g) };

    /// Whether a geometry has the property.
    ///
    /// # Errors
    /// If an allocation fails.
    fn marks(&self, alloc: Global, geometry: &G) -> Result<bool, AllocError>
        ensures { IfOk result (λ found. IsTrue found ↔ is_marked self.now geometry.now) };
}

/// The property that no geometry has.
#[derive(Clone, Copy)]
pub struct Unmarked;

impl<G: Geometry> Marks<G> for Unmarked {
    ghost is_marked = { λ _ _. ⊥ };

    fn marks_any(&self) -> bool {
        false
    }

    fn marks(&self, _alloc: Global, _geometry: &G) -> Result<bool, AllocError> {
        Ok(false)
    }
}

/// The numbers of rows of a left and of a right file, from 1, after the header, in file order.
#[derive(Drop)]
pub struct MarkedRows {
    pub left: Vec<u32>,
    pub right: Vec<u32>,
}

impl MarkedRows {
    ghost use Rattle.std.specs.Prelude.{◌≡◌};
    ghost use Rattle.run_core.specs.Marks.{marked_lists, no_rows};

    /// No rows.
    pub fn none(alloc: Global) -> MarkedRows
        ensures { marked_lists result ≡ no_rows }
    {
        MarkedRows {
            left: Vec::new(alloc),
            right: Vec::new(alloc),
        }
    }
}

/// The numbers of the rows whose geometries have a property, given the features of a file and its
/// rows that were skipped, all in file order.
///
/// # Errors
/// If an allocation fails, or a number of a row is 2^32 or more, which no file has.
pub fn marked_rows<G: Geometry, M: Marks<G>>(
    alloc: Global,
    marks: &M,
    features: Iter<'_, G>,
    skipped: &[SkippedRow],
) -> Result<Vec<u32>, AllocError>
    // given a file's features and its skipped rows, exactly the numbers of the rows whose geometry
    // has the property, in file order
    ensures { let numbers = numbers_of (map skipped_content skipped.now) in
        let is_marked = M.is_marked marks.now in
        IfOk result (λ rows. MarkedFrom is_marked 1 numbers features.entry rows.items) }
{
    let mut rows = Vec::new(alloc);
    if !marks.marks_any() {
        return Ok(rows);
    }
    let mut next: u32 = 1;
    let mut left = skipped;
    for feature in features {
        let (row, others) = past_skipped(next, left)?;
        next = row.checked_add(1).ok_or(AllocError)?;
        left = others;
        let found = marks.marks(alloc, feature.shape)?;
        if found {
            rows.push(row)?;
        }
    }
    Ok(rows)
}

/// The first number from `row` on that no skipped row has, if those that are left begin with it,
/// and the skipped rows that are left behind it.
fn past_skipped(row: u32, skipped: &[SkippedRow]) -> Result<(u32, &[SkippedRow]), AllocError>
    ensures { let numbers = numbers_of (map skipped_content skipped.now) in
        IfOk result (λ found. let others = numbers_of (map skipped_content found.1.now) in
        SkipsTo row numbers found.0 others × IsOther found.0 others) }
{
    let mut number = row;
    for (i, other) in skipped.iter().enumerate() {
        if other.row != number {
            return Ok((number, &skipped[i..]));
        }
        number = number.checked_add(1).ok_or(AllocError)?;
    }
    Ok((number, &[]))
}
