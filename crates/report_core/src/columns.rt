//! The columns of a report: the ids of two layers' features as CSV fields, found by number.

ghost use Rattle.std.specs.Prelude.{◌≡◌, ◌≤◌, ◌<◌, ◌+◌, ◌++◌, ◌^◌, ℕ, List, Option, All, length};
ghost use Rattle.std.specs.Prelude.{IfOk, OnOk, IsSomeAnd};
ghost use Rattle.report_core.specs.Columns.{id_in, field_for, IsColumn, AreColumnsFor};

use crate::csv_fields::push_leading_field;
use layer_core::{Geometry, Layer};
use refine_core::AsPair;
use std::alloc::{AllocError, Global};
use std::thread;
use std::thread::Threads;

/// An estimate of the number of bytes of the last field and the end of a record: that of the
/// letters of a matrix and a line feed.
const LAST_AND_END: usize = 10;

/// The number of features by which the room of a column is estimated.
const SAMPLES: usize = 256;

/// The ids of a layer's features, as CSV fields with their commas, by number.
///
/// A report needs right features in no particular order. Here their ids are contiguous; in a layer
/// each access would read a slot and then the id that it refers to.
#[derive(Drop)]
pub(crate) struct Column {
    /// Where the field of each number starts, followed by the end of the last field. The field of a
    /// number without a feature is empty.
    starts: Vec<usize>,
    /// The fields, one after another.
    text: Vec<u8>,
}

/// The columns of a report: the ids of a left and a right layer.
#[derive(Drop)]
pub(crate) struct Columns {
    pub(crate) left: Column,
    pub(crate) right: Column,
}

impl Column {
    /// The column of the features of a layer whose numbers are less than `bound`.
    fn new<G: Geometry>(alloc: Global, layer: &Layer<G>, bound: usize) -> Result<Column, AllocError>
        requires { bound ≤ 2 ^ 32 }
        ensures fields { IfOk result
            (λ column. IsColumn (id_in layer.now.list) column.starts.items column.text.items) }
        ensures len { IfOk result (λ column. length column.starts.items ≡ bound + 1) }
    {
        let mut starts = Vec::with_capacity(alloc, bound + 1)?;
        let mut text = Vec::with_capacity(alloc, likely_room(layer, bound))?;
        starts.push(0)?;
        for number in 0..bound {
            push_field(alloc, &mut text, layer, number as u32)?;
            let end = text.len();
            starts.push(end)?;
        }
        Ok(Column { starts, text })
    }

    /// The id of the feature with this number, as a CSV field with its comma.
    pub(crate) fn at(&self, number: u32) -> Option<&[u8]>
        ensures { (ids : ℕ → Option (List ℕ))
            → IsColumn ids self.now.starts.items self.now.text.items
            → number + 1 < length self.now.starts.items
            → IsSomeAnd result (λ field. field.now ≡ field_for (ids number)) }
    {
        let number = number as usize;
        let start = *self.starts.get(number)?;
        let end = *self.starts.get(number + 1)?;
        self.text.get(start..end)
    }

    /// The number of bytes of the field at `number`, for which only its place is read.
    fn len_at(&self, number: u32) -> usize {
        let number = number as usize;
        match (self.starts.get(number), self.starts.get(number + 1)) {
            (Some(start), Some(end)) => end.saturating_sub(*start),
            _ => 0,
        }
    }

    /// Whether the field at `number` is in quotes. It reads the field's first byte, so that the
    /// processor fetches the field.
    pub(crate) fn is_quoted(&self, number: u32) -> bool {
        match self.starts.get(number as usize) {
            Some(start) => self.text.get(*start) == Some(&b'"'),
            None => false,
        }
    }

    /// The average number of bytes of a field.
    fn likely_field(&self) -> usize {
        self.text.len().div_ceil(self.starts.len().max(1))
    }
}

impl Columns {
    /// The expected number of bytes of a record of the report. It is an estimate, which affects
    /// time and memory only.
    pub(crate) fn likely_record(&self) -> usize {
        let left = self.left.likely_field();
        let right = self.right.likely_field();
        LAST_AND_END.saturating_add(left).saturating_add(right)
    }

    /// An estimate of the number of bytes of a pair's record.
    pub(crate) fn room_of(&self, pair: (u32, u32)) -> usize {
        let left = self.left.len_at(pair.0);
        let right = self.right.len_at(pair.1);
        LAST_AND_END.saturating_add(left).saturating_add(right)
    }

    /// The columns of two layers, up to the greatest numbers that occur in the matches.
    pub(crate) fn new<G: Geometry, M: AsPair>(
        alloc: Global,
        left: &Layer<G>,
        right: &Layer<G>,
        matches: &[M],
    ) -> Result<Columns, AllocError>
        ensures { IfOk result
            (AreColumnsFor M.pair_of left.now.list right.now.list matches.now) }
    {
        let (left_bound, right_bound) = bounds(matches);
        Ok(Columns {
            left: Column::new(alloc, left, left_bound)?,
            right: Column::new(alloc, right, right_bound)?,
        })
    }

    /// The same columns, the left and the right one made in parallel.
    pub(crate) fn side_by_side<R, G, M>(
        rt: &R,
        left: &Layer<G>,
        right: &Layer<G>,
        matches: &[M],
    ) -> Result<Columns, AllocError>
    where
        R: AllocGlobal + Threads + Sync,
        G: Geometry + Sync,
        M: AsPair,
        ensures { IfOk result
            (AreColumnsFor M.pair_of left.now.list right.now.list matches.now) }
    {
        let alloc = rt.alloc();
        let (left_bound, right_bound) = bounds(matches);
        let (left_column, right_column) = thread::join(
            rt,
            move || Column::new(alloc, left, left_bound),
            move || Column::new(alloc, right, right_bound),
        );
        Ok(Columns {
            left: left_column?,
            right: right_column?,
        })
    }
}

/// One more than the greatest number of each side, or 0 without matches.
fn bounds<M: AsPair>(matches: &[M]) -> (usize, usize)
    ensures left { All (λ a. (M.pair_of a).0 < result.0) matches.now }
    ensures right { All (λ a. (M.pair_of a).1 < result.1) matches.now }
    ensures few { (result.0 ≤ 2 ^ 32) × (result.1 ≤ 2 ^ 32) }
{
    let (mut left, mut right) = (0, 0);
    for found in matches {
        let pair = found.as_pair();
        left = left.max(pair.0 as usize + 1);
        right = right.max(pair.1 as usize + 1);
    }
    (left, right)
}

/// An estimate of the number of bytes of a layer's fields, plus a comma each, of the numbers less
/// than `bound`: those of evenly spaced features, times the features from one to the next. Some
/// more is reserved, so that a column is seldom moved as it grows.
fn likely_room<G: Geometry>(layer: &Layer<G>, bound: usize) -> usize {
    let step = bound.div_ceil(SAMPLES).max(1);
    let mut room: usize = 0;
    for sample in 0..SAMPLES {
        let number = sample.saturating_mul(step);
        room = room.saturating_add(field_room(layer, number));
    }
    room.saturating_mul(step).saturating_add(bound)
}

/// An estimate of the number of bytes of the field of the feature with this number, if there is
/// one.
fn field_room<G: Geometry>(layer: &Layer<G>, number: usize) -> usize {
    let Ok(number) = u32::try_from(number) else {
        return 0;
    };
    match layer.at(number) {
        Some((id, _)) => id.len().saturating_add(1),
        None => 0,
    }
}

/// Adds the field of the feature with this number, if there is one, to `text`.
fn push_field<G: Geometry>(
    alloc: Global,
    text: &mut Vec<u8>,
    layer: &Layer<G>,
    number: u32,
) -> Result<(), AllocError>
    ensures { OnOk result
        (text.new.items ≡ text.old.items ++ field_for (id_in layer.now.list number)) }
{
    match layer.at(number) {
        Some((id, _)) => push_leading_field(alloc, text, id.as_bytes()),
        None => Ok(()),
    }
}
