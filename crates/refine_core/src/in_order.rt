//! Putting the results of the workers into the order of the list.

ghost use Rattle.std.specs.Prelude.{◌≡◌, ◌<◌, ◌++◌, ℕ, All, Contains, IfOk, OnOk, IsOk, length};
ghost use Rattle.std.specs.Prelude.{flat_map};
ghost use Rattle.refine_core.specs.Parts.{numbers_of, seat_in, parts_in, HasRow};

use crate::refined::Refined;
use crate::worker::{Part, Share};
use deliver_core::BoardSeat;
use std::alloc::{AllocError, Global};

/// The seats of all workers and the parts of all chunks, or the error of a worker.
pub(crate) fn gather<A: Drop>(
    alloc: Global,
    shares: Vec<Result<Share<A>, AllocError>>,
) -> Result<(Vec<BoardSeat>, Vec<Part<A>>), AllocError>
    ensures all { IfOk result (λ _. All IsOk shares.items) }
    ensures seats { IfOk result (λ r. r.0.items ≡ flat_map seat_in shares.items) }
    ensures parts { IfOk result (λ r. r.1.items ≡ flat_map parts_in shares.items) }
{
    let mut seats = Vec::new(alloc);
    let mut parts = Vec::new(alloc);
    for share in shares {
        let Share {
            seat,
            parts: mut more,
        } = share?;
        seats.push(seat)?;
        parts.append(&mut more)?;
    }
    Ok((seats, parts))
}

/// The pairs of each chunk that satisfy the condition, in the order of the chunks.
pub(crate) fn rows_of<A: Drop>(
    alloc: Global,
    chunks: u32,
    parts: Vec<Part<A>>,
) -> Result<Vec<Vec<Refined<A>>>, AllocError>
    requires { All (λ part. part.chunk < chunks) parts.items }
    ensures len { IfOk result (λ rows. length rows.items ≡ chunks) }
    ensures rows { IfOk result (λ rows. (number : ℕ) → Contains (numbers_of parts.items) number
        → HasRow parts.items rows.items number) }
{
    let mut rows = empty_rows(alloc, chunks)?;
    for part in parts {
        rows[part.chunk as usize] = part.refined;
    }
    Ok(rows)
}

/// `chunks` empty rows.
fn empty_rows<A: Drop>(alloc: Global, chunks: u32) -> Result<Vec<Vec<Refined<A>>>, AllocError>
    ensures { IfOk result (λ rows. length rows.items ≡ chunks) }
{
    let mut rows = Vec::with_capacity(alloc, chunks as usize)?;
    for _ in 0..chunks {
        rows.push_reserved(Vec::new(alloc));
    }
    Ok(rows)
}

/// The rows, concatenated.
pub(crate) fn join_rows<A: Drop>(
    alloc: Global,
    rows: Vec<Vec<Refined<A>>>,
) -> Result<Vec<Refined<A>>, AllocError>
    ensures { IfOk result (λ all. all.items ≡ flat_map (λ row. row.items) rows.items) }
{
    let mut all = Vec::with_capacity(alloc, total_len(&rows))?;
    for mut row in rows {
        all.append(&mut row)?;
    }
    Ok(all)
}

/// The number of pairs in all rows, for which room is reserved.
fn total_len<A>(rows: &[Vec<Refined<A>>]) -> usize {
    let mut len = 0_usize;
    for row in rows {
        len = len.saturating_add(row.len());
    }
    len
}
