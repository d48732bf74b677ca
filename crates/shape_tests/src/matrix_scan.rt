//! The matrix of all pairs of shapes with corners from 0 to 3, compared with a scan over all cells.

ghost use Rattle.std.specs.Prelude.{◌≡◌, ◌+◌, ◌*◌, ◌<◌};

use geom_core::Shape;
use relation_core::{Letters, relate};
use std::alloc::{AllocError, Global};
use std::test::Fail;

/// Corners from 0 to 3, each pair in order.
#[derive(Clone, Copy)]
pub(crate) struct Corners {
    pub(crate) x1: u8,
    pub(crate) y1: u8,
    pub(crate) x2: u8,
    pub(crate) y2: u8,
}

/// The places along an axis: the line at `c` is place `2c + 1`, and the even places are gaps.
pub(crate) const PLACES: u32 = 9;

fn place(line: u8) -> u32
    ensures { result ≡ 2 * line + 1 }
{
    2 * u32::from(line) + 1
}

fn is_within(lo: u8, hi: u8, at: u32) -> bool {
    place(lo) <= at && at <= place(hi)
}

fn is_inner(lo: u8, hi: u8, at: u32) -> bool {
    if lo == hi {
        at == place(lo)
    } else {
        place(lo) < at && at < place(hi)
    }
}

/// The part of a cell: 0 for the interior, 1 for the boundary, 2 for the exterior.
pub(crate) fn part_at(shape: &Corners, u: u32, v: u32) -> usize
    ensures { result < 3 }
{
    let closed = is_within(shape.x1, shape.x2, u) && is_within(shape.y1, shape.y2, v);
    let inner = is_inner(shape.x1, shape.x2, u) && is_inner(shape.y1, shape.y2, v);
    match (closed, inner) {
        (false, _) => 2,
        (true, true) => 0,
        (true, false) => 1,
    }
}

/// The letter of a cell's dimension, which is its number of gaps.
fn letter_at(u: u32, v: u32) -> u8 {
    match (u % 2, v % 2) {
        (0, 0) => b'2',
        (1, 1) => b'0',
        _ => b'1',
    }
}

/// The nine letters, computed from every cell of a grid with all lines and the gaps beside them.
fn scanned(a: &Corners, b: &Corners) -> [u8; 9] {
    let mut text = *b"FFFFFFFFF";
    for cell in 0..PLACES * PLACES {
        let (u, v) = (cell / PLACES, cell % PLACES);
        let entry = 3 * part_at(a, u, v) + part_at(b, u, v);
        let letter = letter_at(u, v);
        if text[entry] == b'F' || text[entry] < letter {
            text[entry] = letter;
        }
    }
    text
}

/// All corners from 0 to 3 that are in order.
pub(crate) fn all_corners(alloc: Global) -> Result<Vec<Corners>, AllocError> {
    let mut all = Vec::new(alloc);
    for code in 0..=u8::MAX {
        let c = Corners {
            x1: code % 4,
            y1: code / 4 % 4,
            x2: code / 16 % 4,
            y2: code / 64,
        };
        if c.x1 <= c.x2 && c.y1 <= c.y2 {
            all.push(c)?;
        }
    }
    Ok(all)
}

pub(crate) fn shape(c: &Corners) -> Option<Shape> {
    Shape::new(c.x1.into(), c.y1.into(), c.x2.into(), c.y2.into())
}

#[test]
fn every_matrix_is_that_of_a_scan(rt: HostRuntime) -> Result<(), Fail> {
    let all = all_corners(rt.alloc())?;
    assert!(rt; all.len() == 100);
    let letters = Letters::new();
    for a in &all {
        let first = shape(a).ok_or("corners in order")?;
        for b in &all {
            let second = shape(b).ok_or("corners in order")?;
            let nine = scanned(a, b);
            assert!(rt; relate(&first, &second).text() == nine);
            assert!(rt; *letters.of(&first, &second) == nine);
        }
    }
    Ok(())
}
