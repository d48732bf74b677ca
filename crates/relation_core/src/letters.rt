//! The letters of matrices, looked up by the meetings of two shapes along the axes.

ghost use Rattle.std.specs.Prelude.{◌≡◌, ◌<◌};
ghost use Rattle.std.proofs.Props.{props};
ghost use Rattle.relation_core.specs.Axes.{matrix_by};
ghost use Rattle.relation_core.specs.Letters.{place_of, AreColumns, IsLetterRow, IsLetterTable};
ghost use Rattle.relation_core.specs.Matrices.{letters_of};

use crate::intersections::matrix_by;
use crate::meeting::Meeting;
use geom_core::Shape;

/// The letters of one matrix.
#[derive(Drop)]
struct NineLetters {
    letters: [u8; 9],
}

/// The letters for one meeting along the first axis.
#[derive(Drop)]
struct LetterRow {
    /// By the index of the meeting along the second axis.
    columns: [NineLetters; 16],
}

/// The meetings, in the order of their indexes.
const MEETINGS: [Meeting; 16] = [
    Meeting::Disjoint,
    Meeting::Meet,
    Meeting::Overlap,
    Meeting::Inside,
    Meeting::CoveredBy,
    Meeting::Contains,
    Meeting::Covers,
    Meeting::Equal,
    Meeting::PointDisjoint,
    Meeting::PointAtEnd,
    Meeting::PointInside,
    Meeting::DisjointPoint,
    Meeting::EndAtPoint,
    Meeting::ContainsPoint,
    Meeting::PointsDisjoint,
    Meeting::PointsEqual,
];

/// The letters of all matrices that two shapes can have, computed once. A report needs those of
/// each of its pairs, and a lookup costs less than computing them.
#[derive(Drop)]
pub struct Letters {
    /// By the index of the meeting along the first axis.
    rows: [LetterRow; 16],
    ghost all: { IsLetterTable rows } by { Prim.hlevel props },
}

impl Letters {
    ghost use Rattle.relation_core.specs.Letters.{AreLetters};

    /// Computes the letters.
    pub fn new() -> Letters {
        Letters { rows: rows() }
    }

    /// The letters of the matrix of `a` and `b`, equal to those of `relate` and [`Matrix::text`].
    ///
    /// [`Matrix::text`]: crate::Matrix::text
    #[inline(always)]
    #[tactic(auto, using(crate::proofs::LetterLemmas::looked_up))]
    pub fn of(&self, a: &Shape, b: &Shape) -> &[u8; 9]
        ensures { AreLetters a.now b.now result.now }
    {
        let x = Meeting::of(a.x(), b.x());
        let y = Meeting::of(a.y(), b.y());
        &self.rows[place(x)].columns[place(y)].letters
    }
}

/// The index of a meeting.
#[inline(always)]
fn place(meeting: Meeting) -> usize
    ensures place { result ≡ place_of meeting }
    ensures within { result < 16 }
{
    meeting as usize
}

/// The letters of all shapes.
fn rows() -> [LetterRow; 16]
    ensures { IsLetterTable result }
{
    MEETINGS.map(
        |x| -> LetterRow
            ensures { IsLetterRow x result }
        { row_of(x) },
    )
}

/// The letters for this meeting along the first axis, as a row.
#[tactic(auto, using(crate::proofs::LetterLemmas::row_is))]
fn row_of(x: Meeting) -> LetterRow
    ensures { IsLetterRow x result }
{
    LetterRow {
        columns: columns(x),
    }
}

/// The letters for this meeting along the first axis.
fn columns(x: Meeting) -> [NineLetters; 16]
    ensures { AreColumns x result }
{
    MEETINGS.map(
        |y| -> NineLetters
            ensures { result.letters ≡ letters_of (matrix_by x y) }
        {
            NineLetters {
                letters: matrix_by(x, y).text(),
            }
        },
    )
}
