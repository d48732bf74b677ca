//! What is wanted of a matrix while it grows, and an early end once that is known.

ghost use Rattle.std.specs.Prelude.{◌≡◌, IfErr};
ghost use Rattle.plane_core.specs.declared.outline.Outline.{Outline};
ghost use Rattle.arrangement_core.specs.Answers.{IsLowerBound, IsStop, in_order};

use crate::asked::loosened;
use decision_core::{Decision, decided};
use noding_core::{outside, transposed};
use relation_core::{Mask, Matrix};
use std::alloc::AllocError;

/// Masks of which one must fit the matrix of two geometries, and an upper bound of that matrix: in
/// the order `F`, `0`, `1`, `2` no entry of the matrix is greater than the bound's.
#[derive(Clone, Copy)]
pub struct Question<'a> {
    pub masks: &'a [Mask],
    pub greatest: Matrix,
}

impl<'a> Question<'a> {
    ghost use Rattle.std.specs.Prelude.{◌≡◌};
    ghost use Rattle.decision_core.specs.Decisions.{FitsEach, FitsNone};
    ghost use Rattle.arrangement_core.specs.Asked.{loosened};

    /// What a lower bound of the matrix tells of the masks.
    fn decision(&self, least: &Matrix) -> Decision
        ensures holds { result ≡ Decision.Holds
            → FitsEach self.now.masks.now least.now self.now.greatest }
        ensures fails { result ≡ Decision.Fails
            → FitsNone self.now.masks.now least.now self.now.greatest }
    {
        decided(self.masks, least, &self.greatest)
    }

    /// The same of a bound whose entries that no mask asks for may have any extent.
    fn loose_decision(&self, least: &Matrix) -> Decision
        ensures holds { result ≡ Decision.Holds
            → let masks = self.now.masks.now in
            FitsEach masks least.now (loosened masks self.now.greatest) }
        ensures fails { result ≡ Decision.Fails
            → let masks = self.now.masks.now in
            FitsNone masks least.now (loosened masks self.now.greatest) }
    {
        decided(self.masks, least, &loosened(self.masks, &self.greatest))
    }
}

/// What is wanted of the matrix of two geometries.
#[derive(Clone, Copy)]
pub(crate) enum Wanted<'a> {
    /// The matrix.
    Whole,
    /// The matrix, if one of the masks fits it.
    Fitting(Question<'a>),
    /// Whether one of the masks fits it.
    Answer(Question<'a>),
}

impl<'a> Wanted<'a> {
    ghost use Rattle.std.specs.Prelude.{◌≡◌};
    ghost use Rattle.arrangement_core.specs.Asked.{start_of};

    /// The matrix of no edges. Where only the answer is wanted, the entries that no mask asks for
    /// have the greatest extent, so that no time is spent on what could add to them.
    pub(crate) fn start(&self) -> Matrix
        ensures { result ≡ start_of self.now }
    {
        match self {
            Wanted::Whole => outside(),
            Wanted::Fitting(_) => outside(),
            Wanted::Answer(question) => loosened(question.masks, &outside()),
        }
    }
}

/// Why a matrix isn't computed to its end.
#[derive(Drop)]
pub(crate) enum Stop {
    /// Out of memory.
    Memory(AllocError),
    /// It is known whether one of the masks fits.
    Settled(bool),
}

impl From<AllocError> for Stop {
    ghost use Rattle.std.specs.Prelude.{◌≡◌};
    ghost use Rattle.arrangement_core.specs.declared.wanted.Stop.TheVariants.{Memory};

    ghost from_gives = { λ error stop. stop ≡ Memory error };

    fn from(error: AllocError) -> Stop {
        Stop::Memory(error)
    }
}

/// The matrix of two geometries in the order in which it is wanted.
fn in_order(is_turned: bool, matrix: &Matrix) -> Matrix
    ensures { result ≡ in_order is_turned matrix.now }
{
    if is_turned {
        transposed(matrix)
    } else {
        *matrix
    }
}

/// An early end, if what a matrix has grown to tells what is wanted. The matrix may be that of the
/// geometries in reverse order.
pub(crate) fn go_on(
    wanted: &Wanted,
    is_turned: bool,
    old: &Matrix,
    new: &Matrix,
) -> Result<(), Stop>
    ensures { (a b : Outline) → IsLowerBound wanted.now a b (in_order is_turned new.now)
        → IfErr result (IsStop wanted.now a b) }
{
    if old == new {
        return Ok(());
    }
    match wanted {
        Wanted::Whole => Ok(()),
        Wanted::Fitting(question) => match question.decision(&in_order(is_turned, new)) {
            Decision::Fails => Err(Stop::Settled(false)),
            _ => Ok(()),
        },
        Wanted::Answer(question) => match question.loose_decision(&in_order(is_turned, new)) {
            Decision::Holds => Err(Stop::Settled(true)),
            Decision::Fails => Err(Stop::Settled(false)),
            Decision::Open => Ok(()),
        },
    }
}
