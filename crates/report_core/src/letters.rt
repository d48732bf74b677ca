//! The letters of matrices, as the last field of a report.

use crate::last_field::LastField;
use any_geometry_core::AnyGeometry;
use geom_core::Shape;
use layer_core::Layer;
use refine_core::Refined;
use relation_core::{Letters, Matrix};
use std::alloc::AllocError;

/// The nine letters of the matrix of two boxes, which are looked up by their corners.
#[derive(Drop)]
pub struct BoxLetters {
    table: Letters,
}

impl BoxLetters {
    ghost use Rattle.relation_core.specs.Matrices.{IsMatrix};
    ghost use Rattle.report_core.specs.Reports.{HasLetters, IsHeld};

    /// The letters of all pairs of boxes.
    pub fn new() -> BoxLetters {
        BoxLetters {
            table: Letters::new(),
        }
    }

    /// The letters of the matrix of two features.
    #[inline(always)]
    fn letters(&self, pair: (u32, u32), left: &Layer, right: &Layer) -> [u8; 9]
        requires { IsHeld left.now.list right.now.list pair }
        ensures { HasLetters IsMatrix left.now.list right.now.list pair result }
    {
        let first = left.shape(pair.0).unwrap();
        let second = right.shape(pair.1).unwrap();
        *self.table.of(first, second)
    }
}

impl LastField<Shape, (u32, u32)> for BoxLetters {
    ghost use Rattle.std.specs.Prelude.{Some, codes};
    ghost use Rattle.relation_core.specs.Matrices.{IsMatrix};
    ghost use Rattle.report_core.specs.Reports.{AreLettersBy, IsHeld};

    ghost name_of = { λ _. Some (codes "matrix") };

    ghost is_match = { IsHeld };

    ghost is_field = { λ _. AreLettersBy IsMatrix };

    #[inline(always)]
    fn name(&self) -> Option<&'static str> {
        Some("matrix")
    }

    #[inline(always)]
    fn push_field(
        &self,
        text: &mut Vec<u8>,
        found: &(u32, u32),
        left: &Layer,
        right: &Layer,
    ) -> Result<(), AllocError> {
        let letters = self.letters(*found, left, right);
        text.extend_from_slice(&letters)
    }

    #[inline(always)]
    fn fetch(&self, found: &(u32, u32), right: &Layer) -> bool {
        // Both ends of the shape are read, since they may lie in two cache lines.
        match right.shape(found.1) {
            Some(shape) => shape.y1() <= shape.y2(),
            None => false,
        }
    }
}

/// The nine letters of the matrix of two geometries of any kind, which comes with their pair.
#[derive(Clone, Copy, PartialEq, Eq)]
pub struct MatrixLetters;

impl LastField<AnyGeometry, Refined<Matrix>> for MatrixLetters {
    ghost use Rattle.std.specs.Prelude.{Some, codes};
    ghost use Rattle.report_core.specs.AnyMatches.{IsAnyMatch, IsAnyMatrix};
    ghost use Rattle.report_core.specs.Reports.{AreLettersBy};

    ghost name_of = { λ _. Some (codes "matrix") };

    ghost is_match = { IsAnyMatch };

    ghost is_field = { λ _. AreLettersBy IsAnyMatrix };

    fn name(&self) -> Option<&'static str> {
        Some("matrix")
    }

    fn push_field(
        &self,
        text: &mut Vec<u8>,
        found: &Refined<Matrix>,
        _left: &Layer<AnyGeometry>,
        _right: &Layer<AnyGeometry>,
    ) -> Result<(), AllocError> {
        let letters = found.answer.text();
        text.extend_from_slice(&letters)
    }

    fn fetch(&self, _found: &Refined<Matrix>, _right: &Layer<AnyGeometry>) -> bool {
        true
    }
}
