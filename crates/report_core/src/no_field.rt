//! The last field that the report of pairs alone doesn't have.

use crate::last_field::LastField;
use layer_core::{Geometry, Layer};
use refine_core::AsPair;
use std::alloc::AllocError;

/// No last field: a record has the two ids alone.
#[derive(Clone, Copy, PartialEq, Eq)]
pub struct NoField;

impl<G: Geometry, M: AsPair> LastField<G, M> for NoField {
    ghost use Rattle.std.specs.Prelude.{None};
    ghost use Rattle.report_core.specs.Reports.{IsHeld, IsNoField};

    ghost name_of = { λ _. None };

    ghost is_match = { λ left right found. IsHeld left right (M.pair_of found) };

    ghost is_field = { λ _. IsNoField };

    #[inline(always)]
    fn name(&self) -> Option<&'static str> {
        None
    }

    #[inline(always)]
    fn push_field(
        &self,
        _text: &mut Vec<u8>,
        _found: &M,
        _left: &Layer<G>,
        _right: &Layer<G>,
    ) -> Result<(), AllocError> {
        Ok(())
    }

    #[inline(always)]
    fn fetch(&self, _found: &M, _right: &Layer<G>) -> bool {
        true
    }
}
