//! A condition on two features by their numbers, and a last field for it.

ghost use Rattle.std.specs.Prelude.{All, OnOk};
ghost use Rattle.refine_core.specs.Refinements.{IsPairIn};
ghost use Rattle.output_tests.specs.Parities.{AreHeld};

use any_geometry_core::AnyGeometry;
use layer_core::Layer;
use refine_core::{Condition, Refined};
use report_core::LastField;
use std::alloc::{AllocError, Global};

/// The condition that the sum of the numbers of two features is even. The answer is the sum.
#[derive(Drop)]
pub(crate) struct EvenSum<'a> {
    pub(crate) left: &'a Layer<AnyGeometry>,
    pub(crate) right: &'a Layer<AnyGeometry>,
}

impl<'a> Condition for EvenSum<'a> {
    ghost use Rattle.std.specs.Prelude.{◌≡◌, ◌+◌};
    ghost use Rattle.output_tests.specs.Parities.{AreHeld, HaveEvenSum};

    type Answer = u64;

    ghost near = { λ c i j. AreHeld c.left.now.list c.right.now.list i j };

    ghost stands = { λ c i j. HaveEvenSum c.left.now.list c.right.now.list i j };

    ghost answers = { λ c i j sum. sum ≡ i + j };

    fn decide(&self, _alloc: Global, left: u32, right: u32) -> Result<Option<u64>, AllocError> {
        let sum = u64::from(left) + u64::from(right);
        Ok((sum % 2 == 0).then_some(sum))
    }

    ghost stands_near = { λ c i j is. is.0 };
}

/// The word `even`.
#[derive(Drop)]
pub(crate) struct ParityField;

impl LastField<AnyGeometry, Refined<u64>> for ParityField {
    ghost use Rattle.std.specs.Prelude.{◌≡◌, Some, codes};
    ghost use Rattle.output_tests.specs.Parities.{AreHeld};

    ghost name_of = { λ _. Some (codes "parity") };

    ghost is_match = { λ left right found. AreHeld left right found.pair.0 found.pair.1 };

    ghost is_field = { λ _ g h field. field ≡ codes "even" };

    fn name(&self) -> Option<&'static str> {
        Some("parity")
    }

    fn push_field(
        &self,
        text: &mut Vec<u8>,
        _found: &Refined<u64>,
        _left: &Layer<AnyGeometry>,
        _right: &Layer<AnyGeometry>,
    ) -> Result<(), AllocError> {
        text.extend_from_slice(b"even")
    }

    fn fetch(&self, _found: &Refined<u64>, _right: &Layer<AnyGeometry>) -> bool {
        false
    }
}

/// Adds a pair, if both layers have features with these numbers.
pub(crate) fn push_held(
    pairs: &mut Vec<(u32, u32)>,
    left: &Layer<AnyGeometry>,
    right: &Layer<AnyGeometry>,
    pair: (u32, u32),
) -> Result<(), AllocError>
    requires { All (IsPairIn (AreHeld left.now.list right.now.list)) pairs.old.items }
    ensures { OnOk result
        (All (IsPairIn (AreHeld left.now.list right.now.list)) pairs.new.items) }
{
    if let (Some(_), Some(_)) = (left.shape(pair.0), right.shape(pair.1)) {
        pairs.push(pair)?;
    }
    Ok(())
}
