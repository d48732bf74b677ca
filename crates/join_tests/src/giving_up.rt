//! Allocations that fail while pairs are decided: there is no list, and no other error.

ghost use Rattle.std.specs.Prelude.{◌≡◌};
ghost use Rattle.join_tests.specs.Sums.{AreClose, HaveEvenSum};

use crate::even_sums::close_pairs;
use refine_core::{Condition, refine_pairs};
use std::alloc::{AllocError, Global};
use std::test::Fail;

/// The condition of even sums, but allocations fail at pairs of one left number.
#[derive(Drop)]
struct RefusedAt(u32);

impl Condition for RefusedAt {
    type Answer = ();

    ghost near = { λ condition left right. AreClose left right };

    ghost stands = { λ condition left right. HaveEvenSum left right };

    ghost answers = { λ condition left right answer. Unit {0} };

    fn decide(&self, _alloc: Global, left: u32, right: u32) -> Result<Option<()>, AllocError> {
        if left == self.0 {
            return Err(AllocError);
        }
        Ok((left % 2 == right % 2).then_some(()))
    }

    ghost stands_near = { λ condition left right is. is.0 };
}

#[test]
fn gives_no_list(rt: HostRuntime) -> Result<(), Fail> {
    let alloc = rt.alloc();
    let pairs = close_pairs(alloc, 2_000)?;
    for refused in [0, 999, 1_999] {
        let condition = RefusedAt(refused);
        assert!(rt; refine_pairs(&rt, alloc, &condition, &pairs, 1).is_err());
        assert!(rt; refine_pairs(&rt, alloc, &condition, &pairs, 2).is_err());
        assert!(rt; refine_pairs(&rt, alloc, &condition, &pairs, 16).is_err());
    }
    let refined = refine_pairs(&rt, alloc, &RefusedAt(2_000), &pairs, 16)?;
    assert!(rt; refined.len() == 4_000);
    Ok(())
}
