//! What a relation implies of the envelopes of two geometries that stand in it.

ghost use Rattle.std.specs.Prelude.{◌↔◌, All, IsTrue};
ghost use Rattle.any_relation_core.specs.EnvelopeRules.{PutsFirstInSecond, PutsSecondInFirst};
ghost use Rattle.any_relation_core.specs.EnvelopeRules.{AreAllowed, IsRuleOf};

use geom_core::Shape;
use relation_core::{Extent, Mask, PatternValue, Relation};

/// How the envelopes of two geometries lie to each other. Their edges may touch.
#[derive(Clone, Copy, PartialEq, Eq)]
pub(crate) enum EnvelopeRule {
    /// They share a point.
    Meet,
    /// The first lies in the second.
    FirstInSecond,
    /// The second lies in the first.
    SecondInFirst,
    /// They are the same.
    Equal,
}

impl EnvelopeRule {
    /// The rule that the masks of a relation imply.
    #[tactic(auto, using(crate::proofs::BoxLemmas::by_lines))]
    pub(crate) fn of(relation: &Relation) -> EnvelopeRule
        ensures { IsRuleOf relation.now result }
    {
        // Each relation has masks for two lines, and those for other dimensions imply no less.
        let masks = relation.masks(1, 1);
        match (all_put_first(masks), all_put_second(masks)) {
            (true, true) => EnvelopeRule::Equal,
            (true, false) => EnvelopeRule::FirstInSecond,
            (false, true) => EnvelopeRule::SecondInFirst,
            (false, false) => EnvelopeRule::Meet,
        }
    }

    /// Whether two boxes satisfy the rule.
    pub(crate) fn allows(self, first: &Shape, second: &Shape) -> bool
        ensures { IsTrue result ↔ AreAllowed self first.now second.now }
    {
        match self {
            EnvelopeRule::Meet => first.meets(second),
            EnvelopeRule::FirstInSecond => first.is_in(second),
            EnvelopeRule::SecondInFirst => second.is_in(first),
            EnvelopeRule::Equal => first.is_same_set(second),
        }
    }
}

/// The letter `F` of a mask.
const F: PatternValue = PatternValue::Exactly(Extent::Empty);

/// Whether no point of the first geometry may be outside the second, by each of the masks.
fn all_put_first(masks: &[Mask]) -> bool
    ensures { IsTrue result ↔ All PutsFirstInSecond masks.now }
{
    masks.iter().all(|mask| puts_first(mask))
}

/// Whether no point of the second geometry may be outside the first, by each of the masks.
fn all_put_second(masks: &[Mask]) -> bool
    ensures { IsTrue result ↔ All PutsSecondInFirst masks.now }
{
    masks.iter().all(|mask| puts_second(mask))
}

/// The same for the first geometry, by one mask.
fn puts_first(mask: &Mask) -> bool
    ensures { IsTrue result ↔ PutsFirstInSecond mask.now }
{
    mask.rows.interior.exterior == F && mask.rows.boundary.exterior == F
}

/// The same for the second geometry, by one mask.
fn puts_second(mask: &Mask) -> bool
    ensures { IsTrue result ↔ PutsSecondInFirst mask.now }
{
    mask.rows.exterior.interior == F && mask.rows.exterior.boundary == F
}
