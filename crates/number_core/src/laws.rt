//! The laws of numbers.

ghost use Rattle.std.specs.Prelude.{◌≡◌, ◌<◌, ◌≤◌, ◌+◌, ◌*◌, ◌++◌, List, ℕ, ℤ, Some};
ghost use Rattle.number_core.specs.declared.scale.Scale.{Scale};
ghost use Rattle.number_core.specs.Numbers.{Numeral, Number, Ends};
ghost use Rattle.number_core.specs.NumberSteps.{number_at};
ghost use Rattle.number_core.specs.Scales.{IsInRange};
ghost use Rattle.number_core.specs.CanonicalNumbers.{number};
ghost use Rattle.number_core.specs.Values.{nearest, SpellsNumber};

/// What is read at the start of a text is a number of the grammar, and each number of the grammar
/// is read where a text goes on so that the number ends.
pub fn number_law()
    // what is read there is a number of the grammar
    ensures grammatical { (scale : Scale) (text : List ℕ) (n : Numeral) (rest : List ℕ)
        → number_at scale text ≡ Some (n, rest)
        → (front : List ℕ) × Number scale n front × (text ≡ front ++ rest) }
    // each number of the grammar is read, unless the text after it begins with a digit, a dot or
    // the letter of an exponent
    ensures read { (scale : Scale) (n : Numeral) (front rest : List ℕ)
        → Number scale n front → Ends rest → number_at scale (front ++ rest) ≡ Some (n, rest) }
{}

/// The text that is printed for a coordinate spells it, with rounding and without.
pub fn printed_law()
    // the canonical spelling of a coordinate within the limit of the scale spells it
    ensures spells { (scale : Scale) (units : ℤ)
        → IsInRange scale units → SpellsNumber scale (number scale units) units }
{}

/// The whole number that is read in place of a / b is at most half off, and half a one is rounded
/// up.
pub fn nearest_law()
    // the whole number that stands for a quotient is at most one half off, and a half is rounded
    // up; the sign is put before it, so a negative half is rounded away from zero
    ensures above { (a b : ℕ) → 0 < b → 2 * (nearest a b * b) ≤ 2 * a + b }
    ensures below { (a b : ℕ) → 0 < b → 2 * a < 2 * (nearest a b * b) + b }
{}
