//! What a double is read as is one thing.

ghost use Rattle.std.specs.Prelude.{◌≡◌, ℕ, ℤ};
ghost use Rattle.double_core.specs.declared.double.Fault.{Fault};
ghost use Rattle.double_core.specs.Doubles.{IsFinite};
ghost use Rattle.double_core.specs.Decimals.{IsShortest, HasShortest};
ghost use Rattle.double_core.specs.Units.{IsReadAs, HasFault, IsRoundedTo};
ghost use Rattle.double_core.specs.Units.{HasFaultRounded};

/// A finite double has one shortest decimal.
#[tactic(auto, using(crate::proofs::LawLemmas::one_shortest))]
pub fn shortest_law()
    // each finite double has a shortest decimal
    ensures some { (bits : ℕ) → IsFinite bits → HasShortest bits }
    // it has one
    ensures decimals { (bits j k m n : ℕ)
        → IsShortest bits j m → IsShortest bits k n → j ≡ k }
    ensures number { (bits j k m n : ℕ)
        → IsShortest bits j m → IsShortest bits k n → m ≡ n }
{}

/// A double is read as at most one number of units, and has no fault then; it has at most one
/// fault.
pub fn units_law()
    // a double is read as at most one number of units
    ensures units { (bits scale : ℕ) (y z : ℤ)
        → IsReadAs bits scale y → IsReadAs bits scale z → y ≡ z }
    // it has no fault then
    ensures faultless { (bits scale : ℕ) (z : ℤ) (fault : Fault)
        → IsReadAs bits scale z → ¬ HasFault bits scale fault }
    // it has at most one fault
    ensures fault { (bits scale : ℕ) (a b : Fault)
        → HasFault bits scale a → HasFault bits scale b → a ≡ b }
{}

/// A double is rounded to at most one number of units, and has no fault then.
pub fn rounded_law()
    // a double is rounded to at most one number of units
    ensures units { (bits scale : ℕ) (y z : ℤ)
        → IsRoundedTo bits scale y → IsRoundedTo bits scale z → y ≡ z }
    // it has no fault then
    ensures faultless { (bits scale : ℕ) (z : ℤ) (fault : Fault)
        → IsRoundedTo bits scale z → ¬ HasFaultRounded bits scale fault }
{}
