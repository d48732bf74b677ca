//! Pairs of numbers, alone or with an answer.

/// A pair of a left and a right number, alone or with more.
pub trait AsPair {
    ghost use Rattle.std.specs.Prelude.{◌≡◌, ℕ};

    ghost pair_of: { Self → ℕ × ℕ };

    /// The two numbers.
    fn as_pair(&self) -> (u32, u32)
        ensures { result ≡ pair_of self.now };
}

impl AsPair for (u32, u32) {
    ghost pair_of = { λ pair. pair };

    #[inline(always)]
    fn as_pair(&self) -> (u32, u32) {
        *self
    }
}

/// A pair of a left and a right number that satisfies a condition, with its answer.
#[derive(Drop)]
pub struct Refined<A> {
    pub pair: (u32, u32),
    pub answer: A,
}

impl<A> AsPair for Refined<A> {
    ghost pair_of = { λ refined. refined.pair };

    #[inline(always)]
    fn as_pair(&self) -> (u32, u32) {
        self.pair
    }
}
