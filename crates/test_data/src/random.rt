//! Pseudo-random numbers and shapes.

ghost use Rattle.std.specs.Prelude.{◌<◌};

use geom_core::Shape;

/// Knuth's 64-bit linear congruential generator, with the constants of MMIX.
#[derive(Drop)]
pub struct Random {
    state: u64,
}

impl Random {
    /// The generator with this seed.
    pub fn new(seed: u64) -> Random {
        Random { state: seed }
    }

    /// A number below `end`.
    pub fn below(&mut self, end: usize) -> usize
        requires { 0 < end }
        ensures { result < end }
    {
        self.state = self
            .state
            .wrapping_mul(6364136223846793005)
            .wrapping_add(1442695040888963407);
        (self.state >> 33) as usize % end
    }

    /// A coordinate near one of three centres, and another that is up to three greater.
    fn span(&mut self) -> (i64, i64) {
        let lo = 1000 * self.below(3) + self.below(20);
        let hi = lo + self.below(4);
        (lo as i64 - 1000, hi as i64 - 1000)
    }

    /// A point, a segment or a rectangle near one of nine centres, never `None`.
    pub fn shape(&mut self) -> Option<Shape> {
        let (x1, x2) = self.span();
        let (y1, y2) = self.span();
        Shape::new(x1, y1, x2, y2)
    }
}
