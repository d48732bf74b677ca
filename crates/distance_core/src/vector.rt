//! Vectors from one vertex to another, and their lengths.

ghost use Rattle.std.specs.Prelude.{◌≡◌, ◌≤◌, ◌+◌, ◌*◌, ◌+ℤ◌, ◌-ℤ◌, ◌*ℤ◌, nat_abs};
ghost use Rattle.plane_core.specs.Limits.{greatest_coordinate, greatest_turn};

use plane_core::Vertex;

/// The vector from one vertex to another.
#[derive(Clone, Copy)]
pub(crate) struct Vector {
    pub(crate) x: i128,
    pub(crate) y: i128,
    ghost x_in_range: { nat_abs x ≤ 2 * greatest_coordinate },
    ghost y_in_range: { nat_abs y ≤ 2 * greatest_coordinate },
}

impl Vector {
    ghost use Rattle.distance_core.specs.Distances.{square};

    /// The vector from `a` to `b`.
    #[inline]
    pub(crate) fn between(a: &Vertex, b: &Vertex) -> Vector
        ensures x { result.x ≡ b.now.x -ℤ a.now.x }
        ensures y { result.y ≡ b.now.y -ℤ a.now.y }
    {
        Vector {
            x: i128::from(b.x - a.x),
            y: i128::from(b.y - a.y),
        }
    }

    /// The dot product of two vectors.
    #[inline]
    pub(crate) fn dot(self, other: Vector) -> i128
        ensures value { result ≡ self.x *ℤ other.x +ℤ self.y *ℤ other.y }
        ensures bound { nat_abs result ≤ greatest_turn }
    {
        self.x * other.x + self.y * other.y
    }

    /// The square of the length.
    #[inline]
    pub(crate) fn square(self) -> u128
        ensures value { result ≡ square self.x + square self.y }
        ensures bound { result ≤ greatest_turn }
    {
        let x = self.x.unsigned_abs();
        let y = self.y.unsigned_abs();
        x * x + y * y
    }
}
