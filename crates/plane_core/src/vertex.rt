//! A point with integer coordinates.

ghost use Rattle.geom_core.specs.Limits.{IsCoordinate};

use geom_core::LIMIT;

/// A point whose coordinates are integers from `-LIMIT` to `LIMIT` of `geom_core`.
#[derive(Clone, Copy, PartialEq, Eq)]
pub struct Vertex {
    pub x: i64,
    pub y: i64,
    ghost x_in_range: { IsCoordinate x },
    ghost y_in_range: { IsCoordinate y },
}

impl Vertex {
    ghost use Rattle.std.specs.Prelude.{◌≡◌, ◌↔◌, ◌*◌, ◌≤◌, ◌-ℤ◌, nat_abs, IsSome, IfSome};
    ghost use Rattle.geom_core.specs.Limits.{greatest_coordinate};

    /// The point `(x, y)`, or `None` if a coordinate is out of range.
    pub fn new(x: i64, y: i64) -> Option<Vertex>
        // Some exactly for coordinates in range
        ensures some { IsSome result ↔ (IsCoordinate x × IsCoordinate y) }
        // the vertex has these
        ensures x { IfSome result (λ v. v.x ≡ x) }
        ensures y { IfSome result (λ v. v.y ≡ y) }
    {
        if -LIMIT <= x && x <= LIMIT && -LIMIT <= y && y <= LIMIT {
            Some(Vertex { x, y })
        } else {
            None
        }
    }

    /// The difference of the first coordinates, from this vertex to another.
    #[inline]
    pub(crate) fn run_to(&self, other: &Vertex) -> i128
        ensures value { result ≡ other.now.x -ℤ self.now.x }
        ensures bound { nat_abs result ≤ 2 * greatest_coordinate }
    {
        i128::from(other.x - self.x)
    }

    /// The difference of the second coordinates, from this vertex to another.
    #[inline]
    pub(crate) fn rise_to(&self, other: &Vertex) -> i128
        ensures value { result ≡ other.now.y -ℤ self.now.y }
        ensures bound { nat_abs result ≤ 2 * greatest_coordinate }
    {
        i128::from(other.y - self.y)
    }
}
