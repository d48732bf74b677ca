//! The greatest matrix that geometries of two dimensions may have.

ghost use Rattle.std.specs.Prelude.{◌≡◌, ◌≤◌};
ghost use Rattle.any_join_core.specs.Limits.{interior_limit, boundary_limit, lesser as lesser_of};
ghost use Rattle.any_join_core.specs.Limits.{greatest_row, greatest_of};

use relation_core::{Extent, Matrix, Parts};

/// The dimension of the interior of a geometry.
fn interior_limit(dim: u8) -> Extent
    requires { dim ≤ 2 }
    ensures { result ≡ interior_limit dim }
{
    match dim {
        0 => Extent::Point,
        1 => Extent::Line,
        _ => Extent::Area,
    }
}

/// The greatest dimension of its boundary.
fn boundary_limit(dim: u8) -> Extent
    requires { dim ≤ 2 }
    ensures { result ≡ boundary_limit dim }
{
    match dim {
        0 => Extent::Empty,
        1 => Extent::Point,
        _ => Extent::Line,
    }
}

/// The lesser of two extents.
fn lesser(first: Extent, second: Extent) -> Extent
    ensures { result ≡ lesser_of first second }
{
    match (first, second) {
        (Extent::Empty, _) => Extent::Empty,
        (_, Extent::Empty) => Extent::Empty,
        (Extent::Point, _) => Extent::Point,
        (_, Extent::Point) => Extent::Point,
        (Extent::Line, _) => Extent::Line,
        (_, Extent::Line) => Extent::Line,
        (Extent::Area, Extent::Area) => Extent::Area,
    }
}

/// The greatest intersections of a part of this dimension with the parts of the second geometry.
fn greatest_row(limit: Extent, dim: u8) -> Parts<Extent>
    requires { dim ≤ 2 }
    ensures { result ≡ greatest_row limit dim }
{
    Parts {
        interior: lesser(limit, interior_limit(dim)),
        boundary: lesser(limit, boundary_limit(dim)),
        exterior: limit,
    }
}

/// The greatest matrix of geometries of two dimensions.
pub(crate) fn greatest(first_dim: u8, second_dim: u8) -> Matrix
    requires first { first_dim ≤ 2 }
    requires second { second_dim ≤ 2 }
    ensures { result ≡ greatest_of first_dim second_dim }
{
    Matrix {
        rows: Parts {
            interior: greatest_row(interior_limit(first_dim), second_dim),
            boundary: greatest_row(boundary_limit(first_dim), second_dim),
            exterior: greatest_row(Extent::Area, second_dim),
        },
    }
}
