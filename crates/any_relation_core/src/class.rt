//! Classes of geometries by the dimensions of their interior and boundary.

ghost use Rattle.std.specs.Prelude.{◌≡◌, ◌≤◌};
ghost use Rattle.any_relation_core.specs.Classes.{apart_matrix, class_dim, classes};
ghost use Rattle.any_relation_core.specs.Classes.{boundary_of, interior_of};

use plane_core::Rings;
use relation_core::{Extent, Matrix, Parts};

/// Geometries whose interiors and boundaries have the same dimensions.
#[derive(Clone, Copy, PartialEq, Eq)]
pub(crate) enum Class {
    /// Points, which have no boundary.
    Points,
    /// Lines with a boundary.
    OpenLines,
    /// Lines without a boundary, such as closed ones.
    ClosedLines,
    /// Areas with an interior.
    Areas,
    /// Areas without an interior, by the even-odd rule.
    HollowAreas,
}

/// The classes of the geometries whose areas have rings of this rule.
pub(crate) fn classes_of(rings: Rings) -> &'static [Class]
    ensures { result.now ≡ classes rings }
{
    match rings {
        Rings::Proper => &[
            Class::Points,
            Class::OpenLines,
            Class::ClosedLines,
            Class::Areas,
        ],
        Rings::EvenOdd => &[
            Class::Points,
            Class::OpenLines,
            Class::ClosedLines,
            Class::Areas,
            Class::HollowAreas,
        ],
    }
}

impl Class {
    /// The dimension.
    pub(crate) fn dim(self) -> u8
        ensures value { result ≡ class_dim self }
        ensures bound { result ≤ 2 }
    {
        match self {
            Class::Points => 0,
            Class::OpenLines | Class::ClosedLines => 1,
            Class::Areas | Class::HollowAreas => 2,
        }
    }

    /// The dimension of the interior.
    fn interior(self) -> Extent
        ensures { result ≡ interior_of self }
    {
        match self {
            Class::Points => Extent::Point,
            Class::OpenLines | Class::ClosedLines => Extent::Line,
            Class::Areas => Extent::Area,
            Class::HollowAreas => Extent::Empty,
        }
    }

    /// The dimension of the boundary.
    fn boundary(self) -> Extent
        ensures { result ≡ boundary_of self }
    {
        match self {
            Class::Points | Class::ClosedLines => Extent::Empty,
            Class::OpenLines => Extent::Point,
            Class::Areas | Class::HollowAreas => Extent::Line,
        }
    }
}

/// The matrix of two geometries of these classes without a common point: each part of one lies in
/// the exterior of the other.
pub(crate) fn apart_matrix(first: Class, second: Class) -> Matrix
    ensures { result ≡ apart_matrix first second }
{
    let row = |exterior| Parts {
        interior: Extent::Empty,
        boundary: Extent::Empty,
        exterior,
    };
    Matrix {
        rows: Parts {
            interior: row(first.interior()),
            boundary: row(first.boundary()),
            exterior: Parts {
                interior: second.interior(),
                boundary: second.boundary(),
                exterior: Extent::Area,
            },
        },
    }
}
