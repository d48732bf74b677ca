//! The entries of a matrix while it is built.

ghost use Rattle.std.specs.Prelude.{◌≡◌, [], ◌∷◌};
ghost use Rattle.plane_core.specs.PlaneMatrices.{pick, entry};
ghost use Rattle.noding_core.specs.Marks.{rank};
ghost use Rattle.noding_core.specs.Growth.{Mark, HasGrownBy, with_part, outside, transposed};

use plane_core::Part;
use relation_core::{Extent, Matrix, Parts};

/// The matrix that includes only the common area of the exteriors.
pub fn outside() -> Matrix
    ensures { result ≡ outside }
{
    let nothing = Parts {
        interior: Extent::Empty,
        boundary: Extent::Empty,
        exterior: Extent::Empty,
    };
    let exterior = Parts {
        interior: Extent::Empty,
        boundary: Extent::Empty,
        exterior: Extent::Area,
    };
    Matrix {
        rows: Parts {
            interior: nothing,
            boundary: nothing,
            exterior,
        },
    }
}

/// The rank of an extent in the order of extents.
pub fn rank(extent: Extent) -> u8
    ensures { result ≡ rank extent }
{
    match extent {
        Extent::Empty => 0,
        Extent::Point => 1,
        Extent::Line => 2,
        Extent::Area => 3,
    }
}

/// The intersections of a part of the first geometry with the parts of the second.
pub fn row_of(matrix: &Matrix, part: Part) -> Parts<Extent>
    ensures { result ≡ pick part matrix.now.rows }
{
    match part {
        Part::Interior => matrix.rows.interior,
        Part::Boundary => matrix.rows.boundary,
        Part::Exterior => matrix.rows.exterior,
    }
}

fn entry_of(row: &Parts<Extent>, part: Part) -> Extent
    ensures { result ≡ pick part row.now }
{
    match part {
        Part::Interior => row.interior,
        Part::Boundary => row.boundary,
        Part::Exterior => row.exterior,
    }
}

/// The intersections of a part of the second geometry with the parts of the first.
pub fn column_of(matrix: &Matrix, part: Part) -> Parts<Extent>
    ensures { result ≡ pick part (transposed matrix.now).rows }
{
    Parts {
        interior: entry_of(&matrix.rows.interior, part),
        boundary: entry_of(&matrix.rows.boundary, part),
        exterior: entry_of(&matrix.rows.exterior, part),
    }
}

/// The matrix of the same geometries in reverse order.
pub fn transposed(matrix: &Matrix) -> Matrix
    ensures { result ≡ transposed matrix.now }
{
    Matrix {
        rows: Parts {
            interior: column_of(matrix, Part::Interior),
            boundary: column_of(matrix, Part::Boundary),
            exterior: column_of(matrix, Part::Exterior),
        },
    }
}

/// The three values with one replaced.
fn with_value<T: Copy>(values: Parts<T>, part: Part, value: T) -> Parts<T>
    ensures { result ≡ with_part part value values }
{
    match part {
        Part::Interior => Parts {
            interior: value,
            ..values
        },
        Part::Boundary => Parts {
            boundary: value,
            ..values
        },
        Part::Exterior => Parts {
            exterior: value,
            ..values
        },
    }
}

/// A matrix with an entry raised to at least an extent.
pub fn raised(matrix: Matrix, first: Part, second: Part, extent: Extent) -> Matrix
    ensures { let mark : Mark = record { first = first; second = second; extent = extent } in
        HasGrownBy (mark ∷ []) matrix result }
{
    let row = row_of(&matrix, first);
    let known = entry_of(&row, second);
    let low = rank(known);
    let high = rank(extent);
    if low < high {
        let changed = with_value(row, second, extent);
        let rows = with_value(matrix.rows, first, changed);
        Matrix { rows }
    } else {
        matrix
    }
}
