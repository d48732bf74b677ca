//! Answers that need no more of a matrix than tells them, beside the whole matrix.

ghost use Rattle.std.specs.Prelude.{◌≡◌, IfSome};
ghost use Rattle.any_geometry_core.specs.AnyGeometries.{figure_of};
ghost use Rattle.any_join_core.specs.PreparedPairs.{AreOf};

use crate::any_join_layers::relation;
use any_geometry_core::AnyGeometry;
use any_join_core::{PreparedPair, are_related, matrix_of, related};
use arrangement_core::PreparedGeometry;
use plane_core::Rings;
use std::alloc::Global;
use std::test::Fail;
use test_data::geometry_of;

/// Geometries of all kinds that overlap, touch, contain, equal and miss each other.
const GEOMETRIES: &[&str] = &[
    "POINT (2 2)",
    "MULTIPOINT (2 2, 5 1, 20 20)",
    "LINESTRING (0 0, 4 4)",
    "LINESTRING (1 1, 2 2, 6 0)",
    "LINESTRING (0 4, 4 0)",
    "MULTILINESTRING ((0 0, 4 4), (4 4, 8 0))",
    "LINESTRING (0 0, 5 0, 0 5, 0 0)",
    "POLYGON ((0 0, 5 0, 0 5, 0 0))",
    "POLYGON ((1 1, 2 1, 1 2, 1 1))",
    "POLYGON ((0 0, 4 4, 0 4, 0 0))",
    "POLYGON ((2 -1, 6 3, 3 6, -1 2, 2 -1))",
    "POLYGON ((-9 -9, 30 -9, 30 30, -9 31, -9 -9), (0 0, 5 0, 0 5, 0 0))",
    "MULTIPOLYGON (((0 0, 1 0, 0 1, 0 0)), ((9 9, 12 9, 9 12, 9 9)))",
];

/// All names that a join may use, and masks.
const RELATIONS: &[&str] = &[
    "intersects",
    "touches",
    "crosses",
    "within",
    "contains",
    "overlaps",
    "equals",
    "covers",
    "covered_by",
    "contains_properly",
    "0********",
    "1********",
    "2********",
    "T*T***T**",
    "F***1****",
    "212101212",
];

/// Whether both answers are those of the whole matrix, for each relation of these two geometries.
fn agree(
    alloc: Global,
    first: &AnyGeometry,
    second: &AnyGeometry,
    prepared: PreparedPair,
) -> Option<bool>
    requires { AreOf (figure_of first.now) (figure_of second.now) prepared }
{
    let (a, b) = (first.geometry(), second.geometry());
    let matrix = matrix_of(alloc, a, b, prepared).ok()?;
    for text in RELATIONS {
        let relation = relation(text, Rings::Proper)?;
        let fits = relation.relation().fits(&matrix, a.dim(), b.dim());
        let answer = are_related(alloc, &relation, first, second, prepared).ok()?;
        let found = related(alloc, &relation, first, second, prepared).ok()?;
        if answer != fits || found != fits.then_some(matrix) {
            return Some(false);
        }
    }
    Some(true)
}

/// The same with both geometries prepared, one of them, or none.
fn agree_by_all_forms(
    alloc: Global,
    first: &AnyGeometry,
    second: &AnyGeometry,
    first_form: &PreparedGeometry,
    second_form: &PreparedGeometry,
) -> Option<bool>
    requires first { first_form.now ≡ figure_of first.now }
    requires second { second_form.now ≡ figure_of second.now }
{
    let (a, b) = (Some(first_form), Some(second_form));
    let none = agree(alloc, first, second, pair(None, None))?;
    let left = agree(alloc, first, second, pair(a, None))?;
    let right = agree(alloc, first, second, pair(None, b))?;
    let both = agree(alloc, first, second, pair(a, b))?;
    Some(none && left && right && both)
}

fn pair<'a>(
    first: Option<&'a PreparedGeometry<'a>>,
    second: Option<&'a PreparedGeometry<'a>>,
) -> PreparedPair<'a>
    ensures first { result.first ≡ first.entry }
    ensures second { result.second ≡ second.entry }
{
    PreparedPair { first, second }
}

fn prepared<'a>(alloc: Global, geometry: &'a AnyGeometry) -> Option<PreparedGeometry<'a>>
    ensures { IfSome result (λ form. form ≡ figure_of geometry.now) }
{
    match PreparedGeometry::new(alloc, geometry.geometry()) {
        Ok(form) => Some(form),
        Err(_) => None,
    }
}

/// The same for the geometries of these texts.
fn all_agree(alloc: Global, first: &str, second: &str) -> Option<bool> {
    let first = geometry_of(alloc, first, Rings::Proper)?;
    let second = geometry_of(alloc, second, Rings::Proper)?;
    let first_form = prepared(alloc, &first)?;
    let second_form = prepared(alloc, &second)?;
    agree_by_all_forms(alloc, &first, &second, &first_form, &second_form)
}

#[test]
fn as_by_the_whole_matrix(rt: HostRuntime) -> Result<(), Fail> {
    for first in GEOMETRIES {
        for second in GEOMETRIES {
            assert!(rt; all_agree(rt.alloc(), first, second) == Some(true));
        }
    }
    Ok(())
}
