//! A line with two geometries and a tab between.

ghost use Rattle.std.specs.Prelude.{◌≡◌, IfOk};
ghost use Rattle.relation_core.specs.declared.matrix.Matrix.{Matrix};
ghost use Rattle.relation_core.specs.Matrices.{letters_of};
ghost use Rattle.plane_core.specs.PlaneMatrices.{IsPlaneMatrix};

use crate::cost::Call;
use arrangement_core::{PreparedGeometry, relate, relate_prepared};
use plane_core::Geometry;
use std::alloc::{AllocError, Global};
use wkt_any_core::{Rings, read};
use wkt_core::{Limits, Scale};

/// Two geometries.
#[derive(Drop)]
pub(crate) struct Pair {
    first: Geometry,
    second: Geometry,
}

/// The same, prepared.
#[derive(Drop)]
pub(crate) struct PreparedPair<'a> {
    first: PreparedGeometry<'a>,
    second: PreparedGeometry<'a>,
}

/// The geometry of a text by the even-odd rule, with integer coordinates.
fn geometry(alloc: Global, text: &str) -> Result<Option<Geometry>, AllocError> {
    let Some(scale) = Scale::within(Limits::Any, 0) else {
        return Ok(None);
    };
    match read(alloc, text.as_bytes(), scale, Rings::EvenOdd)? {
        Ok(geometry) => Ok(Some(geometry)),
        Err(_) => Ok(None),
    }
}

impl Pair {
    /// The pair of a line, or `None` if the line holds none.
    pub(crate) fn read(alloc: Global, line: &str) -> Result<Option<Pair>, AllocError> {
        let Some((first, second)) = line.split_once('\t') else {
            return Ok(None);
        };
        let Some(first) = geometry(alloc, first)? else {
            return Ok(None);
        };
        let Some(second) = geometry(alloc, second)? else {
            return Ok(None);
        };
        Ok(Some(Pair { first, second }))
    }

    /// The nine letters of the pair's matrix.
    pub(crate) fn letters(&self, alloc: Global) -> Result<[u8; 9], AllocError>
        ensures { IfOk result (λ text. (m : Matrix) × IsPlaneMatrix self.now.first self.now.second m
            × (text ≡ letters_of m)) }
    {
        let matrix = relate(alloc, &self.first, &self.second)?;
        Ok(matrix.text())
    }

    /// The pair with both geometries prepared.
    pub(crate) fn prepared(&self, alloc: Global) -> Result<PreparedPair<'_>, AllocError> {
        let first = PreparedGeometry::new(alloc, &self.first)?;
        let second = PreparedGeometry::new(alloc, &self.second)?;
        Ok(PreparedPair { first, second })
    }
}

impl Call for Pair {
    fn call(&self, alloc: Global) -> Result<u8, AllocError> {
        let [letter, ..] = self.letters(alloc)?;
        Ok(letter)
    }
}

impl Call for PreparedPair<'_> {
    fn call(&self, alloc: Global) -> Result<u8, AllocError> {
        let [letter, ..] = relate_prepared(alloc, &self.first, &self.second)?.text();
        Ok(letter)
    }
}
