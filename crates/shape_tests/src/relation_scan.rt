//! The eleven named relations of all pairs of shapes with corners from 0 to 3, compared with a scan
//! over all cells.

use crate::matrix_scan::{Corners, PLACES, all_corners, part_at, shape};
use relation_core::{JoinRelation, Relation};
use std::test::Fail;

/// The common cells of two sets.
#[derive(Clone, Copy)]
struct Common {
    /// Some cell is in both.
    meet: bool,
    /// The greatest dimension of a cell in the interiors of both.
    inner: Option<u32>,
    /// Some cell of the first is not in the second.
    first_leaves: bool,
    /// Some cell of the second is not in the first.
    second_leaves: bool,
    /// Some cell of the second is not in the interior of the first.
    second_leaves_interior: bool,
}

/// The parts as `part_at` numbers them.
const INTERIOR: usize = 0;

const EXTERIOR: usize = 2;

fn scanned(a: &Corners, b: &Corners) -> Common {
    let mut common = Common {
        meet: false,
        inner: None,
        first_leaves: false,
        second_leaves: false,
        second_leaves_interior: false,
    };
    for cell in 0..PLACES * PLACES {
        let (u, v) = (cell / PLACES, cell % PLACES);
        let (first, second) = (part_at(a, u, v), part_at(b, u, v));
        common.second_leaves_interior |= first != INTERIOR && second != EXTERIOR;
        match (first, second) {
            (EXTERIOR, EXTERIOR) => {}
            (EXTERIOR, _) => common.second_leaves = true,
            (_, EXTERIOR) => common.first_leaves = true,
            (INTERIOR, INTERIOR) => {
                common.meet = true;
                let dim = 2 - u % 2 - v % 2;
                common.inner = Some(common.inner.unwrap_or(0).max(dim));
            }
            _ => common.meet = true,
        }
    }
    common
}

fn dim(c: &Corners) -> u32 {
    u32::from(c.x1 != c.x2) + u32::from(c.y1 != c.y2)
}

/// Each named relation, and whether it holds, by the definitions for two sets.
fn expected(a: &Corners, b: &Corners) -> [(Relation, bool); 11] {
    let Common {
        meet,
        inner,
        first_leaves,
        second_leaves,
        second_leaves_interior,
    } = scanned(a, b);
    let greater = dim(a).max(dim(b));
    let lower = inner.is_some_and(|d| d < greater);
    let full = inner.is_some_and(|d| d == dim(a) && d == dim(b));
    let both_leave = first_leaves && second_leaves;
    [
        (Relation::Disjoint, !meet),
        (Relation::Intersects, meet),
        (Relation::Touches, meet && inner.is_none()),
        (Relation::Crosses, lower && both_leave),
        (Relation::Within, inner.is_some() && !first_leaves),
        (Relation::Contains, inner.is_some() && !second_leaves),
        (Relation::Overlaps, full && both_leave),
        (Relation::Equals, !first_leaves && !second_leaves),
        (Relation::Covers, !second_leaves),
        (Relation::CoveredBy, !first_leaves),
        (Relation::ContainsProperly, !second_leaves_interior),
    ]
}

#[test]
fn every_relation_is_that_of_a_scan(rt: HostRuntime) -> Result<(), Fail> {
    let all = all_corners(rt.alloc())?;
    assert!(rt; all.len() == 100);
    for a in &all {
        let first = shape(a).ok_or("corners in order")?;
        for b in &all {
            let second = shape(b).ok_or("corners in order")?;
            for (relation, wanted) in expected(a, b) {
                assert_eq!(rt; relation.holds(&first, &second), wanted);
                if let Ok(join) = JoinRelation::new(relation) {
                    assert_eq!(rt; join.holds(&first, &second), wanted);
                }
            }
        }
    }
    Ok(())
}
