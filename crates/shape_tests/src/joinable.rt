//! Relations that a join of any geometry may use, and those that it may not.

use any_relation_core::{AnyRelation, Rings};
use relation_core::{AllowsDisjoint, JoinRelation, Mask, Relation};
use std::process::Abort;
use std::test::Fail;

fn relation(rt: &impl Abort, text: &[u8]) -> Relation {
    Relation::read(text).expect(rt, "a relation")
}

/// Whether a join may use the relation.
fn is_for_joins(rt: &impl Abort, text: &[u8], rings: Rings) -> bool {
    AnyRelation::new(relation(rt, text), rings).is_ok()
}

/// Names and masks that hold only for geometries that share a point.
const JOINABLE: &[&[u8]] = &[
    b"intersects",
    b"touches",
    b"crosses",
    b"within",
    b"contains",
    b"overlaps",
    b"equals",
    b"covers",
    b"covered_by",
    b"contains_properly",
    b"T********",
    b"*0*******",
    b"****T****",
    b"********1",
    b"FF0FF0***",
];

/// Names and masks that hold for some two disjoint geometries.
const NOT_JOINABLE: &[&[u8]] = &[b"disjoint", b"*********", b"**T******", b"FF*FF****"];

#[test]
fn names_and_masks(rt: HostRuntime) -> Result<(), Fail> {
    for rings in [Rings::Proper, Rings::EvenOdd] {
        for &text in JOINABLE {
            let join = AnyRelation::new(relation(&rt, text), rings)?;
            assert!(rt; *join.relation() == relation(&rt, text));
            assert!(rt; join.rings() == rings);
        }
        for &text in NOT_JOINABLE {
            assert!(rt; AnyRelation::new(relation(&rt, text), rings) == Err(AllowsDisjoint));
        }
    }
    Ok(())
}

/// The dimensions of the interior and the boundary of a geometry: of points, lines with and without
/// a boundary, and areas with and without an interior.
const CLASSES: &[(u8, u8)] = &[
    (b'0', b'F'),
    (b'1', b'0'),
    (b'1', b'F'),
    (b'2', b'1'),
    (b'F', b'1'),
];

/// The matrix of two disjoint geometries, as a mask that fits no other matrix.
fn apart(first: (u8, u8), second: (u8, u8)) -> [u8; 9] {
    let (interior, boundary) = first;
    [
        b'F', b'F', interior, b'F', b'F', boundary, second.0, second.1, b'2',
    ]
}

#[test]
fn sixteen_and_twenty_five_matrices(rt: HostRuntime) {
    for (i, &first) in CLASSES.iter().enumerate() {
        for (j, &second) in CLASSES.iter().enumerate() {
            let mask = apart(first, second);
            assert!(rt; !is_for_joins(&rt, &mask, Rings::EvenOdd));
            assert!(rt; is_for_joins(&rt, &mask, Rings::Proper) == (i == 4 || j == 4));
        }
    }
}

/// Two closed lines may be disjoint, but no two boxes are lines without a boundary.
#[test]
fn closed_lines_are_no_boxes(rt: HostRuntime) -> Result<(), Fail> {
    let mask = Relation::Mask(Mask::read(b"FF1FFF1F2")?);
    assert!(rt; JoinRelation::new(mask).is_ok());
    assert!(rt; AnyRelation::new(mask, Rings::Proper) == Err(AllowsDisjoint));
    Ok(())
}
