//! Reading masks and relations, and the relations that a join may use.

use geom_core::Shape;
use relation_core::{AllowsDisjoint, JoinRelation, Mask, MaskFault, Relation, relate};
use std::alloc::{AllocError, Global};
use std::fmt::Display;
use std::process::Abort;
use std::test::Fail;
use wkt_core::WktFault;

fn mask(rt: &impl Abort, text: &[u8]) -> Mask {
    Mask::read(text).expect(rt, "a mask")
}

/// Whether a join may use the mask.
fn is_for_joins(rt: &impl Abort, text: &[u8]) -> bool {
    JoinRelation::new(Relation::Mask(mask(rt, text))).is_ok()
}

/// The named relations that a join may use.
const FOR_JOINS: &[Relation] = &[
    Relation::Intersects,
    Relation::Touches,
    Relation::Crosses,
    Relation::Within,
    Relation::Contains,
    Relation::Overlaps,
    Relation::Equals,
    Relation::Covers,
    Relation::CoveredBy,
    Relation::ContainsProperly,
];

#[test]
fn mask_readings(rt: HostRuntime) -> Result<(), Fail> {
    assert!(rt; Mask::read(b"T*F**F**") == Err(MaskFault::Length));
    assert!(rt; Mask::read(b"T*F**F**3") == Err(MaskFault::Letter(8)));
    assert!(rt; mask(&rt, b"t*f**f***").text() == *b"T*F**F***");
    assert!(rt; Relation::read(b"Touches") == Ok(Relation::Touches));
    assert!(rt; Relation::read(b"touch") == Err(MaskFault::Length));
    assert!(rt; !is_for_joins(&rt, b"**T******"));
    assert!(rt; JoinRelation::new(Relation::Disjoint).is_err());
    for &relation in FOR_JOINS {
        let join = JoinRelation::new(relation)?;
        assert!(rt; *join.relation() == relation);
    }
    Ok(())
}

/// Relations, the dimensions of two shapes, and the masks for these, concatenated.
const MASKS: &[(Relation, u8, u8, &[u8])] = &[
    (Relation::Disjoint, 1, 2, b"FF*FF****"),
    (Relation::Touches, 0, 0, b""),
    (Relation::Touches, 0, 1, b"FT*******F**T*****F***T****"),
    (Relation::Crosses, 0, 1, b"T*T******"),
    (Relation::Crosses, 2, 1, b"T*****T**"),
    (Relation::Crosses, 1, 1, b"0********"),
    (Relation::Crosses, 2, 2, b""),
    (Relation::Overlaps, 1, 1, b"1*T***T**"),
    (Relation::Overlaps, 2, 2, b"T*T***T**"),
    (Relation::Overlaps, 0, 2, b""),
    (
        Relation::Covers,
        2,
        0,
        b"T*****FF**T****FF****T**FF*****T*FF*",
    ),
    (
        Relation::CoveredBy,
        0,
        2,
        b"T*F**F****TF**F*****FT*F*****F*TF***",
    ),
    (Relation::ContainsProperly, 2, 1, b"T**FF*FF*"),
];

#[test]
fn masks_of_relations(rt: HostRuntime) -> Result<(), Fail> {
    for &(relation, first_dim, second_dim, wanted) in MASKS {
        let mut text = Vec::new(rt.alloc());
        for mask in relation.masks(first_dim, second_dim) {
            text.extend_from_slice(&mask.text())?;
        }
        assert!(rt; text.as_slice() == wanted);
    }
    Ok(())
}

/// Names in any case, and their relations.
const NAMES: &[(&[u8], Relation)] = &[
    (b"disjoint", Relation::Disjoint),
    (b"INTERSECTS", Relation::Intersects),
    (b"touches", Relation::Touches),
    (b"Crosses", Relation::Crosses),
    (b"within", Relation::Within),
    (b"conTains", Relation::Contains),
    (b"overlaps", Relation::Overlaps),
    (b"equalS", Relation::Equals),
    (b"Covers", Relation::Covers),
    (b"COVERED_BY", Relation::CoveredBy),
    (b"contains_Properly", Relation::ContainsProperly),
];

#[test]
fn each_name_and_each_letter(rt: HostRuntime) {
    for &(name, relation) in NAMES {
        assert!(rt; Relation::read(name) == Ok(relation));
    }
    let exteriors = Relation::Mask(mask(&rt, b"********0"));
    assert!(rt; Relation::read(b"********0") == Ok(exteriors));
    assert!(rt; mask(&rt, b"012TF*tf0").text() == *b"012TF*TF0");
    assert!(rt; Relation::read(b"disjointT") == Err(MaskFault::Letter(0)));
    assert!(rt; Relation::read(b"coveredby") == Err(MaskFault::Letter(0)));
    assert!(rt; Relation::read(b"contains properly") == Err(MaskFault::Length));
    assert!(rt; Mask::default().text() == *b"*********");
}

/// Whether a fault is displayed as this text.
fn shows(alloc: Global, fault: &impl Display, text: &str) -> Result<bool, AllocError> {
    Ok(format!(in alloc; "{fault}")?.as_str() == text)
}

/// Faults of masks, and their displayed texts.
const MASK_FAULTS: &[(MaskFault, &str)] = &[
    (MaskFault::Length, "not a name or a mask of nine letters"),
    (MaskFault::Letter(0), "bad letter at place 0"),
    (
        MaskFault::Letter(4_294_967_295),
        "bad letter at place 4294967295",
    ),
];

/// Faults of geometries, and their displayed texts.
const WKT_FAULTS: &[(WktFault, &str)] = &[
    (WktFault::Text, "not a geometry text"),
    (WktFault::Number, "number not whole or out of range"),
    (
        WktFault::Form,
        "not a point, axis-parallel segment or rectangle",
    ),
];

#[test]
fn the_texts_of_faults(rt: HostRuntime) -> Result<(), Fail> {
    for &(fault, text) in MASK_FAULTS {
        assert!(rt; shows(rt.alloc(), &fault, text)? && text.starts_with(fault.text()));
    }
    for &(fault, text) in WKT_FAULTS {
        assert!(rt; shows(rt.alloc(), &fault, text)? && text == fault.text());
    }
    assert!(rt; shows(rt.alloc(), &AllowsDisjoint, "disjoint features may fit")?);
    assert!(rt; AllowsDisjoint.text() == "disjoint features may fit");
    Ok(())
}
