//! Words that ask for geometries of any direction, and the order of their faults.

use crate::read_words::{asks, is_refused, parted, scale_of};
use any_relation_core::AnyRelation;
use format_core::Layout;
use number_core::{Rounding, Scale};
use pair_core::{Options, Product};
use plane_core::Rings;
use relation_core::{AllowsDisjoint, JoinRelation, Mask, Relation};
use std::alloc::Global;
use std::test::Fail;
use words_core::{
    Command, Condition, Geometries, JoinRequest, LayerPaths, LayerRequest, WordFault, Workers,
    read_words,
};

const PROPER: Geometries = Geometries::Any(Rings::Proper);

const EVEN_ODD: Geometries = Geometries::Any(Rings::EvenOdd);

/// Words after those of a layer, and the geometries that they ask for.
const GEOMETRIES: &[(&str, Geometries)] = &[
    ("--geometry|box", Geometries::Box),
    ("--geometry|any", PROPER),
    ("--geometry|any|--rings|proper", PROPER),
    ("--rings|even-odd|--geometry|any", EVEN_ODD),
];

/// The layer `l.csv` with no decimals and these geometries.
fn layer(scale: Scale, geometries: Geometries) -> LayerRequest<'static> {
    LayerRequest {
        path: "l.csv",
        layout: Layout::plain(),
        scale,
        geometries,
    }
}

/// What these words, followed by the last ones, are read as.
fn is_read_as(
    alloc: Global,
    first: &'static str,
    last: &'static str,
    wanted: Command<'_>,
) -> Result<bool, Fail> {
    let mut words = parted(alloc, first)?;
    words.extend_from_slice(parted(alloc, last)?.as_slice())?;
    Ok(read_words(alloc, words.as_slice())? == wanted)
}

#[test]
fn layers(rt: HostRuntime) -> Result<(), Fail> {
    let alloc = rt.alloc();
    for &(last, geometries) in GEOMETRIES {
        let layer = layer(scale_of(geometries, 0)?, geometries);
        let wkt = "POINT (0 0)";
        let window = Command::Window { layer, wkt };
        assert!(rt;
            is_read_as(alloc, "rjoin|window|l.csv|POINT (0 0)", last, window)?,
            "{last}"
        );
        let stats = Command::Stats(layer);
        assert!(rt;
            is_read_as(alloc, "rjoin|stats|l.csv", last, stats)?,
            "{last}"
        );
        let bounds = Command::Bounds(layer);
        assert!(rt;
            is_read_as(alloc, "rjoin|bounds|l.csv", last, bounds)?,
            "{last}"
        );
    }
    Ok(())
}

/// Words after the path of a layer, and whether they ask for rounding.
const ROUNDINGS: &[(&str, Rounding)] = &[
    ("--scale|0", Rounding::Exact),
    ("--round", Rounding::Nearest),
    ("--round|--scale|0", Rounding::Nearest),
];

#[test]
fn roundings(rt: HostRuntime) -> Result<(), Fail> {
    let Some(scale) = Scale::new(0) else {
        panic!(rt; "no scale");
    };
    for &(last, rounding) in ROUNDINGS {
        let layer = layer(scale.with_rounding(rounding), Geometries::Box);
        let stats = Command::Stats(layer);
        assert!(rt;
            is_read_as(rt.alloc(), "rjoin|stats|l.csv", last, stats)?,
            "{last}"
        );
    }
    Ok(())
}

/// Words of a join by `crosses` after its files, and the rule for rings that they ask for.
const JOINS: &[(&str, Rings)] = &[
    ("--relation|crosses|--geometry|any", Rings::Proper),
    (
        "--rings|proper|--geometry|any|--relation|Crosses",
        Rings::Proper,
    ),
    (
        "--geometry|any|--relation|crosses|--rings|even-odd",
        Rings::EvenOdd,
    ),
];

#[test]
fn joins(rt: HostRuntime) -> Result<(), Fail> {
    let scale = scale_of(PROPER, 0)?;
    let options = Options::new(4, 256, 2)?;
    for &(last, rings) in JOINS {
        let condition = Condition::Any(AnyRelation::new(Relation::Crosses, rings)?);
        let wanted = |product| JoinRequest {
            product,
            paths: LayerPaths {
                left: "l.csv",
                right: "q.csv",
                edits: None,
                skip: None,
                left_layout: Layout::plain(),
                right_layout: Layout::plain(),
            },
            condition,
            options,
            workers: Workers::Exact,
            scale,
        };
        let join = Command::Join(wanted(Product::Report));
        assert!(rt; asks(rt.alloc(), "join", last, join)?, "{last}");
        let draw = Command::Join(wanted(Product::Picture));
        assert!(rt; asks(rt.alloc(), "draw", last, draw)?, "{last}");
    }
    Ok(())
}

const DISJOINT: &str = "--relation: disjoint features may fit";

const GEOMETRY: &str = "--geometry must be box or any";

const RINGS_OF_BOXES: &str = "--rings needs --geometry any";

const RINGS: &str = "--rings must be proper or even-odd";

/// Words of a join after its files, and the text of their fault. The matrix of two disjoint
/// geometries begins with FF1FFF if the first is a closed line, and with FFFFF1 if it is an area
/// without interior.
const FAULTS: &[(&str, &str)] = &[
    ("--relation|disjoint|--geometry|any", DISJOINT),
    ("--relation|FF1FFF***|--geometry|any", DISJOINT),
    (
        "--relation|FFFFF1***|--geometry|any|--rings|even-odd",
        DISJOINT,
    ),
    ("--geometry|any|--workers|17|--relation|FF1FFF***", DISJOINT),
    ("--relation|disjoint|--geometry|any|--scale|7", DISJOINT),
    ("--relation|disjoint|--geometry|lines", GEOMETRY),
    ("--relation|disjoint|--geometry|any|--rings|odd", RINGS),
    ("--relation|disjoint|--rings|proper", RINGS_OF_BOXES),
    (
        "--relation|disjoint|--geometry|lines|--cut|9",
        "--cut must be 0 to 8",
    ),
    (
        "--relation|disjoint|--geometry|lines|--scale|7",
        "--scale must be 0 to 6",
    ),
    (
        "--relation|touches|--geometry|any|--rings|odd|--scale|16",
        "--scale must be 0 to 15",
    ),
    (
        "--relation|touches|--geometry|any|--rings|odd|--scale|15",
        RINGS,
    ),
    (
        "--relation|touches|--geometry|box|--rings|odd|--scale|7",
        "--scale must be 0 to 6",
    ),
    (
        "--relation|touches|--geometry|any|--rings|odd|--batch|0",
        "--batch must be 1 to 4096",
    ),
    (
        "--relation|beside|--geometry|lines",
        "--relation: not a name or a mask of nine letters",
    ),
    ("--relation|touches|--geometry|Any", GEOMETRY),
    ("--relation|touches|--geometry|lines|--rings|odd", GEOMETRY),
    (
        "--relation|touches|--geometry|box|--rings|proper",
        RINGS_OF_BOXES,
    ),
    ("--relation|touches|--rings|odd", RINGS_OF_BOXES),
    ("--relation|touches|--geometry|any|--rings|evenodd", RINGS),
];

#[test]
fn faults_of_joins(rt: HostRuntime) -> Result<(), Fail> {
    for &(last, text) in FAULTS {
        assert!(rt; is_refused(rt.alloc(), "join", last, text)?, "join {last}");
        assert!(rt; is_refused(rt.alloc(), "draw", last, text)?, "draw {last}");
    }
    Ok(())
}

/// Words of a command over one layer, and the text of their fault.
const LAYER_FAULTS: &[(&str, &str)] = &[
    ("rjoin|stats|l.csv|--geometry|lines", GEOMETRY),
    (
        "rjoin|stats|l.csv|--geometry|lines|--scale|7",
        "--scale must be 0 to 6",
    ),
    ("rjoin|bounds|l.csv|--rings|even-odd", RINGS_OF_BOXES),
    ("rjoin|window|l.csv|x|--geometry|any|--rings|odd", RINGS),
    (
        "rjoin|relate|x|y|--geometry|any|--rings|odd|--scale|16",
        "--scale must be 0 to 15",
    ),
];

/// The text of the fault of some words, or of none.
fn text_of(alloc: Global, words: &'static str) -> Result<String, Fail> {
    match read_words(alloc, parted(alloc, words)?.as_slice()) {
        Ok(_) => Ok(String::new(alloc)),
        Err(fault) => Ok(format!(in alloc; "{fault}")?),
    }
}

#[test]
fn faults_of_layers(rt: HostRuntime) -> Result<(), Fail> {
    for &(words, text) in LAYER_FAULTS {
        assert!(rt; text_of(rt.alloc(), words)?.as_str() == text, "{words}");
    }
    Ok(())
}

/// Masks of disjoint geometries, and for which of boxes, proper and even-odd rings a join may use
/// them.
const MASKS: &[(&[u8], bool, bool, bool)] = &[
    (b"T********", true, true, true),
    (b"FF1FFF***", true, false, false),
    (b"FFFFF1***", true, true, false),
    (b"FF*FF****", false, false, false),
];

/// Whether a join may use a mask for geometries of this kind.
fn is_joinable(mask: &[u8], geometries: Geometries) -> Result<bool, Fail> {
    let relation = Relation::Mask(Mask::read(mask)?);
    match Condition::new(relation, geometries) {
        Ok(condition) => Ok(condition == wanted_condition(relation, geometries)?),
        Err(AllowsDisjoint) => Ok(false),
    }
}

fn wanted_condition(relation: Relation, geometries: Geometries) -> Result<Condition, Fail> {
    match geometries {
        Geometries::Box => Ok(Condition::Boxes(JoinRelation::new(relation)?)),
        Geometries::Any(rings) => Ok(Condition::Any(AnyRelation::new(relation, rings)?)),
    }
}

#[test]
fn conditions(rt: HostRuntime) -> Result<(), Fail> {
    for &(mask, boxes, proper, even_odd) in MASKS {
        assert!(rt; is_joinable(mask, Geometries::Box)? == boxes);
        assert!(rt; is_joinable(mask, PROPER)? == proper);
        assert!(rt; is_joinable(mask, EVEN_ODD)? == even_odd);
    }
    Ok(())
}
