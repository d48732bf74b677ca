//! The words of the commands, and their faults.

use format_core::Layout;
use number_core::{Limits, Scale};
use pair_core::{Options, Product};
use plane_core::Rings;
use relation_core::{JoinRelation, Relation};
use std::alloc::Global;
use std::test::Fail;
use words_core::{
    Command, Condition, Geometries, JoinRequest, LayerPaths, LayerRequest, RelateRequest,
    WordFault, Workers, read_words,
};

/// Words that don't fit the usage, with `|` between them.
const USAGE_FAULTS: &[&str] = &[
    "rjoin",
    "rjoin|relate|x",
    "rjoin|relate|x|y|z",
    "rjoin|bridge",
    "rjoin|window|q.csv",
    "rjoin|stats",
    "rjoin|stats|l.csv|q.csv",
    "rjoin|stats||l.csv",
    "rjoin|stats|-l.csv",
    "rjoin|stats|l.csv|--scale|x",
    "rjoin|stats|l.csv|--cut|2",
    "rjoin|bounds",
    "rjoin|stats|l.csv|--geometry",
    "rjoin|bounds|l.csv|--rings",
    "rjoin|window|l.csv|--geometry|any",
    "rjoin|join|l.csv|q.csv|--geometry|any",
    "rjoin|draw|l.csv|q.csv|--relation|touches|--geometry|any|--geometry|any",
    "rjoin|bounds|l.csv|POINT (0 0)",
    "rjoin|bounds|l.csv|--workers|2",
    "rjoin|stats|l.csv|--workers|auto",
    "rjoin|near|l.csv|q.csv|--workers|auto",
    "rjoin|nearest|l.csv|q.csv|--workers|auto|--workers|auto",
    "rjoin|join|l.csv|q.csv",
    "rjoin|join|l.csv|--relation|touches",
    "rjoin|join|l.csv|q.csv|--relation|disjoint|--workers|x",
    "rjoin|join|l.csv|q.csv|--relation|touch|--cut|4294967296",
    "rjoin|relate|x|y|--scale|4294967296",
    "rjoin|join|-|-|--relation|touch",
    "rjoin|join|-|q.csv|--relation|touches|--workers|17|--edits|-",
    "rjoin|join|l.csv|-|--relation|touches|--edits|-|--scale|7",
    "rjoin|join|l.csv|q.csv|--relation|touches|--distance|5",
    "rjoin|join|l.csv|q.csv|--relation|touches|--apart",
    "rjoin|near|l.csv|q.csv",
    "rjoin|near|l.csv|--distance|5",
    "rjoin|near|l.csv|q.csv|--distance",
    "rjoin|near|l.csv|q.csv|--distance|-1",
    "rjoin|near|l.csv|q.csv|--distance|5|--apart|yes",
    "rjoin|near|l.csv|q.csv|--distance|5|--relation|touches",
    "rjoin|nearest|l.csv|q.csv|--geometry",
    "rjoin|nearest|l.csv|q.csv|--skip",
    "rjoin|near|-|-|--distance|x",
    "rjoin|near|-|q.csv|--distance|5|--workers|17|--edits|-",
    "rjoin|draw|l.csv|q.csv",
    "rjoin|draw|l.csv|--relation|touches",
    "rjoin|draw|-|-|--relation|touches",
];

/// Words of a join after its files, and the text of their fault.
const OPTION_FAULTS: &[(&str, &str)] = &[
    (
        "--relation|disjoint|--workers|17",
        "--relation: disjoint features may fit",
    ),
    (
        "--relation|beside|--workers|0",
        "--relation: not a name or a mask of nine letters",
    ),
    (
        "--relation|touch|--workers|0",
        "rjoin: --relation: not a name or a mask of nine letters\n\
        did you mean touches?\n",
    ),
    (
        "--relation|ovrlps",
        "rjoin: --relation: not a name or a mask of nine letters\n\
        did you mean overlaps?\n",
    ),
    (
        "--relation|kontainss",
        "rjoin: --relation: not a name or a mask of nine letters\n\
        did you mean contains?\n",
    ),
    (
        "--relation|intersect",
        "rjoin: --relation: not a name or a mask of nine letters\n\
        did you mean intersects?\n",
    ),
    (
        "--relation|coveredby",
        "rjoin: --relation: not a name or a mask of nine letters\n\
        did you mean covered_by?\n",
    ),
    (
        "--relation|cover",
        "rjoin: --relation: not a name or a mask of nine letters\n\
        did you mean covers?\n",
    ),
    (
        "--relation|containsproperly",
        "rjoin: --relation: not a name or a mask of nine letters\n\
        did you mean contains_properly?\n",
    ),
    ("--relation|intersxxs", "--relation: bad letter at place 0"),
    (
        "--workers|17|--relation|T*F**F**3",
        "--relation: bad letter at place 8",
    ),
    (
        "--relation|touches|--workers|0|--batch|0",
        "--workers must be 1 to 16",
    ),
    (
        "--relation|touches|--workers|17|--cut|9",
        "--workers must be 1 to 16",
    ),
    (
        "--relation|touches|--batch|4097|--cut|9",
        "--batch must be 1 to 4096",
    ),
    ("--relation|touches|--batch|0", "--batch must be 1 to 4096"),
    ("--relation|touches|--cut|9", "--cut must be 0 to 8"),
    (
        "--scale|7|--relation|touches|--cut|9",
        "--cut must be 0 to 8",
    ),
    (
        "--scale|7|--relation|disjoint",
        "--relation: disjoint features may fit",
    ),
    (
        "--relation|touches|--scale|4294967295",
        "--scale must be 0 to 6",
    ),
];

/// Words of a join by `within` after its files, with the edits, the three numbers and the decimals
/// that they ask for.
const JOINS: &[(&str, Option<&str>, (u32, u32, u32), u32)] = &[
    ("--relation|within", None, (4, 256, 2), 0),
    (
        "--relation|within|--edits|e.csv",
        Some("e.csv"),
        (4, 256, 2),
        0,
    ),
    ("--relation|Within|--edits|-", Some("-"), (4, 256, 2), 0),
    ("--relation|within|--workers|16", None, (16, 256, 2), 0),
    ("--relation|within|--batch|4096", None, (4, 4096, 2), 0),
    ("--relation|within|--cut|0|--scale|6", None, (4, 256, 0), 6),
    (
        "--cut|8|--batch|1|--edits|e.csv|--scale|1|--workers|1|--relation|within",
        Some("e.csv"),
        (1, 1, 8),
        1,
    ),
];

/// The words between `|`.
pub fn parted(alloc: Global, words: &'static str) -> Result<Vec<&'static str>, Fail> {
    Ok(words.split('|').collect(alloc)?)
}

/// Whether words are read as this command.
fn reads(alloc: Global, words: &'static str, wanted: Command<'_>) -> Result<bool, Fail> {
    Ok(read_words(alloc, parted(alloc, words)?.as_slice())? == wanted)
}

/// The scale with this number of decimals, which has the limits of these geometries.
pub(crate) fn scale_of(geometries: Geometries, digits: u32) -> Result<Scale, Fail> {
    let limits = match geometries {
        Geometries::Box => Limits::Boxes,
        Geometries::Any(_) => Limits::Any,
    };
    Ok(Scale::within(limits, digits).ok_or("a scale")?)
}

/// Words of `relate` after its two geometries, and the geometries that they ask for.
const GEOMETRIES: &[(&str, Geometries)] = &[
    ("--scale|0", Geometries::Box),
    ("--geometry|box", Geometries::Box),
    ("--geometry|any", Geometries::Any(Rings::Proper)),
    (
        "--rings|proper|--geometry|any",
        Geometries::Any(Rings::Proper),
    ),
    (
        "--geometry|any|--rings|even-odd",
        Geometries::Any(Rings::EvenOdd),
    ),
];

/// Whether `relate` on two geometries, followed by these words, is read as this request.
fn asks_to_relate(
    alloc: Global,
    last: &'static str,
    wanted: RelateRequest<'_>,
) -> Result<bool, Fail> {
    let mut words = Vec::new(alloc);
    words.extend_from_slice(&["rjoin", "relate", "POINT (0 0)", "x"])?;
    words.extend_from_slice(parted(alloc, last)?.as_slice())?;
    Ok(read_words(alloc, words.as_slice())? == Command::Relate(wanted))
}

#[test]
fn relate_words(rt: HostRuntime) -> Result<(), Fail> {
    let a = "POINT (0 0)";
    for &(last, geometries) in GEOMETRIES {
        let wanted = RelateRequest {
            a,
            b: "x",
            scale: scale_of(geometries, 0)?,
            geometries,
        };
        assert!(rt; asks_to_relate(rt.alloc(), last, wanted)?, "{last}");
    }
    Ok(())
}

#[test]
fn layer_words(rt: HostRuntime) -> Result<(), Fail> {
    let alloc = rt.alloc();
    let Some(scale) = Scale::new(2) else {
        panic!(rt; "no scale");
    };
    let layer = |path| LayerRequest {
        path,
        layout: Layout::plain(),
        scale,
        geometries: Geometries::Box,
    };
    let wkt = "POINT (4 4)";
    let wanted = Command::Window {
        layer: layer("-"),
        wkt,
    };
    assert!(rt; reads(alloc, "rjoin|window|-|POINT (4 4)|--scale|2", wanted)?);
    let wanted = Command::Stats(layer("l.csv"));
    assert!(rt; reads(alloc, "rjoin|stats|l.csv|--scale|02", wanted)?);
    let wanted = Command::Bounds(layer("l.csv"));
    assert!(rt; reads(alloc, "rjoin|bounds|--scale|2|l.csv", wanted)?);
    let wanted = Command::Bounds(layer("-l.csv"));
    assert!(rt; reads(alloc, "rjoin|bounds|--scale|2|--|-l.csv", wanted)?);
    Ok(())
}

/// Whether words don't fit the usage.
fn is_usage_fault(alloc: Global, words: &'static str) -> Result<bool, Fail> {
    match read_words(alloc, parted(alloc, words)?.as_slice()) {
        Err(WordFault::Usage { help, .. }) => Ok(!help),
        _ => Ok(false),
    }
}

#[test]
fn usage_faults(rt: HostRuntime) -> Result<(), Fail> {
    for &words in USAGE_FAULTS {
        assert!(rt; is_usage_fault(rt.alloc(), words)?, "{words}");
    }
    Ok(())
}

/// The words of a command on two files, followed by these words.
fn join_words(
    alloc: Global,
    command: &'static str,
    last: &'static str,
) -> Result<Vec<&'static str>, Fail> {
    let mut words = Vec::new(alloc);
    words.extend_from_slice(&["rjoin", command, "l.csv", "q.csv"])?;
    words.extend_from_slice(parted(alloc, last)?.as_slice())?;
    Ok(words)
}

/// Whether a command on two files, followed by these words, is refused with this text.
pub fn is_refused(
    alloc: Global,
    command: &'static str,
    last: &'static str,
    text: &str,
) -> Result<bool, Fail> {
    match read_words(alloc, join_words(alloc, command, last)?.as_slice()) {
        Ok(_) => Ok(false),
        Err(fault) => Ok(format!(in alloc; "{fault}")?.as_str() == text),
    }
}

#[test]
fn option_faults(rt: HostRuntime) -> Result<(), Fail> {
    for &(last, text) in OPTION_FAULTS {
        assert!(rt; is_refused(rt.alloc(), "join", last, text)?, "join {last}");
        assert!(rt; is_refused(rt.alloc(), "draw", last, text)?, "draw {last}");
    }
    Ok(())
}

/// Whether a command on two files, followed by these words, is read as this command.
pub fn asks(
    alloc: Global,
    command: &'static str,
    last: &'static str,
    wanted: Command<'_>,
) -> Result<bool, Fail> {
    Ok(read_words(alloc, join_words(alloc, command, last)?.as_slice())? == wanted)
}

#[test]
fn joins(rt: HostRuntime) -> Result<(), Fail> {
    let condition = Condition::Boxes(JoinRelation::new(Relation::Within)?);
    for &(last, edits, (workers, batch, cut), decimals) in JOINS {
        let options = Options::new(workers, batch, cut)?;
        let Some(scale) = Scale::new(decimals) else {
            panic!(rt; "no scale");
        };
        let wanted = |product| JoinRequest {
            product,
            paths: LayerPaths {
                left: "l.csv",
                right: "q.csv",
                edits,
                skip: None,
                left_layout: Layout::plain(),
                right_layout: Layout::plain(),
            },
            condition,
            options,
            workers: Workers::Exact,
            scale,
        };
        let join = Command::Join(wanted(Product::Report));
        assert!(rt; asks(rt.alloc(), "join", last, join)?, "{last}");
        let draw = Command::Join(wanted(Product::Picture));
        assert!(rt; asks(rt.alloc(), "draw", last, draw)?, "{last}");
    }
    Ok(())
}
