//! Words of the list of skipped rows.

use crate::read_words::{asks, is_refused};
use distance_core::{Distance, Nearness};
use format_core::Layout;
use number_core::{Limits, Scale};
use pair_core::{Options, Product};
use plane_core::Rings;
use relation_core::{JoinRelation, Relation};
use std::test::Fail;
use words_core::{Command, Condition, Geometries, JoinRequest, LayerPaths, NearRequest, Workers};

/// The files of a join after these edits, with this list of skipped rows.
fn paths(edits: Option<&'static str>, skip: &'static str) -> LayerPaths<'static> {
    LayerPaths {
        left: "l.csv",
        right: "q.csv",
        edits,
        skip: Some(skip),
        left_layout: Layout::plain(),
        right_layout: Layout::plain(),
    }
}

/// Words after the files, and the paths of the edits and of the list that they name.
const LISTS: &[(&str, Option<&str>, &str)] = &[
    ("--relation|within|--skip|s.csv", None, "s.csv"),
    (
        "--skip=s.csv|--relation|within|--edits|e.csv",
        Some("e.csv"),
        "s.csv",
    ),
    (
        "--edits|-|--skip|./l.csv|--relation|within",
        Some("-"),
        "./l.csv",
    ),
];

#[test]
fn lists_of_joins(rt: HostRuntime) -> Result<(), Fail> {
    let condition = Condition::Boxes(JoinRelation::new(Relation::Within)?);
    let scale = Scale::new(0).ok_or("a scale")?;
    let options = Options::new(4, 256, 2)?;
    for &(last, edits, skip) in LISTS {
        let wanted = |product| JoinRequest {
            product,
            paths: paths(edits, skip),
            condition,
            options,
            workers: Workers::Exact,
            scale,
        };
        let join = Command::Join(wanted(Product::Report));
        assert!(rt; asks(rt.alloc(), "join", last, join)?, "{last}");
        let draw = Command::Join(wanted(Product::Picture));
        assert!(rt; asks(rt.alloc(), "draw", last, draw)?, "{last}");
    }
    Ok(())
}

#[test]
fn list_of_a_join_by_distance(rt: HostRuntime) -> Result<(), Fail> {
    let words = "--distance|5|--skip|s.csv|--geometry|any|--edits|e.csv";
    let wanted = Command::Near(NearRequest {
        paths: paths(Some("e.csv"), "s.csv"),
        distance: Distance::new(5).ok_or("a distance")?,
        nearness: Nearness::Within,
        options: Options::new(4, 256, 2)?,
        workers: Workers::Exact,
        scale: Scale::within(Limits::Any, 0).ok_or("a scale")?,
        geometries: Geometries::Any(Rings::Proper),
    });
    assert!(rt; asks(rt.alloc(), "near", words, wanted)?);
    Ok(())
}

/// Words of a list that isn't a file of its own.
const TAKEN: &[&str] = &[
    "--relation|within|--skip|-",
    "--relation|within|--skip|l.csv",
    "--skip|q.csv|--relation|within",
    "--relation|within|--edits|e.csv|--skip|e.csv",
    "--relation|beside|--skip|l.csv|--workers|17",
];

#[test]
fn taken_files(rt: HostRuntime) -> Result<(), Fail> {
    let text = "error: --skip needs a file of its own\n";
    for &last in TAKEN {
        assert!(rt; is_refused(rt.alloc(), "join", last, text)?, "{last}");
        assert!(rt; is_refused(rt.alloc(), "draw", last, text)?, "{last}");
    }
    assert!(rt; is_refused(rt.alloc(), "nearest", "--skip|q.csv", text)?);
    Ok(())
}
