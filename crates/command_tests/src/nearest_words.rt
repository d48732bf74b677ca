//! Words of searches for the nearest features, and the order of their faults.

use crate::near_words::FAR_DISTANCE;
use crate::read_words::{asks, is_refused, scale_of};
use distance_core::{Distance, Query};
use format_core::Layout;
use number_core::{Rounding, Scale};
use pair_core::Options;
use plane_core::Rings;
use std::test::Fail;
use words_core::{Command, Geometries, LayerPaths, NearestRequest, Workers};

/// Words after the files at scale 0, the number of features that they ask for, and the units of the
/// distance, if they have one.
const QUERIES: &[(&str, u32, Option<u64>)] = &[
    ("--workers|4", 1, None),
    ("--most|1", 1, None),
    ("--most=+007", 7, None),
    ("--most|4294967295", 4_294_967_295, None),
    ("--distance|0", 1, Some(0)),
    ("--distance|3.|--most|2", 2, Some(3)),
    (
        "--most|5|--distance|4000000000000",
        5,
        Some(4_000_000_000_000),
    ),
];

#[test]
fn queries(rt: HostRuntime) -> Result<(), Fail> {
    let scale = Scale::new(0).ok_or("a scale")?;
    for &(last, most, units) in QUERIES {
        let wanted = Command::Nearest(nearest(scale, most, units)?);
        assert!(rt; asks(rt.alloc(), "nearest", last, wanted)?, "{last}");
    }
    Ok(())
}

/// A search of `l.csv` and `q.csv` for these features with the options that have no words.
fn nearest(scale: Scale, most: u32, units: Option<u64>) -> Result<NearestRequest<'static>, Fail> {
    let within = match units {
        None => None,
        Some(units) => Some(Distance::new(units).ok_or("a distance")?),
    };
    Ok(NearestRequest {
        paths: LayerPaths {
            left: "l.csv",
            right: "q.csv",
            edits: None,
            skip: None,
            left_layout: Layout::plain(),
            right_layout: Layout::plain(),
        },
        query: Query::new(most, within).ok_or("a query")?,
        options: Options::new(4, 256, 2)?,
        workers: Workers::Exact,
        scale,
        geometries: Geometries::Box,
    })
}

/// Words after the files, and the kind of geometries that they name.
const KINDS: &[(&str, Geometries)] = &[
    ("--geometry|box|--most|1", Geometries::Box),
    ("--geometry|any", Geometries::Any(Rings::Proper)),
    (
        "--rings|proper|--geometry|any",
        Geometries::Any(Rings::Proper),
    ),
    (
        "--geometry|any|--rings|even-odd",
        Geometries::Any(Rings::EvenOdd),
    ),
];

#[test]
fn kinds_of_geometries(rt: HostRuntime) -> Result<(), Fail> {
    for &(last, geometries) in KINDS {
        let wanted = Command::Nearest(NearestRequest {
            geometries,
            ..nearest(scale_of(geometries, 0)?, 1, None)?
        });
        assert!(rt; asks(rt.alloc(), "nearest", last, wanted)?, "{last}");
    }
    Ok(())
}

#[test]
fn every_word_of_a_search(rt: HostRuntime) -> Result<(), Fail> {
    let words = "--most|3|--cut|8|--edits|e.csv|--round|--workers|1|--distance|2.126|--batch|1\
                 |--skip|s.csv|--scale|2";
    let scale = Scale::new(2).ok_or("a scale")?;
    let scale = scale.with_rounding(Rounding::Nearest);
    let wanted = Command::Nearest(NearestRequest {
        paths: LayerPaths {
            left: "l.csv",
            right: "q.csv",
            edits: Some("e.csv"),
            skip: Some("s.csv"),
            left_layout: Layout::plain(),
            right_layout: Layout::plain(),
        },
        options: Options::new(1, 1, 8)?,
        ..nearest(scale, 3, Some(213))?
    });
    assert!(rt; asks(rt.alloc(), "nearest", words, wanted)?);
    Ok(())
}

const DISTANCE: &str = "--distance must be a number of the scale, 0 to 4000000000000 units";

const MOST: &str = "--most must be 1 to 4294967295";

/// Words after the files, and the text of their fault.
const FAULTS: &[(&str, &str)] = &[
    ("--most|0", MOST),
    ("--most=+0|--distance|5", MOST),
    ("--distance|near", DISTANCE),
    ("--distance=-1", DISTANCE),
    ("--distance|1.5", DISTANCE),
    ("--distance|4000000000001", DISTANCE),
    ("--most|0|--distance|near", DISTANCE),
    (
        "--distance|4000000000000000001|--geometry|any|--most|0",
        FAR_DISTANCE,
    ),
    ("--most|0|--scale|7", "--scale must be 0 to 6"),
    (
        "--most|0|--geometry|any|--scale|16",
        "--scale must be 0 to 15",
    ),
    ("--most|0|--geometry|any|--scale|15", MOST),
    (
        "--most|0|--workers|17|--distance|near",
        "--workers must be 1 to 16",
    ),
    ("--most|0|--geometry|round", MOST),
    ("--distance|near|--geometry|round", DISTANCE),
    ("--geometry|round", "--geometry must be box or any"),
    ("--rings|proper", "--rings needs --geometry any"),
    (
        "--geometry|any|--rings|odd",
        "--rings must be proper or even-odd",
    ),
];

#[test]
fn faults_of_searches(rt: HostRuntime) -> Result<(), Fail> {
    for &(last, text) in FAULTS {
        assert!(rt; is_refused(rt.alloc(), "nearest", last, text)?, "{last}");
    }
    Ok(())
}
