//! Words of joins by distance, and the order of their faults.

use crate::read_words::{asks, is_refused, scale_of};
use distance_core::{Distance, Nearness};
use format_core::Layout;
use number_core::{Rounding, Scale};
use pair_core::Options;
use plane_core::Rings;
use std::test::Fail;
use words_core::{Command, Geometries, LayerPaths, NearRequest, Workers};

/// Words after the files at scale 0, and the units of the distance that they ask for.
const DISTANCES: &[(&str, u64)] = &[
    ("--distance|0", 0),
    ("--distance|5", 5),
    ("--distance|+007.00", 7),
    ("--distance=-0", 0),
    ("--distance|3.", 3),
    ("--distance|4000000000000", 4_000_000_000_000),
];

#[test]
fn distances(rt: HostRuntime) -> Result<(), Fail> {
    let scale = Scale::new(0).ok_or("a scale")?;
    for &(last, units) in DISTANCES {
        let wanted = Command::Near(near(scale, units)?);
        assert!(rt; asks(rt.alloc(), "near", last, wanted)?, "{last}");
    }
    Ok(())
}

/// Decimals, words after the files that round to them, and the units of the distance.
const ROUNDED: &[(u32, &str, u64)] = &[
    (0, "--round|--distance|2.5", 3),
    (0, "--round|--distance|1.5e2", 150),
    (3, "--distance|.0624|--round|--scale|3", 62),
    (3, "--distance|.0625|--round|--scale|3", 63),
    (0, "--distance|4000000000000.4|--round", 4_000_000_000_000),
    (0, "--round|--distance=-0.4", 0),
];

#[test]
fn rounded_distances(rt: HostRuntime) -> Result<(), Fail> {
    for &(decimals, last, units) in ROUNDED {
        let scale = Scale::new(decimals).ok_or("a scale")?;
        let scale = scale.with_rounding(Rounding::Nearest);
        let wanted = Command::Near(near(scale, units)?);
        assert!(rt; asks(rt.alloc(), "near", last, wanted)?, "{last}");
    }
    Ok(())
}

/// A join of `l.csv` and `q.csv` by this distance with the options that have no words.
fn near(scale: Scale, units: u64) -> Result<NearRequest<'static>, Fail> {
    Ok(NearRequest {
        paths: LayerPaths {
            left: "l.csv",
            right: "q.csv",
            edits: None,
            skip: None,
            left_layout: Layout::plain(),
            right_layout: Layout::plain(),
        },
        distance: Distance::new(units).ok_or("a distance")?,
        nearness: Nearness::Within,
        options: Options::new(4, 256, 2)?,
        workers: Workers::Exact,
        scale,
        geometries: Geometries::Box,
    })
}

/// Words after the files, and the kind of geometries that they ask for.
const KINDS: &[(&str, Geometries)] = &[
    ("--geometry|box|--distance|5", Geometries::Box),
    (
        "--distance|5|--geometry|any",
        Geometries::Any(Rings::Proper),
    ),
    (
        "--rings|proper|--geometry|any|--distance|5",
        Geometries::Any(Rings::Proper),
    ),
    (
        "--geometry|any|--rings|even-odd|--distance|5",
        Geometries::Any(Rings::EvenOdd),
    ),
];

#[test]
fn kinds(rt: HostRuntime) -> Result<(), Fail> {
    for &(last, geometries) in KINDS {
        let wanted = Command::Near(NearRequest {
            geometries,
            ..near(scale_of(geometries, 0)?, 5)?
        });
        assert!(rt; asks(rt.alloc(), "near", last, wanted)?, "{last}");
    }
    Ok(())
}

#[test]
fn every_word(rt: HostRuntime) -> Result<(), Fail> {
    let words = "--apart|--cut|8|--edits|e.csv|--workers|1|--distance|2.5|--batch|1|--scale|2";
    let scale = Scale::new(2).ok_or("a scale")?;
    let wanted = Command::Near(NearRequest {
        paths: LayerPaths {
            left: "l.csv",
            right: "q.csv",
            edits: Some("e.csv"),
            skip: None,
            left_layout: Layout::plain(),
            right_layout: Layout::plain(),
        },
        nearness: Nearness::Apart,
        options: Options::new(1, 1, 8)?,
        ..near(scale, 250)?
    });
    assert!(rt; asks(rt.alloc(), "near", words, wanted)?);
    Ok(())
}

const DISTANCE: &str = "--distance must be a number of the scale, 0 to 4000000000000 units";

/// The fault of a distance of any geometry.
pub(crate) const FAR_DISTANCE: &str =
    "--distance must be a number of the scale, 0 to 4000000000000000000 units";

/// Words after the files, and the text of their fault.
const FAULTS: &[(&str, &str)] = &[
    ("--distance|near", DISTANCE),
    ("--distance=-1", DISTANCE),
    ("--distance=-0.5|--round", DISTANCE),
    ("--distance|1.5", DISTANCE),
    ("--distance|1.005|--scale|2", DISTANCE),
    ("--distance| 5", DISTANCE),
    ("--distance|5 ", DISTANCE),
    ("--distance|1e3", DISTANCE),
    ("--distance|.5|--scale|1", DISTANCE),
    ("--distance|0x10", DISTANCE),
    ("--distance|4000000000001", DISTANCE),
    ("--distance|4000000000000.5|--round", DISTANCE),
    ("--distance|40000000000.01|--scale|2", DISTANCE),
    ("--distance|99999999999999999999999999", DISTANCE),
    (
        "--distance|4000000000000000001|--geometry|any",
        FAR_DISTANCE,
    ),
    ("--distance|near|--geometry|any|--scale|15", FAR_DISTANCE),
    (
        "--distance|near|--geometry|any|--scale|16",
        "--scale must be 0 to 15",
    ),
    ("--distance|near|--scale|7", "--scale must be 0 to 6"),
    ("--distance|near|--cut|9|--scale|7", "--cut must be 0 to 8"),
    (
        "--distance|near|--workers|17|--cut|9",
        "--workers must be 1 to 16",
    ),
    ("--distance|near|--geometry|round", DISTANCE),
    (
        "--distance|5|--geometry|round",
        "--geometry must be box or any",
    ),
    (
        "--distance|5|--rings|proper",
        "--rings needs --geometry any",
    ),
    (
        "--distance|5|--geometry|any|--rings|odd",
        "--rings must be proper or even-odd",
    ),
];

#[test]
fn faults(rt: HostRuntime) -> Result<(), Fail> {
    for &(last, text) in FAULTS {
        assert!(rt; is_refused(rt.alloc(), "near", last, text)?, "{last}");
    }
    Ok(())
}
