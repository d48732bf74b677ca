//! Texts of boxes, as they read for a join by distance.

use format_core::Format;
use geom_core::Shape;
use near_core::{Distance, GrownFormat};
use std::test::Fail;
use wkt_core::Scale;

#[test]
fn a_box_with_its_distance(rt: HostRuntime) -> Result<(), Fail> {
    let format = GrownFormat {
        format: Scale::new(1).ok_or("a scale")?,
        distance: Distance::new(7).ok_or("a distance")?,
    };
    let read = format.read(rt.alloc(), b"LINESTRING (0.5 1, 2 1)")?;
    let grown = read.ok().ok_or("a box")?;
    assert_eq!(rt; Some(grown.geometry), Shape::new(5, 10, 20, 10));
    assert!(rt; grown.distance == format.distance);
    assert!(rt; format.read(rt.alloc(), b"LINESTRING (0 0, 1 1)")?.is_err());
    Ok(())
}
