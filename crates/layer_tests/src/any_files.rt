//! Files of layers and of edits whose geometries are of any kind.

use crate::layers::seen;
use crate::read_layers::{answer_in, whole};
use any_geometry_core::AnyGeometry;
use file_core::edits_of_bytes;
use format_core::AnyFormat;
use geom_core::Shape;
use layer_core::{Geometry, Layer, LayerFault, Side};
use plane_core::Rings;
use row_core::ReadFault;
use std::alloc::{AllocGlobal, Global};
use std::random::RandomSource;
use std::test::Fail;
use std::thread::Threads;
use wkt_any_core::GeometryFault;

/// A slanted line, a triangle that is one of two parts, and two points.
const THREE: &[u8] = b"id,wkt\na,\"LINESTRING (0 0, 3 2)\"\n\
    b,\"MULTIPOLYGON (((0 0, 4 0, 0 4, 0 0)), ((9 9, 8 9, 9 8, 9 9)))\"\n\
    c,\"MULTIPOINT (1 1, (5 7))\"\n";

/// A ring that crosses itself.
const CROSSING: &[u8] = b"id,wkt\na,\"POLYGON ((0 0, 4 4, 4 0, 0 4, 0 0))\"\n";

const BROKEN_LAYERS: [(&[u8], ReadFault); 7] = [
    (b"id,wkt\na\n", ReadFault::Row(1)),
    (
        b"id,wkt\na,POINT (1 2",
        ReadFault::Geometry(1, GeometryFault::Text),
    ),
    (
        b"id,wkt\na,\"LINESTRING (0 0, 3 2)\"\nb,POINT (0.5 0)\n",
        ReadFault::Geometry(2, GeometryFault::Number),
    ),
    (
        b"id,wkt\na,\"LINESTRING (1 1, 1 1)\"\nb,POINT (0.5 0)\n",
        ReadFault::Geometry(1, GeometryFault::Form),
    ),
    (CROSSING, ReadFault::Geometry(1, GeometryFault::Rings)),
    (
        b"id,wkt\n,\"LINESTRING (1 1, 1 1)\"\n",
        ReadFault::Layer(1, LayerFault::BadId),
    ),
    (
        b"id,wkt\na,\"LINESTRING (0 0, 3 2)\"\na,\"LINESTRING (0 0, 3 2)\"\n",
        ReadFault::Layer(2, LayerFault::DoubleId),
    ),
];

const BROKEN_EDITS: [(&[u8], ReadFault); 4] = [
    (
        b"op,layer,id,wkt\ndelete,left,a,\ninsert,left,b,POINT (1 2\n",
        ReadFault::Geometry(2, GeometryFault::Text),
    ),
    (
        b"op,layer,id,wkt\ninsert,right,b,\"LINESTRING (0 0, 0.5 0)\"\n",
        ReadFault::Geometry(1, GeometryFault::Number),
    ),
    (
        b"op,layer,id,wkt\ninsert,right,b,\"POLYGON ((0 0, 4 0, 8 0, 0 0))\"\n",
        ReadFault::Geometry(1, GeometryFault::Form),
    ),
    (
        b"op,layer,id,wkt\ninsert,left,b,\"POLYGON ((0 0, 4 4, 4 0, 0 4, 0 0))\"\n",
        ReadFault::Geometry(1, GeometryFault::Rings),
    ),
];

/// Geometries of any kind without decimals, with rings by this rule.
fn any(rings: Rings) -> Result<AnyFormat, Fail> {
    let scale = whole()?;
    Ok(AnyFormat { scale, rings })
}

/// The index of the first of the broken layers whose fault isn't the expected one.
fn first_other_layer<R: Threads + Sync + RandomSource + AllocGlobal>(
    rt: &R,
) -> Result<Option<usize>, Fail> {
    for (place, (bytes, fault)) in BROKEN_LAYERS.iter().enumerate() {
        if answer_in(rt, bytes, any(Rings::Proper)?, 2)?.err() != Some(*fault) {
            return Ok(Some(place));
        }
    }
    Ok(None)
}

/// The index of the first of the broken lists of edits whose fault isn't the expected one.
fn first_other_edits(alloc: Global) -> Result<Option<usize>, Fail> {
    for (place, (bytes, fault)) in BROKEN_EDITS.iter().enumerate() {
        if edits_of_bytes(alloc, bytes, any(Rings::Proper)?).err() != Some(*fault) {
            return Ok(Some(place));
        }
    }
    Ok(None)
}

#[test]
fn broken_any_files(rt: HostRuntime) -> Result<(), Fail> {
    assert_eq!(rt; first_other_layer(&rt)?, None);
    assert_eq!(rt; first_other_edits(rt.alloc())?, None);
    Ok(())
}

/// The envelope, the dimension and the rule of rings of the geometry with this id.
fn seen_of(layer: &Layer<AnyGeometry>, id: &str) -> Option<(Shape, u8, Rings)> {
    let geometry = layer.iter().find(|feature| feature.id == id)?.shape;
    Some((geometry.bounds(), geometry.dim(), geometry.rings()))
}

/// Whether the layer has exactly the three geometries.
fn has_three(layer: &Layer<AnyGeometry>) -> bool {
    let a = Shape::new(0, 0, 3, 2).map(|bounds| (bounds, 1, Rings::Proper));
    let b = Shape::new(0, 0, 9, 9).map(|bounds| (bounds, 2, Rings::Proper));
    let c = Shape::new(1, 1, 5, 7).map(|bounds| (bounds, 0, Rings::Proper));
    layer.len() == 3
        && a.is_some()
        && seen_of(layer, "a") == a
        && seen_of(layer, "b") == b
        && seen_of(layer, "c") == c
}

#[test]
fn any_layers(rt: HostRuntime) -> Result<(), Fail> {
    for threads in [1, 4] {
        let layer = answer_in(&rt, THREE, any(Rings::Proper)?, threads)??;
        assert!(rt; seen(layer, |layer| has_three(layer)));
    }
    Ok(())
}

/// Whether the layer has the ring that crosses itself, by the even-odd rule.
fn has_crossing(layer: &Layer<AnyGeometry>) -> bool {
    let a = Shape::new(0, 0, 4, 4).map(|bounds| (bounds, 2, Rings::EvenOdd));
    layer.len() == 1 && a.is_some() && seen_of(layer, "a") == a
}

#[test]
fn even_odd_layers(rt: HostRuntime) -> Result<(), Fail> {
    let layer = answer_in(&rt, CROSSING, any(Rings::EvenOdd)?, 1)??;
    assert!(rt; seen(layer, |layer| has_crossing(layer)));
    Ok(())
}

#[test]
fn any_edits(rt: HostRuntime) -> Result<(), Fail> {
    let bytes = b"op,layer,id,wkt\ninsert,left,a,\"LINESTRING (0 0, 3 2)\"\ndelete,right,b,\n";
    let edits = edits_of_bytes(rt.alloc(), bytes.as_slice(), any(Rings::Proper)?)?;
    let sides = [Side::Left, Side::Right];
    assert!(rt; edits.iter().map(|edit| edit.side()).eq(sides));
    Ok(())
}

/// Whether the three geometries are loaded, or the fault.
fn loads_three<R: Threads + Sync + RandomSource + AllocGlobal>(
    rt: &R,
) -> Result<Result<bool, ReadFault>, Fail> {
    let answer = answer_in(rt, THREE, any(Rings::Proper)?, 1)?;
    Ok(answer.map(|layer| seen(layer, |layer| has_three(layer))))
}

#[test]
fn refused_any_loading(rt: HostRuntime) -> Result<(), Fail> {
    let first = loads_three(&rt)?;
    assert!(rt; matches!(first, Ok(true) | Err(ReadFault::Memory)));
    assert!(rt; first == Ok(true) || loads_three(&rt)? == Ok(true));
    Ok(())
}
