//! Files that are truncated, or whose bytes aren't text.

use crate::layers::point;
use crate::read_layers::{fault_of, reads_as};
use geom_core::Shape;
use layer_core::{Layer, LayerFault};
use row_core::{Beginning, ReadFault};
use std::alloc::AllocGlobal;
use std::random::RandomSource;
use std::test::Fail;
use std::thread::Threads;
use wkt_core::WktFault;

/// The left layer of the example of a join by touches.
const LEFT: &str = "id,wkt\na,\"POLYGON ((0 0, 4 0, 4 4, 0 4, 0 0))\"\n\
     b,POINT (4 4)\nc,\"LINESTRING (1 0, 3 0)\"\n";

/// The text of the left layer up to this part, which occurs in it once.
fn cut_after(part: &str) -> Option<&'static [u8]> {
    let at = LEFT.find(part)?;
    LEFT.as_bytes().get(..at.checked_add(part.len())?)
}

/// Whether reading a layer from these bytes fails with this fault.
fn has_fault<R: Threads + Sync + RandomSource + AllocGlobal>(
    rt: &R,
    bytes: &[u8],
    fault: ReadFault,
) -> Result<bool, Fail> {
    Ok(fault_of(rt, bytes)? == Some(fault))
}

/// Whether reading the left layer up to this part fails with this fault.
fn has_fault_after<R: Threads + Sync + RandomSource + AllocGlobal>(
    rt: &R,
    part: &str,
    fault: ReadFault,
) -> Result<bool, Fail> {
    has_fault(rt, cut_after(part).ok_or("a front")?, fault)
}

#[test]
fn broken_1(rt: HostRuntime) -> Result<(), Fail> {
    let fault = fault_of(&rt, cut_after("id,wk").ok_or("a front")?)?;
    assert!(rt; matches!(fault, Some(ReadFault::Header(Beginning::Line(_)))));
    Ok(())
}

#[test]
fn broken_2(rt: HostRuntime) -> Result<(), Fail> {
    assert!(rt; reads_as(&rt, b"id,wkt", &[])?);
    assert!(rt; reads_as(&rt, b"id,wkt\n", &[])?);
    Ok(())
}

#[test]
fn broken_3(rt: HostRuntime) -> Result<(), Fail> {
    let file = b"id,wkt\na,LINESTRING (0 0, 4 0)\n";
    assert!(rt; has_fault(&rt, file, ReadFault::Row(1))?);
    Ok(())
}

#[test]
fn broken_4(rt: HostRuntime) -> Result<(), Fail> {
    let fault = ReadFault::Wkt(2, WktFault::Text, false);
    assert!(rt; has_fault_after(&rt, "\nb", ReadFault::Row(2))?);
    assert!(rt; has_fault_after(&rt, "b,POINT (4 4", fault)?);
    Ok(())
}

#[test]
fn broken_5(rt: HostRuntime) -> Result<(), Fail> {
    let square = Shape::new(0, 0, 4, 4).ok_or("a square")?;
    let features = [("a", square), ("b", point(4, 4)?)];
    let bytes = cut_after("b,POINT (4 4)").ok_or("a front")?;
    assert!(rt; reads_as(&rt, bytes, &features)?);
    Ok(())
}

#[test]
fn broken_6(rt: HostRuntime) -> Result<(), Fail> {
    let file = b"\xef\xbb\xbfID,Wkt\r\na,POINT (0 0)\r\n";
    assert!(rt; reads_as(&rt, file, &[("a", point(0, 0)?)])?);
    Ok(())
}

#[test]
fn broken_7(rt: HostRuntime) -> Result<(), Fail> {
    let fault = ReadFault::Layer(1, LayerFault::BadId);
    assert!(rt; has_fault(&rt, b"id,wkt\n\xff,POINT (0 0)\n", fault)?);
    Ok(())
}

#[test]
fn broken_8(rt: HostRuntime) -> Result<(), Fail> {
    let fault = ReadFault::Wkt(1, WktFault::Text, false);
    assert!(rt; has_fault(&rt, b"id,wkt\na,\xffPOINT (0 0)\n", fault)?);
    Ok(())
}
