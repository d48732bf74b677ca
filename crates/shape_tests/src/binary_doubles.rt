//! Named texts of binary, and what their doubles are read as at scales of several decimals, exactly
//! or rounded. Their digits are Shapely's or those of Python's `struct`.

use geometry_text_core::read;
use std::alloc::AllocError;
use wkt_any_core::{GeometryFault, Rings, print};
use wkt_core::{Limits, Rounding, Scale};

/// A name, a text of binary, the decimals of a scale and whether numbers are rounded to it, and
/// well-known text of the same geometry, or the fault.
type Scaled = (
    &'static str,
    &'static str,
    u32,
    Rounding,
    Result<&'static str, GeometryFault>,
);

const SCALED: &[Scaled] = &[
    (
        "tenth",
        "01010000009a9999999999b93f9a9999999999c93f",
        1,
        Rounding::Exact,
        Ok("POINT (0.1 0.2)"),
    ),
    (
        "tenth at 6 decimals",
        "01010000009a9999999999b93f9a9999999999c93f",
        6,
        Rounding::Exact,
        Ok("POINT (0.1 0.2)"),
    ),
    (
        "third",
        "0101000000555555555555d53f0000000000000000",
        6,
        Rounding::Exact,
        Err(GeometryFault::Number),
    ),
    (
        "tenth at 15 decimals",
        "01010000009a9999999999b93f9a9999999999c93f",
        15,
        Rounding::Exact,
        Ok("POINT (0.1 0.2)"),
    ),
    (
        "third at 15 decimals",
        "0101000000555555555555d53f0000000000000000",
        15,
        Rounding::Exact,
        Err(GeometryFault::Number),
    ),
    (
        "third, rounded to 15 decimals",
        "0101000000555555555555d53f0000000000000000",
        15,
        Rounding::Nearest,
        Ok("POINT (0.333333333333333 0)"),
    ),
    (
        "halfway",
        "010100000001000000000040430000000000000000",
        0,
        Rounding::Exact,
        Ok("POINT (9007199254740994 0)"),
    ),
    (
        "the limit",
        "010100000000c84e676dc1ab430000000000000000",
        0,
        Rounding::Exact,
        Ok("POINT (1000000000000000000 0)"),
    ),
    (
        "the limit at 15 decimals",
        "01010000000000000000408f400000000000000000",
        15,
        Rounding::Exact,
        Ok("POINT (1000 0)"),
    ),
    (
        "beyond the limit at 15 decimals",
        "01010000000100000000408f400000000000000000",
        15,
        Rounding::Exact,
        Err(GeometryFault::Number),
    ),
    (
        "third, rounded",
        "0101000000555555555555d53f0000000000000000",
        6,
        Rounding::Nearest,
        Ok("POINT (0.333333 0)"),
    ),
    (
        "large",
        "0101000000d34d62502a2c56410000000000000000",
        3,
        Rounding::Exact,
        Ok("POINT (5812393.256 0)"),
    ),
    (
        "large at 2 decimals",
        "0101000000d34d62502a2c56410000000000000000",
        2,
        Rounding::Exact,
        Err(GeometryFault::Number),
    ),
    (
        "halves, away from zero",
        "010100000014ae47e17a14f03f00000000000004c0",
        2,
        Rounding::Nearest,
        Ok("POINT (1.01 -2.5)"),
    ),
    (
        "subnormal",
        "010100000001000000000000000000000000000000",
        6,
        Rounding::Exact,
        Err(GeometryFault::Number),
    ),
    (
        "subnormal, rounded",
        "010100000001000000000000000000000000000000",
        6,
        Rounding::Nearest,
        Ok("POINT (0 0)"),
    ),
];

#[test]
fn doubles_are_their_shortest_decimals(rt: HostRuntime) -> Result<(), AllocError> {
    for &(name, digits, decimals, rounding, wanted) in SCALED {
        let scale = Scale::within(Limits::Any, decimals)
            .unwrap()
            .with_rounding(rounding);
        match (
            read(rt.alloc(), digits.as_bytes(), scale, Rings::Proper)?,
            wanted,
        ) {
            (Ok(geometry), Ok(text)) => {
                let printed = print(rt.alloc(), &geometry, scale)?;
                assert!(rt; printed.as_str() == text, "{name}");
            }
            (Err(fault), Err(other)) => assert!(rt; fault == other, "{name}"),
            _ => assert!(rt; false, "{name}"),
        }
    }
    Ok(())
}
