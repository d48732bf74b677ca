//! Layer files.

use crate::random::Random;
use std::alloc::{AllocError, Global};
use std::fmt::Write;
use wkt_core::{Scale, print};

/// A layer file of the `count` points (0, 0), (1, 0) and so on.
pub fn points_text(alloc: Global, count: u32) -> Result<String, AllocError> {
    let mut text = String::from_str(alloc, "id,wkt\n")?;
    for x in 0..count {
        writeln!(text, "p{x},POINT ({x} 0)")?;
    }
    Ok(text)
}

/// A layer file of `count` pseudo-random shapes, or `None` if an allocation fails.
pub fn shapes_text(alloc: Global, random: &mut Random, count: u32) -> Option<String> {
    let mut text = String::from_str(alloc, "id,wkt\n").ok()?;
    for id in 0..count {
        let row = print(alloc, &random.shape()?, Scale::new(0)?).ok()?;
        writeln!(text, "f{id},\"{row}\"").ok()?;
    }
    Some(text)
}
