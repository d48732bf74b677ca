//! The text of any geometry in either of its forms: well-known text, to which an SRID may be
//! prefixed (EWKT), or hexadecimal digits of well-known binary (OGC 06-103r4, 8; EWKB).
#![tactic(auto)]

mod body;
mod head;
mod hexadecimal;
mod order;
mod parts;
mod point;
mod reader;
mod srid;

pub use reader::read;
