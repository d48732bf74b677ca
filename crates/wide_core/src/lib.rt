//! Exact arithmetic beyond 128 bits: comparing products of 128-bit numbers, and of a number of 256
//! bits and one of 128 bits.
#![tactic(auto)]

mod multiple;
mod product;
mod quotient;
mod wide;
mod wider;

pub use multiple::compare_multiples;
pub use product::compare_products;
pub use quotient::{Quotient, divide_product};
pub use wide::Wide;
