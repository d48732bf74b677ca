//! How the files of layers read: their layouts, and the formats of boxes and of geometries of any
//! kind.
#![tactic(auto)]

mod any_format;
mod format;
mod laid_out;
mod layout;
mod text_fault;

pub use any_format::AnyFormat;
pub use format::Format;
pub use laid_out::LaidOut;
pub use layout::{Columns, Delimiter, Layout};
pub use number_core::Limits;
pub use text_fault::TextFault;
