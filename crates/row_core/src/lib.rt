//! The rows of CSV files of layers and of edits, one after another, and the sources that the files
//! are read from.
#![tactic(auto)]

mod beginning;
mod ends;
mod fields;
mod first_line;
mod header;
mod layer_row;
mod read_fault;
mod row_reader;
mod rows;
mod source;
mod unread;

pub use beginning::Beginning;
pub use ends::{ends_with_feed, is_plain};
pub use fields::{four_fields, id_in, side_in};
pub use first_line::FirstLine;
pub use header::Places;
pub use layer_row::{LayerRowReader, ReadRow, read_row};
pub use read_fault::ReadFault;
pub use row_reader::RowReader;
pub use rows::Rows;
pub use source::{Failed, FromRead, Source, max_file_bytes, read_all};
pub use unread::Unread;
