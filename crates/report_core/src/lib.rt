//! The output of a run: the report of a join, short texts, and the sinks that they are written to.
#![tactic(auto)]

mod columns;
mod csv_fields;
mod last_field;
mod letters;
mod no_field;
mod refining;
mod report;
mod short_text;
mod sink;
mod to_write;

pub use last_field::LastField;
pub use letters::{BoxLetters, MatrixLetters};
pub use no_field::NoField;
pub use refining::{RefiningForm, report_refining};
pub use report::{ReportForm, report_by};
pub use short_text::{ROOM, ShortText};
pub use sink::{Sink, WriteFailed, write_text, write_texts};
pub use to_write::ToWrite;
