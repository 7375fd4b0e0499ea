//! Makes texts line by line: both reports of a run, the text of an array, that of a copy, and that of
//! what was written in gaps. Writes texts to outputs, each under the name that it is given.
#![tactic(auto)]

mod array_text;
mod error;
mod lines;
mod spill_text;
mod words;
mod writing;

pub use array_text::{ArrayLines, CopyLines, Runs};
pub use error::TextsError;
pub use lines::{BackLines, ForeLines, Lines};
pub use spill_text::SpillLines;
pub use words::{push_number, push_words};
pub use writing::{begin_text, write_given, write_lines, write_made, write_more};
