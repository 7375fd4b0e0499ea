//! The texts of a run, line by line.
//!
//! A report is a list of lines. The foreground text is a function of the foreground rows, the
//! number of requests passed over, the sector size and the mode of bytes; the background text of
//! the background rows, the tasks' names, the run's end, the sector size and the mode; the summary
//! of the run alone.
//! Digests are computed while the bytes are made, so that no bytes are held.
//!
//! A printed report is read back as its lines, each a list of its fields. A text is accepted
//! exactly if its lines obey the grammar of that report, and its lines, with a space between
//! fields and a line feed behind each line, are then the text; a refused text names its first line
//! that isn't in its place. The last line is the only one that begins
//! with an e, and no line has more than 16 fields. Only the spelling is tested: nothing is said of
//! what the numbers mean, or of the order of the rows.
#![tactic(auto)]

mod back;
mod back_rows;
mod bytes;
mod contents;
mod field_text;
mod fore;
mod forms;
mod grammar;
mod line;
mod printed;
mod reading;
mod sectors;
mod sink;
mod splitting;
mod summary;
mod text_lines;

pub use back::{back_first, back_last, back_piece, back_pieces, back_text};
pub use back_rows::back_line;
pub use bytes::Bytes;
pub use contents::shown;
pub use field_text::FieldText;
pub use fore::{fore_first, fore_last, fore_line, fore_piece, fore_pieces, fore_text};
pub use line::{Line, first_line};
pub use printed::printed_reports_are_read;
pub use reading::{
    ReportLine, ReportLines, ReportsError, ReportsFault, read_back, read_fore, reports_end_once,
    split_back, split_fore,
};
pub use summary::summary_text;
pub use text_lines::TextLines;
