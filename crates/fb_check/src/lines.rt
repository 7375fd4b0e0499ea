// The lines of a printed report, in either form in which they are read.
ghost use Rattle.std.specs.Prelude.{◌≡◌, ◌<◌, ◌≤◌, ◌^◌, Some, length, slice_get};
ghost use Rattle.std.specs.List.{AllByRecursion};
ghost use Rattle.fb_report.specs.Grammar.{LineFields};
ghost use Rattle.fb_check.specs.Comparing.{FindsWrong};
ghost use Rattle.fb_check.specs.Printed.{lines_of};

use crate::fields::{wrong_field, wrong_part};
use fb_report::{ReportLines, TextLines};

/// The lines of a printed report.
#[derive(Clone, Copy)]
pub enum PrintedLines<'a> {
    /// Each as its fields.
    Fields(&'a ReportLines),
    /// Each as a part of the report's text, which takes less memory and less time.
    Text(&'a TextLines<'a>),
}

impl<'a> PrintedLines<'a> {
    // The number of lines.
    pub(crate) fn len(self) -> usize
        ensures value { result ≡ length (lines_of self.entry) }
        ensures few { result < 2 ^ 63 }
    {
        match self {
            PrintedLines::Fields(lines) => lines.len(),
            PrintedLines::Text(lines) => lines.len(),
        }
    }

    // The first field, counted from 1, in which a due line and the line at this index, counted from
    // 0, differ, if they do. `due` has no line feed.
    pub(crate) fn wrong_at(self, index: usize, due: &[u8]) -> Option<u32>
        requires inside { index < length (lines_of self) }
        requires few { AllByRecursion (λ line. length line ≤ 16) (lines_of self) }
        ensures { (line : LineFields) × (slice_get (lines_of self.entry) index ≡ Some line) × FindsWrong result due.now line }
    {
        match self {
            PrintedLines::Fields(lines) => {
                let line = lines.get(index);
                wrong_field(due, line)
            }
            PrintedLines::Text(lines) => {
                let part = lines.get(index);
                wrong_part(due, part)
            }
        }
    }
}
