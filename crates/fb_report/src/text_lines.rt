// The lines of a printed report where its text is at hand.
ghost use Rattle.std.specs.Prelude.{◌≡◌, ◌<◌, ◌^◌, [], ◌∷◌, ◌++◌, Some, length, IfOk, OnOk, slice_get};
ghost use Rattle.fb_report.specs.Grammar.{report_fields};

use crate::ReportLines;
use crate::splitting::fields_of;
use fb_units::NoMemory;
use std::alloc::Global;
use std::marker::Model;

/// The lines of a printed report as parts of its text: 16 bytes a line.
///
/// They are seen as [`ReportLines`] are, each line as its fields.
#[derive(Drop)]
pub struct TextLines<'a> {
    lines: Vec<&'a [u8]>,
}

impl<'a> Model for TextLines<'a> {
    ghost use Rattle.std.specs.Prelude.{List, map};
    ghost use Rattle.fb_report.specs.Grammar.{LineFields, report_fields};

    ghost Value = { List LineFields };

    ghost view = { λ t. map (λ line. report_fields line.now) t.lines.items };
}

impl<'a> TextLines<'a> {
    // No lines.
    pub(crate) fn new(alloc: Global) -> TextLines<'a>
        ensures { result ≡ [] }
    {
        TextLines {
            lines: Vec::new(alloc),
        }
    }

    // Adds a line at the end. The only error is `NoMemory`.
    pub(crate) fn push(&mut self, line: &'a [u8]) -> Result<(), NoMemory>
        ensures { OnOk result (self.new ≡ self.old ++ report_fields line.now ∷ []) }
    {
        self.lines.push(line)?;
        Ok(())
    }

    // The lines as lists of fields. The only error is out of memory.
    #[tactic(auto, using(std::proofs::lemmas::List::take_all))]
    pub(crate) fn copied(&self, alloc: Global) -> Result<ReportLines, NoMemory>
        ensures { IfOk result (λ lines. lines ≡ self.now) }
    {
        let count = self.len();
        let mut lines = ReportLines::with_capacity(alloc, count)?;
        for i in 0..count {
            let fields = fields_of(alloc, self.get(i))?;
            lines.push(fields)?;
        }
        Ok(lines)
    }

    /// The number of lines.
    pub fn len(&self) -> usize
        ensures value { result ≡ length self.now }
        ensures few { result < 2 ^ 63 }
    {
        self.lines.len()
    }

    /// The line at this index, counted from 0, without its line feed.
    pub fn get(&self, i: usize) -> &'a [u8]
        requires { i < length self.now }
        ensures { slice_get self.now i ≡ Some (report_fields result.now) }
    {
        self.lines[i]
    }
}
