// Reads printed reports.
ghost use Rattle.std.specs.Prelude.{◌≡◌, ◌+◌, ◌<◌, ◌^◌, ◌==◌, IfOk};
ghost use Rattle.std.specs.List.{flat_map, slice_split};
ghost use Rattle.fb_desk.specs.declared.desk.Input.TheVariants.{ForeReport, BackReport};
ghost use Rattle.fb_units.specs.declared.read_error.ReadError.TheVariants.{Fault};
ghost use Rattle.fb_report.specs.Forms.{grammar_of};
ghost use Rattle.fb_report.specs.Grammar.{back_grammar, ended_with, fore_grammar, report_fields, report_of, spelled};
ghost use Rattle.fb_report.specs.Reading.{AnswersReport, ReportsEndOnce};

use crate::forms::split_once;
use crate::grammar::table_of;
use crate::{FieldText, TextLines};
use fb_desk::Input;
use fb_units::{Items, ReadError};
use std::alloc::Global;

/// The first line of a printed report that isn't in its place.
#[derive(Clone, Copy)]
pub struct ReportsFault {
    /// The report.
    pub input: Input,
    /// The line, counted from 1. For a report that ends too early it is the number of its lines
    /// plus 1, where a rest without a line feed is no line.
    pub line: u64,
}

/// Why no report was read: the first line out of its place, or out of memory.
pub type ReportsError = ReadError<ReportsFault>;

/// A line of a printed report: its fields, which are what stands between its spaces.
pub type ReportLine = Items<FieldText>;

/// The lines of a printed report.
pub type ReportLines = Items<ReportLine>;

/// The lines of a foreground report. An error names the first line that isn't in its place; or it
/// is `NoMemory`.
pub fn read_fore(alloc: Global, bytes: &[u8]) -> Result<ReportLines, ReportsError>
    ensures answer { AnswersReport ForeReport result (report_of fore_grammar bytes.now) }
    ensures whole { IfOk result (λ lines. flat_map spelled lines ≡ bytes.now) }
{
    let lines = split_fore(alloc, bytes)?;
    Ok(lines.copied(alloc)?)
}

/// The lines of a background report. An error names the first line that isn't in its place; or it
/// is `NoMemory`.
pub fn read_back(alloc: Global, bytes: &[u8]) -> Result<ReportLines, ReportsError>
    ensures answer { AnswersReport BackReport result (report_of back_grammar bytes.now) }
    ensures whole { IfOk result (λ lines. flat_map spelled lines ≡ bytes.now) }
{
    let lines = split_back(alloc, bytes)?;
    Ok(lines.copied(alloc)?)
}

/// As `read_fore`, but the lines stay parts of the text.
#[tactic(auto, using(crate::proofs::Whole::whole_text))]
pub fn split_fore(alloc: Global, bytes: &[u8]) -> Result<TextLines<'_>, ReportsError>
    ensures answer { AnswersReport ForeReport result (report_of fore_grammar bytes.now) }
    ensures whole { IfOk result (λ lines. flat_map spelled lines ≡ bytes.now) }
{
    split(alloc, Input::ForeReport, bytes)
}

/// As `read_back`, but the lines stay parts of the text.
#[tactic(auto, using(crate::proofs::Whole::whole_text))]
pub fn split_back(alloc: Global, bytes: &[u8]) -> Result<TextLines<'_>, ReportsError>
    ensures answer { AnswersReport BackReport result (report_of back_grammar bytes.now) }
    ensures whole { IfOk result (λ lines. flat_map spelled lines ≡ bytes.now) }
{
    split(alloc, Input::BackReport, bytes)
}

/// The last line of a report begins with an e, and no other does; and each line has at most 16
/// fields.
#[tactic(auto, using(crate::proofs::EndsOnce::reports_end_once))]
pub fn reports_end_once()
    ensures { ReportsEndOnce }
{}

// The lines of this report.
fn split(alloc: Global, report: Input, text: &[u8]) -> Result<TextLines<'_>, ReportsError>
    ensures { AnswersReport report result (report_of (grammar_of report) text.now) }
{
    let table = table_of(report);
    let mut lines = TextLines::new(alloc);
    let mut rest = text;
    while let Some((line, behind)) = split_once(rest, b'\n') {
        if table.may_follow(&lines, line) {
            lines.push(line)?;
            rest = behind;
        } else if table.may_end(&lines, line) {
            return end(report, lines, line, behind);
        } else {
            return Err(fault(report, lines.len()));
        }
    }
    Err(fault(report, lines.len()))
}

// The lines of a report that ends with this line, if nothing stands behind it. Else the fault is
// this line, with another one behind it, or the rest that has no line feed.
fn end<'a>(
    report: Input,
    lines: TextLines<'a>,
    line: &'a [u8],
    behind: &[u8],
) -> Result<TextLines<'a>, ReportsError>
    ensures { AnswersReport report result
        (ended_with lines.entry (report_fields line.now) (slice_split (λ byte. byte == 10) behind.now)) }
{
    if behind.is_empty() {
        let mut whole = lines;
        whole.push(line)?;
        return Ok(whole);
    }
    match split_once(behind, b'\n') {
        Some(_) => Err(fault(report, lines.len())),
        None => Err(fault(report, lines.len() + 1)),
    }
}

// The line behind this many isn't in its place.
fn fault(report: Input, lines: usize) -> ReportsError
    requires { lines < 2 ^ 63 }
    ensures { result ≡ Fault (record { input = report; line = lines + 1 }) }
{
    ReportsError::Fault(ReportsFault {
        input: report,
        line: lines as u64 + 1,
    })
}
