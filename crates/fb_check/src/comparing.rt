// Compares printed lines with due ones.
ghost use Rattle.std.specs.Prelude.{◌≡◌, ◌%◌, ◌<◌, ◌+◌, ◌-◌, ◌^◌, ℕ, List, [], ◌++◌, length, None, Some, IfNone, IfSome, IfOk, OnOk};
ghost use Rattle.std.specs.List.{AllByRecursion};
ghost use Rattle.fb_rows.specs.Tasks.{HasTaskBelow};
ghost use Rattle.fb_rows.specs.declared.fore.ForeRow.{ForeRow};
ghost use Rattle.fb_rows.specs.declared.back.BackRow.{BackRow};
ghost use Rattle.fb_report.specs.declared.bytes.Bytes.{Bytes};
ghost use Rattle.fb_report.specs.Fore.{fore_last};
ghost use Rattle.fb_report.specs.Back.{back_last};
ghost use Rattle.fb_report.specs.Grammar.{LineFields, ended};
ghost use Rattle.fb_report.specs.Reading.{BeginsLikeEnd, EndsOnce};
ghost use Rattle.fb_check.specs.declared.verdict.Rule.TheVariants.{Foreground, End};
ghost use Rattle.fb_check.specs.Printed.{lines_of};
ghost use Rattle.fb_check.specs.Verdict as verdict;
ghost use Rattle.fb_check.specs.Comparing.{CanCompare, IsDue, IsNotDue, HasComparedOne, HasComparedFore, HasComparedBack};

use crate::{Mismatch, PrintedLines, Rule};
use fb_desk::Input;
use fb_report::{Bytes, back_first, back_last, back_line, fore_first, fore_last, fore_line};
use fb_rows::{BackRow, BackRows, ForeRows};
use fb_script::Names;
use fb_units::{NoMemory, Ns};
use std::alloc::Global;

/// The lines of a printed report, of which the first ones were compared with the due ones.
#[derive(Clone, Copy)]
pub struct Comparison<'a> {
    /// The report.
    pub input: Input,
    /// Its lines.
    pub lines: PrintedLines<'a>,
    /// How many due lines are the printed ones.
    pub same: usize,
    /// The first line that is wrong.
    pub wrong: Option<Mismatch>,
}

impl<'a> Comparison<'a> {
    /// Begins with the first line of a foreground report. The only error is out of memory.
    pub fn begin_fore(alloc: Global, lines: PrintedLines<'a>) -> Result<Comparison<'a>, NoMemory>
        requires ends { EndsOnce (lines_of lines) }
        ensures ready { IfOk result CanCompare }
        ensures compared { (size : ℕ) (bytes : Bytes) → IfOk result (λ comparison. HasComparedFore size bytes (lines_of lines.entry) comparison []) }
    {
        let due = fore_first(alloc)?;
        let mut comparison = Comparison {
            input: Input::ForeReport,
            lines,
            same: 0,
            wrong: None,
        };
        comparison.compare_line(due.as_slice(), Rule::Foreground);
        Ok(comparison)
    }

    /// Begins with the first line of a background report. The only error is out of memory.
    pub fn begin_back(alloc: Global, lines: PrintedLines<'a>) -> Result<Comparison<'a>, NoMemory>
        requires ends { EndsOnce (lines_of lines) }
        ensures ready { IfOk result CanCompare }
        ensures compared { (names : List (List ℕ)) (size : ℕ) (bytes : Bytes)
            → IfOk result (λ comparison. HasComparedBack names size bytes (lines_of lines.entry) comparison []) }
    {
        let due = back_first(alloc)?;
        let mut comparison = Comparison {
            input: Input::BackReport,
            lines,
            same: 0,
            wrong: None,
        };
        comparison.compare_line(due.as_slice(), Rule::Timeline);
        Ok(comparison)
    }

    /// Compares the last line of a foreground report, behind rows that are right.
    ///
    /// `passed_over` is the number of requests passed over. The only error is out of memory.
    pub fn end_fore(&mut self, alloc: Global, passed_over: u64) -> Result<(), NoMemory>
        requires ready { CanCompare self.old }
        requires some { 0 < self.old.same }
        ensures { OnOk result (HasComparedOne (λ field. Foreground) (fore_last (self.old.same - 1) passed_over) self.old self.new) }
    {
        let due = fore_last(alloc, self.same as u64 - 1, passed_over)?;
        self.compare_line(due.as_slice(), Rule::Foreground);
        Ok(())
    }

    /// Compares the last line of a background report, unless an earlier line was wrong.
    ///
    /// `end` is the instant, in ns, at which the run ends. The only error is out of memory.
    pub fn end_back(&mut self, alloc: Global, end: Ns) -> Result<(), NoMemory>
        requires ready { CanCompare self.old }
        ensures { OnOk result (HasComparedOne (λ field. End) (back_last end) self.old self.new) }
    {
        if self.wrong.is_some() {
            return Ok(());
        }
        let due = back_last(alloc, end)?;
        self.compare_line(due.as_slice(), Rule::End);
        Ok(())
    }

    // Compares the next line with the due one, unless an earlier line was wrong. `due` has its line
    // feed, and `rule` is the rule that it keeps.
    fn compare_line(&mut self, due: &[u8], rule: Rule)
        requires ready { CanCompare self.old }
        requires whole { (line : List ℕ) × (due.now ≡ ended line) }
        ensures one { HasComparedOne (λ field. rule) due.now self.old self.new }
        ensures ready { (BeginsLikeEnd due.now → ⊥) → CanCompare self.new }
    {
        if self.wrong.is_none() {
            if let Some(field) = self.pass_line(due) {
                self.keep(field, rule);
            }
        }
    }

    // Compares the next line with a row's.
    fn compare_row(&mut self, due: &[u8], row: &BackRow)
        requires ready { CanCompare self.old }
        requires whole { (line : List ℕ) × (due.now ≡ ended line) }
        ensures one { HasComparedOne (verdict.back_rule row.now) due.now self.old self.new }
        ensures ready { (BeginsLikeEnd due.now → ⊥) → CanCompare self.new }
    {
        if self.wrong.is_none() {
            if let Some(field) = self.pass_line(due) {
                self.keep(field, back_rule(row, field));
            }
        }
    }

    /// Compares the lines of foreground rows, up to the first that is wrong.
    ///
    /// `sector_bytes` is the size of a sector, a multiple of 16. The only error is out of memory.
    pub fn compare_fore(
        &mut self,
        alloc: Global,
        rows: &ForeRows,
        sector_bytes: u32,
        bytes: Bytes,
    ) -> Result<(), NoMemory>
        requires whole { sector_bytes % 16 ≡ 0 }
        requires ready { CanCompare self.old }
        ensures ready { OnOk result (CanCompare self.new) }
        ensures compared { OnOk result
            ((printed : List LineFields) (fore : List ForeRow) → HasComparedFore sector_bytes bytes printed self.old fore
            → HasComparedFore sector_bytes bytes printed self.new (fore ++ rows.now)) }
    {
        for i in 0..rows.len() {
            if self.wrong.is_some() {
                return Ok(());
            }
            let due = fore_line(alloc, rows.get(i), sector_bytes, bytes)?;
            self.compare_line(due.as_slice(), Rule::Foreground);
        }
        Ok(())
    }

    /// Compares the lines of background rows, up to the first that is wrong.
    ///
    /// `sector_bytes` is the size of a sector, a multiple of 16, and `names` are the tasks' names.
    /// The only error is out of memory.
    pub fn compare_back(
        &mut self,
        alloc: Global,
        rows: &BackRows,
        names: &Names,
        sector_bytes: u32,
        bytes: Bytes,
    ) -> Result<(), NoMemory>
        requires whole { sector_bytes % 16 ≡ 0 }
        requires named { AllByRecursion (HasTaskBelow (length names.now)) rows.now }
        requires ready { CanCompare self.old }
        ensures ready { OnOk result (CanCompare self.new) }
        ensures compared { OnOk result
            ((printed : List LineFields) (back : List BackRow) → HasComparedBack names.now sector_bytes bytes printed self.old back
            → HasComparedBack names.now sector_bytes bytes printed self.new (back ++ rows.now)) }
    {
        for i in 0..rows.len() {
            if self.wrong.is_some() {
                return Ok(());
            }
            let row = rows.get(i);
            let due = back_line(alloc, row, names, sector_bytes, bytes)?;
            self.compare_row(due.as_slice(), row);
        }
        Ok(())
    }

    // Passes the next line if it is the due one; else returns the first field, counted from 1, that
    // differs.
    fn pass_line(&mut self, due: &[u8]) -> Option<u32>
        requires ends { EndsOnce (lines_of self.old.lines) }
        requires next { self.old.same < length (lines_of self.old.lines) }
        requires whole { (line : List ℕ) × (due.now ≡ ended line) }
        ensures passed { IfNone result (self.new.same ≡ self.old.same + 1) }
        ensures due { IfNone result (IsDue due.now (lines_of self.old.lines) self.old.same) }
        ensures differs { IfSome result (λ field. IsNotDue due.now (lines_of self.old.lines) self.old.same field) }
        ensures stays { IfSome result (λ field. self.new.same ≡ self.old.same) }
        ensures lines { self.new.lines ≡ self.old.lines }
        ensures input { self.new.input ≡ self.old.input }
        ensures wrong { self.new.wrong ≡ self.old.wrong }
        ensures few { self.old.same < 2 ^ 63 }
    {
        let count = self.lines.len();
        prove!(self.same < count);
        let due = &due[..due.len() - 1];
        match self.lines.wrong_at(self.same, due) {
            Some(field) => Some(field),
            None => {
                self.same += 1;
                None
            }
        }
    }

    // Keeps the next line as the first that is wrong.
    fn keep(&mut self, field: u32, rule: Rule)
        requires few { self.old.same < 2 ^ 63 }
        ensures { self.new
            ≡ record self.old { wrong = Some (record { input = self.old.input; line = self.old.same + 1; field = field; rule = rule }) } }
    {
        self.wrong = Some(Mismatch {
            input: self.input,
            line: self.same as u64 + 1,
            field,
            rule,
        });
    }
}

// The rule that a row's line breaks whose first wrong field, counted from 1, is this one.
fn back_rule(row: &BackRow, field: u32) -> Rule
    ensures { result ≡ verdict.back_rule row.now field }
{
    match row {
        BackRow::Gap(_) if field <= 6 => Rule::Timeline,
        BackRow::Gap(_) => Rule::Plan,
        BackRow::Idle(_) => Rule::Timeline,
        BackRow::Got(_) => Rule::Delivery,
        BackRow::Bad(_) | BackRow::Seal(_) | BackRow::Segment(_) | BackRow::Complete(_) => {
            Rule::Event
        }
        BackRow::Task(_) => Rule::Tasks,
    }
}
