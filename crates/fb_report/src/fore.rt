// The foreground report.
ghost use Rattle.std.specs.Prelude.{◌≡◌, ℕ, ◌+◌, ◌%◌, ◌<◌, [], ◌∷◌, ◌++◌, length, codes, Some, IfOk, OnOk, slice_get};
ghost use Rattle.std.specs.List.{AllByRecursion};
ghost use Rattle.fb_report.specs.declared.bytes.Bytes.{Bytes};
ghost use Rattle.fb_report.specs.Lines.{with_fields};
ghost use Rattle.fb_report.specs.Fore.{bad_count, kind_text, row_bytes, row_fields};
ghost use Rattle.fb_report.specs.Fore.{fore_first, fore_line, fore_last, fore_lines, fore_text};
ghost use Rattle.fb_report.specs.Grammar.{are_bytes, fore_grammar, is_one_of, numbers};
ghost use Rattle.fb_report.specs.Printed.{AreFields, IsField, IsLine, ReadsSectors, is_first, is_in_place, is_last, is_row};

use crate::Bytes;
use crate::contents::shown;
use crate::line::{Line, first_line};
use fb_rows::{ForeRow, Run};
use fb_units::NoMemory;
use std::alloc::Global;

/// The number of lines of the foreground report: one for each row, the first and the last.
pub fn fore_pieces(run: &Run) -> u64
    ensures value { result ≡ length run.now.fore + 2 }
    ensures lines { (size : ℕ) (bytes : Bytes) → result ≡ length (fore_lines size bytes run.now) }
{
    run.fore.len() as u64 + 2
}

/// The line at this index, counted from 0, of the foreground report, with its line feed.
///
/// `sector_bytes` is the size of a sector, a multiple of 16.
#[tactic(auto, using(crate::proofs::Lines::line_first, crate::proofs::Lines::fore_are, crate::proofs::InPlace::at_ends))]
pub fn fore_piece(
    alloc: Global,
    run: &Run,
    sector_bytes: u32,
    bytes: Bytes,
    k: u64,
) -> Result<Vec<u8>, NoMemory>
    requires whole { sector_bytes % 16 ≡ 0 }
    requires line { k < length run.now.fore + 2 }
    ensures value { IfOk result (λ line. slice_get (fore_lines sector_bytes bytes run.now) k ≡ Some line.items) }
    ensures form { IfOk result (λ line. 0 < sector_bytes → AllByRecursion ReadsSectors run.now.fore
        → IsLine (is_in_place fore_grammar (length run.now.fore + 2) k) line.items) }
{
    let rows = run.fore.len() as u64;
    if k == 0 {
        Ok(fore_first(alloc)?)
    } else if k <= rows {
        let row = run.fore.get(k as usize - 1);
        Ok(fore_line(alloc, row, sector_bytes, bytes)?)
    } else {
        Ok(fore_last(alloc, rows, run.passed_over)?)
    }
}

/// The whole foreground report: its lines one after another.
///
/// `sector_bytes` is the size of a sector, a multiple of 16.
#[tactic(auto, using(crate::proofs::Lines::text_ends))]
pub fn fore_text(
    alloc: Global,
    run: &Run,
    sector_bytes: u32,
    bytes: Bytes,
) -> Result<Vec<u8>, NoMemory>
    requires { sector_bytes % 16 ≡ 0 }
    ensures { IfOk result (λ text. text.items ≡ fore_text sector_bytes bytes run.now) }
{
    let mut text = Vec::new(alloc);
    for k in 0..fore_pieces(run) {
        let line = fore_piece(alloc, run, sector_bytes, bytes, k)?;
        text.extend_from_slice(line.as_slice())?;
    }
    Ok(text)
}

/// The first line of every foreground report, with its line feed.
pub fn fore_first(alloc: Global) -> Result<Vec<u8>, NoMemory>
    ensures value { IfOk result (λ line. line.items ≡ fore_first) }
    ensures form { IfOk result (λ line. IsLine (is_first fore_grammar) line.items) }
{
    first_line(alloc, b"fore")
}

/// The last line of a foreground report, with its line feed: how many rows it has, and how many
/// requests were passed over.
#[tactic(auto, using(crate::proofs::PrintedRows::ended_as, crate::proofs::PrintedRows::fore_last_is))]
pub fn fore_last(alloc: Global, rows: u64, passed_over: u64) -> Result<Vec<u8>, NoMemory>
    ensures value { IfOk result (λ line. line.items ≡ fore_last rows passed_over) }
    ensures form { IfOk result (λ line. IsLine (is_last fore_grammar) line.items) }
{
    let mut line = Line::new(alloc, b"end")?;
    line.number(rows)?;
    line.number(passed_over)?;
    line.end()
}

/// The line of a row, with its line feed.
///
/// `sector_bytes` is the size of a sector, a multiple of 16.
pub fn fore_line(
    alloc: Global,
    row: &ForeRow,
    sector_bytes: u32,
    bytes: Bytes,
) -> Result<Vec<u8>, NoMemory>
    requires whole { sector_bytes % 16 ≡ 0 }
    ensures value { IfOk result (λ line. line.items ≡ fore_line sector_bytes bytes row.now) }
    ensures form { IfOk result (λ line. 0 < sector_bytes → ReadsSectors row.now → IsLine (is_row fore_grammar) line.items) }
{
    let found = row_bytes(alloc, row, sector_bytes, bytes)?;
    let mut line = Line::named(alloc, row.request.name)?;
    push_row(&mut line, row, found.as_slice())?;
    line.end()
}

// Adds the fields of a row behind its name, with the bytes that it found.
fn push_row(line: &mut Line, row: &ForeRow, found: &[u8]) -> Result<(), NoMemory>
    ensures value { OnOk result (line.new ≡ with_fields line.old (row_fields row.now found.now)) }
    ensures form { OnOk result (IsField are_bytes found.now
        → AreFields (is_one_of (codes "R" ∷ codes "W" ∷ []) ∷ numbers 7 ++ are_bytes ∷ []) (row_fields row.now found.now)) }
{
    let count = row.request.count;
    let bad = bad_count(row);
    line.word(kind(row.request.write))?;
    line.number(row.request.lbn)?;
    line.number(count as u64)?;
    line.number(row.request.arrival)?;
    line.number(row.start)?;
    line.number(row.media)?;
    line.number(row.finish)?;
    line.number(bad as u64)?;
    line.word(found)
}

// How many sectors of a read could not be read.
fn bad_count(row: &ForeRow) -> u32
    ensures { result ≡ bad_count row.now }
{
    if row.request.write { 0 } else { row.bad }
}

fn kind(write: bool) -> &'static [u8]
    ensures { result.now ≡ kind_text write }
{
    if write { b"W" } else { b"R" }
}

// The bytes that a row found, as they are shown.
fn row_bytes(
    alloc: Global,
    row: &ForeRow,
    sector_bytes: u32,
    bytes: Bytes,
) -> Result<Vec<u8>, NoMemory>
    requires whole { sector_bytes % 16 ≡ 0 }
    ensures { IfOk result (λ field. field.items ≡ row_bytes sector_bytes bytes row.now) }
{
    if row.request.write {
        return Ok(b"-".to_vec(alloc)?);
    }
    shown(alloc, &row.content, sector_bytes, bytes)
}
