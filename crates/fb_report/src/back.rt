// The background report.
ghost use Rattle.std.specs.Prelude.{◌≡◌, ℕ, ◌+◌, ◌%◌, ◌<◌, List, length, Some, IfOk, slice_get};
ghost use Rattle.std.specs.List.{AllByRecursion};
ghost use Rattle.fb_report.specs.declared.bytes.Bytes.{Bytes};
ghost use Rattle.fb_report.specs.Back.{back_first, back_last, back_lines, back_text};
ghost use Rattle.fb_report.specs.Grammar.{back_grammar};
ghost use Rattle.fb_report.specs.Printed.{AreNames, CountsSectors, IsLine, is_first, is_in_place, is_last};
ghost use Rattle.fb_rows.specs.Tasks.{HasTaskBelow};

use crate::Bytes;
use crate::back_rows::back_line;
use crate::line::{Line, first_line};
use fb_rows::Run;
use fb_script::Names;
use fb_units::{NoMemory, Ns};
use std::alloc::Global;

/// The number of lines of the background report: one for each row, the first and the last.
pub fn back_pieces(run: &Run) -> u64
    ensures value { result ≡ length run.now.back + 2 }
    ensures lines { (names : List (List ℕ)) (size : ℕ) (bytes : Bytes) → result ≡ length (back_lines names size bytes run.now) }
{
    run.back.len() as u64 + 2
}

/// The line at this index, counted from 0, of the background report, with its line feed.
///
/// `sector_bytes` is the size of a sector, a multiple of 16, and `names` are the tasks' names.
#[tactic(auto, using(crate::proofs::Lines::line_first, crate::proofs::Lines::back_are, crate::proofs::InPlace::at_ends))]
pub fn back_piece(
    alloc: Global,
    run: &Run,
    names: &Names,
    sector_bytes: u32,
    bytes: Bytes,
    k: u64,
) -> Result<Vec<u8>, NoMemory>
    requires whole { sector_bytes % 16 ≡ 0 }
    requires named { AllByRecursion (HasTaskBelow (length names.now)) run.now.back }
    requires line { k < length run.now.back + 2 }
    ensures value { IfOk result (λ line. slice_get (back_lines names.now sector_bytes bytes run.now) k ≡ Some line.items) }
    ensures form { IfOk result (λ line. 0 < sector_bytes → AreNames names.now → AllByRecursion CountsSectors run.now.back
        → IsLine (is_in_place back_grammar (length run.now.back + 2) k) line.items) }
{
    let rows = run.back.len() as u64;
    if k == 0 {
        Ok(back_first(alloc)?)
    } else if k <= rows {
        let row = run.back.get(k as usize - 1);
        Ok(back_line(alloc, row, names, sector_bytes, bytes)?)
    } else {
        Ok(back_last(alloc, run.end)?)
    }
}

/// The whole background report: its lines one after another.
///
/// `sector_bytes` is the size of a sector, a multiple of 16, and `names` are the tasks' names.
#[tactic(auto, using(crate::proofs::Lines::text_ends))]
pub fn back_text(
    alloc: Global,
    run: &Run,
    names: &Names,
    sector_bytes: u32,
    bytes: Bytes,
) -> Result<Vec<u8>, NoMemory>
    requires whole { sector_bytes % 16 ≡ 0 }
    requires named { AllByRecursion (HasTaskBelow (length names.now)) run.now.back }
    ensures { IfOk result (λ text. text.items ≡ back_text names.now sector_bytes bytes run.now) }
{
    let mut text = Vec::new(alloc);
    for k in 0..back_pieces(run) {
        let line = back_piece(alloc, run, names, sector_bytes, bytes, k)?;
        text.extend_from_slice(line.as_slice())?;
    }
    Ok(text)
}

/// The first line of every background report, with its line feed.
pub fn back_first(alloc: Global) -> Result<Vec<u8>, NoMemory>
    ensures value { IfOk result (λ line. line.items ≡ back_first) }
    ensures form { IfOk result (λ line. IsLine (is_first back_grammar) line.items) }
{
    first_line(alloc, b"back")
}

/// The last line of a background report, with its line feed: the instant, in ns, at which the run
/// ends.
#[tactic(auto, using(crate::proofs::PrintedRows::ended_as, crate::proofs::PrintedRows::back_last_is))]
pub fn back_last(alloc: Global, end: Ns) -> Result<Vec<u8>, NoMemory>
    ensures value { IfOk result (λ line. line.items ≡ back_last end) }
    ensures form { IfOk result (λ line. IsLine (is_last back_grammar) line.items) }
{
    let mut line = Line::new(alloc, b"end")?;
    line.number(end)?;
    line.end()
}
