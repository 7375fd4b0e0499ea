// The text of spills.
ghost use Rattle.std.specs.Prelude.{◌≡◌, ℕ, ◌+◌, ◌%◌, ◌<◌, ◌≤◌, ◌^◌, [], ◌∷◌, ◌++◌, length, slice_get, Some, IfOk, OnOk, decimal};
ghost use Rattle.std.specs.List.{AllByRecursion};
ghost use Rattle.fb_report.specs.declared.bytes.Bytes.{Bytes};
ghost use Rattle.fb_report.specs.Lines.{with_fields};
ghost use Rattle.fb_bgwrite.specs.Text.{content_of, item_line, spill_last, spill_lines, HasRange};

use crate::{SpillItem, SpillRow, SpillRun, WroteRow};
use fb_report::{Bytes, Line, first_line, shown};
use fb_store::{Content, ContentRun, Contents};
use fb_units::NoMemory;
use std::alloc::Global;

// The writer of put 0: above the number of every request.
const FIRST_WRITER: u64 = 4_294_967_296;

/// The number of lines in the text of spills: one for each row, the first and the last.
pub fn spill_pieces(spill: &SpillRun) -> u64
    ensures value { result ≡ length spill.now.items + 2 }
    ensures lines { (size : ℕ) (bytes : Bytes) → result ≡ length (spill_lines size bytes spill.now) }
{
    spill.items.len() as u64 + 2
}

/// The k-th line, counted from 0, in the text of spills, with its line feed.
/// `sector_bytes` is the size of a sector, a multiple of 16. The only error is `NoMemory`.
pub fn spill_piece(
    alloc: Global,
    spill: &SpillRun,
    sector_bytes: u32,
    bytes: Bytes,
    k: u64,
) -> Result<Vec<u8>, NoMemory>
    requires whole { sector_bytes % 16 ≡ 0 }
    requires ranges { AllByRecursion HasRange spill.now.items }
    requires line { k < length spill.now.items + 2 }
    ensures { IfOk result (λ line. slice_get (spill_lines sector_bytes bytes spill.now) k ≡ Some line.items) }
{
    let rows = spill.items.len() as u64;
    if k == 0 {
        first_line(alloc, b"spill")
    } else if k <= rows {
        let item = spill.items.get(k as usize - 1);
        item_line(alloc, item, sector_bytes, bytes)
    } else {
        spill_last(alloc, spill.written, spill.left)
    }
}

fn spill_last(alloc: Global, written: u64, left: u64) -> Result<Vec<u8>, NoMemory>
    ensures { IfOk result (λ line. line.items ≡ spill_last written left) }
{
    let mut line = Line::new(alloc, b"end")?;
    line.number(written)?;
    line.number(left)?;
    line.end()
}

fn item_line(
    alloc: Global,
    item: &SpillItem,
    sector_bytes: u32,
    bytes: Bytes,
) -> Result<Vec<u8>, NoMemory>
    requires whole { sector_bytes % 16 ≡ 0 }
    requires range { HasRange item.now }
    ensures { IfOk result (λ line. line.items ≡ item_line sector_bytes bytes item.now) }
{
    match item {
        SpillItem::Spill(row) => stay_line(alloc, row),
        SpillItem::Wrote(row) => wrote_line(alloc, row, sector_bytes, bytes),
    }
}

fn stay_line(alloc: Global, row: &SpillRow) -> Result<Vec<u8>, NoMemory>
    ensures { (size : ℕ) (bytes : Bytes) → IfOk result (λ line. line.items ≡ item_line size bytes (SpillItem.Spill row.now)) }
{
    let mut line = Line::new(alloc, b"spill")?;
    line.name(row.name)?;
    line.track(row.track)?;
    line.number(row.begin)?;
    line.number(row.end)?;
    line.end()
}

fn wrote_line(
    alloc: Global,
    row: &WroteRow,
    sector_bytes: u32,
    bytes: Bytes,
) -> Result<Vec<u8>, NoMemory>
    requires whole { sector_bytes % 16 ≡ 0 }
    requires put { row.now.put ≤ 10 ^ 12 }
    requires range { row.now.lbn + row.now.count ≤ 10 ^ 12 }
    ensures { IfOk result (λ line. line.items ≡ item_line sector_bytes bytes (SpillItem.Wrote row.now)) }
{
    let content = content_of(alloc, row)?;
    let written = shown(alloc, &content, sector_bytes, bytes)?;
    let mut line = Line::new(alloc, b"wrote")?;
    add_numbers(&mut line, row)?;
    line.word(&written)?;
    line.end()
}

// Adds the numbers of a written block: put, first LBN, count, begin and end.
fn add_numbers(line: &mut Line, row: &WroteRow) -> Result<(), NoMemory>
    ensures { OnOk result (line.new ≡ with_fields line.old
        (decimal row.now.put ∷ decimal row.now.lbn ∷ decimal row.now.count ∷ decimal row.now.begin ∷ decimal row.now.end ∷ [])) }
{
    line.number(row.put)?;
    line.number(row.lbn)?;
    line.number(row.count as u64)?;
    line.number(row.begin)?;
    line.number(row.end)
}

// What the sectors of a written block hold.
fn content_of(alloc: Global, row: &WroteRow) -> Result<Contents, NoMemory>
    requires put { row.now.put ≤ 10 ^ 12 }
    requires range { row.now.lbn + row.now.count ≤ 10 ^ 12 }
    ensures { IfOk result (λ content. content ≡ content_of row.now) }
{
    let mut content = Contents::new(alloc);
    content.push(ContentRun {
        first: row.lbn,
        count: row.count as u64,
        content: Content::Filled(FIRST_WRITER + row.put),
    })?;
    Ok(content)
}
