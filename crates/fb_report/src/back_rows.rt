// The lines of the background's rows.
ghost use Rattle.std.specs.Prelude.{◌≡◌, ◌<◌, ◌%◌, ◌^◌, [], ◌∷◌, codes, length, OnOk, IfOk};
ghost use Rattle.std.specs.List.{sum_by};
ghost use Rattle.fb_report.specs.Lines.{with_fields};
ghost use Rattle.fb_report.specs.Back.{back_line, bad_line, complete_line, gap_fields, gap_line, got_fields, got_line, how_text, idle_line};
ghost use Rattle.fb_report.specs.Back.{is_complete_text, plan_fields, seal_line, segment_fields, segment_line, task_fields, task_kind_text};
ghost use Rattle.fb_report.specs.Back.{task_line};
ghost use Rattle.fb_report.specs.Grammar.{are_bytes, back_grammar, is_number, is_track, is_word};
ghost use Rattle.fb_report.specs.Printed.{AreNames, AreOneOf, CountsSectors, HasSectors, IsField, IsLine, is_row};
ghost use Rattle.fb_rows.specs.Tasks.{HasTaskBelow};

use crate::Bytes;
use crate::contents::{sectors, shown};
use crate::line::Line;
use fb_rows::{
    BackRow, BadRow, CompleteRow, DeliveryRow, Dwell, GapRow, How, Plan, SealRow, SegmentRow,
    TaskRow,
};
use fb_script::{Kind, Names};
use fb_units::NoMemory;
use std::alloc::Global;

/// The line of a row, with its line feed.
///
/// `sector_bytes` is the size of a sector, a multiple of 16, and `names` are the tasks' names.
pub fn back_line(
    alloc: Global,
    row: &BackRow,
    names: &Names,
    sector_bytes: u32,
    bytes: Bytes,
) -> Result<Vec<u8>, NoMemory>
    requires whole { sector_bytes % 16 ≡ 0 }
    requires named { HasTaskBelow (length names.now) row.now }
    ensures value { IfOk result (λ line. line.items ≡ back_line names.now sector_bytes bytes row.now) }
    ensures form { IfOk result
        (λ line. 0 < sector_bytes → AreNames names.now → CountsSectors row.now → IsLine (is_row back_grammar) line.items) }
{
    match row {
        BackRow::Gap(row) => gap_line(alloc, row),
        BackRow::Idle(dwell) => idle_line(alloc, dwell),
        BackRow::Got(row) => got_line(alloc, row, names, sector_bytes, bytes),
        BackRow::Bad(row) => bad_line(alloc, row, names),
        BackRow::Seal(row) => seal_line(alloc, row, names, sector_bytes, bytes),
        BackRow::Segment(row) => segment_line(alloc, row, names, sector_bytes, bytes),
        BackRow::Complete(row) => complete_line(alloc, row, names),
        BackRow::Task(row) => task_line(alloc, row, names),
    }
}

fn gap_line(alloc: Global, row: &GapRow) -> Result<Vec<u8>, NoMemory>
    ensures value { IfOk result (λ line. line.items ≡ gap_line row.now) }
    ensures form { IfOk result (λ line. IsLine (is_row back_grammar) line.items) }
{
    let mut line = Line::new(alloc, b"gap")?;
    push_gap(&mut line, row)?;
    line.end()
}

fn push_gap(line: &mut Line, row: &GapRow) -> Result<(), NoMemory>
    ensures value { OnOk result (line.new ≡ with_fields line.old (gap_fields row.now)) }
    ensures form { OnOk result (AreOneOf back_grammar.rows (codes "gap" ∷ gap_fields row.now)) }
{
    line.name(row.name)?;
    line.track(row.gap.source)?;
    line.track(row.gap.target)?;
    line.number(row.gap.now)?;
    line.number(row.gap.deadline)?;
    push_plan(line, row.plan)
}

fn push_plan(line: &mut Line, plan: Plan) -> Result<(), NoMemory>
    ensures value { OnOk result (line.new ≡ with_fields line.old (plan_fields plan)) }
    ensures form { OnOk result (AreOneOf ((is_word (codes "direct") ∷ is_number ∷ [])
        ∷ (is_word (codes "detour") ∷ is_track ∷ is_number ∷ []) ∷ []) (plan_fields plan)) }
{
    match plan {
        Plan::Direct { leave } => {
            line.word(b"direct")?;
            line.number(leave)
        }
        Plan::Detour { track, leave } => {
            line.word(b"detour")?;
            line.track(track)?;
            line.number(leave)
        }
    }
}

fn idle_line(alloc: Global, dwell: &Dwell) -> Result<Vec<u8>, NoMemory>
    ensures value { IfOk result (λ line. line.items ≡ idle_line dwell.now) }
    ensures form { IfOk result (λ line. IsLine (is_row back_grammar) line.items) }
{
    let mut line = Line::new(alloc, b"idle")?;
    line.track(dwell.track)?;
    line.number(dwell.begin)?;
    line.number(dwell.end)?;
    line.end()
}

fn got_line(
    alloc: Global,
    row: &DeliveryRow,
    names: &Names,
    sector_bytes: u32,
    bytes: Bytes,
) -> Result<Vec<u8>, NoMemory>
    requires whole { sector_bytes % 16 ≡ 0 }
    requires named { row.now.block.task < length names.now }
    ensures value { IfOk result (λ line. line.items ≡ got_line names.now sector_bytes bytes row.now) }
    ensures form { IfOk result
        (λ line. 0 < sector_bytes → AreNames names.now → HasSectors row.now.content → IsLine (is_row back_grammar) line.items) }
{
    let found = shown(alloc, &row.content, sector_bytes, bytes)?;
    let mut line = Line::new(alloc, b"got")?;
    push_delivery(&mut line, row, names, found.as_slice())?;
    line.end()
}

// Adds the fields of a delivery, with the bytes that it found.
fn push_delivery(
    line: &mut Line,
    row: &DeliveryRow,
    names: &Names,
    found: &[u8],
) -> Result<(), NoMemory>
    requires named { row.now.block.task < length names.now }
    ensures value { OnOk result (line.new ≡ with_fields line.old (got_fields names.now row.now found.now)) }
    ensures form { OnOk result (AreNames names.now → IsField are_bytes found.now
        → AreOneOf back_grammar.rows (codes "got" ∷ got_fields names.now row.now found.now)) }
{
    line.task(names, row.block.task)?;
    line.number(row.block.index as u64)?;
    line.number(row.block.lbn)?;
    line.number(row.block.count as u64)?;
    line.number(row.begin)?;
    line.number(row.end)?;
    line.word(how(row.how))?;
    line.number(row.bad as u64)?;
    line.word(found)
}

fn how(how: How) -> &'static [u8]
    ensures { result.now ≡ how_text how }
{
    match how {
        How::Gap => b"gap",
        How::Idle => b"idle",
        How::Ride => b"ride",
    }
}

fn bad_line(alloc: Global, row: &BadRow, names: &Names) -> Result<Vec<u8>, NoMemory>
    requires named { row.now.task < length names.now }
    ensures value { IfOk result (λ line. line.items ≡ bad_line names.now row.now) }
    ensures form { IfOk result (λ line. AreNames names.now → IsLine (is_row back_grammar) line.items) }
{
    let mut line = Line::new(alloc, b"bad")?;
    line.task(names, row.task)?;
    line.number(row.lbn)?;
    line.end()
}

fn seal_line(
    alloc: Global,
    row: &SealRow,
    names: &Names,
    sector_bytes: u32,
    bytes: Bytes,
) -> Result<Vec<u8>, NoMemory>
    requires whole { sector_bytes % 16 ≡ 0 }
    requires named { row.now.task < length names.now }
    ensures value { IfOk result (λ line. line.items ≡ seal_line names.now sector_bytes bytes row.now) }
    ensures form { IfOk result
        (λ line. AreNames names.now → sum_by (λ run. run.count) row.now.content < 2 ^ 64 → IsLine (is_row back_grammar) line.items) }
{
    let digest = shown(alloc, &row.content, sector_bytes, bytes.digested())?;
    let mut line = Line::new(alloc, b"seal")?;
    line.task(names, row.task)?;
    line.number(row.instant)?;
    line.sum(sectors(&row.content))?;
    line.word(digest.as_slice())?;
    line.end()
}

fn segment_line(
    alloc: Global,
    row: &SegmentRow,
    names: &Names,
    sector_bytes: u32,
    bytes: Bytes,
) -> Result<Vec<u8>, NoMemory>
    requires whole { sector_bytes % 16 ≡ 0 }
    requires named { row.now.task < length names.now }
    ensures value { IfOk result (λ line. line.items ≡ segment_line names.now sector_bytes bytes row.now) }
    ensures form { IfOk result (λ line. AreNames names.now → IsLine (is_row back_grammar) line.items) }
{
    let digest = shown(alloc, &row.content, sector_bytes, bytes.digested())?;
    let mut line = Line::new(alloc, b"seg")?;
    push_segment(&mut line, row, names, digest.as_slice())?;
    line.end()
}

// Adds the fields of a segment, with the digest of its contents.
fn push_segment(
    line: &mut Line,
    row: &SegmentRow,
    names: &Names,
    digest: &[u8],
) -> Result<(), NoMemory>
    requires named { row.now.task < length names.now }
    ensures value { OnOk result (line.new ≡ with_fields line.old (segment_fields names.now row.now digest.now)) }
    ensures form { OnOk result (AreNames names.now → IsField are_bytes digest.now
        → AreOneOf back_grammar.rows (codes "seg" ∷ segment_fields names.now row.now digest.now)) }
{
    line.task(names, row.task)?;
    line.number(row.segment as u64)?;
    line.number(row.instant)?;
    line.number(row.live as u64)?;
    line.word(digest)
}

fn complete_line(alloc: Global, row: &CompleteRow, names: &Names) -> Result<Vec<u8>, NoMemory>
    requires named { row.now.task < length names.now }
    ensures value { IfOk result (λ line. line.items ≡ complete_line names.now row.now) }
    ensures form { IfOk result (λ line. AreNames names.now → IsLine (is_row back_grammar) line.items) }
{
    let mut line = Line::new(alloc, b"done")?;
    line.task(names, row.task)?;
    line.number(row.instant)?;
    line.end()
}

fn task_line(alloc: Global, row: &TaskRow, names: &Names) -> Result<Vec<u8>, NoMemory>
    requires named { row.now.task < length names.now }
    ensures value { IfOk result (λ line. line.items ≡ task_line names.now row.now) }
    ensures form { IfOk result (λ line. AreNames names.now → IsLine (is_row back_grammar) line.items) }
{
    let mut line = Line::new(alloc, b"task")?;
    push_task(&mut line, row, names)?;
    line.end()
}

fn push_task(line: &mut Line, row: &TaskRow, names: &Names) -> Result<(), NoMemory>
    requires named { row.now.task < length names.now }
    ensures value { OnOk result (line.new ≡ with_fields line.old (task_fields names.now row.now)) }
    ensures form { OnOk result (AreNames names.now → AreOneOf back_grammar.rows (codes "task" ∷ task_fields names.now row.now)) }
{
    let left = row
        .registered
        .saturating_sub(row.delivered)
        .saturating_sub(row.aborted);
    line.task(names, row.task)?;
    line.word(kind(row.kind))?;
    line.number(row.registered as u64)?;
    line.number(row.delivered as u64)?;
    line.number(row.aborted as u64)?;
    line.number(left as u64)?;
    line.word(if_complete(row.complete))
}

fn kind(kind: Kind) -> &'static [u8]
    ensures { result.now ≡ task_kind_text kind }
{
    match kind {
        Kind::Plain => b"plain",
        Kind::Backup => b"backup",
        Kind::Scrub => b"scrub",
        Kind::Clean => b"clean",
    }
}

fn if_complete(complete: bool) -> &'static [u8]
    ensures { result.now ≡ is_complete_text complete }
{
    if complete { b"complete" } else { b"open" }
}
