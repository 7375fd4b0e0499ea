// What is written in the free gaps of a run.
ghost use Rattle.std.specs.Prelude.{◌≡◌, ◌⊎◌, ◌+◌, ◌*◌, ◌≤◌, ◌<◌, ◌^◌, List, ◌∷◌, drop, length, true, false, IfNone, IfOk, IfSome};
ghost use Rattle.std.specs.List.{AllByRecursion, sum_by};
ghost use Rattle.fb_geometry.specs.Places.{places};
ghost use Rattle.fb_model.specs.Timeline.{timeline, IsPossible};
ghost use Rattle.fb_rows.specs.declared.back.BackRow.{BackRow};
ghost use Rattle.fb_bgwrite.specs.Gaps.{delivers, gaps, HasNoFree};
ghost use Rattle.fb_bgwrite.specs.Held.{HoldsPuts};
ghost use Rattle.fb_puts.specs.Ranges.{share};
ghost use Rattle.fb_puts.specs.Rules.{ArePuts};
ghost use Rattle.fb_bgwrite.specs.Spilled.{fore_ranges, left_over, sectors_in, AreGaps, AreOnce, IsInTime, IsSpillRun};
ghost use Rattle.fb_bgwrite.specs.Text.{HasRange};
ghost use Rattle.fb_puts.specs.Verdict.{accepted, reserve};

use crate::SpillRun;
use crate::spilling::Spilling;
use fb_puts::{Put, Puts};
use fb_rows::{BackRow, BackRows, GapRow, How, Run};
use fb_service::Disk;
use fb_units::NoMemory;
use std::alloc::Global;

/// What is written of the puts in the free gaps of a run: in each the best spill, gap by gap. The
/// only error is `NoMemory`.
pub fn spill(alloc: Global, disk: &Disk, run: &Run, puts: &Puts) -> Result<SpillRun, NoMemory>
    requires possible { IsPossible disk.now (timeline disk.now run.now.back run.now.fore) run.now.end }
    requires early { run.now.end ≤ 9 * 10 ^ 18 }
    requires gaps { AreGaps disk.now run.now.back run.now.fore }
    requires puts { ArePuts (length (places disk.now.map)) (accepted puts.now) }
    requires apart { AllByRecursion (λ range. share (reserve puts.now) range ≡ false) (fore_ranges run.now) }
    ensures spills { IfOk result (λ spilled. IsSpillRun disk.now run.now puts.now.puts.items spilled.items) }
    ensures once { IfOk result (λ spilled. AreOnce spilled.items) }
    ensures in_time { IfOk result (λ spilled. AllByRecursion (IsInTime disk.now puts.now.puts.items) spilled.items) }
    ensures holds { IfOk result (λ spilled. HoldsPuts run.now (reserve puts.now) spilled.items) }
    ensures written { IfOk result (λ spilled. spilled.written ≡ sum_by sectors_in spilled.items) }
    ensures left { IfOk result (λ spilled. spilled.left ≡ left_over disk.now puts.now.puts.items spilled.items) }
    ensures ranges { IfOk result (λ spilled. AllByRecursion HasRange spilled.items) }
{
    disk.map.geometry().sound();
    let mut spilling = Spilling::new(alloc, disk, &puts.puts);
    for i in 0..run.back.len() {
        if let Some(row) = free_gap(&run.back, i) {
            spilling.spill_in(row)?;
        }
    }
    let left = sectors_of(&puts.puts) - spilling.written;
    Ok(SpillRun {
        items: spilling.items,
        written: spilling.written,
        left,
    })
}

// The row with this index, if it is that of a free gap.
fn free_gap(rows: &BackRows, i: usize) -> Option<&GapRow>
    requires inside { i < length rows.now }
    requires fits { i < 2 ^ 63 }
    ensures free { IfSome result (λ row. gaps (drop i rows.now) ≡ record { row = row.now; free = true } ∷ gaps (drop (i + 1) rows.now)) }
    ensures none { IfNone result (HasNoFree (gaps (drop i rows.now)) (gaps (drop (i + 1) rows.now))) }
{
    match rows.get(i) {
        BackRow::Gap(row) => {
            if delivers(rows, i + 1) {
                None
            } else {
                Some(row)
            }
        }
        _ => None,
    }
}

// Whether a stay in the gap before the rows from this index on delivered a block.
fn delivers(rows: &BackRows, from: usize) -> bool
    ensures { result ≡ delivers (drop from rows.now) }
{
    for i in from..rows.len() {
        if let Some(delivers) = decides(rows.get(i)) {
            return delivers;
        }
    }
    false
}

// Whether a stay in the gap before this row delivered a block, if the row says so.
fn decides(row: &BackRow) -> Option<bool>
    ensures some { IfSome result (λ decided. (rows : List BackRow) → delivers (row.now ∷ rows) ≡ decided) }
    ensures none { IfNone result ((rows : List BackRow) → delivers (row.now ∷ rows) ≡ delivers rows) }
{
    match row {
        BackRow::Gap(_) | BackRow::Idle(_) => Some(false),
        BackRow::Got(row) => match row.how {
            How::Gap => Some(true),
            _ => None,
        },
        _ => None,
    }
}

// The number of sectors of puts.
fn sectors_of(puts: &[Put]) -> u64
    requires { sum_by (λ put. put.count) puts.now ≤ 16 * 10 ^ 6 }
    ensures { result ≡ sum_by (λ put. put.count) puts.now }
{
    let mut sectors = 0;
    for put in puts {
        sectors += put.count;
    }
    sectors
}
