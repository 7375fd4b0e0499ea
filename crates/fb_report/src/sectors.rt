// The bytes of contents.
ghost use Rattle.std.specs.Prelude.{◌≡◌, ℕ, ◌%◌, ◌++◌, List, length, OnOk, IfOk};
ghost use Rattle.fb_store.specs.Fill.{sector_bytes as bytes_of};
ghost use Rattle.fb_store.specs.Runs.{IsInRange};
ghost use Rattle.fb_report.specs.Shown.{run_bytes, contents_bytes};

use crate::sink::Sink;
use fb_store::{ContentRun, Contents, bytes_into};
use fb_units::NoMemory;
use std::alloc::Global;

/// Gives the bytes of all sectors to the sink, in order.
pub fn pour<S: Sink>(
    alloc: Global,
    sink: &mut S,
    contents: &Contents,
    sector_bytes: u32,
) -> Result<(), NoMemory>
    requires whole { sector_bytes % 16 ≡ 0 }
    ensures { OnOk result ((before : List ℕ) → S.took sink.old before
        → S.took sink.new (before ++ contents_bytes sector_bytes contents.now)) }
{
    let mut buffer = vec![in alloc; 0; sector_bytes as usize]?;
    let sector = buffer.as_mut_slice();
    for index in 0..contents.len() {
        pour_run(sink, &contents.get(index), sector)?;
    }
    Ok(())
}

// The bytes of a run's sectors; the buffer has the size of a sector.
fn pour_run<S: Sink>(sink: &mut S, run: &ContentRun, sector: &mut [u8]) -> Result<(), NoMemory>
    requires whole { length sector.old % 16 ≡ 0 }
    requires range { IsInRange run.now }
    ensures { OnOk result ((before : List ℕ) → S.took sink.old before → S.took sink.new (before ++ run_bytes (length sector.old) run.now)) }
{
    for i in 0..run.count {
        bytes_into(run.content, run.first + i, sector);
        sink.take(sector)?;
    }
    Ok(())
}
