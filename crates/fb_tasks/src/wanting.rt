// The registration of blocks.
ghost use Rattle.std.specs.Prelude.{◌≡◌, ◌+◌, ◌*◌, ◌<◌, ◌≤◌, ◌++◌, length, OnOk};
ghost use Rattle.std.specs.List.{AllByRecursion};
ghost use Rattle.fb_geometry.specs.Places.{places};
ghost use Rattle.fb_sectormap.specs.Cutting.{cutting};
ghost use Rattle.fb_clean.specs.Segments.{live_of};
ghost use Rattle.fb_wanted.specs.Numbering.{registered_count, blocks_of};
ghost use Rattle.fb_model.specs.Segments.{numbered};
ghost use Rattle.fb_tasks.specs.Keeping.{new_entries, cuts_of};
ghost use Rattle.fb_tasks.specs.Leaving.{HasBegun};

use crate::session::Session;
use fb_sectormap::{Cut, SectorMap};
use fb_units::NoMemory;
use fb_wanted::{Block, Wanted};

/// Registers the blocks of a range for the session's task.
pub fn want_range(
    map: &SectorMap,
    wanted: &mut Wanted,
    session: &Session,
    task: u32,
    first: u64,
    count: u64,
) -> Result<(), NoMemory>
    requires block { (0 < session.now.block) × (session.now.block ≤ 2048) }
    requires weight { session.now.weight ≤ 1000 }
    requires on_disk { first + count ≤ length (places map.now) }
    requires few { length wanted.old + length (cutting map.now session.now.block first count) ≤ 16000000 }
    ensures all { OnOk result (wanted.new ≡ wanted.old ++ new_entries session.now (numbered task session.now.weight
        (registered_count task (blocks_of wanted.old)) (cutting map.now session.now.block first count))) }
    ensures begun { HasBegun wanted.old (new_entries session.now (numbered task session.now.weight
        (registered_count task (blocks_of wanted.old)) (cutting map.now session.now.block first count))) wanted.new }
{
    if count == 0 {
        return Ok(());
    }
    // A disk has at most 10^12 sectors.
    let _sectors = map.count();
    let mut span = map.span(first);
    let mut lbn = first;
    let mut left = count;
    let mut number = wanted.counts(task).registered;
    while left > 0 {
        let cut = map.next_cut(&mut span, lbn, left, session.block);
        wanted.register(block_of(session, task, number, cut), session.suspended)?;
        number += 1;
        lbn += cut.count as u64;
        left -= cut.count as u64;
    }
    Ok(())
}

// What a cut gives as the task's block whose index is `number`.
fn block_of(session: &Session, task: u32, number: u32, cut: Cut) -> Block
    ensures { result ≡ record {
      task = task;
      index = number;
      lbn = cut.lbn;
      count = cut.count;
      track = cut.track;
      weight = session.now.weight;
      sweep = cut.sweep;
    } }
{
    Block {
        task,
        index: number,
        lbn: cut.lbn,
        count: cut.count,
        track: cut.track,
        weight: session.weight,
        sweep: cut.sweep,
    }
}

/// Registers the blocks of a segment's live blocks. If memory runs out, at most the first of them are registered.
#[tactic(auto, using(crate::proofs::Leaving::grown_not, crate::proofs::Leaving::begun_by))]
pub fn want_live(
    map: &SectorMap,
    wanted: &mut Wanted,
    session: &Session,
    task: u32,
    segment: u32,
) -> Result<(), NoMemory>
    requires block { (0 < session.now.block) × (session.now.block ≤ 2048) }
    requires weight { session.now.weight ≤ 1000 }
    requires added { (0 < segment) × (segment ≤ length session.now.log.segments) }
    requires on_disk { AllByRecursion (λ lbn. lbn + session.now.block ≤ length (places map.now)) (live_of session.now.log segment) }
    requires few { length wanted.old + length (cuts_of map.now session.now.block (live_of session.now.log segment)) ≤ 16000000 }
    ensures all { OnOk result (wanted.new ≡ wanted.old ++ new_entries session.now (numbered task session.now.weight
        (registered_count task (blocks_of wanted.old)) (cuts_of map.now session.now.block (live_of session.now.log segment)))) }
    ensures begun { HasBegun wanted.old (new_entries session.now (numbered task session.now.weight
        (registered_count task (blocks_of wanted.old)) (cuts_of map.now session.now.block (live_of session.now.log segment)))) wanted.new }
{
    for i in 0..session.log.live_count(segment) {
        let lbn = session.log.live_block(segment, i);
        want_range(map, wanted, session, task, lbn, session.block as u64)?;
    }
    Ok(())
}
