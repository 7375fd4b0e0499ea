// What was written in the gaps so far, and the blocks that are pending.
ghost use Rattle.std.specs.Prelude.{◌≡◌, ◌+◌, ◌*◌, ◌<◌, ◌≤◌, ◌^◌, [], ◌∷◌, ◌++◌, length, map, slice_get, Some, IfNone, IfSome, OnOk};
ghost use Rattle.fb_geometry.specs.Places.{places};
ghost use Rattle.fb_sectormap.specs.Cutting.{cutting};
ghost use Rattle.fb_wanted.specs.Numbering.{blocks_of, registered_count};
ghost use Rattle.fb_wanted.specs.States.{wanted_of};
ghost use Rattle.fb_model.specs.Segments.{numbered};
ghost use Rattle.fb_bgwrite.specs.declared.items.SpillItem.TheVariants.{Spill as ItemSpill, Wrote as ItemWrote};
ghost use Rattle.fb_puts.specs.declared.puts.Put.{Put};
ghost use Rattle.fb_bgwrite.specs.Choosing.{IsGap};
ghost use Rattle.fb_bgwrite.specs.Spilling.{dwell_of, IsSpill};
ghost use Rattle.fb_bgwrite.specs.Standing.{wanted_entry, ArePutsOn, HasChosen, HasKept, IsSpilling, IsToWrite};
ghost use Rattle.fb_bgwrite.specs.Steps.{spill_rows, wrote_row};

use crate::choice::Spill;
use crate::pending::Pending;
use crate::search::best_spill;
use crate::{SpillItem, SpillItems, SpillRow, WroteRow};
use fb_puts::Put;
use fb_rows::{Catch, Dwell, Gap, GapRow};
use fb_sectormap::SectorMap;
use fb_service::Disk;
use fb_units::{NoMemory, Ns};
use std::alloc::Global;

// The most sectors of a block.
const BLOCK: u32 = 2_048;

/// What was written in the gaps so far, and the blocks that are pending.
#[derive(Drop)]
pub struct Spilling<'a> {
    pub alloc: Global,
    pub disk: &'a Disk,
    pub puts: &'a [Put],
    /// The blocks of the puts whose instants have come; those that are written are delivered.
    pub pending: Pending,
    /// How many puts these are.
    pub admitted: usize,
    /// The instant up to which puts were admitted, in ns.
    pub instant: Ns,
    /// The rows so far.
    pub items: SpillItems,
    /// The sectors that were written.
    pub written: u64,
}

impl<'a> Spilling<'a> {
    /// Before the first gap.
    pub fn new(alloc: Global, disk: &'a Disk, puts: &'a [Put]) -> Spilling<'a>
        ensures spilling { IsSpilling result }
        ensures disk { result.disk.now ≡ disk.now }
        ensures puts { result.puts.now ≡ puts.now }
        ensures items { result.items ≡ [] }
        ensures instant { result.instant ≡ 0 }
    {
        Spilling {
            alloc,
            disk,
            puts,
            pending: Pending::new(alloc),
            admitted: 0,
            instant: 0,
            items: SpillItems::new(alloc),
            written: 0,
        }
    }

    /// Writes in a free gap as much as can be.
    pub fn spill_in(&mut self, row: &GapRow) -> Result<(), NoMemory>
        requires spilling { IsSpilling self.old }
        requires puts { ArePutsOn (length (places self.old.disk.now.map)) self.old.puts.now }
        requires gap { IsGap self.old.disk.now row.now.gap }
        requires later { self.old.instant ≤ row.now.gap.now }
        ensures spilling { OnOk result (IsSpilling self.new) }
        ensures kept { OnOk result (HasKept self.old self.new) }
        ensures instant { OnOk result (self.new.instant ≡ row.now.gap.now) }
        ensures chosen { OnOk result (HasChosen self.old.disk.now self.old.puts.now row.now self.old.items self.new.items) }
    {
        self.admit(row.gap.now)?;
        match best_spill(self.disk, &self.pending, &row.gap) {
            Some(best) => self.write(row, best.spill),
            None => Ok(()),
        }
    }

    // Registers the blocks of the puts whose instants have come by now.
    fn admit(&mut self, instant: Ns) -> Result<(), NoMemory>
        requires spilling { IsSpilling self.old }
        requires puts { ArePutsOn (length (places self.old.disk.now.map)) self.old.puts.now }
        requires later { self.old.instant ≤ instant }
        ensures spilling { OnOk result (IsSpilling self.new) }
        ensures kept { OnOk result (HasKept self.old self.new) }
        ensures items { OnOk result (self.new.items ≡ self.old.items) }
        ensures instant { OnOk result (self.new.instant ≡ instant) }
        ensures all { OnOk result ((put : Put) → slice_get self.new.puts.now self.new.admitted ≡ Some put → instant < put.instant) }
    {
        self.instant = instant;
        while let Some(put) = self.next_put() {
            self.admit_put(put)?;
        }
        Ok(())
    }

    // The next put, if its instant has come.
    fn next_put(&self) -> Option<Put>
        ensures next { IfSome result (λ put. slice_get self.now.puts.now self.now.admitted ≡ Some put) }
        ensures come { IfSome result (λ put. put.instant ≤ self.now.instant) }
        ensures none { IfNone result ((put : Put) → slice_get self.now.puts.now self.now.admitted ≡ Some put
            → self.now.instant < put.instant) }
    {
        match self.puts.get(self.admitted) {
            Some(put) => {
                if put.instant <= self.instant {
                    Some(*put)
                } else {
                    None
                }
            }
            None => None,
        }
    }

    // Registers the blocks of the next put.
    fn admit_put(&mut self, put: Put) -> Result<(), NoMemory>
        requires spilling { IsSpilling self.old }
        requires puts { ArePutsOn (length (places self.old.disk.now.map)) self.old.puts.now }
        requires next { slice_get self.old.puts.now self.old.admitted ≡ Some put }
        requires come { put.instant ≤ self.old.instant }
        ensures spilling { OnOk result (IsSpilling self.new) }
        ensures kept { OnOk result (HasKept self.old self.new) }
        ensures items { OnOk result (self.new.items ≡ self.old.items) }
        ensures instant { OnOk result (self.new.instant ≡ self.old.instant) }
        ensures admitted { OnOk result (self.new.admitted ≡ self.old.admitted + 1) }
    {
        let number = self.admitted as u32 + 1;
        register_blocks(&mut self.pending, &self.disk.map, number, put)?;
        self.admitted += 1;
        Ok(())
    }

    // Writes the pending blocks that pass whole in the stay of a spill.
    fn write(&mut self, row: &GapRow, spill: Spill) -> Result<(), NoMemory>
        requires spilling { IsSpilling self.old }
        requires puts { ArePutsOn (length (places self.old.disk.now.map)) self.old.puts.now }
        requires gap { IsGap self.old.disk.now row.now.gap }
        requires come { self.old.instant ≤ row.now.gap.now }
        requires spill { IsSpill self.old.disk.now row.now.gap spill }
        ensures spilling { OnOk result (IsSpilling self.new) }
        ensures kept { OnOk result (HasKept self.old self.new) }
        ensures instant { OnOk result (self.new.instant ≡ self.old.instant) }
        ensures items { OnOk result
            (self.new.items ≡ self.old.items ++ spill_rows self.old.disk.now row.now (wanted_of self.old.pending) spill) }
    {
        let stay = dwell_of(self.disk, &row.gap, spill);
        let found = self.pending.caught(self.alloc, self.disk, stay)?;
        self.add_stay(SpillRow {
            name: row.name,
            track: stay.track,
            begin: stay.begin,
            end: stay.end,
        })?;
        for catch in &found {
            self.write_block(*catch)?;
        }
        self.pending.refresh(self.disk, stay.track.cylinder);
        Ok(())
    }

    // Adds the row of a stay.
    fn add_stay(&mut self, row: SpillRow) -> Result<(), NoMemory>
        requires spilling { IsSpilling self.old }
        ensures spilling { OnOk result (IsSpilling self.new) }
        ensures kept { OnOk result (HasKept self.old self.new) }
        ensures admitted { OnOk result (self.new.admitted ≡ self.old.admitted) }
        ensures instant { OnOk result (self.new.instant ≡ self.old.instant) }
        ensures items { OnOk result (self.new.items ≡ self.old.items ++ ItemSpill row ∷ []) }
    {
        self.items.push(SpillItem::Spill(row))
    }

    // Writes a block that is pending.
    fn write_block(&mut self, catch: Catch) -> Result<(), NoMemory>
        requires spilling { IsSpilling self.old }
        requires puts { ArePutsOn (length (places self.old.disk.now.map)) self.old.puts.now }
        requires pending { IsToWrite self.old catch }
        ensures spilling { OnOk result (IsSpilling self.new) }
        ensures kept { OnOk result (HasKept self.old self.new) }
        ensures admitted { OnOk result (self.new.admitted ≡ self.old.admitted) }
        ensures instant { OnOk result (self.new.instant ≡ self.old.instant) }
        ensures items { OnOk result (self.new.items ≡ self.old.items ++ ItemWrote (wrote_row catch) ∷ []) }
    {
        self.items.push(SpillItem::Wrote(wrote_row(catch)))?;
        self.pending.deliver(catch.block.task, catch.block.index);
        self.written += catch.block.count as u64;
        Ok(())
    }
}

// The stay in which a spill writes.
fn dwell_of(disk: &Disk, gap: &Gap, spill: Spill) -> Dwell
    requires gap { IsGap disk.now gap.now }
    requires spill { IsSpill disk.now gap.now spill }
    ensures stay { result ≡ dwell_of disk.now gap.entry.now spill }
    ensures early { result.begin ≤ 9 * 10 ^ 18 }
{
    Dwell {
        track: spill.track,
        begin: gap.now + disk.mechanism.pos(gap.source, spill.track, true),
        end: spill.leave,
    }
}

fn wrote_row(catch: Catch) -> WroteRow
    ensures { result ≡ wrote_row catch }
{
    WroteRow {
        put: catch.block.task as u64,
        lbn: catch.block.lbn,
        count: catch.block.count,
        begin: catch.begin,
        end: catch.end,
    }
}

// Registers the blocks of the put with this number, wanted.
fn register_blocks(
    pending: &mut Pending,
    sectors: &SectorMap,
    number: u32,
    put: Put,
) -> Result<(), NoMemory>
    requires some { 0 < put.count }
    requires on_disk { put.first + put.count ≤ length (places sectors.now) }
    requires fits { put.first + put.count < 2 ^ 63 }
    requires room { length pending.old + put.count ≤ 16000000 }
    requires none { registered_count number (blocks_of pending.old) ≡ 0 }
    ensures { OnOk result
        (pending.new ≡ pending.old ++ map wanted_entry (numbered number 1 0 (cutting sectors.now 2048 put.first put.count))) }
{
    let mut span = sectors.span(put.first);
    let mut lbn = put.first;
    let mut left = put.count;
    let mut block_number = 0;
    while left > 0 {
        let cut = sectors.next_cut(&mut span, lbn, left, BLOCK);
        pending.register(number, block_number, cut)?;
        block_number += 1;
        lbn += cut.count as u64;
        left -= cut.count as u64;
    }
    Ok(())
}
