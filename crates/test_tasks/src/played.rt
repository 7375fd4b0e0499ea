// The course of a script on a disk of 96 sectors: what happens in order, and the rows that it gives.
ghost use Rattle.std.specs.Prelude.{◌≡◌, ℕ, Some, true, false, slice_get, IfSome, IfOk, OnOk};
ghost use Rattle.test_tasks.specs.Following.{Follows};

use crate::lines::lines;
use fb_calls::read_calls;
use fb_geometry::{Geometry, Layout, Zone};
use fb_rows::{BackRow, BackRows, DeliveryRow, How};
use fb_script::Calls;
use fb_sectormap::SectorMap;
use fb_store::{Store, runs_are_fewest};
use fb_tasks::Sessions;
use fb_units::{NoMemory, Ns};
use fb_wanted::{Block, Entry, State, Wanted};
use std::alloc::Global;
use std::process::Abort;
use std::test::Fail;

const ZONE: Zone = Zone {
    first: 0,
    last: 3,
    sectors: 12,
    track_skew: 0,
    cylinder_skew: 0,
    spares: 0,
    cylinder_spares: 0,
};

// 96 sectors on tracks of twelve.
fn disk(alloc: Global) -> Result<SectorMap, Fail> {
    let mut zones = Vec::new(alloc);
    zones.push(ZONE)?;
    let geometry = Geometry::new(
        alloc,
        Layout::PerTrack,
        1200,
        2,
        zones,
        Vec::new(alloc),
        Vec::new(alloc),
    )?;
    Ok(SectorMap::new(alloc, geometry)?)
}

/// What happens.
#[derive(Clone, Copy)]
pub enum Step {
    /// The calls up to an instant take effect, the tasks choose segments, and all are tested.
    Prepare(Ns),
    /// The block of this task and index is delivered between these instants.
    Deliver(u32, u32, How, Ns, Ns),
    /// A write has passed: its first sector, how many sectors, and the number that it leaves.
    Write(u64, u32, u64),
    /// The block of this task and index is in this state.
    Check(u32, u32, State),
}

/// Follows a script step by step on a disk with these sectors unreadable, and compares the lines of its rows.
pub fn follow(
    rt: &impl Abort,
    alloc: Global,
    script: &[u8],
    latent: &[u64],
    steps: &[Step],
    due: &str,
) -> Result<(), Fail> {
    let mut played = PlayedScript::new(alloc, script, latent)?;
    for step in steps {
        played.step(rt, alloc, *step)?;
    }
    played.end(rt, alloc)?;
    let text = lines(alloc, &played.calls, &played.rows)?;
    assert_eq!(rt; text.as_str(), due);
    Ok(())
}

// How far a script has been played.
#[derive(Drop)]
struct PlayedScript {
    map: SectorMap,
    calls: Calls,
    store: Store,
    sessions: Sessions,
    blocks: Wanted,
    rows: BackRows,
    // How many calls have taken effect.
    called: usize,
    // Whether all tasks were tested since the last write.
    up_to_date: bool,
}

impl PlayedScript {
    // Nothing has happened yet.
    fn new(alloc: Global, script: &[u8], latent: &[u64]) -> Result<PlayedScript, Fail>
        ensures { IfOk result
            (λ played. Follows played.up_to_date played.map played.calls.calls.items played.called played.sessions played.blocks) }
    {
        let map = disk(alloc)?;
        let calls = read_calls(alloc, script, &map, 0)?;
        Ok(PlayedScript {
            map,
            calls,
            store: Store::new(alloc, latent)?,
            sessions: Sessions::new(alloc),
            blocks: Wanted::new(alloc),
            rows: BackRows::new(alloc),
            called: 0,
            up_to_date: false,
        })
    }

    // What happens next.
    fn step(&mut self, rt: &impl Abort, alloc: Global, step: Step) -> Result<(), Fail>
        requires { Follows self.old.up_to_date self.old.map self.old.calls.calls.items self.old.called self.old.sessions self.old.blocks }
        ensures { OnOk result
            (Follows self.new.up_to_date self.new.map self.new.calls.calls.items self.new.called self.new.sessions self.new.blocks) }
    {
        match step {
            Step::Prepare(now) => Ok(self.prepare(now)?),
            Step::Deliver(task, number, how, begin, end) => {
                let block = self.wanted_block(task, number)?;
                Ok(self.deliver(alloc, block, how, begin, end)?)
            }
            Step::Write(first, count, writer) => Ok(self.write(first, count, writer)?),
            Step::Check(task, number, state) => {
                let entry = self.entry(task, number).ok_or("no block")?;
                assert_eq!(rt; entry.state, state, "{task} {number}");
                Ok(())
            }
        }
    }

    // The calls up to an instant take effect.
    fn call(&mut self, now: Ns) -> Result<(), NoMemory>
        requires { Follows false self.old.map self.old.calls.calls.items self.old.called self.old.sessions self.old.blocks }
        ensures { OnOk result (Follows false self.new.map self.new.calls.calls.items self.new.called self.new.sessions self.new.blocks) }
    {
        while self.called < self.calls.calls.len() && self.calls.calls[self.called].instant <= now {
            let call = &self.calls.calls[self.called];
            self.sessions.apply(&self.map, &mut self.blocks, call)?;
            self.called += 1;
        }
        Ok(())
    }

    // The calls up to an instant take effect, the tasks choose segments, and all are tested.
    fn prepare(&mut self, now: Ns) -> Result<(), NoMemory>
        requires { Follows self.old.up_to_date self.old.map self.old.calls.calls.items self.old.called self.old.sessions self.old.blocks }
        ensures { OnOk result
            (Follows self.new.up_to_date self.new.map self.new.calls.calls.items self.new.called self.new.sessions self.new.blocks) }
    {
        self.call(now)?;
        self.up_to_date = true;
        self.sessions
            .settle(&self.map, &mut self.blocks, now, &mut self.rows)
    }

    // The task's block whose index is `number`.
    fn entry(&self, task: u32, number: u32) -> Option<Entry>
        requires { Follows self.now.up_to_date self.now.map self.now.calls.calls.items self.now.called self.now.sessions self.now.blocks }
        ensures { IfSome result (λ entry. (index : ℕ) × (slice_get self.now.blocks index ≡ Some entry)) }
    {
        if number < self.blocks.counts(task).registered {
            Some(self.blocks.entry(task, number))
        } else {
            None
        }
    }

    // The task's block whose index is `number`, if it may be delivered.
    fn wanted_block(&self, task: u32, number: u32) -> Result<Block, Fail>
        requires { Follows self.now.up_to_date self.now.map self.now.calls.calls.items self.now.called self.now.sessions self.now.blocks }
        ensures { IfOk result (λ block. (self.now.up_to_date ≡ true) × (index : ℕ)
            × (slice_get self.now.blocks index ≡ Some (record { block = block; state = State.Wanted }))) }
    {
        match self.entry(task, number) {
            Some(entry) => match entry.state {
                State::Wanted if self.up_to_date => Ok(entry.block),
                _ => Err(Fail::from("not wanted")),
            },
            None => Err(Fail::from("no block")),
        }
    }

    // A wanted block is delivered, with what the disk holds.
    fn deliver(
        &mut self,
        alloc: Global,
        block: Block,
        how: How,
        begin: Ns,
        end: Ns,
    ) -> Result<(), NoMemory>
        requires follows { Follows true self.old.map self.old.calls.calls.items self.old.called self.old.sessions self.old.blocks }
        requires wanted { (index : ℕ) × (slice_get self.old.blocks index ≡ Some (record { block = block; state = State.Wanted })) }
        ensures { OnOk result
            (Follows self.new.up_to_date self.new.map self.new.calls.calls.items self.new.called self.new.sessions self.new.blocks) }
    {
        let content = self.store.runs(alloc, block.lbn, block.count)?;
        runs_are_fewest();
        let got = DeliveryRow {
            block,
            begin,
            end,
            how,
            bad: content.bad() as u32,
            content,
        };
        self.sessions
            .delivered(&mut self.blocks, got, &mut self.rows)
    }

    // A write passes.
    fn write(&mut self, first: u64, count: u32, writer: u64) -> Result<(), Fail>
        requires { Follows self.old.up_to_date self.old.map self.old.calls.calls.items self.old.called self.old.sessions self.old.blocks }
        ensures { OnOk result
            (Follows self.new.up_to_date self.new.map self.new.calls.calls.items self.new.called self.new.sessions self.new.blocks) }
    {
        if first >= 96 || count > 96 {
            return Err(Fail::from("beyond the disk"));
        }
        self.up_to_date = false;
        self.store.write_range(first, count, writer)?;
        self.sessions.after_write(&mut self.blocks, first, count);
        Ok(())
    }

    // The rows of the tasks follow, and each says whether its task is complete.
    fn end(&mut self, rt: &impl Abort, alloc: Global) -> Result<(), Fail>
        requires { Follows self.old.up_to_date self.old.map self.old.calls.calls.items self.old.called self.old.sessions self.old.blocks }
    {
        self.sessions.task_rows(&self.blocks, &mut self.rows)?;
        let mut rows = BackRows::new(alloc);
        self.sessions.task_rows(&self.blocks, &mut rows)?;
        for i in 0..rows.len() {
            let task = u32::try_from(i)?;
            let complete = self.sessions.complete(&self.blocks, task);
            if let BackRow::Task(row) = rows.get(i) {
                assert_eq!(rt; complete, row.complete);
            }
        }
        Ok(())
    }
}
