// The background of a run, and how deliveries change it.
ghost use Rattle.std.specs.Prelude.{◌≡◌, ◌+◌, ◌*◌, ◌≤◌, ◌^◌, ℕ, [], ◌∷◌, ◌++◌, Some, map, slice_get, OnOk};
ghost use Rattle.fb_geometry.specs.Shape.{Shape};
ghost use Rattle.fb_model.specs.History.{Past, finished, wanted};
ghost use Rattle.fb_model.specs.Deliveries.{delivery_row, caught_rows, missed};
ghost use Rattle.fb_tasks.specs.Telling.{Tells};
ghost use Rattle.fb_decide.specs.Deliveries.{TellsUpToDate, HasDelivered, AreDeliverable, held_now, past_with};

use fb_plan::caught;
use fb_rows::{BackRow, BackRows, Catch, DeliveryRow, Dwell, How};
use fb_service::Disk;
use fb_store::{Store, runs_are_fewest};
use fb_tasks::{Sessions, reads_change_nothing};
use fb_units::{NoMemory, Request};
use fb_wanted::Wanted;
use std::alloc::Global;

/// The background between two events of a replay.
///
/// At a decision it is prepared first (`prepare`); around a service blocks are delivered
/// (`deliver_around`): in the gap (`go_through`) and by the read itself (`ride`). Then the request
/// has finished (`after_service`). Where the head stays, `deliver_idle` delivers.
#[derive(Drop)]
pub struct Background {
    /// The tasks, in order of opening.
    pub sessions: Sessions,
    /// Their registered blocks, each with its state.
    pub blocks: Wanted,
    /// The background rows that haven't been taken yet.
    pub rows: BackRows,
}

impl Background {
    /// Delivers a wanted block with what its sectors hold now, and adds its rows.
    ///
    /// The only error is out of memory.
    pub fn deliver(
        &mut self,
        alloc: Global,
        store: &Store,
        how: How,
        catch: Catch,
    ) -> Result<(), NoMemory>
        requires wanted { (disk : Shape) × (past : Past) × (index : ℕ) × TellsUpToDate disk past self.old
            × (slice_get (wanted past) index ≡ Some catch.block) }
        ensures { OnOk result ((disk : Shape) (past : Past) (index : ℕ) → TellsUpToDate disk past self.old
            → slice_get (wanted past) index ≡ Some catch.block
            → HasDelivered disk past (delivery_row (held_now store.now) how catch ∷ []) self.old.rows self.new) }
    {
        runs_are_fewest();
        let content = store.runs(alloc, catch.block.lbn, catch.block.count)?;
        let got = DeliveryRow {
            block: catch.block,
            begin: catch.begin,
            end: catch.end,
            how,
            bad: content.bad() as u32,
            content,
        };
        self.sessions
            .delivered(&mut self.blocks, got, &mut self.rows)
    }

    /// Delivers these blocks one after another.
    ///
    /// The only error is out of memory.
    pub fn deliver_all(
        &mut self,
        alloc: Global,
        store: &Store,
        how: How,
        catches: &[Catch],
    ) -> Result<(), NoMemory>
        requires { (disk : Shape) × (past : Past) × TellsUpToDate disk past self.old
            × AreDeliverable past (map (delivery_row (held_now store.now) how) catches.now) }
        ensures { OnOk result ((disk : Shape) (past : Past) → TellsUpToDate disk past self.old
            → AreDeliverable past (map (delivery_row (held_now store.now) how) catches.now)
            → HasDelivered disk past (map (delivery_row (held_now store.now) how) catches.now) self.old.rows self.new) }
    {
        for catch in catches {
            self.deliver(alloc, store, how, *catch)?;
        }
        Ok(())
    }

    /// Delivers all that the head catches in a dwell.
    ///
    /// The only error is out of memory.
    pub fn deliver_in_dwell(
        &mut self,
        alloc: Global,
        disk: &Disk,
        store: &Store,
        how: How,
        dwell: Dwell,
    ) -> Result<(), NoMemory>
        requires current { (past : Past) × TellsUpToDate disk.now.map past self.old }
        requires early { dwell.begin ≤ 9 * 10 ^ 18 }
        ensures delivered { OnOk result ((past : Past) → TellsUpToDate disk.now.map past self.old
            → HasDelivered disk.now.map past (caught_rows disk.now (held_now store.now) how dwell (wanted past)) self.old.rows self.new) }
        ensures left { OnOk result ((past : Past) → TellsUpToDate disk.now.map past self.old
            → wanted (past_with past (caught_rows disk.now (held_now store.now) how dwell (wanted past)))
            ≡ missed disk.now dwell (wanted past)) }
    {
        let catches = caught(alloc, disk, &self.blocks, dwell)?;
        self.deliver_all(alloc, store, how, catches.as_slice())
    }

    /// Adds the row of an idle dwell, and delivers all that the head catches in it.
    ///
    /// The only error is out of memory.
    pub fn deliver_idle(
        &mut self,
        alloc: Global,
        disk: &Disk,
        store: &Store,
        dwell: Dwell,
    ) -> Result<(), NoMemory>
        requires current { (past : Past) × TellsUpToDate disk.now.map past self.old }
        requires early { dwell.begin ≤ 9 * 10 ^ 18 }
        ensures { OnOk result ((past : Past) → TellsUpToDate disk.now.map past self.old
            → HasDelivered disk.now.map past (caught_rows disk.now (held_now store.now) How.Idle dwell (wanted past))
            (self.old.rows ++ BackRow.Idle dwell ∷ []) self.new) }
    {
        self.rows.push(BackRow::Idle(dwell))?;
        self.deliver_in_dwell(alloc, disk, store, How::Idle, dwell)
    }

    /// A request has finished: blocks that a write has overwritten may be wanted again.
    pub fn after_service(&mut self, request: Request)
        requires { (disk : Shape) × (past : Past) × Tells disk past self.old.sessions self.old.blocks }
        ensures tells { (disk : Shape) (past : Past) → Tells disk past self.old.sessions self.old.blocks
            → Tells disk (finished request ∷ past) self.new.sessions self.new.blocks }
        ensures rows { self.new.rows ≡ self.old.rows }
    {
        reads_change_nothing();
        if request.write {
            self.sessions
                .after_write(&mut self.blocks, request.lbn, request.count);
        }
    }
}
