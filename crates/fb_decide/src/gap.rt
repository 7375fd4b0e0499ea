// The gap before a request, and what is delivered in it and along with the request.
ghost use Rattle.std.specs.Prelude.{◌≡◌, [], ◌∷◌, ◌++◌, OnOk};
ghost use Rattle.fb_model.specs.History.{Past, wanted};
ghost use Rattle.fb_model.specs.Plans.{IsPlan};
ghost use Rattle.fb_model.specs.Deliveries.{gap_of, caught_in_gap, missed_in_gap};
ghost use Rattle.fb_plan.specs.Ways.{IsGap};
ghost use Rattle.fb_decide.specs.Deliveries.{TellsUpToDate, HasDelivered, HasDeliveredAround, held_now, past_with};
ghost use Rattle.fb_decide.specs.Start.{IsStartOn, IsServiceOf, served_from};

use crate::background::Background;
use crate::start::Start;
use fb_plan::{Planner, dwells};
use fb_rows::{BackRow, Gap, GapRow, How};
use fb_service::{Disk, Service};
use fb_store::Store;
use fb_units::NoMemory;
use std::alloc::Global;

impl Background {
    /// Delivers what the head catches in the gap of a request, by the best plan, and then what a
    /// read carries.
    ///
    /// The only error is out of memory.
    pub fn deliver_around<P: Planner>(
        &mut self,
        alloc: Global,
        disk: &Disk,
        planner: &P,
        store: &Store,
        start: Start,
        service: &Service,
    ) -> Result<(), NoMemory>
        requires current { (past : Past) × TellsUpToDate disk.now.map past self.old }
        requires start { IsStartOn disk.now start }
        requires service { IsServiceOf disk.now start service.now }
        ensures { OnOk result ((past : Past) → TellsUpToDate disk.now.map past self.old
            → HasDeliveredAround disk.now store.now past (served_from disk.now start) self.old.rows self.new) }
    {
        let gap = gap_before(disk, start, service);
        let plan = planner.best(disk, &self.blocks, &gap);
        let name = start.request.name;
        self.go_through(alloc, disk, store, GapRow { name, gap, plan })?;
        self.ride(alloc, disk, store, start, service)
    }

    // Adds the row of a gap, goes through it by the row's plan, and delivers what its dwells catch.
    fn go_through(
        &mut self,
        alloc: Global,
        disk: &Disk,
        store: &Store,
        row: GapRow,
    ) -> Result<(), NoMemory>
        requires current { (past : Past) × TellsUpToDate disk.now.map past self.old }
        requires gap { IsGap disk.now row.gap }
        requires plan { IsPlan disk.now row.gap row.plan }
        ensures delivered { OnOk result ((past : Past) → TellsUpToDate disk.now.map past self.old
            → HasDelivered disk.now.map past (caught_in_gap disk.now (held_now store.now) row.gap row.plan (wanted past))
            (self.old.rows ++ BackRow.Gap row ∷ []) self.new) }
        ensures left { OnOk result ((past : Past) → TellsUpToDate disk.now.map past self.old
            → wanted (past_with past (caught_in_gap disk.now (held_now store.now) row.gap row.plan (wanted past)))
            ≡ missed_in_gap disk.now row.gap row.plan (wanted past)) }
    {
        self.rows.push(BackRow::Gap(row))?;
        let pair = dwells(disk, row.plan, &row.gap);
        self.deliver_in_dwell(alloc, disk, store, How::Gap, pair.early)?;
        self.deliver_in_dwell(alloc, disk, store, How::Gap, pair.late)
    }
}

// The gap before a request: it ends when the first sector begins to pass.
fn gap_before(disk: &Disk, start: Start, service: &Service) -> Gap
    requires start { IsStartOn disk.now start }
    requires service { IsServiceOf disk.now start service.now }
    ensures value { result ≡ gap_of disk.now (served_from disk.now start) }
    ensures gap { IsGap disk.now result }
{
    Gap {
        source: start.head,
        target: disk.map.place(start.request.lbn).track,
        now: start.instant,
        deadline: service.media,
        write: start.request.write,
    }
}
