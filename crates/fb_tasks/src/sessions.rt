// The sessions of a run, and what calls, deliveries and writes make of them.
ghost use Rattle.std.specs.Prelude.{◌≡◌, ◌≤◌, ◌<◌, ◌^◌, ◌*◌, ◌-◌, ℕ, List, [], ◌∷◌, ◌++◌, Bool, true, false, length, map, set, slice_get};
ghost use Rattle.std.specs.Prelude.{Some, OnOk, OnErr};
ghost use Rattle.std.specs.List.{flat_map};
ghost use Rattle.fb_geometry.specs.Shape.{Shape};
ghost use Rattle.fb_units.specs.declared.types.Request.{Request};
ghost use Rattle.fb_script.specs.declared.call.Call.{Call};
ghost use Rattle.fb_script.specs.declared.call.Action.TheVariants.{Open, Want, Abort, Suspend, Resume, Close, Segment};
ghost use Rattle.fb_wanted.specs.declared.block.Entry.{Entry};
ghost use Rattle.fb_wanted.specs.declared.block.Change.TheVariants.{Deliver};
ghost use Rattle.fb_wanted.specs.States.{after};
ghost use Rattle.fb_rows.specs.declared.back.BackRow.TheVariants.{Got as BackGot};
ghost use Rattle.fb_model.specs.History.{Past, called, tested, finished, task_numbers};
ghost use Rattle.fb_model.specs.Completion.{is_complete};
ghost use Rattle.fb_model.specs.Steps.{take_call, with_delivery, task_rows};
ghost use Rattle.fb_model.specs.Segments.{with_choices};
ghost use Rattle.fb_tasks.specs.declared.session.Session.{Session};
ghost use Rattle.fb_tasks.specs.Taken.{segment_rows_found, test_rows_found, rows_after, delivery_of, ends_of};
ghost use Rattle.fb_tasks.specs.Standing.{HaveChosen};
ghost use Rattle.fb_tasks.specs.Leaving.{HasBegun, entries_by, entries_chosen, OnlyTouched};
ghost use Rattle.fb_tasks.specs.Nearby.{AreNearby};
ghost use Rattle.fb_tasks.specs.Writing.{left_by_write, left_in};
ghost use Rattle.fb_tasks.specs.Telling.{Tells, MayTake, MaySettle, MayDeliver, IsUpToDate, IsCall, tested_at};

use crate::near::{chunks_near, forget_near, next_near, note_near};
use crate::session::{Session, Stamp};
use crate::touched::{forget, next_touched, note};
use crate::wanting::want_range;
use fb_rows::{BackRow, BackRows, DeliveryRow, TaskRow};
use fb_script::{Action, Call, Kind, Live};
use fb_sectormap::SectorMap;
use fb_units::{NoMemory, Ns};
use fb_wanted::Wanted;
use std::alloc::Global;
use std::collections::BTreeSet;
use std::marker::Model;

/// The sessions in order of opening: a session's index is its task's number.
///
/// What a call costs: a delivery or a call of a script, the work for its own task; to choose and test,
/// the work for each touched task. A task is touched by a delivery, a want, an abort, a new segment and
/// its close, until tasks next choose and are tested (one whose call ran out of memory may stay touched
/// for longer). A session to which nothing happens costs nothing.
///
/// A write looks at the open backups alone that wanted a block near its sectors. Each of them costs a
/// search for each chunk of 2,048 LBNs that the write touches, and one more. A want of a backup notes
/// each chunk of its range, and when tasks are next tested after the seal, these notes are taken out.
#[derive(Drop)]
pub struct Sessions {
    alloc: Global,
    sessions: Vec<Session>,
    // The tasks that were touched since tasks last chose and were tested.
    listed_touched: BTreeSet<u32>,
    // The open backups by the chunks in which their blocks begin: a write looks at these.
    near: BTreeSet<(u64, u32)>,
}

impl Model for Sessions {
    ghost use Rattle.std.specs.Prelude.{List};
    ghost use Rattle.fb_tasks.specs.declared.session.Session.{Session};
    ghost use Rattle.fb_tasks.specs.Listing.{AreListed};

    ghost Value = { List Session };

    ghost view = { λ s. s.sessions.items };

    ghost invariant = { λ s. AreListed s.sessions.items s.listed_touched s.near };
}

impl Sessions {
    /// No session.
    #[tactic(auto, unfolding(fb_model::specs::Completion::view))]
    pub fn new(alloc: Global) -> Self
        ensures { (disk : Shape) → Tells disk [] result [] }
    {
        Sessions {
            alloc,
            sessions: Vec::new(alloc),
            listed_touched: BTreeSet::new(alloc),
            near: BTreeSet::new(alloc),
        }
    }

    /// A call takes effect.
    ///
    /// If memory runs out, all sessions and blocks are as before, except that the first blocks of a want
    /// may be registered.
    #[tactic(auto, using(crate::proofs::Rules::of_one_session))]
    pub fn apply(
        &mut self,
        map: &SectorMap,
        wanted: &mut Wanted,
        call: &Call,
    ) -> Result<(), NoMemory>
        requires { (past : Past) × MayTake map.now past self.old wanted.old call.now }
        ensures ok { OnOk result ((past : Past) → MayTake map.now past self.old wanted.old call.now
            → Tells map.now (take_call map.now past call.now) self.new wanted.new) }
        ensures err_sessions { OnErr result (self.new ≡ self.old) }
        ensures err_blocks { OnErr result ((past : Past) → MayTake map.now past self.old wanted.old call.now
            → HasBegun wanted.old (entries_by map.now past call.now) wanted.new) }
    {
        match &call.action {
            Action::Open {
                kind,
                weight,
                block,
            } => self.open(*kind, *weight, *block),
            Action::Want { first, count } => self.want(map, wanted, call.task, *first, *count),
            Action::Abort { first, count } => self.abort(wanted, call.task, *first, *count),
            Action::Promote { .. } => Ok(()),
            Action::Suspend => {
                self.suspend(wanted, call.task);
                Ok(())
            }
            Action::Resume => {
                self.resume(wanted, call.task);
                Ok(())
            }
            Action::Close => self.close(map, wanted, call.task),
            Action::Segment {
                first,
                blocks: count,
                age,
                live,
            } => self.add_segment(map, call.task, *first, *count, *age, live),
        }
    }

    /// Brings the sessions up to date before a decision plans, which has nothing to do with how a head
    /// settles: lets each touched session choose segments and tests it, which would change nothing for
    /// any other; adds the rows that a decision has before its plan.
    ///
    /// If memory runs out, all rows and blocks that stood before are unchanged, and so is each session that
    /// was not touched; at most the first of the blocks and of the rows that were due follow.
    #[tactic(auto, using(crate::proofs::Leaving::touched_more))]
    pub fn settle(
        &mut self,
        map: &SectorMap,
        wanted: &mut Wanted,
        now: Ns,
        rows: &mut BackRows,
    ) -> Result<(), NoMemory>
        requires { (past : Past) × MaySettle map.now past self.old wanted.old }
        ensures tells { OnOk result ((past : Past) → MaySettle map.now past self.old wanted.old
            → Tells map.now (tested_at (with_choices map.now past) now) self.new wanted.new) }
        ensures up_to_date { OnOk result
            ((past : Past) → MaySettle map.now past self.old wanted.old → IsUpToDate (tested_at (with_choices map.now past) now)) }
        ensures rows { OnOk result ((past : Past) → MaySettle map.now past self.old wanted.old
            → rows.new ≡ rows.old ++ test_rows_found (with_choices map.now past) now) }
        ensures stay_sessions { OnlyTouched self.old self.new }
        ensures blocks { (past : Past) → MaySettle map.now past self.old wanted.old
            → HasBegun wanted.old (entries_chosen map.now past) wanted.new }
        ensures err_rows { OnErr result ((past : Past) → MaySettle map.now past self.old wanted.old
            → HasBegun rows.old (test_rows_found (with_choices map.now past) now) rows.new) }
    {
        self.choose_touched(map, wanted, now, rows)?;
        self.test_touched(wanted, now, rows)
    }

    /// A wanted block is delivered: adds its row, then its findings and the rows of its test.
    ///
    /// If memory runs out, the block is still delivered, no other block and no other task's session has
    /// changed, and at most the first of these rows were added. What its own session then holds isn't said.
    pub fn delivered(
        &mut self,
        wanted: &mut Wanted,
        got: DeliveryRow,
        rows: &mut BackRows,
    ) -> Result<(), NoMemory>
        requires { (disk : Shape) × (past : Past) × MayDeliver disk past self.old wanted.old got }
        ensures tells { OnOk result ((disk : Shape) (past : Past) → MayDeliver disk past self.old wanted.old got
            → Tells disk (with_delivery past (delivery_of past got)) self.new wanted.new) }
        ensures up_to_date { OnOk result ((disk : Shape) (past : Past) → MayDeliver disk past self.old wanted.old got
            → IsUpToDate (with_delivery past (delivery_of past got))) }
        ensures rows { OnOk result ((disk : Shape) (past : Past) → MayDeliver disk past self.old wanted.old got
            → rows.new ≡ rows.old ++ BackGot got ∷ rows_after past got) }
        ensures stay_sessions { (session : Session) × (self.new ≡ set self.old got.block.task session) }
        ensures blocks { wanted.new ≡ after got.block.task (Deliver got.block.index) wanted.old }
        ensures err_rows { OnErr result ((disk : Shape) (past : Past) → MayDeliver disk past self.old wanted.old got
            → HasBegun rows.old (BackGot got ∷ rows_after past got) rows.new) }
    {
        let task = got.block.task;
        wanted.deliver(task, got.block.index);
        // The task is tested at once, but a delivery that finishes its segment lets it choose another.
        self.touch(task)?;
        self.sessions[task as usize].take_delivery(self.alloc, wanted, got, rows)
    }

    /// A write has passed: blocks of open backups that it overwrote are wanted again.
    pub fn after_write(&mut self, wanted: &mut Wanted, first: u64, count: u32)
        requires { (disk : Shape) × (past : Past) × Tells disk past self.old wanted.old }
        ensures { (disk : Shape) (past : Past) (request : Request) → request.write ≡ true → request.lbn ≡ first → request.count ≡ count
            → Tells disk past self.old wanted.old → Tells disk (finished request ∷ past) self.new wanted.new }
    {
        self.rewant_near(wanted, first, count as u64);
    }

    /// Whether the task is complete.
    #[tactic(auto, using(crate::proofs::Complete::counts_small))]
    pub fn complete(&self, wanted: &Wanted, task: u32) -> bool
        requires opened { task < length self.now }
        requires tells { (disk : Shape) × (past : Past) × Tells disk past self.now wanted.now }
        ensures { (disk : Shape) (past : Past) → Tells disk past self.now wanted.now → result ≡ is_complete past task }
    {
        self.sessions[task as usize].is_complete(wanted.counts(task))
    }

    /// How each task stands, in order of opening. If memory runs out, at most the first of the rows were
    /// added.
    #[tactic(auto, using(crate::proofs::Complete::counts_small))]
    pub fn task_rows(&self, wanted: &Wanted, rows: &mut BackRows) -> Result<(), NoMemory>
        requires { (disk : Shape) × (past : Past) × Tells disk past self.now wanted.now }
        ensures ok { OnOk result ((disk : Shape) (past : Past) → Tells disk past self.now wanted.now
            → rows.new ≡ rows.old ++ task_rows past) }
        ensures err { OnErr result ((disk : Shape) (past : Past) → Tells disk past self.now wanted.now
            → HasBegun rows.old (task_rows past) rows.new) }
    {
        for task in 0..self.sessions.len() {
            let session = &self.sessions[task];
            let counts = wanted.counts(task as u32);
            rows.push(BackRow::Task(TaskRow {
                task: task as u32,
                kind: session.kind,
                registered: counts.registered,
                delivered: counts.delivered,
                aborted: counts.aborted,
                complete: session.is_complete(counts),
            }))?;
        }
        Ok(())
    }
}

impl Sessions {
    // Opens a session.
    fn open(&mut self, kind: Kind, weight: u32, block: u32) -> Result<(), NoMemory>
        requires { length self.old < 2 ^ 32 - 1 }
        ensures ok { OnOk result ((disk : Shape) (past : Past) (call : Call) (held : List Entry) → call.action ≡ Open kind weight block
            → MayTake disk past self.old held call → Tells disk (called call [] ∷ past) self.new held) }
        ensures err { OnErr result (self.new ≡ self.old) }
    {
        let session = Session::new(self.alloc, kind, weight, block);
        self.sessions.push(session)?;
        Ok(())
    }

    // Wants the blocks of a range.
    #[tactic(auto, using(crate::proofs::Listed::listed_near, crate::proofs::Listed::listed_anew))]
    fn want(
        &mut self,
        map: &SectorMap,
        wanted: &mut Wanted,
        task: u32,
        first: u64,
        count: u64,
    ) -> Result<(), NoMemory>
        requires opened { task < length self.old }
        requires call { (past : Past) × (call : Call) × IsCall task (Want first count) call
            × MayTake map.now past self.old wanted.old call }
        ensures ok { OnOk result ((past : Past) (call : Call) → IsCall task (Want first count) call
            → MayTake map.now past self.old wanted.old call → Tells map.now (take_call map.now past call) self.new wanted.new) }
        ensures err { OnErr result (self.new ≡ self.old) }
        ensures blocks { (past : Past) (call : Call) → IsCall task (Want first count) call → MayTake map.now past self.old wanted.old call
            → HasBegun wanted.old (entries_by map.now past call) wanted.new }
    {
        // A disk has at most 10^12 sectors.
        let _sectors = map.count();
        let session = &self.sessions[task as usize];
        let chunks = session.chunks_wanted(first, count);
        note_near(&mut self.near, task, chunks)?;
        want_range(map, wanted, session, task, first, count)?;
        note(&mut self.listed_touched, task)?;
        let wanting = &mut self.sessions[task as usize];
        wanting.touched = true;
        wanting.chunks = chunks;
        Ok(())
    }

    // Aborts the task's blocks that share a sector with the range.
    fn abort(
        &mut self,
        wanted: &mut Wanted,
        task: u32,
        first: u64,
        count: u64,
    ) -> Result<(), NoMemory>
        requires { task < length self.old }
        ensures ok { OnOk result ((disk : Shape) (past : Past) (call : Call) → IsCall task (Abort first count) call
            → MayTake disk past self.old wanted.old call → Tells disk (called call [] ∷ past) self.new wanted.new) }
        ensures err { OnErr result ((self.new ≡ self.old) × (wanted.new ≡ wanted.old)) }
    {
        self.touch(task)?;
        wanted.abort(task, first, count);
        Ok(())
    }

    #[tactic(auto, using(crate::proofs::Listed::listed_kept))]
    fn suspend(&mut self, wanted: &mut Wanted, task: u32)
        requires { task < length self.old }
        ensures { (disk : Shape) (past : Past) (call : Call) → IsCall task Suspend call → Tells disk past self.old wanted.old
            → Tells disk (called call [] ∷ past) self.new wanted.new }
    {
        self.sessions[task as usize].suspended = true;
        wanted.suspend(task);
    }

    #[tactic(auto, using(crate::proofs::Listed::listed_kept))]
    fn resume(&mut self, wanted: &mut Wanted, task: u32)
        requires { task < length self.old }
        ensures { (disk : Shape) (past : Past) (call : Call) → IsCall task Resume call → Tells disk past self.old wanted.old
            → Tells disk (called call [] ∷ past) self.new wanted.new }
    {
        self.sessions[task as usize].suspended = false;
        wanted.resume(task);
    }

    // Aborts what is left of the task, and drops the segments that it has not chosen.
    #[tactic(auto, using(crate::proofs::Frames::touched_length, crate::proofs::Listed::listed_kept))]
    fn close(&mut self, map: &SectorMap, wanted: &mut Wanted, task: u32) -> Result<(), NoMemory>
        requires { task < length self.old }
        ensures ok { OnOk result ((past : Past) (call : Call) → IsCall task Close call → Tells map.now past self.old wanted.old
            → Tells map.now (called call [] ∷ past) self.new wanted.new) }
        ensures err { OnErr result ((self.new ≡ self.old) × (wanted.new ≡ wanted.old)) }
    {
        self.touch(task)?;
        let closing = &mut self.sessions[task as usize];
        closing.closed = true;
        closing.log.drop_rest();
        wanted.abort(task, 0, map.count());
        Ok(())
    }

    // Adds a segment of `count` blocks to a task's log.
    #[tactic(auto, using(crate::proofs::Listed::listed_more, crate::proofs::Listed::listed_noted))]
    fn add_segment(
        &mut self,
        map: &SectorMap,
        task: u32,
        first: u64,
        count: u32,
        age: u64,
        live: &Live,
    ) -> Result<(), NoMemory>
        requires opened { task < length self.old }
        requires call { (past : Past) × (call : Call) × (held : List Entry) × IsCall task (Segment first count age live.now) call
            × MayTake map.now past self.old held call }
        ensures ok { OnOk result ((past : Past) (call : Call) (held : List Entry) → IsCall task (Segment first count age live.now) call
            → MayTake map.now past self.old held call → Tells map.now (called call [] ∷ past) self.new held) }
        ensures err { OnErr result (self.new ≡ self.old) }
    {
        // A disk has at most 10^12 sectors.
        let _sectors = map.count();
        // Not by `touch`: if the segment can't be added, the session has to stay as it was.
        note(&mut self.listed_touched, task)?;
        let cleaner = &mut self.sessions[task as usize];
        cleaner.log.add(first, count, age, live)?;
        cleaner.touched = true;
        Ok(())
    }

    // Something was done to a task that may change what it chooses or what its test gives.
    #[tactic(auto, using(crate::proofs::Listed::listed_more, crate::proofs::Listed::listed_noted))]
    fn touch(&mut self, task: u32) -> Result<(), NoMemory>
        requires { task < length self.old }
        ensures ok { OnOk result ((session : Session) → slice_get self.old task ≡ Some session
            → self.new ≡ set self.old task (record session { touched = true })) }
        ensures err { OnErr result (self.new ≡ self.old) }
    {
        note(&mut self.listed_touched, task)?;
        self.sessions[task as usize].touched = true;
        Ok(())
    }

    // Wants the task's blocks again that share a sector with the range, if it is an open backup.
    #[tactic(auto, using(crate::proofs::Written::open_left, crate::proofs::Written::other_left))]
    fn rewant(&self, wanted: &mut Wanted, task: u32, first: u64, count: u64)
        requires { task < length self.now }
        ensures { wanted.new ≡ map (left_in task self.now first count) wanted.old }
    {
        let session = &self.sessions[task as usize];
        if session.is_open_backup() {
            wanted.rewant(task, first, count, session.suspended);
        }
    }

    // Wants blocks of open backups again that share a sector with the range.
    #[tactic(auto, using(crate::proofs::Written::all_rewanted))]
    fn rewant_near(&self, wanted: &mut Wanted, first: u64, count: u64)
        requires { AreNearby self.now wanted.old }
        ensures { wanted.new ≡ map (left_by_write self.now first count) wanted.old }
    {
        let chunks = chunks_near(first, count);
        let opened = self.sessions.len() as u32;
        let mut task = next_near(&self.near, chunks, 0, opened);
        while task < opened {
            self.rewant(wanted, task, first, count);
            task = next_near(&self.near, chunks, task + 1, opened);
        }
    }

    // Lets each touched session choose, in order of opening: no other would choose anything.
    fn choose_touched(
        &mut self,
        map: &SectorMap,
        wanted: &mut Wanted,
        now: Ns,
        rows: &mut BackRows,
    ) -> Result<(), NoMemory>
        requires { (past : Past) × MaySettle map.now past self.old wanted.old }
        ensures chosen { OnOk result ((past : Past) → MaySettle map.now past self.old wanted.old
            → HaveChosen map.now (with_choices map.now past) self.new wanted.new
            × (rows.new ≡ rows.old
            ++ flat_map (segment_rows_found (with_choices map.now past) now) (task_numbers (with_choices map.now past)))) }
        ensures stay_sessions { OnlyTouched self.old self.new }
        ensures blocks { (past : Past) → MaySettle map.now past self.old wanted.old
            → HasBegun wanted.old (entries_chosen map.now past) wanted.new }
        ensures err_rows { OnErr result ((past : Past) → MaySettle map.now past self.old wanted.old
            → HasBegun rows.old
            (flat_map (segment_rows_found (with_choices map.now past) now) (task_numbers (with_choices map.now past))) rows.new) }
    {
        let mut from = 0;
        while let Some(task) = next_touched(&self.listed_touched, &self.sessions, from) {
            let stamp = Stamp { task, instant: now };
            self.sessions[task as usize].choose(self.alloc, map, wanted, stamp, rows)?;
            from = task + 1;
        }
        Ok(())
    }

    // Tests each touched session, in order of opening: no other would give a row.
    fn test_touched(
        &mut self,
        wanted: &Wanted,
        now: Ns,
        rows: &mut BackRows,
    ) -> Result<(), NoMemory>
        requires { (disk : Shape) × (past : Past) × HaveChosen disk past self.old wanted.now }
        ensures tested { OnOk result ((disk : Shape) (past : Past) → HaveChosen disk past self.old wanted.now
            → Tells disk (tested_at past now) self.new wanted.now
            × (rows.new ≡ rows.old ++ flat_map (ends_of past now) (task_numbers past))) }
        ensures stay_sessions { OnlyTouched self.old self.new }
        ensures err_rows { OnErr result ((disk : Shape) (past : Past) → HaveChosen disk past self.old wanted.now
            → HasBegun rows.old (flat_map (ends_of past now) (task_numbers past)) rows.new) }
    {
        let mut from = 0;
        while let Some(task) = next_touched(&self.listed_touched, &self.sessions, from) {
            let session = &mut self.sessions[task as usize];
            session.test(self.alloc, wanted, task, now, rows)?;
            session.touched = false;
            let chunks = session.take_sealed_chunks();
            forget(&mut self.listed_touched, task);
            forget_near(&mut self.near, task, chunks);
            from = task + 1;
        }
        Ok(())
    }
}

/// A read that has passed changes nothing.
pub fn reads_change_nothing()
    ensures { (disk : Shape) (past : Past) (request : Request) (sessions : List Session) (entries : List Entry) → request.write ≡ false
        → Tells disk past sessions entries → Tells disk (finished request ∷ past) sessions entries }
{}
