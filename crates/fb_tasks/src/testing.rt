// What a test of completion makes of a session, and the rows that it gives.
ghost use Rattle.std.specs.Prelude.{◌≡◌, ℕ, List, [], ◌∷◌, ◌++◌, ◌+◌, ◌<◌, ◌≤◌, ◌^◌, ◌&&◌, not, if◌then◌else◌, true, None, Some, filter};
ghost use Rattle.std.specs.Prelude.{length, slice_get, OnOk, OnErr, IfOk, IfSome};
ghost use Rattle.fb_geometry.specs.Shape.{Shape};
ghost use Rattle.fb_script.specs.Sessions.{is_backup, is_clean};
ghost use Rattle.fb_store.specs.Ranges.{held_at};
ghost use Rattle.fb_wanted.specs.declared.block.Entry.{Entry};
ghost use Rattle.fb_wanted.specs.Counting.{counts_of};
ghost use Rattle.fb_wanted.specs.States.{is_block, is_delivered};
ghost use Rattle.fb_clean.specs.Segments.{live_of};
ghost use Rattle.fb_rows.specs.declared.back.BackRow.TheVariants.{Segment as BackSegment, Complete as BackComplete};
ghost use Rattle.fb_model.specs.History.{Past, tested, is_open_backup};
ghost use Rattle.fb_model.specs.Completion.{view, is_complete};
ghost use Rattle.fb_model.specs.Images.{complete_rows};
ghost use Rattle.fb_tasks.specs.Keeping.{IsSealed, without_aborted};
ghost use Rattle.fb_tasks.specs.Taken.{found_for, segment_rows_found, seal_rows_found, ends_of};
ghost use Rattle.fb_tasks.specs.Leaving.{HasGrown, HasBegun, by_calls};
ghost use Rattle.fb_tasks.specs.Standing.{Stands, HoldsBlocks, IsAtWork, HasChosen, MayFinish, StandsAfterTest};

use crate::session::{Session, Stamp};
use fb_rows::{BackRow, BackRows, CompleteRow, SealRow, SegmentRow};
use fb_script::Kind;
use fb_store::Contents;
use fb_units::{NoMemory, Ns};
use fb_wanted::{State, Wanted};
use std::alloc::Global;

impl Session {
    /// Finishes the chosen segment, if each of its blocks is delivered, and adds its row.
    pub fn test_segment(
        &mut self,
        alloc: Global,
        wanted: &Wanted,
        task: u32,
        now: Ns,
        rows: &mut BackRows,
    ) -> Result<(), NoMemory>
        ensures ok { OnOk result ((disk : Shape) (past : Past) → MayFinish disk past task self.old wanted.now
            → (Stands (view past task) self.new) × (IsAtWork (view past task).work self.new)
            × (rows.new ≡ rows.old ++ segment_rows_found past now task)) }
        ensures err { OnErr result (rows.new ≡ rows.old) }
        ensures touched { self.new.touched ≡ self.old.touched }
        ensures chunks { self.new.chunks ≡ self.old.chunks }
    {
        let counts = wanted.counts(task);
        if counts.delivered != counts.registered {
            return Ok(());
        }
        match self.chosen_segment() {
            Some(segment) => {
                let content = self.log.packed(alloc, segment)?;
                self.finish(task, segment, now, content, rows)
            }
            None => Ok(()),
        }
    }

    // The segment that a clean session was given last, until it is finished.
    fn chosen_segment(&self) -> Option<u32>
        ensures value { result ≡ if is_clean self.now.kind then self.now.log.unfinished else None }
        ensures known { IfSome result (λ segment. (0 < segment) × (segment ≤ length self.now.log.segments)) }
    {
        match self.kind {
            Kind::Clean => self.log.unfinished(),
            Kind::Plain | Kind::Backup | Kind::Scrub => None,
        }
    }

    /// Finishes the chosen segment, and adds its row.
    pub fn finish(
        &mut self,
        task: u32,
        segment: u32,
        now: Ns,
        content: Contents,
        rows: &mut BackRows,
    ) -> Result<(), NoMemory>
        requires added { (0 < segment) × (segment ≤ length self.old.log.segments) }
        requires chosen { self.old.log.unfinished ≡ Some segment }
        ensures session { self.new ≡ record self.old { log = record self.old.log { unfinished = None } } }
        ensures row { OnOk result (rows.new ≡ rows.old ++ BackSegment
            (record { task = task; segment = segment; instant = now; live = length (live_of self.old.log segment); content = content })
            ∷ []) }
        ensures err { OnErr result (rows.new ≡ rows.old) }
    {
        let live = self.log.live_count(segment);
        self.log.finish(segment);
        rows.push(BackRow::Segment(SegmentRow {
            task,
            segment,
            instant: now,
            live,
            content,
        }))
    }

    /// Tests whether the task is complete, and adds the rows of its seal and its completion.
    #[tactic(auto, using(crate::proofs::Leaving::grown_more))]
    pub fn test(
        &mut self,
        alloc: Global,
        wanted: &Wanted,
        task: u32,
        now: Ns,
        rows: &mut BackRows,
    ) -> Result<(), NoMemory>
        requires { (disk : Shape) × (past : Past) × HasChosen disk past task self.old wanted.now }
        ensures tested { OnOk result ((disk : Shape) (past : Past) → HasChosen disk past task self.old wanted.now
            → StandsAfterTest past task now self.new rows.old rows.new) }
        ensures err_rows { OnErr result ((disk : Shape) (past : Past) → HasChosen disk past task self.old wanted.now
            → HasBegun rows.old (ends_of past now task) rows.new) }
        ensures grown { HasGrown rows.old rows.new }
        ensures same { (by_calls self.new ≡ by_calls self.old) × (self.new.touched ≡ self.old.touched) }
        ensures chunks { self.new.chunks ≡ self.old.chunks }
    {
        let complete = self.is_complete(wanted.counts(task));
        let stamp = Stamp { task, instant: now };
        self.add_seal(alloc, wanted, stamp, complete, rows)?;
        self.add_completion(stamp, complete, rows)
    }

    // Seals the backup if it is complete and was not sealed before, and adds the seal's row.
    fn add_seal(
        &mut self,
        alloc: Global,
        wanted: &Wanted,
        stamp: Stamp,
        complete: bool,
        rows: &mut BackRows,
    ) -> Result<(), NoMemory>
        requires { (disk : Shape) × (past : Past) × HoldsBlocks disk past wanted.now }
        ensures session { IsSealed (complete && (is_backup self.old.kind && not self.old.sealed)) self.old self.new }
        ensures rows { OnOk result ((disk : Shape) (past : Past) → HoldsBlocks disk past wanted.now → Stands (view past stamp.task) self.old
            → complete ≡ is_complete past stamp.task
            → rows.new ≡ rows.old ++ seal_rows_found past stamp.instant stamp.task) }
        ensures grown { HasGrown rows.old rows.new }
        ensures err { OnErr result (rows.new ≡ rows.old) }
    {
        if !complete || !self.is_open_backup() {
            return Ok(());
        }
        let registered = wanted.counts(stamp.task).registered;
        let content = self.seal(alloc, wanted, stamp.task, registered)?;
        rows.push(BackRow::Seal(SealRow {
            task: stamp.task,
            instant: stamp.instant,
            content,
        }))
    }

    // Notes whether the task is complete, and adds the row of its completion if it wasn't at the test before.
    fn add_completion(
        &mut self,
        stamp: Stamp,
        complete: bool,
        rows: &mut BackRows,
    ) -> Result<(), NoMemory>
        ensures session { self.new ≡ record self.old { complete = complete } }
        ensures rows { OnOk result (rows.new ≡ rows.old ++ (if complete && not self.old.complete
            then BackComplete (record { task = stamp.task; instant = stamp.instant }) ∷ [] else [])) }
        ensures grown { HasGrown rows.old rows.new }
        ensures err { OnErr result (rows.new ≡ rows.old) }
    {
        let was_complete = self.complete;
        self.complete = complete;
        if !complete || was_complete {
            return Ok(());
        }
        rows.push(BackRow::Complete(CompleteRow {
            task: stamp.task,
            instant: stamp.instant,
        }))
    }

    // Seals the backup, and gives its image.
    fn seal(
        &mut self,
        alloc: Global,
        wanted: &Wanted,
        task: u32,
        registered: u32,
    ) -> Result<Contents, NoMemory>
        requires blocks { (disk : Shape) × (past : Past) × HoldsBlocks disk past wanted.now }
        requires registered { registered ≡ (counts_of task wanted.now).registered }
        ensures session { IsSealed true self.old self.new }
        ensures content { IfOk result (λ content. (disk : Shape) (past : Past) → HoldsBlocks disk past wanted.now
            → Stands (view past task) self.old → is_open_backup past task ≡ true → is_complete past task ≡ true
            → content
            ≡ found_for (view past task).work (filter (λ block. is_delivered ((view past task).bare block)) (view past task).blocks)) }
    {
        self.sealed = true;
        for number in 0..registered {
            self.drop_aborted(wanted, task, number)?;
        }
        self.image.contents(alloc)
    }

    // Takes an aborted block's sectors out of the image.
    fn drop_aborted(&mut self, wanted: &Wanted, task: u32, number: u32) -> Result<(), NoMemory>
        requires { (e : Entry) × (i : ℕ) × (slice_get wanted.now i ≡ Some e) × (is_block task number e ≡ true)
            × (e.block.lbn + e.block.count ≤ 10 ^ 12) }
        ensures session { self.new ≡ record self.old { image = self.new.image } }
        ensures image { OnOk result ((e : Entry) (i lbn : ℕ) → slice_get wanted.now i ≡ Some e → is_block task number e ≡ true
            → held_at self.new.image lbn ≡ without_aborted e lbn (held_at self.old.image lbn)) }
    {
        let entry = wanted.entry(task, number);
        match entry.state {
            State::Aborted => self
                .image
                .drop_range(entry.block.lbn, entry.block.count as u64),
            State::Wanted | State::Suspended | State::Delivered => Ok(()),
        }
    }
}
