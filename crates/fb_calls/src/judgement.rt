// What a call may ask for after those before it.
ghost use Rattle.std.specs.Prelude.{◌≡◌, ◌+◌, ◌*◌, ◌<◌, ◌≤◌, ◌^◌, not, true, length, IfOk, IfSome, OnOk, IsTrue};
ghost use Rattle.std.specs.Option.{option_copied};
ghost use Rattle.fb_geometry.specs.Places.{places};
ghost use Rattle.fb_units.specs.Judging.{refuse};
ghost use Rattle.fb_units.specs.Lines.{fields_of};
ghost use Rattle.fb_calls.specs.declared.fault.CallsReason.TheVariants.{WrongKind, BeyondDisk};
ghost use Rattle.fb_calls.specs.declared.entry.Asked.TheVariants.{Want as AskedWant, Promote as AskedPromote, Segment as AskedSegment};
ghost use Rattle.fb_calls.specs.Live.{is_live};
ghost use Rattle.fb_script.specs.Sessions.{is_clean};
ghost use Rattle.fb_calls.specs.Sessions.{task_of};
ghost use Rattle.fb_calls.specs.Judgement.{is_beyond, some_on_disk, opened, allowed, allowed_for, task_for, call_of};
ghost use Rattle.fb_calls.specs.Reading.{line_read};
ghost use Rattle.fb_calls.specs.Reader.{said, action, call, progress, with_step, HasBlock, IsWithin, IsAskedWithin, IsSmall};
ghost use Rattle.fb_calls.specs.Reader.{IsOnSession, HasRoom, IsReader, AreBlocksOf, IsAllowed, IsStep, MayFollow};
ghost use Rattle.fb_calls.specs.Verdict.{Agrees};

use crate::CallsReason;
use crate::blocks::{count_cuts, count_live_cuts};
use crate::entry::{Asked, Entry, SegmentFields, read_entry};
use crate::opened_task::OpenedTask;
use crate::reader::Reader;
use fb_script::Kind;
use fb_sectormap::SectorMap;
use fb_units::{Ns, next_field};

const MOST_BLOCKS: u64 = 16_000_000;

const MOST_READS: u64 = 1_000_000;

const MOST_SECTORS: u64 = 2_048;

const MOST_SEGMENT_BLOCKS: u64 = 4_096;

/// A call that is allowed: its line and instant, its task by name and number, what it asks for, and
/// into how many blocks that is cut.
#[derive(Clone, Copy)]
pub struct Step<'a> {
    /// The line, counted from 1.
    pub line: u64,
    /// The instant, in nanoseconds.
    pub instant: Ns,
    /// The name of the task.
    pub name: &'a [u8],
    /// The number of the task, from 0 in order of opening.
    pub task: usize,
    /// What is asked for.
    pub asked: Asked<'a>,
    /// Into how many blocks that is cut.
    pub blocks: u64,
}

// The task that is allowed what is asked for, and into how many blocks that is cut.
#[derive(Clone, Copy)]
struct Allowed {
    task: usize,
    blocks: u64,
}

impl Reader {
    // The call of a line; None if the line is blank.
    #[tactic(auto, unfolding(crate::specs::Reading::line_read))]
    pub fn step<'a>(
        &self,
        map: &SectorMap,
        number: u64,
        line: &'a [u8],
    ) -> Result<Option<Step<'a>>, CallsReason>
        requires { IsReader self.now }
        ensures value { Agrees (with_step map.now (progress self.now)) result
            (line_read map.now number (progress self.now) (fields_of line.now)) }
        ensures next { IfOk result (MayFollow map.now (progress self.now)) }
    {
        if next_field(line).is_none() {
            return Ok(None);
        }
        Ok(Some(self.judge(map, number, read_entry(line)?)?))
    }

    // The call of an entry.
    #[tactic(auto, unfolding(crate::specs::Judgement::call_of))]
    fn judge<'a>(
        &self,
        map: &SectorMap,
        number: u64,
        entry: Entry<'a>,
    ) -> Result<Step<'a>, CallsReason>
        requires reader { IsReader self.now }
        requires within { IsAskedWithin entry.asked }
        ensures value { Agrees call result (call_of map.now (progress self.now) number (said entry.entry)) }
        ensures name { IfOk result (λ step. step.name ≡ entry.entry.name) }
        ensures next { IfOk result (IsStep map.now (progress self.now)) }
    {
        if entry.instant < self.instant {
            return Err(CallsReason::OutOfOrder);
        }
        let asked = entry.asked?;
        let allowed = self.task_for(map, entry.name, asked)?;
        Ok(Step {
            line: number,
            instant: entry.instant,
            name: entry.name,
            task: allowed.task,
            asked,
            blocks: allowed.blocks,
        })
    }

    // The task, if it is allowed what is asked for.
    #[tactic(auto, unfolding(crate::specs::Judgement::task_for))]
    fn task_for(
        &self,
        map: &SectorMap,
        name: &[u8],
        asked: Asked<'_>,
    ) -> Result<Allowed, CallsReason>
        requires reader { IsReader self.now }
        requires within { IsWithin asked }
        ensures value { Agrees (λ found. found.task) result (task_for map.now (progress self.now) name.now (action asked.entry)) }
        ensures allowed { IfOk result (λ found. IsAllowed map.now (progress self.now) name.now asked.entry found.task found.blocks) }
    {
        match asked {
            Asked::Open { weight, block, .. } => {
                let task = self.opened(name, weight, block)?;
                Ok(Allowed { task, blocks: 0 })
            }
            Asked::Want { .. }
            | Asked::Abort { .. }
            | Asked::Promote { .. }
            | Asked::Suspend
            | Asked::Resume
            | Asked::Close
            | Asked::Segment(_) => self.allowed_for(map, name, asked),
        }
    }

    // The number of a task, if it may be opened.
    #[tactic(auto, unfolding(crate::specs::Judgement::opened))]
    fn opened(&self, name: &[u8], weight: u64, block: u64) -> Result<usize, CallsReason>
        ensures value { result ≡ opened (progress self.now).names name.now weight block }
        ensures task { IfOk result (λ task. task ≡ length self.now.names) }
        ensures free { OnOk result (task_of (progress self.now).names name.now ≡ None) }
        ensures weight { OnOk result (weight ≤ 1000) }
        ensures block { OnOk result ((1 ≤ block) × (block ≤ 2048)) }
    {
        if self.names.task_of(name).is_some() {
            return Err(CallsReason::TaskTaken);
        }
        if weight < 1 || weight > 1_000 {
            return Err(CallsReason::WeightOutOfRange);
        }
        if block < 1 || block > 2_048 {
            return Err(CallsReason::BlockOutOfRange);
        }
        Ok(self.names.len())
    }

    // The opened task with this name, if its session is allowed what is asked for.
    #[tactic(auto, unfolding(crate::specs::Judgement::allowed_for))]
    fn allowed_for(
        &self,
        map: &SectorMap,
        name: &[u8],
        asked: Asked<'_>,
    ) -> Result<Allowed, CallsReason>
        requires reader { IsReader self.now }
        requires within { IsWithin asked }
        requires on_session { IsOnSession asked }
        ensures value { Agrees (λ found. found.task) result (allowed_for map.now (progress self.now) name.now (action asked.entry)) }
        ensures allowed { IfOk result (λ found. IsAllowed map.now (progress self.now) name.now asked.entry found.task found.blocks) }
    {
        let task = match self.names.task_of(name) {
            Some(task) => task,
            None => return Err(CallsReason::UnknownTask),
        };
        let session = self.sessions[task];
        if session.closed {
            return Err(CallsReason::Closed);
        }
        let blocks = self.allowed(map, session, asked)?;
        Ok(Allowed { task, blocks })
    }

    // Into how many blocks an action is cut, if the session is allowed it.
    #[tactic(auto, unfolding(crate::specs::Judgement::allowed))]
    fn allowed(
        &self,
        map: &SectorMap,
        session: OpenedTask,
        asked: Asked<'_>,
    ) -> Result<u64, CallsReason>
        requires few { self.now.blocks ≤ 16 * 10 ^ 6 }
        requires session { HasBlock session }
        requires within { IsWithin asked }
        requires on_session { IsOnSession asked }
        ensures value { Agrees (λ _. tt) result (allowed map.now (progress self.now) session (action asked.entry)) }
        ensures blocks { IfOk result (AreBlocksOf map.now self.now.blocks session.block asked.entry) }
        ensures small { OnOk result (IsSmall asked.entry) }
        ensures room { OnOk result (HasRoom self.now.reads asked.entry) }
    {
        match asked {
            Asked::Want { first, count } => self.wanted(map, session, first, count),
            Asked::Abort { first, count } => {
                not_clean(session)?;
                some_on_disk(map, first, count)?;
                Ok(0)
            }
            Asked::Promote { first, count } => {
                self.promoted(map, session, first, count)?;
                Ok(0)
            }
            Asked::Segment(segment) => self.added(map, session, segment),
            Asked::Open { .. } | Asked::Suspend | Asked::Resume | Asked::Close => Ok(0),
        }
    }

    // Into how many blocks the range of a want is cut, if the session may want it.
    #[tactic(auto, unfolding(crate::specs::Judgement::allowed))]
    fn wanted(
        &self,
        map: &SectorMap,
        session: OpenedTask,
        first: u64,
        count: u64,
    ) -> Result<u64, CallsReason>
        requires few { self.now.blocks ≤ 16 * 10 ^ 6 }
        requires session { HasBlock session }
        requires within { IsWithin (AskedWant first count) }
        ensures value { Agrees (λ _. tt) result (allowed map.now (progress self.now) session (action (AskedWant first count))) }
        ensures blocks { IfOk result (AreBlocksOf map.now self.now.blocks session.block (AskedWant first count)) }
    {
        not_clean(session)?;
        if session.kind == Kind::Backup && session.wanted {
            return Err(CallsReason::WantedTwice);
        }
        some_on_disk(map, first, count)?;
        let room = MOST_BLOCKS - self.blocks;
        match count_cuts(map, session.block, first, count, room) {
            Some(blocks) => Ok(blocks),
            None => Err(CallsReason::TooManyBlocks),
        }
    }

    // Ok if a range may be promoted.
    #[tactic(auto, unfolding(crate::specs::Judgement::allowed))]
    fn promoted(
        &self,
        map: &SectorMap,
        session: OpenedTask,
        first: u64,
        count: u64,
    ) -> Result<(), CallsReason>
        requires within { IsWithin (AskedPromote first count) }
        ensures value { result ≡ allowed map.now (progress self.now) session (action (AskedPromote first count)) }
        ensures small { OnOk result (count ≤ 2048) }
        ensures room { OnOk result (self.now.reads + 1 ≤ 10 ^ 6) }
    {
        some_on_disk(map, first, count)?;
        if count > MOST_SECTORS {
            return Err(CallsReason::TooLarge);
        }
        if self.reads >= MOST_READS {
            return Err(CallsReason::TooMany);
        }
        Ok(())
    }

    // Into how many blocks the live blocks of a segment are cut, if the session may get it.
    #[tactic(auto, unfolding(crate::specs::Judgement::allowed))]
    fn added(
        &self,
        map: &SectorMap,
        session: OpenedTask,
        segment: SegmentFields<'_>,
    ) -> Result<u64, CallsReason>
        requires few { self.now.blocks ≤ 16 * 10 ^ 6 }
        requires session { HasBlock session }
        requires within { IsWithin (AskedSegment segment) }
        ensures value { Agrees (λ _. tt) result (allowed map.now (progress self.now) session (action (AskedSegment segment.entry))) }
        ensures blocks { IfOk result (AreBlocksOf map.now self.now.blocks session.block (AskedSegment segment.entry)) }
        ensures small { OnOk result (segment.entry.blocks ≤ 4096) }
    {
        if session.kind != Kind::Clean {
            return Err(CallsReason::WrongKind);
        }
        on_disk(map, segment.first, segment.blocks * session.block as u64)?;
        if segment.blocks > MOST_SEGMENT_BLOCKS {
            return Err(CallsReason::TooLarge);
        }
        let room = MOST_BLOCKS - self.blocks;
        match count_live_cuts(
            map,
            session.block,
            segment.first,
            segment.blocks,
            segment.live,
            room,
        ) {
            Some(blocks) => Ok(blocks),
            None => Err(CallsReason::TooManyBlocks),
        }
    }
}

// Ok unless the session is a clean one, which may not want or abort a range.
fn not_clean(session: OpenedTask) -> Result<(), CallsReason>
    ensures { result ≡ refuse WrongKind (is_clean session.kind) }
{
    if session.kind == Kind::Clean {
        return Err(CallsReason::WrongKind);
    }
    Ok(())
}

// Ok if a range has sectors, and all of them are on the disk.
fn some_on_disk(map: &SectorMap, first: u64, count: u64) -> Result<(), CallsReason>
    requires first { first ≤ 10 ^ 15 }
    requires count { count ≤ 10 ^ 15 }
    ensures value { result ≡ some_on_disk map.now first count }
    ensures on_disk { OnOk result (first + count ≤ length (places map.now)) }
{
    if count == 0 {
        return Err(CallsReason::Empty);
    }
    on_disk(map, first, count)
}

// Ok if all of these sectors are on the disk.
fn on_disk(map: &SectorMap, first: u64, count: u64) -> Result<(), CallsReason>
    requires { first + count < 2 ^ 64 }
    ensures value { result ≡ refuse BeyondDisk (is_beyond map.now first count) }
    ensures on_disk { OnOk result (first + count ≤ length (places map.now)) }
{
    if first + count > map.count() {
        return Err(CallsReason::BeyondDisk);
    }
    Ok(())
}
