// Reading a script, line by line.
ghost use Rattle.std.specs.Prelude.{◌≡◌, ◌+◌, ◌*◌, ◌≤◌, ◌^◌, [], ◌∷◌, ◌++◌, length, None, IfOk, OnOk};
ghost use Rattle.std.specs.List.{AllByRecursion};
ghost use Rattle.fb_script.specs.Allowed.{tasks, IsScript};
ghost use Rattle.fb_script.specs.Blocks.{reads_in};
ghost use Rattle.fb_calls.specs.Judgement.{with_blocks};
ghost use Rattle.fb_calls.specs.Reading.{next_progress, calls_of, at_start, at_end};
ghost use Rattle.fb_calls.specs.Reader.{progress, action, call, HasBlock, HasRoom, IsNameFor, IsReader, IsTaskFor, IsSmall};
ghost use Rattle.fb_calls.specs.Reader.{IsWithin};
ghost use Rattle.fb_calls.specs.Sessions.{names_after, sessions_after, task_of};
ghost use Rattle.fb_calls.specs.Verdict.{Answers, accepted};

use crate::entry::Asked;
use crate::judgement::Step;
use crate::opened_task::OpenedTask;
use crate::task_names::TaskNames;
use crate::{CallsError, CallsFault};
use fb_script::{Call, Calls};
use fb_sectormap::SectorMap;
use fb_units::{NoMemory, Ns, next_line};
use std::alloc::Global;

// A task's number has 32 bits.
const MOST_CALLS: usize = 4_294_967_295;

// What was read of the lines so far.
#[derive(Drop)]
pub struct Reader {
    // The instant of the last call.
    pub instant: Ns,
    // The names of the tasks, in order of opening.
    pub names: TaskNames,
    // Their sessions, in the same order.
    pub sessions: Vec<OpenedTask>,
    // The number of blocks into which the wanted ranges and live blocks are cut.
    pub blocks: u64,
    // The number of promotes and requests of the trace together.
    pub reads: u64,
    // The calls.
    pub calls: Vec<Call>,
}

/// The calls of a script, for a disk and a trace of this many requests. An error names the first
/// faulty line, counted from 1, and the first reason why it is refused; or it is `NoMemory`, also
/// for a script of more than 2^32 - 1 calls.
pub fn read_calls(
    alloc: Global,
    bytes: &[u8],
    map: &SectorMap,
    trace_count: u64,
) -> Result<Calls, CallsError>
    ensures answer { Answers accepted result (calls_of map.now trace_count bytes.now) }
    ensures names { IfOk result (λ calls. length calls.names ≡ length (tasks calls.calls.items)) }
    ensures script { IfOk result (λ calls. IsScript map.now trace_count calls.calls.items) }
{
    let mut reader = Reader::new(alloc, trace_count);
    let mut rest = bytes;
    let mut number = 0;
    while let Some((line, others)) = next_line(rest) {
        number += 1;
        reader.read_line(alloc, map, number, line)?;
        rest = others;
    }
    Ok(reader.end())
}

impl Reader {
    // Before the first line.
    fn new(alloc: Global, trace_count: u64) -> Reader
        ensures start { progress result ≡ at_start trace_count }
        ensures sound { IsReader result }
    {
        Reader {
            instant: 0,
            names: TaskNames::new(alloc),
            sessions: Vec::new(alloc),
            blocks: 0,
            reads: trace_count,
            calls: Vec::new(alloc),
        }
    }

    // Reads the next line, which has this number.
    fn read_line(
        &mut self,
        alloc: Global,
        map: &SectorMap,
        number: u64,
        line: &[u8],
    ) -> Result<(), CallsError>
        requires { IsReader self.old }
        ensures answer { Answers (λ _. progress self.new) result (next_progress map.now number (progress self.old) line.now) }
        ensures sound { OnOk result (IsReader self.new) }
    {
        match self.step(map, number, line) {
            Ok(Some(step)) => Ok(self.add(alloc, step)?),
            Ok(None) => Ok(()),
            Err(reason) => Err(CallsError::Fault(CallsFault {
                line: number,
                reason,
            })),
        }
    }

    // Adds a call.
    fn add(&mut self, alloc: Global, step: Step<'_>) -> Result<(), NoMemory>
        requires reader { IsReader self.old }
        requires task { IsTaskFor self.old.sessions.items step.asked step.task }
        requires free { IsNameFor self.old.names step.asked step.name.now }
        requires room { HasRoom self.old.reads step.asked }
        requires small { IsSmall step.asked }
        requires within { IsWithin step.asked }
        requires few { self.old.blocks + step.blocks ≤ 16 * 10 ^ 6 }
        ensures call { OnOk result
            (progress self.new ≡ with_blocks step.entry.blocks step.entry.name.now (progress self.old) (call step.entry)) }
        ensures sound { OnOk result (IsReader self.new) }
    {
        if self.calls.len() >= MOST_CALLS {
            return Err(NoMemory);
        }
        let action = step.asked.action(alloc)?;
        self.mark(alloc, step)?;
        self.calls.push(Call {
            line: step.line,
            instant: step.instant,
            task: step.task as u32,
            action,
        })?;
        self.instant = step.instant;
        self.blocks += step.blocks;
        Ok(())
    }

    // Notes in the names, the sessions and the counts what a call changes.
    fn mark(&mut self, alloc: Global, step: Step<'_>) -> Result<(), NoMemory>
        requires reader { IsReader self.old }
        requires task { IsTaskFor self.old.sessions.items step.asked step.task }
        requires free { IsNameFor self.old.names step.asked step.name.now }
        requires room { HasRoom self.old.reads step.asked }
        requires small { IsSmall step.asked }
        ensures names { OnOk result
            (self.new.names ≡ names_after self.old.names step.entry.name.now (action step.entry.asked)) }
        ensures sessions { OnOk result
            (self.new.sessions.items ≡ sessions_after self.old.sessions.items step.entry.task (action step.entry.asked)) }
        ensures reads { OnOk result (self.new.reads ≡ self.old.reads + reads_in (action step.entry.asked)) }
        ensures calls { self.new.calls ≡ self.old.calls }
        ensures blocks { self.new.blocks ≡ self.old.blocks }
        ensures tasks { OnOk result (length self.new.sessions.items ≡ length self.new.names) }
        ensures has_blocks { OnOk result (AllByRecursion HasBlock self.new.sessions.items) }
        ensures few { OnOk result (length self.new.sessions.items ≤ length self.old.calls.items + 1) }
    {
        match step.asked {
            Asked::Open { kind, block, .. } => {
                let session = OpenedTask {
                    kind,
                    block: block as u32,
                    wanted: false,
                    closed: false,
                };
                self.open(alloc, step.name, session)?;
            }
            Asked::Want { .. } => {
                let session = self.sessions[step.task];
                self.sessions[step.task] = OpenedTask {
                    wanted: true,
                    ..session
                };
            }
            Asked::Close => {
                let session = self.sessions[step.task];
                self.sessions[step.task] = OpenedTask {
                    closed: true,
                    ..session
                };
            }
            Asked::Promote { .. } => self.reads += 1,
            Asked::Abort { .. } | Asked::Suspend | Asked::Resume | Asked::Segment(_) => {}
        }
        Ok(())
    }

    // Adds a session with a new name.
    fn open(&mut self, alloc: Global, name: &[u8], session: OpenedTask) -> Result<(), NoMemory>
        requires free { task_of self.old.names name.now ≡ None }
        requires tasks { length self.old.sessions.items ≡ length self.old.names }
        ensures names { OnOk result (self.new.names ≡ self.old.names ++ name.now ∷ []) }
        ensures sessions { OnOk result (self.new.sessions.items ≡ self.old.sessions.items ++ session ∷ []) }
        ensures tasks { OnOk result (length self.new.sessions.items ≡ length self.new.names) }
        ensures calls { self.new.calls ≡ self.old.calls }
        ensures blocks { self.new.blocks ≡ self.old.blocks }
        ensures reads { self.new.reads ≡ self.old.reads }
    {
        self.names.add(alloc, name)?;
        self.sessions.push(session)?;
        Ok(())
    }

    // The script, at the end of the text.
    fn end(self) -> Calls
        ensures { accepted result ≡ at_end (progress self) }
    {
        Calls {
            names: self.names.into_names(),
            calls: self.calls,
        }
    }
}
