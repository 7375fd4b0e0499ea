// The replay, and the judgement of its reports, in the order of the policy that the words name.
ghost use Rattle.std.specs.Prelude.{◌≡◌, ◌≤◌, ◌*◌, ◌^◌, [], length, IfOk};
ghost use Rattle.fb_script.specs.Allowed.{tasks};
ghost use Rattle.fb_check.specs.Printed.{lines_of, reports_of};
ghost use Rattle.fb_check.specs.Verdict.{IsVerdict};
ghost use Rattle.fb_decide.specs.RunInputs.{inputs_of};
ghost use Rattle.fb_model.specs.Accepted.{IsAccepted};
ghost use Rattle.fb_model.specs.FullRun.{IsFull};
ghost use Rattle.fb_report.specs.Grammar.{back_grammar, fore_grammar};
ghost use Rattle.fb_report.specs.Reading.{IsReport};
ghost use Rattle.fb_top.specs.Done.{CanBeTold};
ghost use Rattle.fb_inputs.specs.Read.{key_of};

use fb_check::{Printed, Verdict, judge_printed};
use fb_decide::RunInputs;
use fb_detour::IndexedPlanner;
use fb_engine::replay;
use fb_fastq::{ClookMap, FcfsRing, SptfBuckets, SstfMap};
use fb_queue::Queue;
use fb_rows::Run;
use fb_units::NoMemory;
use fb_words::Policy;
use std::alloc::Global;

/// The full run of accepted inputs, in a policy's order. The only error is out of memory.
pub fn replay_by(alloc: Global, policy: Policy, inputs: RunInputs<'_>) -> Result<Run, NoMemory>
    requires fit { IsAccepted (inputs_of inputs (key_of policy)) }
    requires names { length inputs.calls.now.names ≡ length (tasks inputs.calls.now.calls.items) }
    ensures full { IfOk result (IsFull (inputs_of inputs.entry (key_of policy))) }
    ensures early { IfOk result (λ run. run.end ≤ 9 * 10 ^ 18) }
    ensures told { IfOk result (CanBeTold inputs.entry.calls.now.names) }
{
    match policy {
        Policy::Fcfs => replay_in(alloc, FcfsRing::new(alloc), inputs),
        Policy::Sstf => replay_in(alloc, SstfMap::new(alloc), inputs),
        Policy::Clook => replay_in(alloc, ClookMap::new(alloc), inputs),
        Policy::Sptf => replay_in(alloc, SptfBuckets::new(alloc), inputs),
    }
}

/// The full run of accepted inputs, in the order of a queue, which must be new.
///
/// The only error is out of memory.
pub fn replay_in<Q: Queue>(alloc: Global, queue: Q, inputs: RunInputs<'_>) -> Result<Run, NoMemory>
    requires empty { Q.pending queue ≡ [] }
    requires fresh { Q.joined queue ≡ 0 }
    requires fit { IsAccepted (inputs_of inputs Q.key) }
    requires names { length inputs.calls.now.names ≡ length (tasks inputs.calls.now.calls.items) }
    ensures full { IfOk result (IsFull (inputs_of inputs.entry Q.key)) }
    ensures early { IfOk result (λ run. run.end ≤ 9 * 10 ^ 18) }
    ensures told { IfOk result (CanBeTold inputs.entry.calls.now.names) }
{
    let RunInputs {
        disk,
        latent,
        trace,
        calls,
        until,
    } = inputs;
    let planner = &IndexedPlanner::new();
    replay(alloc, disk, latent, trace, calls, queue, planner, until)
}

/// Judges two printed reports against the full run of accepted inputs, in a policy's order.
///
/// The only error is out of memory.
pub fn judge_by(
    alloc: Global,
    policy: Policy,
    inputs: RunInputs<'_>,
    printed: Printed<'_>,
) -> Result<Verdict, NoMemory>
    requires fit { IsAccepted (inputs_of inputs (key_of policy)) }
    requires names { length inputs.calls.now.names ≡ length (tasks inputs.calls.now.calls.items) }
    requires fore { IsReport fore_grammar (lines_of printed.fore) }
    requires back { IsReport back_grammar (lines_of printed.back) }
    ensures { IfOk result (IsVerdict (inputs_of inputs.entry (key_of policy)) (reports_of inputs.entry printed.entry)) }
{
    let planner = &IndexedPlanner::new();
    match policy {
        Policy::Fcfs => judge_printed(alloc, inputs, FcfsRing::new(alloc), planner, printed),
        Policy::Sstf => judge_printed(alloc, inputs, SstfMap::new(alloc), planner, printed),
        Policy::Clook => judge_printed(alloc, inputs, ClookMap::new(alloc), planner, printed),
        Policy::Sptf => judge_printed(alloc, inputs, SptfBuckets::new(alloc), planner, printed),
    }
}
