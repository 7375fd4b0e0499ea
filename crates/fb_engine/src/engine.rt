// The loop over decisions.
ghost use Rattle.std.specs.Prelude.{◌≡◌, ◌*◌, ◌≤◌, ◌^◌, ℕ, List, [], true, false, length, IfOk, OnOk};
ghost use Rattle.std.specs.List.{AllByRecursion};
ghost use Rattle.fb_rows.specs.Tasks.{HasTaskBelow};
ghost use Rattle.fb_script.specs.Allowed.{tasks};
ghost use Rattle.fb_model.specs.Accepted.{IsAccepted};
ghost use Rattle.fb_model.specs.FullRun.{IsFull};
ghost use Rattle.fb_decide.specs.RunInputs.{inputs_of, run_inputs};
ghost use Rattle.fb_decide.specs.RunState.{state_of};
ghost use Rattle.fb_engine.specs.Progress.{HasAdvanced, IsWhole};

use fb_decide::{Decider, RunInputs, decisions_make_a_run};
use fb_plan::Planner;
use fb_queue::Queue;
use fb_rows::Run;
use fb_script::Calls;
use fb_service::Disk;
use fb_trace::Trace;
use fb_units::{NoMemory, Ns};
use std::alloc::Global;

/// Replays a trace and a call script on a disk with these unreadable sectors, in a queue's order, with
/// the best plan in every gap. While nothing else is left to do, the head goes on reading background up
/// to the instant `until`, in ns, at most 10^15.
///
/// The queue must be new: empty, and never used. The only error is out of memory.
pub fn replay<Q: Queue, P: Planner>(
    alloc: Global,
    disk: &Disk,
    latent: &[u64],
    trace: &Trace,
    calls: &Calls,
    queue: Q,
    planner: &P,
    until: Ns,
) -> Result<Run, NoMemory>
    requires empty { Q.pending queue ≡ [] }
    requires fresh { Q.joined queue ≡ 0 }
    requires accepted { IsAccepted (run_inputs disk.now latent.now trace.now calls.now until Q.key) }
    ensures full { IfOk result (λ run. IsFull (run_inputs disk.now latent.now trace.now calls.now until Q.key) run) }
    ensures few { IfOk result (λ run. length run.fore ≤ 10 ^ 6) }
    ensures early { IfOk result (λ run. run.end ≤ 9 * 10 ^ 18) }
    ensures tasks { IfOk result (λ run. AllByRecursion (HasTaskBelow (length (tasks calls.now.calls.items))) run.back) }
{
    let inputs = RunInputs {
        disk,
        latent,
        trace,
        calls,
        until,
    };
    let mut decider = Decider::new(alloc, inputs, queue)?;
    run_of(alloc, planner, &mut decider)
}

// The run that a decider makes from its first decision on. The only error is out of memory.
fn run_of<Q: Queue, P: Planner>(
    alloc: Global,
    planner: &P,
    decider: &mut Decider<'_, Q>,
) -> Result<Run, NoMemory>
    requires advanced { HasAdvanced (inputs_of decider.old.inputs Q.key) true (state_of Q.pending Q.joined decider.old) }
    requires fits { Q.fits decider.old.queue decider.old.inputs.disk.now }
    ensures { IfOk result (IsWhole (inputs_of decider.old.inputs Q.key)) }
{
    let inputs = decider.inputs();
    decide_all(alloc, planner, decider)?;
    decisions_make_a_run();
    let end = decider.instant();
    decider.add_task_rows()?;
    let rows = decider.take_rows(alloc);
    Ok(Run {
        fore: rows.fore,
        back: rows.back,
        passed_over: inputs.trace.passed_over,
        end,
    })
}

// Makes one decision after another until none follows. The only error is out of memory.
fn decide_all<Q: Queue, P: Planner>(
    alloc: Global,
    planner: &P,
    decider: &mut Decider<'_, Q>,
) -> Result<(), NoMemory>
    requires advanced { HasAdvanced (inputs_of decider.old.inputs Q.key) true (state_of Q.pending Q.joined decider.old) }
    requires fits { Q.fits decider.old.queue decider.old.inputs.disk.now }
    ensures advanced { OnOk result (HasAdvanced (inputs_of decider.old.inputs Q.key) false (state_of Q.pending Q.joined decider.new)) }
{
    decisions_make_a_run();
    let mut goes_on = true;
    while goes_on {
        goes_on = decider.decide(alloc, planner)?;
    }
    Ok(())
}
