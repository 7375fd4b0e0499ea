// Judges printed reports, decision by decision.
ghost use Rattle.std.specs.Prelude.{◌≡◌, ◌%◌, ◌++◌, ℕ, List, [], true, false, length, None, IfOk, OnOk};
ghost use Rattle.std.specs.List.{AllByRecursion};
ghost use Rattle.fb_script.specs.Allowed.{tasks};
ghost use Rattle.fb_rows.specs.Tasks.{HasTaskBelow};
ghost use Rattle.fb_rows.specs.declared.fore.ForeRow.{ForeRow};
ghost use Rattle.fb_rows.specs.declared.back.BackRow.{BackRow};
ghost use Rattle.fb_decide.specs.RunInputs.{inputs_of, run_inputs};
ghost use Rattle.fb_decide.specs.RunState.{state_of};
ghost use Rattle.fb_decide.specs.Making.{HasMade};
ghost use Rattle.fb_model.specs.Accepted.{IsAccepted};
ghost use Rattle.fb_report.specs.Grammar.{LineFields, back_grammar, fore_grammar};
ghost use Rattle.fb_report.specs.Reading.{IsReport};
ghost use Rattle.fb_check.specs.Comparing.{CanCompare, HasComparedFore, HasComparedBack};
ghost use Rattle.fb_check.specs.Judged.{HasJudged};
ghost use Rattle.fb_check.specs.Printed.{lines_of, reports_of};
ghost use Rattle.fb_check.specs.Verdict.{IsVerdict};

use crate::comparing::Comparison;
use crate::{PrintedLines, Verdict};
use fb_decide::{Decider, Rows, RunInputs, decisions_make_a_run};
use fb_plan::Planner;
use fb_queue::Queue;
use fb_report::{Bytes, ReportLines, reports_end_once};
use fb_script::Calls;
use fb_service::Disk;
use fb_trace::Trace;
use fb_units::{NoMemory, Ns};
use std::alloc::Global;

/// Two printed reports.
#[derive(Clone, Copy)]
pub struct Printed<'a> {
    /// How the bytes of reads and deliveries are shown.
    pub bytes: Bytes,
    /// The lines of the foreground report.
    pub fore: PrintedLines<'a>,
    /// The lines of the background report.
    pub back: PrintedLines<'a>,
}

/// Judges whether two printed reports are those of the full run of these inputs.
///
/// `latent` are the LBNs of the sectors that can't be read until a write has passed them, and up to
/// `until`, in ns, at most 10^15, the head goes on reading background when nothing else is left to
/// do. `bytes` says how the bytes of reads and deliveries are shown.
///
/// The replay is made decision by decision, and each decision's lines are compared with the printed
/// ones and let go. The first wrong foreground line ends it. The queue must be new: empty, and
/// never used. The only error is out of memory.
pub fn judge<Q: Queue, P: Planner>(
    alloc: Global,
    disk: &Disk,
    latent: &[u64],
    trace: &Trace,
    calls: &Calls,
    queue: Q,
    planner: &P,
    until: Ns,
    bytes: Bytes,
    fore: &ReportLines,
    back: &ReportLines,
) -> Result<Verdict, NoMemory>
    requires empty { Q.pending queue ≡ [] }
    requires fresh { Q.joined queue ≡ 0 }
    requires accepted { IsAccepted (run_inputs disk.now latent.now trace.now calls.now until Q.key) }
    requires names { length calls.now.names ≡ length (tasks calls.now.calls.items) }
    requires whole { disk.now.sector_bytes % 16 ≡ 0 }
    requires fore { IsReport fore_grammar fore.now }
    requires back { IsReport back_grammar back.now }
    ensures { IfOk result (IsVerdict (run_inputs disk.now latent.now trace.now calls.now until Q.key)
        (record { names = calls.now.names; bytes = bytes; fore = fore.now; back = back.now })) }
{
    let inputs = RunInputs {
        disk,
        latent,
        trace,
        calls,
        until,
    };
    let printed = Printed {
        bytes,
        fore: PrintedLines::Fields(fore),
        back: PrintedLines::Fields(back),
    };
    judge_printed(alloc, inputs, queue, planner, printed)
}

/// Judges as `judge` does, in whichever form the lines of the reports are at hand.
pub fn judge_printed<Q: Queue, P: Planner>(
    alloc: Global,
    inputs: RunInputs<'_>,
    queue: Q,
    planner: &P,
    printed: Printed<'_>,
) -> Result<Verdict, NoMemory>
    requires empty { Q.pending queue ≡ [] }
    requires fresh { Q.joined queue ≡ 0 }
    requires accepted { IsAccepted (inputs_of inputs Q.key) }
    requires names { length inputs.calls.now.names ≡ length (tasks inputs.calls.now.calls.items) }
    requires whole { inputs.disk.now.sector_bytes % 16 ≡ 0 }
    requires fore { IsReport fore_grammar (lines_of printed.fore) }
    requires back { IsReport back_grammar (lines_of printed.back) }
    ensures { IfOk result (IsVerdict (inputs_of inputs.entry Q.key) (reports_of inputs.entry printed.entry)) }
{
    let mut decider = Decider::new(alloc, inputs, queue)?;
    judge_over(alloc, &mut decider, planner, printed)
}

// The verdict, where no decision has been made.
fn judge_over<Q: Queue, P: Planner>(
    alloc: Global,
    decider: &mut Decider<'_, Q>,
    planner: &P,
    printed: Printed<'_>,
) -> Result<Verdict, NoMemory>
    requires made { HasMade (inputs_of decider.old.inputs Q.key) true [] (state_of Q.pending Q.joined decider.old) }
    requires no_fore { decider.old.course.fore ≡ [] }
    requires no_back { decider.old.course.background.rows ≡ [] }
    requires fits { Q.fits decider.old.queue decider.old.inputs.disk.now }
    requires names { length decider.old.inputs.calls.now.names ≡ length (tasks decider.old.inputs.calls.now.calls.items) }
    requires whole { decider.old.inputs.disk.now.sector_bytes % 16 ≡ 0 }
    requires fore { IsReport fore_grammar (lines_of printed.fore) }
    requires back { IsReport back_grammar (lines_of printed.back) }
    ensures { IfOk result (IsVerdict (inputs_of decider.old.inputs Q.key) (reports_of decider.old.inputs printed.entry)) }
{
    let inputs = decider.inputs();
    decisions_make_a_run();
    reports_end_once();
    let mut fore = Comparison::begin_fore(alloc, printed.fore)?;
    let mut back = Comparison::begin_back(alloc, printed.back)?;
    let mut goes_on = true;
    while goes_on {
        goes_on = decider.decide(alloc, planner)?;
        let rows = decider.take_rows(alloc);
        let compared = compare_rows(alloc, inputs, &rows, printed.bytes, &mut fore, &mut back);
        drop(rows);
        compared?;
        if let Some(mismatch) = fore.wrong {
            return Ok(Verdict::No(mismatch));
        }
    }
    judge_ends(alloc, inputs, printed, decider, fore, back)
}

// Compares the lines of a decision's rows: the foreground's, and where none of those is wrong, the
// background's too. The only error is out of memory.
fn compare_rows(
    alloc: Global,
    inputs: RunInputs<'_>,
    rows: &Rows,
    bytes: Bytes,
    fore: &mut Comparison<'_>,
    back: &mut Comparison<'_>,
) -> Result<(), NoMemory>
    requires whole { inputs.disk.now.sector_bytes % 16 ≡ 0 }
    requires named { AllByRecursion (HasTaskBelow (length inputs.calls.now.names)) rows.now.back }
    requires fore_ready { CanCompare fore.old }
    requires back_ready { CanCompare back.old }
    ensures fore_ready { OnOk result (CanCompare fore.new) }
    ensures fore_compared { OnOk result ((printed : List LineFields) (before : List ForeRow)
        → HasComparedFore inputs.entry.disk.now.sector_bytes bytes printed fore.old before
        → HasComparedFore inputs.entry.disk.now.sector_bytes bytes printed fore.new (before ++ rows.now.fore)) }
    ensures back_ready { OnOk result (fore.new.wrong ≡ None → CanCompare back.new) }
    ensures back_compared { OnOk result (fore.new.wrong ≡ None → (printed : List LineFields) (before : List BackRow)
        → HasComparedBack inputs.entry.calls.now.names inputs.entry.disk.now.sector_bytes bytes printed back.old before
        → HasComparedBack inputs.entry.calls.now.names inputs.entry.disk.now.sector_bytes bytes printed back.new
        (before ++ rows.now.back)) }
{
    let sector_bytes = inputs.disk.sector_bytes;
    fore.compare_fore(alloc, &rows.fore, sector_bytes, bytes)?;
    if fore.wrong.is_some() {
        return Ok(());
    }
    back.compare_back(alloc, &rows.back, &inputs.calls.names, sector_bytes, bytes)
}

// The verdict where all decisions are made and no row of the foreground is wrong.
fn judge_ends<Q: Queue>(
    alloc: Global,
    inputs: RunInputs<'_>,
    printed: Printed<'_>,
    decider: &mut Decider<'_, Q>,
    mut fore: Comparison<'_>,
    mut back: Comparison<'_>,
) -> Result<Verdict, NoMemory>
    requires judged { HasJudged (inputs_of inputs Q.key) (reports_of inputs printed) false (state_of Q.pending Q.joined decider.old)
        fore back }
    requires right { fore.wrong ≡ None }
    requires names { length inputs.calls.now.names ≡ length (tasks inputs.calls.now.calls.items) }
    requires whole { inputs.disk.now.sector_bytes % 16 ≡ 0 }
    ensures { IfOk result (IsVerdict (inputs_of inputs.entry Q.key) (reports_of inputs.entry printed.entry)) }
{
    decisions_make_a_run();
    fore.end_fore(alloc, inputs.trace.passed_over)?;
    if let Some(mismatch) = fore.wrong {
        return Ok(Verdict::No(mismatch));
    }
    decider.add_task_rows()?;
    let rows = decider.take_rows(alloc);
    let sector_bytes = inputs.disk.sector_bytes;
    let names = &inputs.calls.names;
    let compared = back.compare_back(alloc, &rows.back, names, sector_bytes, printed.bytes);
    drop(rows);
    compared?;
    back.end_back(alloc, decider.instant())?;
    match back.wrong {
        Some(mismatch) => Ok(Verdict::No(mismatch)),
        None => Ok(Verdict::Yes),
    }
}
