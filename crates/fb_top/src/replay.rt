// The command that replays a trace, and writes puts in the free gaps of the run.
ghost use Rattle.std.specs.Prelude.{◌≡◌, ◌≤◌, ◌*◌, ◌^◌, true, false, is_some, length, IfOk, IfSome, OnOk};
ghost use Rattle.std.specs.List.{AllByRecursion};
ghost use Rattle.std.specs.Option.{option_map};
ghost use Rattle.fb_bgwrite.specs.Text.{HasRange};
ghost use Rattle.fb_puts.specs.Verdict.{accepted};
ghost use Rattle.fb_script.specs.Allowed.{tasks};
ghost use Rattle.fb_model.specs.Accepted.{IsAccepted};
ghost use Rattle.fb_desk.specs.View.{DeskView, IsUnused};
ghost use Rattle.fb_desk.specs.declared.desk.Output.{Output};
ghost use Rattle.fb_words.specs.Command.{go_together};
ghost use Rattle.fb_words.specs.Verdict.{replay_terms};
ghost use Rattle.fb_top.specs.Causes.{HasCause};
ghost use Rattle.fb_top.specs.Done.{AreReadBack, CanBeRead, CanBeTold};
ghost use Rattle.fb_inputs.specs.Read.{files_of, inputs_of_files, key_of};
ghost use Rattle.fb_inputs.specs.Puts.{CanBeSpilled};
ghost use Rattle.fb_top.specs.Spilled.{IsRunOfFiles, WritesGiven, replay_texts};
ghost use Rattle.fb_top.specs.Taken.{TakesReplay, done_as};
ghost use Rattle.fb_inputs.specs.Account.{AreReadAs, KeepsInputs};
ghost use Rattle.fb_streams.specs.Called.{Ends, replay_asks};
ghost use Rattle.fb_texts.specs.Ends.{failed_output};
ghost use Rattle.fb_texts.specs.Written.{WritesTexts};
ghost use Rattle.fb_top.specs.Ends.{EndsAs};

use crate::Outcome;
use crate::policy::replay_by;
use crate::report::write_reports;
use fb_bgwrite::{SpillRun, spill};
use fb_desk::{Desk, Output};
use fb_inputs::{ReplayInputs, RunFiles, read_replay_inputs};
use fb_rows::Run;
use fb_texts::{SpillLines, TextsError, write_given};
use fb_units::NoMemory;
use fb_words::ReplayWords;
use std::alloc::Global;

/// Reads the inputs, replays the trace and the call script on the disk of the parameter file, and writes
/// the reports. If the words name puts, it also writes these in the free gaps of the run.
pub fn run_replay<D: Desk>(alloc: Global, desk: &mut D, words: &ReplayWords) -> Outcome
    requires unused { IsUnused (D.seen desk.old) }
    requires until { words.now.until ≤ 10 ^ 15 }
    requires together { go_together (replay_terms words.now).puts (replay_terms words.now).spill ≡ true }
    ensures cause { HasCause (replay_terms words.now) (D.seen desk.old) (D.seen desk.new) result }
    ensures inputs { AreReadAs (replay_asks (replay_terms words.now)).inputs (D.seen desk.old) (D.seen desk.new) }
    ensures calls { EndsAs (replay_asks (replay_terms words.now)) result (D.seen desk.old).calls (D.seen desk.new).calls }
    ensures no_note { (D.seen desk.new).outputs Output.Note ≡ (D.seen desk.old).outputs Output.Note }
{
    match read_replay_inputs(alloc, desk, words) {
        Ok(read) => replay_and_write(alloc, desk, words, &read),
        Err(error) => Outcome::from(error),
    }
}

// Replays inputs that were read, and writes what the words ask for.
fn replay_and_write<D: Desk>(
    alloc: Global,
    desk: &mut D,
    words: &ReplayWords,
    read: &ReplayInputs,
) -> Outcome
    requires fresh { (output : Output) → ((D.seen desk.old).outputs output).begun ≡ false }
    requires fit { IsAccepted (inputs_of_files (files_of read.now.files) (key_of words.now.policy) words.now.until) }
    requires fit_puts { IfSome read.now.puts (λ puts. CanBeSpilled (files_of read.now.files) (accepted puts)) }
    requires names { length read.now.files.calls.names ≡ length (tasks read.now.files.calls.calls.items) }
    requires named { is_some read.now.puts ≡ is_some (replay_terms words.now).spill }
    ensures cause { (first : DeskView)
        → TakesReplay (replay_terms words.now) (files_of read.now.files) (option_map accepted read.now.puts) first (D.seen desk.old)
        → HasCause (replay_terms words.now) first (D.seen desk.new) result }
    ensures calls { EndsAs (replay_asks (replay_terms words.now)) result (D.seen desk.old).calls (D.seen desk.new).calls }
    ensures no_note { (D.seen desk.new).outputs Output.Note ≡ (D.seen desk.old).outputs Output.Note }
    ensures inputs { KeepsInputs (D.seen desk.old) (D.seen desk.new) }
{
    let files = &read.files;
    let run = match replay_by(alloc, words.policy, files.run_inputs(words.until)) {
        Ok(run) => run,
        Err(NoMemory) => return Outcome::NoMemory,
    };
    let spill = match spill_given(alloc, read, &run) {
        Ok(spill) => spill,
        Err(NoMemory) => return Outcome::NoMemory,
    };
    match write_replay(alloc, desk, words, files, &run, spill.as_ref()) {
        Ok(()) => outcome_of(run, spill),
        Err(error) => Outcome::from(error),
    }
}

// The outcome where all is done.
fn outcome_of(run: Run, spill: Option<SpillRun>) -> Outcome
    ensures { result ≡ done_as run spill }
{
    match spill {
        Some(spill) => Outcome::Spilled { run, spill },
        None => Outcome::Done(run),
    }
}

// What is written in the free gaps of a run, if there are puts. The only error is out of memory.
fn spill_given(alloc: Global, read: &ReplayInputs, run: &Run) -> Result<Option<SpillRun>, NoMemory>
    requires full { IsRunOfFiles (files_of read.now.files) run.now }
    requires early { run.now.end ≤ 9 * 10 ^ 18 }
    requires fit { IfSome read.now.puts (λ puts. CanBeSpilled (files_of read.now.files) (accepted puts)) }
    ensures writes { IfOk result (WritesGiven (files_of read.now.files).disk run.now (option_map accepted read.now.puts)) }
    ensures named { IfOk result (λ spill. is_some spill ≡ is_some read.now.puts) }
    ensures told { IfOk result (λ spill. IfSome spill (λ spill. AllByRecursion HasRange spill.items)) }
{
    match &read.puts {
        Some(puts) => Ok(Some(spill(alloc, &read.files.params.disk, run, puts)?)),
        None => Ok(None),
    }
}

// Writes the reports of a run, and then the text of what was written in its free gaps, if there
// were puts.
//
// The error comes where a call that writes failed, or memory ran out.
fn write_replay<D: Desk>(
    alloc: Global,
    desk: &mut D,
    words: &ReplayWords,
    files: &RunFiles,
    run: &Run,
    spill: Option<&SpillRun>,
) -> Result<(), TextsError>
    requires fresh { (output : Output) → ((D.seen desk.old).outputs output).begun ≡ false }
    requires told { CanBeTold files.now.calls.names run.now }
    requires spill_told { IfSome spill (λ spill. AllByRecursion HasRange spill.now.items) }
    ensures texts { WritesTexts (replay_texts (replay_terms words.now) (files_of files.now) run.now
        (option_map (λ spill. spill.now) spill.entry)) (D.seen desk.old) (D.seen desk.new) result }
    ensures calls { Ends failed_output (replay_asks (replay_terms words.now)) result (D.seen desk.old).calls (D.seen desk.new).calls }
    ensures read { OnOk result (CanBeRead (files_of files.now) run.now
        → AreReadBack (replay_terms words.now) (files_of files.now) run.now) }
    ensures no_note { (D.seen desk.new).outputs Output.Note ≡ (D.seen desk.old).outputs Output.Note }
    ensures inputs { KeepsInputs (D.seen desk.old) (D.seen desk.new) }
{
    write_reports(alloc, desk, words, files, run)?;
    match spill {
        Some(spill) => {
            let lines = SpillLines {
                spill,
                sector_bytes: files.params.disk.sector_bytes,
                bytes: words.bytes,
            };
            write_given(alloc, desk, Output::Spill, &words.spill, &lines)
        }
        None => Ok(()),
    }
}
