// The command that judges printed reports.
ghost use Rattle.std.specs.Prelude.{◌≡◌, ◌≤◌, ◌^◌, Some, false, codes, length, IfErr, IfOk};
ghost use Rattle.fb_script.specs.Allowed.{tasks};
ghost use Rattle.fb_desk.specs.Calls.{ChangesInput, ChangesOutput};
ghost use Rattle.fb_desk.specs.View.{DeskView, IsUnused};
ghost use Rattle.fb_model.specs.Accepted.{IsAccepted};
ghost use Rattle.fb_words.specs.Verdict.{check_terms};
ghost use Rattle.fb_report.specs.Grammar.{fore_grammar};
ghost use Rattle.fb_report.specs.Reading.{IsReport};
ghost use Rattle.fb_desk.specs.declared.desk.Input.TheVariants.{BackReport};
ghost use Rattle.fb_top.specs.Causes.{CheckHasCause};
ghost use Rattle.fb_inputs.specs.Causes.{StopsInputs, StopsReport};
ghost use Rattle.fb_inputs.specs.Ends.{failed_input};
ghost use Rattle.fb_top.specs.Checked.{JudgesBack, JudgesBy, check_texts};
ghost use Rattle.fb_top.specs.Verdicts.{verdict_line};
ghost use Rattle.fb_streams.specs.Streams.{IsOpenedAs};
ghost use Rattle.fb_inputs.specs.Read.{files_of, inputs_of_files, key_of};
ghost use Rattle.fb_streams.specs.Names.{check_names, check_file_names};
ghost use Rattle.fb_inputs.specs.Reading.{file_names};
ghost use Rattle.fb_top.specs.Taken.{TakesCheck};
ghost use Rattle.fb_inputs.specs.Account.{Account, AreReadAs, failed_in};
ghost use Rattle.fb_texts.specs.Ends.{failed_output};
ghost use Rattle.fb_texts.specs.Written.{WritesTexts};
ghost use Rattle.fb_streams.specs.Called.{Asked, Ends, check_asks};
ghost use Rattle.fb_top.specs.Ends.{EndsAs};

use crate::Outcome;
use crate::policy::judge_by;
use crate::verdicts::verdict_line;
use fb_check::{Printed, PrintedLines, Verdict};
use fb_desk::{Desk, Input, Output};
use fb_inputs::{InputsError, NamedFiles, RunFiles, read_files, read_printed};
use fb_report::{ReportsError, TextLines, split_back, split_fore};
use fb_texts::{TextsError, write_made};
use fb_units::NoMemory;
use fb_words::CheckWords;
use std::alloc::Global;

/// Judges two printed reports against the full run of the files that the words name.
pub fn run_check<D: Desk>(alloc: Global, desk: &mut D, words: &CheckWords) -> Outcome
    requires unused { IsUnused (D.seen desk.old) }
    requires until { words.now.until ≤ 10 ^ 15 }
    ensures cause { CheckHasCause (check_terms words.now) (D.seen desk.old) (D.seen desk.new) result }
    ensures inputs { AreReadAs (check_asks (check_terms words.now)).inputs (D.seen desk.old) (D.seen desk.new) }
    ensures calls { EndsAs (check_asks (check_terms words.now)) result (D.seen desk.old).calls (D.seen desk.new).calls }
    ensures no_note { (D.seen desk.new).outputs Output.Note ≡ (D.seen desk.old).outputs Output.Note }
{
    match read_files(alloc, desk, &named_files(words)) {
        Ok(files) => check_read(alloc, desk, words, &files),
        Err(error) => Outcome::from(error),
    }
}

// Judges the printed reports by files that were read, and tells the verdict.
fn check_read<D: Desk>(alloc: Global, desk: &mut D, words: &CheckWords, files: &RunFiles) -> Outcome
    requires fresh_fore { ((D.seen desk.old).inputs Input.ForeReport).opened ≡ false }
    requires fresh_back { ((D.seen desk.old).inputs Input.BackReport).opened ≡ false }
    requires fresh { ((D.seen desk.old).outputs Output.Fore).begun ≡ false }
    requires fit { IsAccepted (inputs_of_files (files_of files.now) (key_of words.now.policy) words.now.until) }
    requires names { length files.now.calls.names ≡ length (tasks files.now.calls.calls.items) }
    ensures cause { (first : DeskView) → TakesCheck (check_terms words.now) (files_of files.now) first (D.seen desk.old)
        → CheckHasCause (check_terms words.now) first (D.seen desk.new) result }
    ensures inputs { (first : DeskView) → TakesCheck (check_terms words.now) (files_of files.now) first (D.seen desk.old)
        → AreReadAs (check_asks (check_terms words.now)).inputs first (D.seen desk.new) }
    ensures calls { EndsAs (check_asks (check_terms words.now)) result (D.seen desk.old).calls (D.seen desk.new).calls }
    ensures no_note { (D.seen desk.new).outputs Output.Note ≡ (D.seen desk.old).outputs Output.Note }
{
    let verdict = match judge_printed(alloc, desk, words, files) {
        Ok(verdict) => verdict,
        Err(error) => return Outcome::from(error),
    };
    match write_verdict(alloc, desk, &verdict) {
        Ok(()) => Outcome::Checked(verdict),
        Err(error) => Outcome::from(error),
    }
}

// The files of the run.
fn named_files(words: &CheckWords) -> NamedFiles<'_>
    ensures { file_names result ≡ check_file_names (check_terms words.now) }
{
    NamedFiles {
        params: words.params.as_str(),
        trace: words.trace.as_str(),
        calls: Some(words.calls.as_str()),
        device: words.device,
    }
}

// Reads the foreground report and then the background report, and judges them.
//
// The error says what is wrong with the first that can't be read or is refused, or memory ran out.
fn judge_printed<D: Desk>(
    alloc: Global,
    desk: &mut D,
    words: &CheckWords,
    files: &RunFiles,
) -> Result<Verdict, InputsError>
    requires fresh_fore { ((D.seen desk.old).inputs Input.ForeReport).opened ≡ false }
    requires fresh_back { ((D.seen desk.old).inputs Input.BackReport).opened ≡ false }
    requires fit { IsAccepted (inputs_of_files (files_of files.now) (key_of words.now.policy) words.now.until) }
    requires names { length files.now.calls.names ≡ length (tasks files.now.calls.calls.items) }
    ensures account { Account (check_asks (check_terms words.now)) BackReport (failed_in result) (D.seen desk.old) (D.seen desk.new) }
    ensures judges { IfOk result (JudgesBy (D.seen desk.old) (check_terms words.now) (files_of files.now)) }
    ensures stops { IfErr result (λ error. (first : DeskView) → TakesCheck (check_terms words.now) (files_of files.now) first (D.seen desk.old)
        → StopsInputs (check_names (check_terms words.now)) first (D.seen desk.new) error) }
{
    let text = read_printed(alloc, desk, Input::ForeReport, words.fore.as_str())?;
    match split_fore(alloc, text.as_slice()) {
        Ok(fore) => judge_with(alloc, desk, words, files, &fore),
        Err(ReportsError::Fault(fault)) => Err(InputsError::Reports(fault)),
        Err(ReportsError::NoMemory) => Err(InputsError::NoMemory),
    }
}

// Reads the background report, and judges both.
fn judge_with<D: Desk>(
    alloc: Global,
    desk: &mut D,
    words: &CheckWords,
    files: &RunFiles,
    fore: &TextLines<'_>,
) -> Result<Verdict, InputsError>
    requires fresh { ((D.seen desk.old).inputs Input.BackReport).opened ≡ false }
    requires fit { IsAccepted (inputs_of_files (files_of files.now) (key_of words.now.policy) words.now.until) }
    requires names { length files.now.calls.names ≡ length (tasks files.now.calls.calls.items) }
    requires fore { IsReport fore_grammar fore.now }
    ensures only { ChangesInput Input.BackReport (D.seen desk.old) (D.seen desk.new) }
    ensures opened { IsOpenedAs (check_terms words.now).back (D.seen desk.old) ((D.seen desk.new).inputs Input.BackReport) }
    ensures calls { Ends failed_input (check_asks (check_terms words.now)) result (D.seen desk.old).calls (D.seen desk.new).calls }
    ensures judges { IfOk result (JudgesBack (D.seen desk.old) (check_terms words.now) (files_of files.now) fore.now) }
    ensures stops { IfErr result (StopsReport BackReport (check_terms words.now).back (D.seen desk.old) (D.seen desk.new)) }
{
    let text = read_printed(alloc, desk, Input::BackReport, words.back.as_str())?;
    let back = match split_back(alloc, text.as_slice()) {
        Ok(lines) => lines,
        Err(ReportsError::Fault(fault)) => return Err(InputsError::Reports(fault)),
        Err(ReportsError::NoMemory) => return Err(InputsError::NoMemory),
    };
    let inputs = files.run_inputs(words.until);
    let printed = Printed {
        bytes: words.bytes,
        fore: PrintedLines::Text(fore),
        back: PrintedLines::Text(&back),
    };
    match judge_by(alloc, words.policy, inputs, printed) {
        Ok(verdict) => Ok(verdict),
        Err(NoMemory) => Err(InputsError::NoMemory),
    }
}

// Writes the line that tells a verdict, under the name `-`.
fn write_verdict<D: Desk>(alloc: Global, desk: &mut D, verdict: &Verdict) -> Result<(), TextsError>
    requires fresh { ((D.seen desk.old).outputs Output.Fore).begun ≡ false }
    ensures only { ChangesOutput Output.Fore (D.seen desk.old) (D.seen desk.new) }
    ensures texts { WritesTexts (check_texts verdict.now) (D.seen desk.old) (D.seen desk.new) result }
    ensures calls { (asked : Asked) → asked.outputs Output.Fore ≡ Some (codes "-")
        → Ends failed_output asked result (D.seen desk.old).calls (D.seen desk.new).calls }
{
    write_made(desk, Output::Fore, "-", verdict_line(alloc, verdict))
}
