// The command that replays a trace on several devices, and rebuilds a lost disk from one of them.
ghost use Rattle.std.specs.Prelude.{◌≡◌, ◌%◌, ◌^◌, ◌<◌, ◌≤◌, ℕ, Some, true, false, length, slice_get, IfOk, IfSome};
ghost use Rattle.std.specs.List.{AllByRecursion};
ghost use Rattle.std.specs.Option.{option_map};
ghost use Rattle.std.specs.String.{string_bytes};
ghost use Rattle.fb_script.specs.Allowed.{tasks};
ghost use Rattle.fb_desk.specs.View.{DeskView, IsUnused};
ghost use Rattle.fb_model.specs.Accepted.{IsAccepted};
ghost use Rattle.fb_rows.specs.declared.run.Run.{Run};
ghost use Rattle.fb_trace.specs.Reading.{Accepted};
ghost use Rattle.fb_words.specs.Command.{arrays};
ghost use Rattle.fb_words.specs.Limits.{IsWithinLimits};
ghost use Rattle.fb_words.specs.Verdict.{array_terms};
ghost use Rattle.fb_top.specs.Array.{ArrayHasCause, IsRunOfDevice, array_texts, copy_texts, replacement, sectors_of, survivor};
ghost use Rattle.fb_texts.specs.Sections.{CanTellFore};
ghost use Rattle.fb_inputs.specs.Devices.{array_of, device_inputs, is_rebuilt_from};
ghost use Rattle.fb_top.specs.Done.{CanBeTold};
ghost use Rattle.fb_top.specs.Taken.{TakesArray};
ghost use Rattle.fb_inputs.specs.Account.{AreReadAs, KeepsInputs};
ghost use Rattle.fb_texts.specs.Ends.{failed_output};
ghost use Rattle.fb_texts.specs.Written.{WritesTexts};
ghost use Rattle.fb_streams.specs.Called.{Asked, array_asks, Ends};
ghost use Rattle.fb_top.specs.Ends.{EndsAs};

use crate::policy::replay_by;
use crate::{Outcome, Runs};
use fb_decide::RunInputs;
use fb_desk::{Desk, Output};
use fb_inputs::{ArrayFiles, no_calls, read_array};
use fb_mirror::{Rebuilt, rebuild, runs_lie_on_the_disk};
use fb_script::Calls;
use fb_texts::{ArrayLines, BackLines, CopyLines, TextsError, write_lines};
use fb_units::NoMemory;
use fb_words::{ArrayWords, RebuildWords};
use std::alloc::Global;

/// Replays the trace on each device, and makes the replacement of a lost disk from the run of one
/// of them, if the words ask for it.
pub fn run_array<D: Desk>(alloc: Global, desk: &mut D, words: &ArrayWords) -> Outcome
    requires unused { IsUnused (D.seen desk.old) }
    requires limits { IsWithinLimits (arrays (array_terms words.now)) }
    ensures cause { ArrayHasCause (array_terms words.now) (D.seen desk.old) (D.seen desk.new) result }
    ensures inputs { AreReadAs (array_asks (array_terms words.now)).inputs (D.seen desk.old) (D.seen desk.new) }
    ensures calls { EndsAs (array_asks (array_terms words.now)) result (D.seen desk.old).calls (D.seen desk.new).calls }
    ensures no_note { (D.seen desk.new).outputs Output.Note ≡ (D.seen desk.old).outputs Output.Note }
{
    match read_array(alloc, desk, words) {
        Ok(files) => replay_array(alloc, desk, words, &files),
        Err(error) => Outcome::from(error),
    }
}

// Replays an array whose files were read, and writes what the words ask for.
fn replay_array<D: Desk>(
    alloc: Global,
    desk: &mut D,
    words: &ArrayWords,
    files: &ArrayFiles,
) -> Outcome
    requires fresh { (output : Output) → ((D.seen desk.old).outputs output).begun ≡ false }
    requires limits { IsWithinLimits (arrays (array_terms words.now)) }
    requires count { length (array_of files.now).traces ≡ (array_terms words.now).devices }
    requires fit { (device : ℕ) (trace : Accepted) → slice_get (array_of files.now).traces device ≡ Some trace
        → IsAccepted (device_inputs (array_terms words.now) (array_of files.now) device trace) }
    requires names { length files.now.calls.names ≡ length (tasks files.now.calls.calls.items) }
    ensures cause { (first : DeskView) → TakesArray (array_terms words.now) (array_of files.now) first (D.seen desk.old)
        → ArrayHasCause (array_terms words.now) first (D.seen desk.new) result }
    ensures calls { EndsAs (array_asks (array_terms words.now)) result (D.seen desk.old).calls (D.seen desk.new).calls }
    ensures no_note { (D.seen desk.new).outputs Output.Note ≡ (D.seen desk.old).outputs Output.Note }
    ensures inputs { KeepsInputs (D.seen desk.old) (D.seen desk.new) }
{
    let runs = match replay_devices(alloc, words, files) {
        Ok(runs) => runs,
        Err(NoMemory) => return Outcome::NoMemory,
    };
    let copy = match copy_survivor(alloc, words, files, &runs) {
        Ok(copy) => copy,
        Err(NoMemory) => return Outcome::NoMemory,
    };
    match write_array(alloc, desk, words, files, &runs, copy.as_ref()) {
        Ok(()) => Outcome::Arrayed { runs, copy },
        Err(error) => Outcome::from(error),
    }
}

// The full run of each device, by device. The only error is out of memory.
fn replay_devices(alloc: Global, words: &ArrayWords, files: &ArrayFiles) -> Result<Runs, NoMemory>
    requires fit { (device : ℕ) (trace : Accepted) → slice_get (array_of files.now).traces device ≡ Some trace
        → IsAccepted (device_inputs (array_terms words.now) (array_of files.now) device trace) }
    requires names { length files.now.calls.names ≡ length (tasks files.now.calls.calls.items) }
    ensures count { IfOk result (λ runs. length runs ≡ length (array_of files.now).traces) }
    ensures full { IfOk result (λ runs. (device : ℕ) (run : Run) → slice_get runs device ≡ Some run
        → IsRunOfDevice (array_terms words.now) (array_of files.now) device run) }
    ensures told { IfOk result (AllByRecursion CanTellFore) }
    ensures back_told { IfOk result (λ runs. (device : ℕ) (run : Run) → slice_get runs device ≡ Some run
        → is_rebuilt_from (array_terms words.now).rebuild device ≡ true → CanBeTold files.now.calls.names run) }
{
    let no_calls = no_calls(alloc);
    let mut runs = Runs::new(alloc);
    for trace in &files.traces {
        let inputs = RunInputs {
            disk: &files.params.disk,
            latent: files.params.latent.as_slice(),
            trace,
            calls: calls_of(words, files, &no_calls, runs.len()),
            until: words.until,
        };
        runs.push(replay_by(alloc, words.policy, inputs)?)?;
    }
    Ok(runs)
}

// The calls of a device: those of the rebuild if it is made from this device, and otherwise none.
fn calls_of<'a>(
    words: &ArrayWords,
    files: &'a ArrayFiles,
    no_calls: &'a Calls,
    device: usize,
) -> &'a Calls
    ensures rebuilt { is_rebuilt_from (array_terms words.now).rebuild device ≡ true → result.now ≡ files.now.calls }
    ensures other { is_rebuilt_from (array_terms words.now).rebuild device ≡ false → result.now ≡ no_calls.now }
{
    match &words.rebuild {
        Some(rebuild) if rebuild.device as usize == device => &files.calls,
        _ => no_calls,
    }
}

// The replacement that the run of its device makes, where the words ask for a rebuild.
//
// The only error is out of memory.
fn copy_survivor(
    alloc: Global,
    words: &ArrayWords,
    files: &ArrayFiles,
    runs: &Runs,
) -> Result<Option<Rebuilt>, NoMemory>
    requires device { IfSome (array_terms words.now).rebuild (λ rebuild. rebuild.device < length runs.now) }
    requires full { (device : ℕ) (run : Run) → slice_get runs.now device ≡ Some run
        → IsRunOfDevice (array_terms words.now) (array_of files.now) device run }
    ensures copied { IfOk result
        (λ copy. copy ≡ option_map (replacement (sectors_of (array_of files.now))) (survivor (array_terms words.now).rebuild runs.now)) }
    ensures most { IfOk result (λ copy. IfSome copy (λ copy. copy.covered ≤ sectors_of (array_of files.now))) }
    ensures few { IfOk result (λ copy. IfSome copy (λ copy. length copy.content ≤ sectors_of (array_of files.now))) }
{
    match &words.rebuild {
        Some(words) => {
            runs_lie_on_the_disk();
            let sectors = files.params.disk.map.count();
            Ok(Some(rebuild(alloc, sectors, runs.get(words.device as usize))?))
        }
        None => Ok(None),
    }
}

// Writes the sections of all devices, and then what the rebuild asks for, if there is one.
//
// The error comes where a call that writes failed, or memory ran out.
fn write_array<D: Desk>(
    alloc: Global,
    desk: &mut D,
    words: &ArrayWords,
    files: &ArrayFiles,
    runs: &Runs,
    copy: Option<&Rebuilt>,
) -> Result<(), TextsError>
    requires fresh { (output : Output) → ((D.seen desk.old).outputs output).begun ≡ false }
    requires few { length runs.now ≤ 16 }
    requires told { AllByRecursion CanTellFore runs.now }
    requires device { IfSome (array_terms words.now).rebuild (λ rebuild. rebuild.device < length runs.now) }
    requires back_told { (device : ℕ) (run : Run) → slice_get runs.now device ≡ Some run
        → is_rebuilt_from (array_terms words.now).rebuild device ≡ true → CanBeTold files.now.calls.names run }
    requires copied { option_map (λ copy. copy.now) copy
        ≡ option_map (replacement (sectors_of (array_of files.now))) (survivor (array_terms words.now).rebuild runs.now) }
    requires copy_told { IfSome copy
        (λ copy. (copy.now.covered ≤ sectors_of (array_of files.now)) × (length copy.now.content ≤ sectors_of (array_of files.now))) }
    ensures texts { WritesTexts (array_texts (array_terms words.now) (array_of files.now) runs.now)
        (D.seen desk.old) (D.seen desk.new) result }
    ensures calls { Ends failed_output (array_asks (array_terms words.now)) result (D.seen desk.old).calls (D.seen desk.new).calls }
    ensures no_note { (D.seen desk.new).outputs Output.Note ≡ (D.seen desk.old).outputs Output.Note }
    ensures inputs { KeepsInputs (D.seen desk.old) (D.seen desk.new) }
{
    let sector_bytes = files.params.disk.sector_bytes;
    let bytes = words.bytes;
    let lines = ArrayLines {
        runs,
        sector_bytes,
        bytes,
    };
    write_lines(alloc, desk, Output::Fore, "-", &lines)?;
    match (&words.rebuild, copy) {
        (Some(rebuild), Some(copy)) => {
            let back = BackLines {
                run: runs.get(rebuild.device as usize),
                names: &files.calls.names,
                sector_bytes,
                bytes,
            };
            let sectors = files.params.disk.map.count();
            write_rebuild(alloc, desk, rebuild, &back, &CopyLines { copy, sectors })
        }
        _ => Ok(()),
    }
}

// Writes the background report of the device that a rebuild is made from, and then the text of the
// replacement, each under its name.
//
// The error comes where a call that writes failed, or memory ran out.
fn write_rebuild<D: Desk>(
    alloc: Global,
    desk: &mut D,
    words: &RebuildWords,
    back: &BackLines<'_>,
    copy: &CopyLines<'_>,
) -> Result<(), TextsError>
    requires fresh_back { ((D.seen desk.old).outputs Output.Back).begun ≡ false }
    requires fresh_copy { ((D.seen desk.old).outputs Output.Copied).begun ≡ false }
    requires size { back.now.sector_bytes % 16 ≡ 0 }
    requires back_told { CanBeTold back.now.names.now back.now.run.now }
    requires most { copy.now.copy.now.covered ≤ copy.now.sectors }
    requires few { length copy.now.copy.now.content ≤ 10 ^ 12 }
    ensures texts { WritesTexts (copy_texts words.now back.now copy.now) (D.seen desk.old) (D.seen desk.new) result }
    ensures calls { (asked : Asked) → asked.outputs Output.Back ≡ Some (string_bytes words.now.back)
        → asked.outputs Output.Copied ≡ Some (string_bytes words.now.copy)
        → Ends failed_output asked result (D.seen desk.old).calls (D.seen desk.new).calls }
    ensures no_note { (D.seen desk.new).outputs Output.Note ≡ (D.seen desk.old).outputs Output.Note }
    ensures inputs { KeepsInputs (D.seen desk.old) (D.seen desk.new) }
{
    write_lines(alloc, desk, Output::Back, words.back.as_str(), back)?;
    write_lines(alloc, desk, Output::Copied, words.copy.as_str(), copy)
}
