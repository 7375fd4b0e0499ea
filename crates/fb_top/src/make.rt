// The command that makes a trace and a call script for a disk.
ghost use Rattle.std.specs.Prelude.{◌≡◌, ◌≤◌, ◌^◌, List, ℕ, false};
ghost use Rattle.std.specs.String.{string_bytes};
ghost use Rattle.fb_desk.specs.View.{DeskView, IsUnused};
ghost use Rattle.fb_desk.specs.Calls.{ChangesInput, ChangesOutput};
ghost use Rattle.fb_words.specs.Command.{makes};
ghost use Rattle.fb_words.specs.Limits.{IsWithinLimits};
ghost use Rattle.fb_words.specs.Verdict.{make_terms};
ghost use Rattle.fb_maker.specs.Trace.{made_trace};
ghost use Rattle.fb_desk.specs.declared.desk.Input.{Input};
ghost use Rattle.fb_inputs.specs.Account.{AreReadAs, KeepsInputs};
ghost use Rattle.fb_top.specs.Make.{MakeHasCause, make_texts};
ghost use Rattle.fb_inputs.specs.Read.{ReadsDisk};
ghost use Rattle.fb_texts.specs.Ends.{failed_output};
ghost use Rattle.fb_texts.specs.Written.{WritesTexts, one_text};
ghost use Rattle.fb_geometry.specs.Sound.{IsSound};
ghost use Rattle.fb_streams.specs.Called.{make_asks, Ends};
ghost use Rattle.fb_top.specs.Ends.{EndsAs};

use crate::Outcome;
use fb_desk::{Desk, Output};
use fb_inputs::read_disk;
use fb_maker::{Maker, made_calls, made_scripts_are_read, made_traces_are_read};
use fb_service::Disk;
use fb_texts::{TextsError, begin_text, write_made, write_more};
use fb_words::MakeWords;
use std::alloc::Global;

/// Writes a trace and a call script for the disk of a parameter file.
pub fn run_make<D: Desk>(alloc: Global, desk: &mut D, words: &MakeWords) -> Outcome
    requires unused { IsUnused (D.seen desk.old) }
    requires limits { IsWithinLimits (makes (make_terms words.now)) }
    ensures cause { MakeHasCause (make_terms words.now) (D.seen desk.old) (D.seen desk.new) result }
    ensures inputs { AreReadAs (make_asks (make_terms words.now)).inputs (D.seen desk.old) (D.seen desk.new) }
    ensures calls { EndsAs (make_asks (make_terms words.now)) result (D.seen desk.old).calls (D.seen desk.new).calls }
    ensures no_note { (D.seen desk.new).outputs Output.Note ≡ (D.seen desk.old).outputs Output.Note }
{
    match read_disk(alloc, desk, words.params.as_str()) {
        Ok(params) => make_for(alloc, desk, words, &params.disk),
        Err(error) => Outcome::from(error),
    }
}

// Writes a trace and a call script for a disk that was read.
fn make_for<D: Desk>(alloc: Global, desk: &mut D, words: &MakeWords, disk: &Disk) -> Outcome
    requires fresh_trace { ((D.seen desk.old).outputs Output.MadeTrace).begun ≡ false }
    requires fresh_calls { ((D.seen desk.old).outputs Output.MadeCalls).begun ≡ false }
    requires limits { IsWithinLimits (makes (make_terms words.now)) }
    ensures cause { (first : DeskView) (latent : List ℕ) → ReadsDisk first (make_terms words.now).params disk.now latent
        → ChangesInput Input.Params first (D.seen desk.old) → MakeHasCause (make_terms words.now) first (D.seen desk.new) result }
    ensures calls { EndsAs (make_asks (make_terms words.now)) result (D.seen desk.old).calls (D.seen desk.new).calls }
    ensures no_note { (D.seen desk.new).outputs Output.Note ≡ (D.seen desk.old).outputs Output.Note }
    ensures inputs { KeepsInputs (D.seen desk.old) (D.seen desk.new) }
{
    let map = &disk.map;
    map.geometry().sound();
    made_traces_are_read();
    made_scripts_are_read(map);
    match write_both(alloc, desk, words, disk) {
        Ok(()) => Outcome::Made(words.requests),
        Err(error) => Outcome::from(error),
    }
}

// Writes the trace and then the script for a disk.
//
// The error comes where a call that writes failed, or memory ran out.
fn write_both<D: Desk>(
    alloc: Global,
    desk: &mut D,
    words: &MakeWords,
    disk: &Disk,
) -> Result<(), TextsError>
    requires fresh_trace { ((D.seen desk.old).outputs Output.MadeTrace).begun ≡ false }
    requires fresh_calls { ((D.seen desk.old).outputs Output.MadeCalls).begun ≡ false }
    requires limits { IsWithinLimits (makes (make_terms words.now)) }
    requires sound { IsSound disk.now.map }
    ensures texts { WritesTexts (make_texts (make_terms words.now) disk.now) (D.seen desk.old) (D.seen desk.new) result }
    ensures calls { Ends failed_output (make_asks (make_terms words.now)) result (D.seen desk.old).calls (D.seen desk.new).calls }
    ensures no_note { (D.seen desk.new).outputs Output.Note ≡ (D.seen desk.old).outputs Output.Note }
    ensures inputs { KeepsInputs (D.seen desk.old) (D.seen desk.new) }
{
    write_trace(alloc, desk, words, disk.map.count())?;
    let made = made_calls(alloc, &disk.map);
    write_made(desk, Output::MadeCalls, words.calls.as_str(), made)
}

// Writes the trace for a disk with this number of sectors, line by line.
#[tactic(auto, using(fb_texts::proofs::Pieces::lines_stop, fb_texts::proofs::Pieces::stops_within))]
fn write_trace<D: Desk>(
    alloc: Global,
    desk: &mut D,
    words: &MakeWords,
    sectors: u64,
) -> Result<(), TextsError>
    requires fresh { ((D.seen desk.old).outputs Output.MadeTrace).begun ≡ false }
    requires limits { IsWithinLimits (makes (make_terms words.now)) }
    requires some { 1 ≤ sectors }
    requires few { sectors ≤ 10 ^ 12 }
    ensures only { ChangesOutput Output.MadeTrace (D.seen desk.old) (D.seen desk.new) }
    ensures texts { WritesTexts (one_text Output.MadeTrace (string_bytes words.now.trace)
        (made_trace words.now.number words.now.device sectors words.now.requests)) (D.seen desk.old) (D.seen desk.new) result }
    ensures calls { Ends failed_output (make_asks (make_terms words.now)) result (D.seen desk.old).calls (D.seen desk.new).calls }
{
    begin_text(desk, Output::MadeTrace, words.trace.as_str())?;
    let mut maker = Maker::new(words.number, words.device, sectors);
    for index in 0..words.requests {
        let line = maker.next_line(alloc)?;
        write_more(desk, Output::MadeTrace, line.as_slice())?;
    }
    Ok(())
}
