// The reports of a run that the words ask for.
ghost use Rattle.std.specs.Prelude.{◌≡◌, false, codes, OnOk};
ghost use Rattle.fb_report.specs.Fore.{fore_lines};
ghost use Rattle.fb_report.specs.Grammar.{fore_grammar};
ghost use Rattle.fb_report.specs.Printed.{IsReadBack};
ghost use Rattle.fb_desk.specs.Calls.{ChangesOutput};
ghost use Rattle.fb_words.specs.Verdict.{replay_terms};
ghost use Rattle.fb_inputs.specs.Read.{files_of};
ghost use Rattle.fb_inputs.specs.Account.{KeepsInputs};
ghost use Rattle.fb_streams.specs.Called.{Ends, replay_asks};
ghost use Rattle.fb_texts.specs.Ends.{failed_output};
ghost use Rattle.fb_texts.specs.Written.{WritesTexts, one_text};
ghost use Rattle.fb_top.specs.Done.{AreReadBack, CanBeRead, CanBeTold, fore_told, report_texts};

use fb_desk::{Desk, Output};
use fb_inputs::RunFiles;
use fb_report::summary_text;
use fb_rows::Run;
use fb_texts::{BackLines, ForeLines, TextsError, write_given, write_lines, write_made};
use fb_words::ReplayWords;
use std::alloc::Global;

/// Writes the foreground report of a run, or its summary, and then the background report, if the
/// words ask for one.
///
/// The error comes where a call that writes failed, or memory ran out.
pub fn write_reports<D: Desk>(
    alloc: Global,
    desk: &mut D,
    words: &ReplayWords,
    files: &RunFiles,
    run: &Run,
) -> Result<(), TextsError>
    requires fresh_fore { ((D.seen desk.old).outputs Output.Fore).begun ≡ false }
    requires fresh_back { ((D.seen desk.old).outputs Output.Back).begun ≡ false }
    requires told { CanBeTold files.now.calls.names run.now }
    ensures texts { WritesTexts (report_texts (replay_terms words.now) (files_of files.now) run.now)
        (D.seen desk.old) (D.seen desk.new) result }
    ensures calls { Ends failed_output (replay_asks (replay_terms words.now)) result (D.seen desk.old).calls (D.seen desk.new).calls }
    ensures read { OnOk result (CanBeRead (files_of files.now) run.now
        → AreReadBack (replay_terms words.now) (files_of files.now) run.now) }
    ensures no_note { (D.seen desk.new).outputs Output.Note ≡ (D.seen desk.old).outputs Output.Note }
    ensures inputs { KeepsInputs (D.seen desk.old) (D.seen desk.new) }
{
    write_fore(alloc, desk, words, files, run)?;
    let lines = BackLines {
        run,
        names: &files.calls.names,
        sector_bytes: files.params.disk.sector_bytes,
        bytes: words.bytes,
    };
    write_given(alloc, desk, Output::Back, &words.back, &lines)
}

// Writes the foreground report of a run, or its summary, under the name `-`.
fn write_fore<D: Desk>(
    alloc: Global,
    desk: &mut D,
    words: &ReplayWords,
    files: &RunFiles,
    run: &Run,
) -> Result<(), TextsError>
    requires fresh { ((D.seen desk.old).outputs Output.Fore).begun ≡ false }
    requires told { CanBeTold files.now.calls.names run.now }
    ensures only { ChangesOutput Output.Fore (D.seen desk.old) (D.seen desk.new) }
    ensures texts { WritesTexts (one_text Output.Fore (codes "-") (fore_told (replay_terms words.now) (files_of files.now) run.now))
        (D.seen desk.old) (D.seen desk.new) result }
    ensures calls { Ends failed_output (replay_asks (replay_terms words.now)) result (D.seen desk.old).calls (D.seen desk.new).calls }
    ensures read { OnOk result (CanBeRead (files_of files.now) run.now → (replay_terms words.now).summary ≡ false
        → IsReadBack fore_grammar (fore_lines files.now.params.disk.sector_bytes words.now.bytes run.now)) }
{
    if words.summary {
        return write_made(desk, Output::Fore, "-", summary_text(alloc, run));
    }
    let lines = ForeLines {
        run,
        sector_bytes: files.params.disk.sector_bytes,
        bytes: words.bytes,
    };
    write_lines(alloc, desk, Output::Fore, "-", &lines)
}
