// Writes the note.
ghost use Rattle.std.specs.Prelude.{◌≡◌, false};
ghost use Rattle.fb_top.specs.Noted.{IsNoted, WritesNote};
ghost use Rattle.fb_top.specs.Notes.{note_of};

use crate::Outcome;
use crate::note::note_text;
use fb_desk::{Desk, Output};
use fb_streams::write_whole;
use std::alloc::Global;

/// Writes the note of an outcome, if it has one, under the name `-`.
///
/// Where that fails or runs out of memory, the note is left as it then is.
pub fn write_note<D: Desk>(alloc: Global, desk: &mut D, outcome: &Outcome)
    requires { ((D.seen desk.old).outputs Output.Note).begun ≡ false }
    ensures { IsNoted outcome.now (D.seen desk.old) (D.seen desk.new) }
{
    match outcome {
        Outcome::Done(_) => {}
        Outcome::Made(_) => {}
        Outcome::Checked(_) => {}
        Outcome::Arrayed { .. } => {}
        Outcome::Spilled { .. } => {}
        _ => begin_note(alloc, desk, outcome),
    }
}

// Begins the note and writes its text.
fn begin_note<D: Desk>(alloc: Global, desk: &mut D, outcome: &Outcome)
    requires { ((D.seen desk.old).outputs Output.Note).begun ≡ false }
    ensures { WritesNote (note_of outcome.now) (D.seen desk.old) (D.seen desk.new) }
{
    let Ok(()) = desk.begin_output(Output::Note, "-") else {
        return;
    };
    let Ok(text) = note_text(alloc, outcome) else {
        return;
    };
    let _ = write_whole(desk, Output::Note, text.as_slice());
}
