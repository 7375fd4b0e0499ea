// Writes texts, whole or line by line.
ghost use Rattle.std.specs.Prelude.{◌≡◌, ◌≢◌, ℕ, List, [], ◌++◌, Some, true, false, Err, IfOk, IfSome, OnErr, OnOk};
ghost use Rattle.std.specs.Option.{option_map};
ghost use Rattle.std.specs.String.{string_bytes};
ghost use Rattle.fb_desk.specs.Calls.{ChangesOutput};
ghost use Rattle.fb_desk.specs.View.{DeskView};
ghost use Rattle.fb_report.specs.Printed.{IsReadBack};
ghost use Rattle.fb_streams.specs.Called.{Asked, Ends, EndsLine};
ghost use Rattle.fb_texts.specs.Ends.{failed_output};
ghost use Rattle.fb_texts.specs.Written.{WritesTexts, given_text, joined, one_text};
ghost use Rattle.fb_texts.specs.Writing.{HasWritten, Writes};

use crate::TextsError;
use crate::lines::Lines;
use fb_desk::{Desk, Failed, Output};
use fb_streams::write_whole;
use fb_units::NoMemory;
use std::alloc::Global;

/// Begins an output under a name, empty. The error comes where the call of the desk fails.
pub fn begin_text<D: Desk>(desk: &mut D, which: Output, name: &str) -> Result<(), TextsError>
    requires fresh { ((D.seen desk.old).outputs which).begun ≡ false }
    ensures written { Writes which name.now [] (D.seen desk.old) (D.seen desk.new) result }
    ensures memory { result ≢ Err TextsError.NoMemory }
{
    let Ok(()) = desk.begin_output(which, name) else {
        return Err(TextsError::WriteFault(which));
    };
    Ok(())
}

/// Writes more of a text to an output that was begun, as `write_whole` does. What is written, if it
/// isn't empty, ends with a line feed. The error comes where a call of the desk fails.
pub fn write_more<D: Desk>(desk: &mut D, which: Output, more: &[u8]) -> Result<(), TextsError>
    requires begun { ((D.seen desk.old).outputs which).begun ≡ true }
    requires lines { more.now ≢ [] → EndsLine more.now }
    ensures written { (first : DeskView) (name text : List ℕ) → HasWritten which name text first (D.seen desk.old)
        → Writes which name (text ++ more.now) first (D.seen desk.new) result }
    ensures memory { result ≢ Err TextsError.NoMemory }
{
    match write_whole(desk, which, more) {
        Ok(()) => Ok(()),
        Err(Failed) => Err(TextsError::WriteFault(which)),
    }
}

/// Begins an output under a name, and writes to it the text that was made, which ends with a line
/// feed.
///
/// The error says why: a call that writes failed; or the text was not made, and nothing was begun.
#[tactic(auto, using(crate::proofs::Pieces::never_begun, crate::proofs::Pieces::stops_within, crate::proofs::Pieces::writes_one))]
pub fn write_made<D: Desk>(
    desk: &mut D,
    which: Output,
    name: &str,
    made: Result<Vec<u8>, NoMemory>,
) -> Result<(), TextsError>
    requires fresh { ((D.seen desk.old).outputs which).begun ≡ false }
    requires line { IfOk made (λ bytes. EndsLine bytes.items) }
    ensures only { ChangesOutput which (D.seen desk.old) (D.seen desk.new) }
    ensures texts { (text : List ℕ) → IfOk made (λ bytes. bytes.items ≡ text)
        → WritesTexts (one_text which name.now text) (D.seen desk.old) (D.seen desk.new) result }
    ensures calls { (asked : Asked) → asked.outputs which ≡ Some name.now
        → Ends failed_output asked result (D.seen desk.old).calls (D.seen desk.new).calls }
    ensures memory { OnOk made (result ≢ Err TextsError.NoMemory) }
    ensures unmade { OnErr made ((result ≡ Err TextsError.NoMemory) × (D.seen desk.new ≡ D.seen desk.old)) }
{
    let text = made?;
    begin_text(desk, which, name)?;
    write_more(desk, which, text.as_slice())
}

/// Begins an output under a name, and writes the lines of a text to it, one by one.
///
/// The error says why: a call that writes failed, or memory ran out.
#[tactic(auto, using(crate::proofs::Pieces::line_stops, crate::proofs::Pieces::lines_stop, crate::proofs::Pieces::stops_within))]
pub fn write_lines<D: Desk, L: Lines>(
    alloc: Global,
    desk: &mut D,
    which: Output,
    name: &str,
    lines: &L,
) -> Result<(), TextsError>
    requires fresh { ((D.seen desk.old).outputs which).begun ≡ false }
    requires told { L.can_be_told lines.now }
    ensures only { ChangesOutput which (D.seen desk.old) (D.seen desk.new) }
    ensures texts { WritesTexts (one_text which name.now (joined (L.lines lines.now))) (D.seen desk.old) (D.seen desk.new) result }
    ensures calls { (asked : Asked) → asked.outputs which ≡ Some name.now
        → Ends failed_output asked result (D.seen desk.old).calls (D.seen desk.new).calls }
    ensures read { OnOk result (L.can_be_read lines.now → IsReadBack (L.grammar lines.now) (L.lines lines.now)) }
{
    begin_text(desk, which, name)?;
    for index in 0..lines.count() {
        let line = lines.line(alloc, index)?;
        write_more(desk, which, line.as_slice())?;
    }
    Ok(())
}

/// Writes the lines of a text as `write_lines` does if a name is given; without a name it makes no
/// call and has no error.
pub fn write_given<D: Desk, L: Lines>(
    alloc: Global,
    desk: &mut D,
    which: Output,
    name: &Option<String>,
    lines: &L,
) -> Result<(), TextsError>
    requires fresh { ((D.seen desk.old).outputs which).begun ≡ false }
    requires told { L.can_be_told lines.now }
    ensures only { ChangesOutput which (D.seen desk.old) (D.seen desk.new) }
    ensures texts { WritesTexts (given_text which (option_map string_bytes name.now) (joined (L.lines lines.now)))
        (D.seen desk.old) (D.seen desk.new) result }
    ensures calls { (asked : Asked) → asked.outputs which ≡ option_map string_bytes name.now
        → Ends failed_output asked result (D.seen desk.old).calls (D.seen desk.new).calls }
    ensures read { OnOk result (L.can_be_read lines.now
        → IfSome (option_map string_bytes name.now) (λ told. IsReadBack (L.grammar lines.now) (L.lines lines.now))) }
{
    match name {
        Some(name) => write_lines(alloc, desk, which, name.as_str(), lines),
        None => Ok(()),
    }
}
