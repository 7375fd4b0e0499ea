// The top call.
ghost use Rattle.std.specs.Prelude.{◌≡◌, map};
ghost use Rattle.std.specs.String.{string_bytes};
ghost use Rattle.fb_desk.specs.View.{IsUnused};
ghost use Rattle.fb_words.specs.Command.{command_of};
ghost use Rattle.fb_top.specs.Answers.{AnswersWords, IsAnswered};
ghost use Rattle.fb_inputs.specs.Account.{AreReadAs};
ghost use Rattle.fb_top.specs.Ended.{EndsWith};
ghost use Rattle.fb_top.specs.Ends.{EndsAs};
ghost use Rattle.fb_streams.specs.Called.{asked_by};

use crate::array::run_array;
use crate::check::run_check;
use crate::make::run_make;
use crate::noting::write_note;
use crate::replay::run_replay;
use crate::{Outcome, status};
use fb_desk::{Desk, Output};
use fb_words::{Command, WordsError, read_words};
use std::alloc::Global;

/// Does what the words of a command line ask for; the first word is the program's name.
///
/// A replay reads the parameter file whole, then the trace, then the call script if the words name
/// one, and then the puts file if they name one. Each is read once, and judged before the next is
/// opened; nothing is written before all are accepted. Then the foreground report, or the summary if
/// the words ask for it, goes to the output `Fore` under the name `-`. After it the background
/// report, if the words name one, goes to the output `Back` under that name. Both are the same with
/// puts and without. Where there are puts, they are written in the free gaps of the run, in each as
/// many sectors as can be, and the text of what was written goes to the output `Spill` under the
/// name that the words give, after both reports.
///
/// A make reads the parameter file, and writes a trace and a call script that are accepted for that
/// disk. A check reads the parameter file, the trace and the call script, then a printed foreground
/// report and a printed background report, and judges whether they are those of the replay's run;
/// one line that tells the verdict goes to the output `Fore` under the name `-`.
///
/// An array reads the parameter file and the trace, which is judged for all its devices, and replays
/// each; a section for each device goes to the output `Fore` under the name `-`. Where the words ask
/// for a rebuild, one device is replayed beside a backup of its whole disk: its background report
/// goes to the output `Back`, and then what the replacement holds to the output `Copied`, each under
/// the name that the words give.
///
/// Where a command fails, a line that says why goes to the output `Note` under the name `-`; the
/// outcome is the same whether that line can be written or not. The desk must be unused.
pub fn run_command<D: Desk>(alloc: Global, desk: &mut D, words: &[String]) -> Outcome
    requires { IsUnused (D.seen desk.old) }
    ensures { IsAnswered (command_of (map string_bytes words.now)) (D.seen desk.old) (D.seen desk.new) result }
{
    let outcome = answer_words(alloc, desk, words);
    write_note(alloc, desk, &outcome);
    outcome
}

/// Does the same as `run_command`, and returns the exit status of its outcome: 0 where all was
/// written and no report is wrong, 1 where a report is wrong, and otherwise 2 to 11.
pub fn run<D: Desk>(alloc: Global, desk: &mut D, words: &[String]) -> u8
    requires { IsUnused (D.seen desk.old) }
    ensures { EndsWith (command_of (map string_bytes words.now)) (D.seen desk.old) (D.seen desk.new) result }
{
    status(&run_command(alloc, desk, words))
}

// Does what the words ask for, and writes no note.
fn answer_words<D: Desk>(alloc: Global, desk: &mut D, words: &[String]) -> Outcome
    requires { IsUnused (D.seen desk.old) }
    ensures answers { AnswersWords (command_of (map string_bytes words.now)) (D.seen desk.old) (D.seen desk.new) result }
    ensures inputs { AreReadAs (asked_by (command_of (map string_bytes words.now))).inputs (D.seen desk.old) (D.seen desk.new) }
    ensures calls { EndsAs (asked_by (command_of (map string_bytes words.now))) result
        (D.seen desk.old).calls (D.seen desk.new).calls }
    ensures no_note { (D.seen desk.new).outputs Output.Note ≡ (D.seen desk.old).outputs Output.Note }
{
    match read_words(alloc, words) {
        Ok(Command::Replay(words)) => run_replay(alloc, desk, &words),
        Ok(Command::Make(words)) => run_make(alloc, desk, &words),
        Ok(Command::Check(words)) => run_check(alloc, desk, &words),
        Ok(Command::Array(words)) => run_array(alloc, desk, &words),
        Err(WordsError::Fault(fault)) => Outcome::Usage(fault),
        Err(WordsError::NoMemory) => Outcome::NoMemory,
    }
}
