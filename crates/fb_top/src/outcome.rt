// How a command ended.
ghost use Rattle.std.specs.Prelude.{◌≡◌};
ghost use Rattle.fb_top.specs.Status.{status_of};

use fb_bgwrite::SpillRun;
use fb_calls::CallsFault;
use fb_check::Verdict;
use fb_desk::{Input, Output};
use fb_inputs::InputsError;
use fb_mirror::Rebuilt;
use fb_params::ParamsFault;
use fb_puts::PutsFault;
use fb_report::ReportsFault;
use fb_rows::Run;
use fb_texts::{Runs, TextsError};
use fb_trace::TraceFault;
use fb_words::UsageFault;

/// How a command ended.
#[derive(Drop)]
pub enum Outcome {
    /// The replay was made, and its reports were written whole.
    Done(Run),
    /// A trace of this many requests and a call script were made and written whole.
    Made(u64),
    /// The reports were judged, and the line that tells the verdict was written whole.
    Checked(Verdict),
    /// The trace was replayed on each device, and all that the words ask for was written whole.
    Arrayed {
        /// The runs of the devices, by device.
        runs: Runs,
        /// What the replacement of a lost disk holds, where the words ask for a rebuild.
        copy: Option<Rebuilt>,
    },
    /// The replay was made, with as much of the puts in its free gaps as they have room for, and
    /// its reports and the text of what was written there were written whole.
    Spilled {
        /// The run.
        run: Run,
        /// What was written in its free gaps.
        spill: SpillRun,
    },
    /// The words of the command line are refused.
    Usage(UsageFault),
    /// The parameter file is refused.
    Params(ParamsFault),
    /// The trace is refused.
    Trace(TraceFault),
    /// The call script is refused.
    Calls(CallsFault),
    /// The puts file is refused.
    Puts(PutsFault),
    /// A printed report is refused: a line of it isn't in its place.
    Reports(ReportsFault),
    /// The input has more bytes than its limit.
    TooLong(Input),
    /// A call that reads the input failed.
    ReadFault(Input),
    /// A call that writes the output failed.
    WriteFault(Output),
    /// The command ran out of memory.
    NoMemory,
}

impl From<InputsError> for Outcome {
    ghost use Rattle.std.specs.Prelude.{◌≡◌};
    ghost use Rattle.fb_top.specs.Ends.{unread};

    ghost from_gives = { λ error outcome. outcome ≡ unread error };

    fn from(error: InputsError) -> Outcome {
        match error {
            InputsError::Params(fault) => Outcome::Params(fault),
            InputsError::Trace(fault) => Outcome::Trace(fault),
            InputsError::Calls(fault) => Outcome::Calls(fault),
            InputsError::Puts(fault) => Outcome::Puts(fault),
            InputsError::Reports(fault) => Outcome::Reports(fault),
            InputsError::TooLong(input) => Outcome::TooLong(input),
            InputsError::ReadFault(input) => Outcome::ReadFault(input),
            InputsError::NoMemory => Outcome::NoMemory,
        }
    }
}

impl From<TextsError> for Outcome {
    ghost use Rattle.std.specs.Prelude.{◌≡◌};
    ghost use Rattle.fb_top.specs.Ends.{unwritten};

    ghost from_gives = { λ error outcome. outcome ≡ unwritten error };

    fn from(error: TextsError) -> Outcome {
        match error {
            TextsError::WriteFault(output) => Outcome::WriteFault(output),
            TextsError::NoMemory => Outcome::NoMemory,
        }
    }
}

/// The exit status of an outcome: 0 where all was written and no report is wrong, 1 where a report
/// is wrong, and otherwise 2 to 11.
pub fn status(outcome: &Outcome) -> u8
    ensures { result ≡ status_of outcome.now }
{
    match outcome {
        Outcome::Done(_) => 0,
        Outcome::Made(_) => 0,
        Outcome::Checked(Verdict::Yes) => 0,
        Outcome::Checked(Verdict::No(_)) => 1,
        Outcome::Arrayed { .. } => 0,
        Outcome::Spilled { .. } => 0,
        Outcome::Usage(_) => 2,
        Outcome::Params(_) => 3,
        Outcome::Trace(_) => 4,
        Outcome::Calls(_) => 5,
        Outcome::ReadFault(_) => 6,
        Outcome::WriteFault(_) => 7,
        Outcome::NoMemory => 8,
        Outcome::TooLong(_) => 9,
        Outcome::Reports(_) => 10,
        Outcome::Puts(_) => 11,
    }
}
