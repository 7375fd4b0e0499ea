//! The top call: it reads the words, then the inputs that they name, and replays them, for one
//! device or for several, and writes the reports, and what was written in gaps if the words name
//! puts; or it judges reports that were printed.
//!
//! Files are reached through a `Desk` (`fb_desk`). `run_command` returns an outcome. Its contract
//! says that each outcome has its cause, in what was read or in a call of the desk that failed;
//! that the texts written are those of the very runs that it returns, and reports that a check
//! accepts; that a verdict is right; and that a command whose inputs are accepted and whose calls
//! don't fail is done, unless it runs out of memory. It doesn't promise how long a run takes.
//! `printed_reports_are_right` says that the reports of a replay are answered yes, and
//! `sections_are_replays` that what an array prints of a device is what a replay of it prints, and
//! `copies_are_the_survivors` that its copy is what the disk holds from which it is made.
#![tactic(auto)]

mod array;
mod check;
mod command;
mod make;
mod note;
mod note_faults;
mod note_words;
mod noting;
mod outcome;
mod policy;
mod replay;
mod report;
mod untouched;
mod verdicts;

pub use command::{run, run_command};
pub use fb_texts::Runs;
pub use note::note_text;
pub use outcome::{Outcome, status};
pub use untouched::{
    copies_are_the_survivors, inputs_have_one_run, printed_reports_are_right,
    right_reports_are_right, runs_are_made, runs_look_not_ahead, scripts_leave_the_foreground,
    sections_are_replays,
};
