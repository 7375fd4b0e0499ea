//! Reads the words of a command line.
//!
//! The layers above may rely on this: words are accepted exactly if they obey the grammar, and have
//! then one command as their value; refused words name the first faulty one by its index, and the
//! reason. Both are one function of the words, `command_of` in `specs/Command.antt`. Numbers are
//! within their limits. Whether the named files exist, or are the same, is not looked at.
#![tactic(auto)]

mod command;
mod fault;
mod given;
mod names;
mod reading;
mod values;
mod words;

pub use command::{ArrayWords, CheckWords, Command, MakeWords, Policy, RebuildWords, ReplayWords};
pub use fault::{UsageFault, UsageReason, WordsError};
pub use fb_maker::{Maker, made_calls};
pub use words::read_words;
