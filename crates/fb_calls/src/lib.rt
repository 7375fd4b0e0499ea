//! Reads call scripts.
//!
//! The layers above may rely on this: a text is accepted exactly if its lines obey the rules of the
//! format, on a disk and with a trace of a number of requests. Its value is then its calls in line
//! order, with the tasks numbered in order of opening; a refused text names its first faulty line,
//! and the first reason there. Accepted calls are fit for a replay: each is allowed after those
//! before it, and the blocks and reads that all of them ask for are within their limits.
#![tactic(auto)]

mod blocks;
mod entry;
mod fault;
mod judgement;
mod live_digits;
mod opened_task;
mod reader;
mod task_names;
mod words;

pub use fault::{CallsError, CallsFault, CallsReason};
pub use fb_script::{Action, Call, Calls, Kind, Live, Names, is_name, promoted};
pub use reader::read_calls;
