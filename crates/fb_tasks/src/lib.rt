//! The sessions of a run: what calls, deliveries and writes make of tasks and blocks.
//!
//! The contracts tie the sessions and the registered blocks to the history of a run: each method moves
//! them by exactly the events that it stands for, and adds exactly the rows that these events give.
//! Seals and segments take their contents from the deliveries. Out of memory, no row is lost, and
//! blocks and sessions other than the method's own are as before: `specs/Leaving.antt` has the words
//! for what each method leaves.
#![tactic(auto)]

mod choosing;
mod delivering;
mod near;
mod session;
mod sessions;
mod testing;
mod touched;
mod wanting;

pub use sessions::{Sessions, reads_change_nothing};
