//! Generates traces and call scripts.
//!
//! The layers above may rely on this: a trace is made line by line from a seed and a disk's number
//! of sectors, a script from the disk alone; each is one definition, down to the last byte, and for
//! that disk the readers of traces and of scripts accept it. Nothing is said of how random a trace
//! is, or of how near it comes to a real one.
#![tactic(auto)]

mod line;
mod maker;
mod script;

pub use maker::{Maker, made_traces_are_read};
pub use script::{made_calls, made_scripts_are_read};
