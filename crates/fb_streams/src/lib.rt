//! Reads inputs whole and writes outputs whole, and says which calls of a desk the words of a command
//! ask for.
#![tactic(auto)]

mod streams;

pub use streams::{InputError, read_whole, write_whole};
