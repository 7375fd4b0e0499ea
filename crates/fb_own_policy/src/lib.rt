//! An order of service of one's own: reads before writes.
//!
//! This crate is the example of docs/EXTENDING.md: the program doesn't use it. What
//! `replay_reads_first` returns is the full run of its inputs, in which a write is served only when
//! no read waits.
#![tactic(auto)]

#[cfg(test)]
mod by_hand;
mod reads_first;

pub use reads_first::{ReadsFirst, replay_reads_first};
