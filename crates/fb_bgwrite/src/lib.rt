//! Background writes in the free gaps of a run.
//!
//! A puts file, which `fb_puts` reads, names the sectors that are to be written. A gap in which the
//! run delivers nothing is free: there the head may go to a track and write the pending blocks that
//! pass under it, as long as it reaches the request's first sector in time. The layers above may rely
//! on this: each free gap has the best such spill, among those of every track and every nanosecond; no
//! block is written twice, or before its instant; the head can go the amended way, which keeps each
//! foreground passage and each delivery; the text of the spills is one definition. Work and memory
//! grow with the lines, the gaps and the pending blocks within reach, not with the sectors or tracks
//! of the disk.
#![tactic(auto)]

mod by_angle;
mod choice;
mod items;
mod laws;
mod pending;
mod search;
mod shortest;
mod spilling;
mod spills;
mod spots;
mod text;

pub use fb_puts::{Put, Puts, PutsError, PutsFault, PutsReason, read_puts};
pub use items::{SpillItem, SpillItems, SpillRow, SpillRun, WroteRow};
pub use laws::one_best_spill;
pub use spills::spill;
pub use text::{spill_piece, spill_pieces};
