//! The segments of a log that a session cleans.
//!
//! Segments are chosen by benefit and cost (Rosenblum and Ousterhout, The Design and Implementation
//! of a Log-Structured File System); of two with the same ratio the one added first is chosen.
//!
//! The contracts tell the layer above which segment is chosen, and give the contents that were
//! taken for it, in the order of its live blocks, as the fewest runs. Memory is reserved when a
//! segment is added: choosing, finishing and dropping can't run out of it. Out of memory, the
//! segments stay as they were. The contracts don't say when a segment is finished: the caller
//! decides.
//!
//! The segments that are left to choose stand in an ordered set by rank, so that adding and choosing
//! one cost a search each, and a look at each segment all choices together.
#![tactic(auto)]

mod choice;
mod segment;
mod segments;

pub use segments::{Segments, live_blocks_are_live};
