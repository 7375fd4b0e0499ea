//! The rows of a run: what a replay reports of the foreground and of the background.
//!
//! The types that a replay fills and that reports are made from. Instants are whole nanoseconds,
//! sectors are LBNs from 0, and a task is its number from 0 in order of opening. Which rows a run has
//! is not said here, but in the crates above.
#![tactic(auto)]

mod back;
mod fore;
mod gap;
mod run;

pub use back::{
    BackRow, BackRows, BadRow, CompleteRow, DeliveryRow, GapRow, SealRow, SegmentRow, TaskRow,
};
pub use fore::{ForeRow, ForeRows};
pub use gap::{Catch, Dwell, Gap, How, Plan};
pub use run::Run;
