//! Reads traces of foreground requests, in the five fields of the DiskSim manual's ASCII format.
//!
//! The layers above may rely on this: a text is accepted exactly if its lines obey the rules of the
//! format. Its value is then the requests of one device, in order, and the number of requests of
//! other devices; a refused text names its first faulty line, and the first reason there. Accepted
//! requests are fit for a replay: they are named 1, 2, .., are on the disk, arrive in order, and
//! are at most a million. Requests of other devices are only counted: nothing is said of their
//! sectors. For several devices, the text is read once and gives what it gives for each alone; if
//! it is refused for some of them, the fault is that of the least.
#![tactic(auto)]

mod devices;
mod entry;
mod reader;
mod trace;

pub use devices::read_traces;
pub use reader::read_trace;
pub use trace::{Trace, TraceError, TraceFault, TraceReason};
