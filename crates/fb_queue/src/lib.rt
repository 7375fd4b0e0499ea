//! The order in which pending requests are served.
//!
//! A queue takes the request of least key; of several with the same key, the one that joined first.
//! The key is a function of the disk, the head's track, the instant and the request alone. The
//! contracts of `Queue` are all that the replay knows of a queue. The queues of this crate look at
//! every pending request: they follow the definitions step by step, and don't promise speed.
#![tactic(auto)]

mod keyed;
mod policies;
mod queue;

pub use keyed::{Keyed, first_least};
pub use policies::{Clook, Earliest, Fcfs, Nearest, Policy, Soonest, Sptf, Sstf, Upwards};
pub use queue::Queue;
