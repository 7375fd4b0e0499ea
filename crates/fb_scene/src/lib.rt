//! The files that commands of the tests find, and how the commands end, on a desk in memory.
//!
//! It stands below the tests of the top call, so that those can be proved side by side. The program
//! doesn't use it, and it promises nothing of what commands do.
#![tactic(auto)]

mod scene;

pub use scene::{Ending, LARGE, Scene, TWELVE, disk, end, scripted, spilling, split, unscripted};
