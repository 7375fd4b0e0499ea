//! Reads the inputs of a command: each whole, under the name that the words give it, and judged
//! before the next is opened.
#![tactic(auto)]

mod devices;
mod error;
mod puts;
mod reading;
mod replay_inputs;

pub use devices::{ArrayFiles, read_array};
pub use error::InputsError;
pub use puts::read_given_puts;
pub use reading::{NamedFiles, RunFiles, no_calls, read_disk, read_files, read_printed};
pub use replay_inputs::{ReplayInputs, read_replay_inputs};
