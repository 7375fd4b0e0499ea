//! The calls of a script: what each asks for, and of which task.
//!
//! The layers above may rely on this: the definitions say which calls a script may make, each after
//! those before it (`Allowed`), into how many blocks they are cut (`Blocks`), and which foreground
//! reads they ask for (`Promoted`), which `promoted` gives. That the calls obey these rules is what
//! the reader of scripts, `fb_calls`, promises of all that it accepts. What the calls do to tasks
//! and blocks is the business of crates above. Background tasks as sessions: Thereska and others,
//! FAST 2004.
#![tactic(auto)]

mod call;
mod names;
mod reads;

pub use call::{Action, Call, Calls, Kind, Live};
pub use names::{Names, is_name};
pub use reads::promoted;
