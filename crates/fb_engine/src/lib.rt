//! The replay.
//!
//! The contract of `replay` gives the layer above the full run of a trace and a call script: the
//! foreground of the plain replay, and beside it the background with the best plan in every gap. It
//! makes one decision after another (`fb_decide`), and promises nothing of the time that it takes.
//! `no_look_ahead` is a law of full runs, and so of these: on a disk without a fault, the runs of two
//! accepted inputs that agree up to an instant before both ends are the same in all that is known
//! by that instant. So no decision looks at a request or a call that has not yet come.
#![tactic(auto)]

mod ahead;
mod engine;

pub use ahead::no_look_ahead;
pub use engine::replay;
