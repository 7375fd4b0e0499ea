//! The replay, decision by decision.
//!
//! A `Decider` is a replay between two decisions. Its contracts give the layer above the next
//! decision of a full run: the best plan for the gap of the request that it serves, all deliveries
//! that are due, and the rows of its own test and of the test after each delivery. The rows can be
//! taken after each decision, so that none need be held. All this holds for every queue and every
//! planner that keep the contracts of their traits. After an error of `decide` nothing is promised
//! of its decider.
#![tactic(auto)]

mod background;
mod deciding;
mod foreground;
mod gap;
mod joining;
mod laws;
mod preparing;
mod requests;
mod riding;
mod run_inputs;
mod serving;
mod start;

pub use deciding::{Decider, Rows};
pub use laws::decisions_make_a_run;
pub use run_inputs::RunInputs;
