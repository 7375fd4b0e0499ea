//! The best plan for a gap, found without a look at most tracks.
//!
//! `IndexedPlanner` keeps the contract of `Planner`: it gives the layer above the same plan as the
//! planner that tries every track. It passes over tracks, and ranges of cylinders, whose detours
//! can't be better than the best plan so far, by upper bounds on what they can catch. How many
//! tracks it passes over is not promised.
#![tactic(auto)]

mod bins;
mod bounds;
mod candidates;
mod given;
mod indexed;
mod intervals;
mod leaves;
mod missing;
mod parts;
mod rate;
mod search;
mod steps;
mod stop;

pub use bounds::most_slots;
pub use indexed::IndexedPlanner;
