//! Tests of replays through the top call, on a desk in memory: sessions of tasks, calls of the desk
//! that fail, crowds of requests, and inputs that are alike up to an instant.
//!
//! They stand in a crate of their own, since a crate with tests is proved twice. They show what no
//! contract says; other layers take nothing from them.
#![tactic(auto)]

#[cfg(test)]
mod ahead;
#[cfg(test)]
mod crowds;
#[cfg(test)]
mod faults;
#[cfg(test)]
mod sessions;
