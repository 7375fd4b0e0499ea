//! Tests of the readers of parameter files, traces and words, with values worked out by hand.
//!
//! They stand in a crate of their own, since a crate with tests is proved twice. They show what no
//! contract says; other layers take nothing from them.
#![tactic(auto)]

#[cfg(test)]
mod params;
#[cfg(test)]
mod traces;
#[cfg(test)]
mod words;
