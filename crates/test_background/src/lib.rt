//! Tests of what the background keeps: wanted blocks, images and segments; with values worked out by
//! hand.
//!
//! They stand in a crate of their own, since a crate with tests is proved twice. They show what no
//! contract says; other layers take nothing from them.
#![tactic(auto)]

#[cfg(test)]
mod backups;
#[cfg(test)]
mod cleaning;
#[cfg(test)]
mod wishes;
