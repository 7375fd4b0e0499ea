//! Tests of places, services, scripts and made traces, on disks whose values were worked out by
//! hand.
//!
//! They stand in a crate of their own, since a crate with tests is proved twice. They show what no
//! contract says; other layers take nothing from them.
#![tactic(auto)]

#[cfg(test)]
mod disks;
#[cfg(test)]
mod geometry;
#[cfg(test)]
mod making;
#[cfg(test)]
mod scripts;
#[cfg(test)]
mod sectors;
#[cfg(test)]
mod services;
