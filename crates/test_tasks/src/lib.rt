//! Tests of the sessions of background tasks: courses of scripts on a small disk, with the rows and
//! the states of blocks on the way worked out by hand.
//!
//! They stand in a crate of their own, since a crate with tests is proved twice. They show what no
//! contract says; other layers take nothing from them.
#![tactic(auto)]

#[cfg(test)]
mod backups;
#[cfg(test)]
mod cleaning;
#[cfg(test)]
mod lines;
#[cfg(test)]
mod played;
#[cfg(test)]
mod reading;
