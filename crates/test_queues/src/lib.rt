//! Tests of the queues, the fast ones beside the plain ones, and of the planners, on gaps whose best plans were worked out by
//! hand and on many generated ones.
//!
//! They stand in a crate of their own, since a crate with tests is proved twice. They show what no
//! contract says; other layers take nothing from them.
#![tactic(auto)]

#[cfg(test)]
mod at_random;
#[cfg(test)]
mod gaps;
#[cfg(test)]
mod made;
#[cfg(test)]
mod worked;
