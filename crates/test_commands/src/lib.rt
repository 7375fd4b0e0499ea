//! Tests of whole commands through the top call, on a desk in memory: the reports of small replays,
//! refused files with their notes, traces and scripts that are made, arrays, and spills.
//!
//! They stand in a crate of their own, since a crate with tests is proved twice. They show what no
//! contract says; other layers take nothing from them.
#![tactic(auto)]

#[cfg(test)]
mod arrays;
#[cfg(test)]
mod making;
#[cfg(test)]
mod orders;
#[cfg(test)]
mod refused;
#[cfg(test)]
mod reports;
#[cfg(test)]
mod scripts;
#[cfg(test)]
mod spills;
