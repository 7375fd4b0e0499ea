//! The parameter file: the disk that it describes, and the sectors that cannot be read at first.
//!
//! The layers above may rely on this: what `read_params` returns is one function of the bytes,
//! `params_of` in `specs/Reading.antt`: the value of an accepted file, or the first fault. Faults
//! are looked for one kind after another, each in the whole file: bytes that aren't TOML, unknown
//! keys, missing keys, values of a wrong kind, numbers out of range, the outline, the seek table,
//! latent sectors beyond the disk. The keys, with their kinds and ranges, are the tables of
//! `specs/Keys.antt`. Reading may run out of memory with any file, which says nothing about it.
#![tactic(auto)]

mod fault;
mod key;
mod latent;
mod name;
mod outline;
mod parameters;
mod read;
mod rows;
mod rule;
mod search;
mod seek;
mod table;

pub use fault::{ParamsError, ParamsFault};
pub use parameters::Parameters;
pub use read::read_params;
