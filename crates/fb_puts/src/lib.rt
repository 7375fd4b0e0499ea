//! Reads puts files: which sectors are to be written in the background, and from which instants on.
//!
//! A puts file names a reserve, sectors that neither the trace nor the script touches, and the
//! ranges of it that are to be written. The layers above may rely on this: a text is accepted
//! exactly if its lines obey the rules of the format. Its value is then the reserve and the puts, in
//! order, which lie in the reserve and share no sector; a refused text names its first faulty line,
//! and the first reason there.
#![tactic(auto)]

mod asked;
mod entry;
mod fault;
mod puts;
mod range;
mod reader;
mod taken;

pub use fault::{PutsError, PutsFault, PutsReason};
pub use puts::{Put, Puts};
pub use reader::read_puts;
