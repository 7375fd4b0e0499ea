//! Times, tracks, requests, and numbers as text: the types and functions that every crate uses.
//!
//! The layers above may rely on this: the readers of lines, fields, numbers, times and flags accept
//! exactly what their grammars accept and return its value, a time that was written reads back as
//! the same time, `wait_for` is the least wait until the platter reaches an angle, and `Items` is a
//! list. Only its methods allocate. Nothing here checks that a track, slot or sector exists on a disk.
#![tactic(auto)]

mod items;
mod lines;
mod numbers;
mod read_error;
mod times;
mod types;

pub use items::Items;
pub use lines::{index_of, next_field, next_line};
pub use numbers::{LIMIT, read_flags, read_millis, read_number, write_millis};
pub use read_error::ReadError;
pub use times::{Ns, wait_for};
pub use types::{KeyText, Name, NoMemory, Place, Request, Sweep, Track};
