//! The image of a backup: what its blocks held when they were last delivered.
//!
//! The contracts tell the layer above what each sector of the image holds after a delivery and
//! after sectors are dropped, and give the whole image as the fewest runs. Out of memory, the image
//! stays as it was. They don't say which blocks belong in it: the caller takes and drops them.
#![tactic(auto)]

mod image;

pub use image::Image;
