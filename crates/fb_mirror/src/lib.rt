//! Rebuilds a lost disk of a mirror from the run of a survivor.
//!
//! The survivor serves its own load, and a backup session over the whole disk reads every sector in
//! its free gaps; the replacement gets each delivered block and each foreground write. The layers
//! above may rely on this: the script of a rebuild is one definition, down to the last byte, and
//! what it reads as is known for each disk; what the replacement holds is one definition over the
//! events of the run, and laws say what an event gives a sector and which of them decides; for full
//! runs other laws say that all events lie on the disk, that what the replacement got is what the
//! survivor has at the run's end, and that a sealed rebuild has got every sector; the text of a copy
//! is one definition too. Work and memory grow with the rows of the run and their runs, not with the
//! sectors of the disk. Whether the run was made by that script `rebuild` doesn't ask.
#![tactic(auto)]

mod changes;
mod copy;
mod laws;
mod rebuilt;
mod script;

pub use copy::{copy_piece, copy_pieces};
pub use laws::{
    covered_sectors_are_the_survivors, events_concern_their_sectors, latest_events_decide,
    runs_lie_on_the_disk, sealed_rebuilds_are_whole,
};
pub use rebuilt::{Rebuilt, rebuild};
pub use script::{rebuild_script, rebuild_scripts_are_read};
