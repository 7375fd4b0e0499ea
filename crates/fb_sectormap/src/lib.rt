//! LBNs: where each sector of a disk is, which sector a place holds, and how a range of sectors is
//! cut into blocks.
//!
//! The layers above may rely on this: `place` and `lbn_at` are inverse to each other, over one list
//! of all places that hold data; LBNs rise with the cylinder; the cutting of a range is one
//! definition, and each block passes whole within one rotation. So they work with LBNs alone, and
//! ask nobody for zones, spares or defects. Only `SectorMap::new` allocates. Nothing here knows of
//! instants.
#![tactic(auto)]

mod cut;
mod map;
mod numbering;
mod run;
mod span;
mod sweep;
mod worked;

pub use cut::Cut;
pub use map::SectorMap;
pub use run::CylinderRun;
pub use span::Span;
pub use worked::small_disks;
