// The rows of spills.
use fb_units::{Items, Name, Ns, Track};

/// A stay of the head in a free gap, in which it writes.
#[derive(Clone, Copy)]
pub struct SpillRow {
    /// The request whose gap it is.
    pub name: Name,
    /// The track on which the head stays.
    pub track: Track,
    /// The instant at which the head is ready to write there, in nanoseconds.
    pub begin: Ns,
    /// The instant at which it leaves for the request's first track, in nanoseconds.
    pub end: Ns,
}

/// A block of a put that was written.
#[derive(Clone, Copy)]
pub struct WroteRow {
    /// The number of the put, counted from 1 in line order.
    pub put: u64,
    /// The block's first sector.
    pub lbn: u64,
    /// The number of its sectors.
    pub count: u32,
    /// The instant at which its first sector began to pass, in nanoseconds.
    pub begin: Ns,
    /// The instant at which its last sector had passed, in nanoseconds.
    pub end: Ns,
}

/// A row of the spills.
#[derive(Clone, Copy)]
pub enum SpillItem {
    /// A stay in which the head writes.
    Spill(SpillRow),
    /// A block that was written in the stay before it.
    Wrote(WroteRow),
}

/// Rows of spills: each stay in the order of the gaps, and behind it what was written there, by
/// end.
pub type SpillItems = Items<SpillItem>;

/// What was written in the free gaps of a run.
#[derive(Drop)]
pub struct SpillRun {
    /// The stays, and what was written in each.
    pub items: SpillItems,
    /// The number of sectors that were written.
    pub written: u64,
    /// The number of sectors of all other blocks.
    pub left: u64,
}
