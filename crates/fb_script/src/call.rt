// The calls of a script.
use crate::Names;
use fb_units::{Items, Ns};

/// What a task is for. A task is a session of the background.
#[derive(Clone, Copy, Debug, PartialEq, Eq)]
pub enum Kind {
    /// Reads blocks.
    Plain,
    /// Reads the blocks of one range until they make an image of one instant.
    Backup,
    /// Reads blocks, and reports the sectors that cannot be read.
    Scrub,
    /// Reads the live blocks of log segments.
    Clean,
}

/// For each block of a segment, in order, whether it is live.
pub type Live = Items<bool>;

/// What a call asks for. A range is `count` sectors from the LBN `first` on.
#[derive(Drop)]
pub enum Action {
    /// Opens a task of a kind, with the weight of each sector of its blocks (1 to 1,000) and its block
    /// size (1 to 2,048 sectors).
    Open {
        kind: Kind,
        weight: u32,
        block: u32,
    },
    /// Wants the blocks of the range.
    Want {
        first: u64,
        count: u64,
    },
    /// Aborts the task's blocks that share a sector with the range and are not delivered.
    Abort {
        first: u64,
        count: u64,
    },
    /// Reads the range in the foreground, at most 2,048 sectors.
    Promote {
        first: u64,
        count: u32,
    },
    /// Holds back the task's blocks until it is resumed.
    Suspend,
    /// Ends a suspension.
    Resume,
    /// Aborts all blocks that aren't delivered, drops all segments that aren't begun, and ends the
    /// task.
    Close,
    /// Adds a log segment: 1 to 4,096 blocks of the task's block size from an LBN on, an age (up to
    /// 10^15, in any unit), and which of the blocks are live.
    Segment {
        first: u64,
        blocks: u32,
        age: u64,
        live: Live,
    },
}

/// A call: a line of a script.
#[derive(Drop)]
pub struct Call {
    /// The number of the line, from 1.
    pub line: u64,
    /// The instant of the call, in nanoseconds, at most 10^15.
    pub instant: Ns,
    /// The number of the task, from 0 in order of opening.
    pub task: u32,
    /// What it asks for.
    pub action: Action,
}

/// A whole script.
#[derive(Drop)]
pub struct Calls {
    /// The names of the tasks, in order of opening.
    pub names: Names,
    /// The calls, in line order; their instants don't fall.
    pub calls: Vec<Call>,
}
