// Why a script is refused.
use fb_units::ReadError;

/// Why a line of a script is refused.
#[derive(Clone, Copy, Debug, PartialEq, Eq)]
pub enum CallsReason {
    /// The line has fewer than three fields, or not the number that its verb needs, or its third
    /// field can't be the name of a task.
    BadLine,
    /// The first field isn't a time in milliseconds, or is above 10^9 ms.
    BadTime,
    /// This field, counted from 1, isn't a number or a list of live blocks of its form, or the
    /// number is too large.
    BadNumber(u32),
    /// The instant is before that of the call before.
    OutOfOrder,
    /// The verb isn't known.
    UnknownVerb,
    /// The kind of a task isn't known.
    UnknownKind,
    /// A task of this name was opened before, even if it is closed by now.
    TaskTaken,
    /// No task of this name was opened before.
    UnknownTask,
    /// The task is already closed.
    Closed,
    /// The call isn't for this kind of task: a want or an abort of a clean task, or a segment of
    /// another one.
    WrongKind,
    /// A second want of a backup.
    WantedTwice,
    /// The range has no sector.
    Empty,
    /// The range or the segment goes past the end of the disk.
    BeyondDisk,
    /// A promote has more than 2,048 sectors, or a segment more than 4,096 blocks.
    TooLarge,
    /// A weight isn't 1 to 1,000.
    WeightOutOfRange,
    /// A block size isn't 1 to 2,048 sectors.
    BlockOutOfRange,
    /// With this call the wanted ranges and live blocks are cut into more than 16,000,000 blocks.
    TooManyBlocks,
    /// With this promote there are more than a million promotes and requests of the trace together.
    TooMany,
}

/// The first faulty line of a script, and the first reason why it is refused.
#[derive(Clone, Copy, Debug, PartialEq, Eq)]
pub struct CallsFault {
    /// The line, counted from 1.
    pub line: u64,
    /// The reason.
    pub reason: CallsReason,
}

/// Why no script was read: its first fault, or out of memory. A script of more than 2^32 - 1 calls
/// is `NoMemory` too.
pub type CallsError = ReadError<CallsFault>;
