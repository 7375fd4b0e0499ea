// Why a puts file is refused.
use fb_units::ReadError;

/// Why a line of a puts file is refused.
#[derive(Clone, Copy, Debug, PartialEq, Eq)]
pub enum PutsReason {
    /// Of the lines that aren't blank, the first isn't `reserve` with two more fields, or a later one hasn't four fields,
    /// the second of them `put`.
    BadLine,
    /// The first field of a put isn't a time in milliseconds, or is above 10^9 ms.
    BadTime,
    /// This field, counted from 1, isn't a number of its form, or the number is too large.
    BadNumber(u32),
    /// The instant is before that of the put before.
    OutOfOrder,
    /// The range has no sector.
    Empty,
    /// The range goes past the end of the disk.
    BeyondDisk,
    /// The reserve has more than 16,000,000 sectors.
    TooLarge,
    /// The reserve shares a sector with a request of the trace, or with the range of a want, a
    /// promote or a segment of the script.
    Touched,
    /// The put doesn't lie in the reserve.
    OutsideReserve,
    /// The put shares a sector with an earlier one.
    PutTwice,
    /// There are already 100,000 puts.
    TooMany,
}

/// The first faulty line of a puts file, and the first reason why it is refused.
#[derive(Clone, Copy, Debug, PartialEq, Eq)]
pub struct PutsFault {
    /// The line, counted from 1, blank ones included.
    pub line: u64,
    /// The reason.
    pub reason: PutsReason,
}

/// Why no puts file was read: its first fault, or out of memory.
pub type PutsError = ReadError<PutsFault>;
