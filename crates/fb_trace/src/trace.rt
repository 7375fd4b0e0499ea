// What reading a trace returns.
use fb_units::{ReadError, Request};

/// The requests of one device, and how many of other devices were passed over.
#[derive(Drop)]
pub struct Trace {
    /// The requests of the device, named 1, 2, .. in order of arrival; at most a million.
    pub requests: Vec<Request>,
    /// The number of requests of other devices.
    pub passed_over: u64,
}

/// Why a line of a trace is refused.
#[derive(Clone, Copy)]
pub enum TraceReason {
    /// The line has fields, but fewer than five.
    TooFewFields,
    /// The first field isn't a time in milliseconds, or is above 10^9 ms.
    BadTime,
    /// This field, counted from 1, isn't a number of its form, or the number is too large.
    BadNumber(u32),
    /// The request arrives before that of the last line that isn't blank.
    OutOfOrder,
    /// The request has no sector.
    Empty,
    /// The request has more than 2,048 sectors.
    TooLarge,
    /// The request goes past the end of the disk.
    BeyondDisk,
    /// The device already has a million requests.
    TooMany,
}

/// The first faulty line of a trace, and the first reason why it is refused.
#[derive(Clone, Copy)]
pub struct TraceFault {
    /// The line, counted from 1.
    pub line: u64,
    /// The reason.
    pub reason: TraceReason,
}

/// Why no trace was read: the first fault of the trace, or out of memory.
pub type TraceError = ReadError<TraceFault>;
