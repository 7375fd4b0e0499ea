// The commands that a command line can give.
use fb_report::Bytes;
use fb_units::Ns;

/// The order in which requests are served: of those that have arrived, the one of least key (as in
/// Worthington, Ganger and Patt, "Scheduling algorithms for modern disk drives", SIGMETRICS 1994).
#[derive(Clone, Copy)]
pub enum Policy {
    /// First come, first served.
    Fcfs,
    /// Shortest seek first, by distance in cylinders.
    Sstf,
    /// Circular look: the next cylinder upwards, and from the last one on to the first.
    Clook,
    /// Shortest positioning first: the least time until the first sector begins to pass.
    Sptf,
}

/// The options of a replay. Files have the names that the words give them.
#[derive(Drop)]
pub struct ReplayWords {
    /// The parameter file.
    pub params: String,
    /// The trace.
    pub trace: String,
    /// The order in which requests are served.
    pub policy: Policy,
    /// The call script, if there is one.
    pub calls: Option<String>,
    /// The file for the background report; there is one exactly if there is a call script.
    pub back: Option<String>,
    /// The file of background writes, if there is one.
    pub puts: Option<String>,
    /// The file for the text of what was written; there is one exactly if there is a file of
    /// background writes.
    pub spill: Option<String>,
    /// The instant until which the head waits for background blocks at the end, when no request and
    /// no call is left, in nanoseconds, at most 10^15.
    pub until: Ns,
    /// The device whose requests are replayed, at most 10^15.
    pub device: u64,
    /// How contents are shown in the reports.
    pub bytes: Bytes,
    /// Whether a summary is written instead of the foreground report.
    pub summary: bool,
}

/// The options for generating a trace and a call script.
#[derive(Drop)]
pub struct MakeWords {
    /// The parameter file.
    pub params: String,
    /// The file to which the trace is written.
    pub trace: String,
    /// The file to which the call script is written.
    pub calls: String,
    /// The seed of the random words from which the requests are made, at most 10^15.
    pub number: u64,
    /// The number of requests of the trace, at most 1,000,000.
    pub requests: u64,
    /// The device of all requests, at most 10^15.
    pub device: u64,
}

/// The options for judging a foreground and a background report against the inputs of a replay.
#[derive(Drop)]
pub struct CheckWords {
    /// The parameter file.
    pub params: String,
    /// The trace.
    pub trace: String,
    /// The order in which requests are served.
    pub policy: Policy,
    /// The call script.
    pub calls: String,
    /// The foreground report.
    pub fore: String,
    /// The background report.
    pub back: String,
    /// The instant until which the head waits for background blocks at the end, when no request and
    /// no call is left, in nanoseconds, at most 10^15.
    pub until: Ns,
    /// The device whose requests are replayed, at most 10^15.
    pub device: u64,
    /// How contents are shown in the reports.
    pub bytes: Bytes,
}

/// The options for replaying the trace of several devices, each on a disk of its own.
#[derive(Drop)]
pub struct ArrayWords {
    /// The parameter file, which is that of every device.
    pub params: String,
    /// The trace.
    pub trace: String,
    /// The order in which requests are served.
    pub policy: Policy,
    /// The number of devices, from 1 to 16. The devices are 0, 1, .. below it.
    pub devices: u32,
    /// The rebuild of a device, if there is one.
    pub rebuild: Option<RebuildWords>,
    /// The instant until which the heads wait for background blocks at the end, when no request and
    /// no call is left, in nanoseconds, at most 10^15.
    pub until: Ns,
    /// How contents are shown in the reports.
    pub bytes: Bytes,
}

/// The options for rebuilding the replacement of a lost disk from a device with the same contents.
#[derive(Drop)]
pub struct RebuildWords {
    /// The device that is read, below the number of devices.
    pub device: u32,
    /// The file for the background report of that device.
    pub back: String,
    /// The file for the text of the replacement.
    pub copy: String,
}

/// What the program is to do.
#[derive(Drop)]
pub enum Command {
    /// Replay a trace.
    Replay(ReplayWords),
    /// Generate a trace and a call script.
    Make(MakeWords),
    /// Judge two reports.
    Check(CheckWords),
    /// Replay a trace on several devices.
    Array(ArrayWords),
}
