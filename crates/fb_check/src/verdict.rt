// What a judge says of two printed reports.
use fb_desk::Input;

/// What a wrong line breaks.
#[derive(Clone, Copy)]
pub enum Rule {
    /// The foreground of the plain replay: any line of the foreground report.
    Foreground,
    /// Where the head is: an idle dwell, or a gap's request, tracks and instants.
    Timeline,
    /// The best plan of a gap.
    Plan,
    /// What is delivered, where, when and with which bytes.
    Delivery,
    /// What stands at a test or after a delivery: unreadable sectors, seals, segments and
    /// completions.
    Event,
    /// The counts of a task at the end.
    Tasks,
    /// The instant at which the run ends.
    End,
}

/// The first line of a printed report that isn't the due one.
#[derive(Clone, Copy)]
pub struct Mismatch {
    /// The report. A wrong foreground line comes before any wrong background line.
    pub input: Input,
    /// The line, counted from 1.
    pub line: u64,
    /// The first field in it that differs from the due line's, counted from 1.
    pub field: u32,
    /// The rule of the due line.
    pub rule: Rule,
}

/// Whether two printed reports are those of the full run of their inputs.
#[derive(Clone, Copy)]
pub enum Verdict {
    /// They are.
    Yes,
    /// They aren't.
    No(Mismatch),
}
