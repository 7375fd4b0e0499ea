// What is printed is read again.
ghost use Rattle.fb_report.specs.Printed.{PrintedAreReadBack};

/// A text of lines, each of which is in its place, is a report: a reader accepts it, and its lines
/// are those that were printed.
#[tactic(auto, using(crate::proofs::ReadBack::printed_are_read_back))]
pub fn printed_reports_are_read()
    ensures { PrintedAreReadBack }
{}
