// Laws of the runs that `run_command` returns.
ghost use Rattle.fb_top.specs.Copied.{CopiesAreTheSurvivors};
ghost use Rattle.fb_top.specs.Untouched.{InputsHaveOneRun, PrintedReportsAreRight, RightReportsAreRight, RunsLookNotAhead};
ghost use Rattle.fb_top.specs.Untouched.{RunsAreMade, ScriptsLeaveForeground, SectionsAreReplays};

use fb_mirror::{covered_sectors_are_the_survivors, sealed_rebuilds_are_whole};
use fb_model::{foreground_is_untouched, full_runs_exist, nothing_looks_ahead, one_full_run};

/// Background work leaves the foreground report as it is.
///
/// Two runs of the same parameters and trace by one policy, whose scripts promote the same reads,
/// have the same foreground text, whatever else the scripts ask for.
pub fn scripts_leave_the_foreground()
    ensures { ScriptsLeaveForeground }
{
    foreground_is_untouched();
}

/// The same files have one run.
///
/// On two desks that hold the same bytes under the names that the words give to inputs, the run is
/// the same to its last row. The words may differ in what is printed, and in what is written in
/// gaps: puts change neither report.
pub fn inputs_have_one_run()
    ensures { InputsHaveOneRun }
{
    one_full_run();
}

/// The run of files is the one that is made of them, decision by decision: the text of a run is a
/// function of the words and the files.
pub fn runs_are_made()
    ensures { RunsAreMade }
{
    full_runs_exist();
}

/// No decision looks ahead.
///
/// Two runs of files that agree up to an instant before both ends are the same in everything that
/// is known by that instant, whatever comes later.
pub fn runs_look_not_ahead()
    ensures { RunsLookNotAhead }
{
    nothing_looks_ahead();
}

/// A run's own reports are right.
///
/// Where a check asks for what a replay asked for, over the same bytes, and the printed reports are
/// that replay's, its verdict is yes.
pub fn right_reports_are_right()
    ensures { RightReportsAreRight }
{
    one_full_run();
}

/// The reports that a replay printed are right.
///
/// A replay wrote both reports, with puts or without, and a check asks for the same over the same
/// bytes.
/// Where it finds under its names what the replay wrote, each at most 2^28 bytes, it accepts both
/// reports; unless a call fails or memory runs out, its verdict is yes.
pub fn printed_reports_are_right()
    ensures { PrintedReportsAreRight }
{
    right_reports_are_right();
}

/// The section of a device is what a replay of that device prints.
///
/// Behind the line that names the device, it is byte for byte the foreground report of a replay of
/// the same parameter file and trace for that device alone, by the same policy and without a
/// script, even if the rebuild is made from the device.
pub fn sections_are_replays()
    ensures { SectionsAreReplays }
{
    foreground_is_untouched();
}

/// The copy of an array is the disk that it is made from.
///
/// Each sector that the copy got holds what the disk holds, at the end of the run, and before it
/// whenever no write is under way. If the rebuild was sealed, that is every sector, from the seal on.
pub fn copies_are_the_survivors()
    ensures { CopiesAreTheSurvivors }
{
    covered_sectors_are_the_survivors();
    sealed_rebuilds_are_whole();
}
