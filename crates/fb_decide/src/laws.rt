// Laws of a disk, and of the rows that decisions give.
ghost use Rattle.fb_geometry.specs.Sound.{IsSound};
ghost use Rattle.fb_decide.specs.Deciding.{PassagesTakeTime};
ghost use Rattle.fb_decide.specs.FullRuns.{DecisionsMakeARun};

use fb_service::Disk;

/// A disk's outline has no fault, and each of its sectors takes some time to pass.
pub fn disk_is_sound(disk: &Disk)
    ensures sound { IsSound disk.now.map }
    ensures takes_time { PassagesTakeTime disk.now.map }
{
    disk.map.geometry().sound();
}

/// The rows that a decider gives, decision by decision, are those of a full run.
///
/// Whoever takes the rows after each decision has the first foreground rows of the plain replay so
/// far, and in the end, with the rows of the tasks, a full run.
pub fn decisions_make_a_run()
    ensures { DecisionsMakeARun }
{}
