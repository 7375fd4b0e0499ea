// What a planner is.
ghost use Rattle.fb_model.specs.Plans.{IsBest};
ghost use Rattle.fb_wanted.specs.States.{wanted_of};
ghost use Rattle.fb_plan.specs.Ways.{AreOnDisk, IsGap};

use fb_rows::{Gap, Plan};
use fb_service::Disk;
use fb_wanted::Wanted;

/// Chooses the best plan of a gap.
pub trait Planner {
    /// The best plan: of greatest value, and of those the first in the order of ties.
    ///
    /// Direct plans come before detours, then the lesser track, then the earlier leave. Each block lies
    /// on the disk, and the gap ends by 9 * 10^18 ns.
    fn best(&self, disk: &Disk, wanted: &Wanted, gap: &Gap) -> Plan
        requires gap { IsGap disk.now gap.now }
        requires blocks { AreOnDisk disk.now wanted.now }
        ensures { IsBest disk.now gap.entry.now (wanted_of wanted.now) result };
}
