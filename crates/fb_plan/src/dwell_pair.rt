// Where the head stays by a plan.
ghost use Rattle.std.specs.Prelude.{◌≡◌, ◌*◌, ◌≤◌, ◌^◌};
ghost use Rattle.fb_model.specs.Plans.{early_dwell, late_dwell, IsPlan};
ghost use Rattle.fb_plan.specs.Ways.{IsGap};

use fb_rows::{Dwell, Gap, Plan};
use fb_service::Disk;

/// The two dwells of a plan.
#[derive(Clone, Copy)]
pub struct DwellPair {
    /// On the source or on a detour's track, until the head leaves for the target.
    pub early: Dwell,
    /// On the target, until the request's first sector begins to pass.
    pub late: Dwell,
}

/// Where and how long the head stays by a plan.
pub fn dwells(disk: &Disk, plan: Plan, gap: &Gap) -> DwellPair
    requires plan { IsPlan disk.now gap.now plan }
    requires gap { IsGap disk.now gap.now }
    ensures early { result.early ≡ early_dwell disk.now gap.entry.now plan }
    ensures late { result.late ≡ late_dwell disk.now gap.entry.now plan }
    ensures early_begin { result.early.begin ≤ 9 * 10 ^ 18 }
    ensures late_begin { result.late.begin ≤ 9 * 10 ^ 18 }
{
    match plan {
        Plan::Direct { leave } => DwellPair {
            early: Dwell {
                track: gap.source,
                begin: gap.now,
                end: leave,
            },
            late: Dwell {
                track: gap.target,
                begin: leave + disk.mechanism.pos(gap.source, gap.target, gap.write),
                end: gap.deadline,
            },
        },
        Plan::Detour { track, leave } => DwellPair {
            early: Dwell {
                track,
                begin: gap.now + disk.mechanism.pos(gap.source, track, false),
                end: leave,
            },
            late: Dwell {
                track: gap.target,
                begin: leave + disk.mechanism.pos(track, gap.target, gap.write),
                end: gap.deadline,
            },
        },
    }
}
