// The planner that tries every track.
use crate::search::{scored, try_cylinder, try_way};
use crate::{Planner, Way};
use fb_rows::{Gap, Plan};
use fb_service::Disk;
use fb_wanted::Wanted;

/// Tries every track, leaving each on arrival and as the passage of each of its wanted blocks ends.
#[derive(Clone, Copy)]
pub struct SlowPlanner;

impl Planner for SlowPlanner {
    fn best(&self, disk: &Disk, wanted: &Wanted, gap: &Gap) -> Plan {
        let first = scored(disk, wanted, gap, Plan::Direct { leave: gap.now });
        let mut best = try_way(disk, wanted, gap, Way::Source, first);
        for cylinder in 0..disk.map.geometry().cylinders() {
            best = try_cylinder(disk, wanted, gap, cylinder, best);
        }
        best.plan
    }
}
