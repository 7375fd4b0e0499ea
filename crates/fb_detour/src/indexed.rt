// The planner that passes over tracks which can't be better.
ghost use Rattle.std.specs.Prelude.{◌≡◌, true};
ghost use Rattle.fb_rows.specs.declared.gap.Gap.{Gap};
ghost use Rattle.fb_rows.specs.declared.gap.Plan.{Plan};
ghost use Rattle.fb_wanted.specs.States.{wanted_of};
ghost use Rattle.fb_model.specs.Plans.{IsBest};
ghost use Rattle.fb_plan.specs.Ways.{IsGap};

use crate::candidates::try_source;
use crate::given::Search;
use crate::parts::late_parts;
use crate::search::try_all;
use fb_plan::{Planner, scored};
use fb_rows::{Gap, Plan};
use fb_service::Disk;
use fb_wanted::Wanted;

/// Passes over the cylinders out of reach, those where too little can pass in the time that is left, and the
/// tracks whose wanted blocks, together with what the target can still give, can't beat the best so far.
#[derive(Clone, Copy)]
pub struct IndexedPlanner;

impl IndexedPlanner {
    /// The planner. It keeps nothing.
    pub fn new() -> IndexedPlanner {
        IndexedPlanner
    }
}

// True only if no wanted block weighs anything. Then the direct plan that leaves at once is the best of each
// gap, as the first in the order of ties.
fn wants_nothing(disk: &Disk, wanted: &Wanted) -> bool
    ensures { result ≡ true → (gap : Gap) → IsGap disk.now gap → IsBest disk.now gap (wanted_of wanted.now) (Plan.Direct gap.now) }
{
    wanted.greatest_weight_in(0, disk.map.geometry().cylinders()) == 0
}

impl Planner for IndexedPlanner {
    fn best(&self, disk: &Disk, wanted: &Wanted, gap: &Gap) -> Plan {
        if wants_nothing(disk, wanted) {
            return Plan::Direct { leave: gap.now };
        }
        let late = late_parts(disk, wanted, gap);
        let search = Search {
            disk,
            wanted,
            gap,
            late: &late,
        };
        let first = scored(disk, wanted, gap, Plan::Direct { leave: gap.now });
        let direct = try_source(&search, first);
        try_all(&search, direct).plan
    }
}
