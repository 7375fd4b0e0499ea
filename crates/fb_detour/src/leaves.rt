// The time on a track in intervals: in each of them it is shown that no leave is better than the
// best so far.
ghost use Rattle.std.specs.Prelude.{◌≡◌, ◌+◌, ◌*◌, ◌≤◌, ◌<◌, true, false};
ghost use Rattle.fb_units.specs.declared.types.Track.{Track};
ghost use Rattle.fb_plan.specs.declared.way.Way.{Way};
ghost use Rattle.fb_detour.specs.Bounds.{AreCeilings, IsSearch, IsFound, IsNoWorseThanTrack};

use crate::bounds::is_enough;
use crate::given::Search;
use crate::intervals::Ceilings;
use crate::parts::{INTERVALS, late_at};
use fb_plan::Scored;
use fb_units::Track;

// Whether it is shown that no detour over the track is better than the best so far. For all leaves
// in an interval of time, the track gives at most what it gives to a leave at the end of the interval,
// and the target at most what it gives after a leave at its beginning.
pub fn none_is_better(search: &Search, ceilings: &Ceilings, track: Track, best: Scored) -> bool
    requires search { IsSearch search.now }
    requires ceilings { AreCeilings search.now (Way.Over track) ceilings.now }
    requires best { IsFound search.now best }
    requires in_time { ceilings.now.begin + ceilings.now.move_on ≤ search.now.gap.now.deadline }
    ensures { result ≡ true → IsNoWorseThanTrack search.now best.plan track }
{
    let latest = search.gap.deadline - ceilings.move_on;
    for k in 0..INTERVALS {
        let from = ceilings.begin + k as u64 * ceilings.step;
        if latest < from {
            return true;
        }
        let after = late_at(ceilings.late, from + ceilings.move_on);
        if !is_enough(best, ceilings.early[k] + after, track) {
            return false;
        }
    }
    true
}
