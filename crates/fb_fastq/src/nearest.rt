// Shortest seek time first.
ghost use Rattle.std.specs.Prelude.{◌≡◌, ℕ, ◌<◌, ◌≤◌, length};
ghost use Rattle.fb_seek.specs.Positioning.{distance_of};
ghost use Rattle.fb_model.specs.PlainReplay.{sstf};
ghost use Rattle.fb_fastq.specs.Joining.{Waits, IsNoLater};

use crate::by_spot::{earlier, first_before, next_from};
use crate::{Choice, CylinderMap, LatePlacing};
use fb_queue::Nearest;
use fb_service::Disk;
use fb_units::{Ns, Request, Track};
use std::cmp::Ordering;
use std::collections::BTreeMap;

/// Shortest seek time first, over a map by cylinder.
pub type SstfMap = LatePlacing<CylinderMap<Nearest>>;

// The first to join among the requests of the nearest spot; where two spots are equally near, among
// the requests of both.
fn first_of_nearest(waiting: &BTreeMap<(u64, u64), Request>, spot: u64) -> (u64, u64)
    requires { 0 < length waiting.now.entries }
    ensures found { Waits waiting.now result }
    ensures first { (k : ℕ × ℕ) → Waits waiting.now k → IsNoLater (distance_of result.0 spot) result.1 (distance_of k.0 spot) k.1 }
{
    match (next_from(waiting, spot), first_before(waiting, spot)) {
        (Some((above, _)), Some(below)) => match (above.0 - spot).cmp(&(spot - below.0)) {
            Ordering::Less => above,
            Ordering::Greater => below,
            Ordering::Equal => earlier(above, below),
        },
        (Some((above, _)), None) => above,
        (None, Some(below)) => below,
        (None, None) => unreachable!(),
    }
}

impl Choice for Nearest {
    fn choose(
        &self,
        waiting: &BTreeMap<(u64, u64), Request>,
        _disk: &Disk,
        head: Track,
        _now: Ns,
    ) -> (u64, u64) {
        first_of_nearest(waiting, head.cylinder as u64)
    }
}
