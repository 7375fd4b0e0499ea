// How sectors that follow one another on a track pass under the head.
ghost use Rattle.std.specs.Prelude.{◌≡◌, ◌+◌, ◌%◌, ◌^◌, ◌<◌, ◌≤◌};
ghost use Rattle.fb_units.specs.Wait.{wait};
ghost use Rattle.fb_geometry.specs.Shape.{slots_at, IsTrackOf};
ghost use Rattle.fb_sectormap.specs.Sweeps.{swept};

use crate::SectorMap;
use fb_units::{Ns, Place, Sweep};

// How long the platter turns from an angle until it next stands at another, a whole rotation where
// they are the same. Times and angles are in ns.
#[tactic(auto, using(crate::proofs::Sweeping::turned_ahead, crate::proofs::Sweeping::turned_over))]
fn turned(rotation: Ns, from: Ns, to: Ns) -> Ns
    requires from { from < rotation }
    requires to { to ≤ rotation }
    requires short { rotation < 2 ^ 32 }
    ensures value { result ≡ 1 + wait rotation (to % rotation) (from + 1) }
    ensures short { result ≤ rotation }
{
    if from < to {
        to - from
    } else {
        to + rotation - from
    }
}

impl SectorMap {
    // How the sectors from a first place to a last one pass.
    pub(crate) fn swept(&self, first: Place, last: Place) -> Sweep
        requires first { IsTrackOf self.now first.track }
        requires first_slot { first.slot < slots_at self.now.zones first.track.cylinder }
        requires last { IsTrackOf self.now last.track }
        requires last_slot { last.slot < slots_at self.now.zones last.track.cylinder }
        ensures { result ≡ swept self.now first last }
    {
        let geometry = self.geometry();
        let rotation = geometry.rotation();
        let begin = geometry.slot_begin(first.track, first.slot);
        let end = geometry.slot_end(last.track, last.slot);
        Sweep {
            begin: begin as u32,
            length: turned(rotation, begin, end) as u32,
        }
    }
}
