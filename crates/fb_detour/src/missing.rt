// Tracks where too many blocks pass too late.
ghost use Rattle.std.specs.Prelude.{◌≡◌, ◌+◌, ◌*◌, ◌≤◌, ℕ, true};
ghost use Rattle.fb_plan.specs.Turns.{IsInTurn, Stands};
ghost use Rattle.fb_detour.specs.Bounds.{missed, offered, IsEnough, IsReady};

use crate::bounds::is_enough;
use crate::stop::Stop;
use fb_plan::{Scored, Turning};
use fb_units::Ns;
use fb_wanted::Offer;

// The worth of an offer that doesn't pass whole by the latest instant; 0 for any other.
fn missed(turning: &Turning, latest: Ns, offer: Offer) -> u64
    requires stands { Stands turning.now }
    requires in_turn { IsInTurn turning.now.rotation offer.sweep }
    ensures { result ≡ missed turning.now latest offer }
{
    if turning.ends_by(offer.sweep, latest) {
        0
    } else {
        offer.worth as u64
    }
}

// Whether it is shown that the track can't give enough, since too many of its blocks don't pass by
// the latest leave. Their worth is taken off that of the track, one by one, until what is left
// can't beat the best plan so far.
pub fn misses_enough(stop: &Stop, latest: Ns, late: u64, best: Scored) -> bool
    requires stop { IsReady stop.now }
    requires small { late ≤ 16000000 * 2048000 }
    ensures { result ≡ true → (most : ℕ) × (offered stop.now latest ≤ most) × IsEnough best (most + late) stop.now.track }
{
    let mut most = stop.weight;
    for offer in stop.offers {
        most -= missed(&stop.turning, latest, *offer);
        if is_enough(best, most + late, stop.track) {
            return true;
        }
    }
    false
}
