// The value of a plan.
ghost use Rattle.std.specs.Prelude.{◌≡◌, ◌+◌, ◌*◌, ◌≤◌, ◌<◌, ◌^◌, length};
ghost use Rattle.std.specs.List.{sum_by};
ghost use Rattle.fb_units.specs.Tracks.{same_track};
ghost use Rattle.fb_model.specs.Plans.{value, early_dwell, IsPlan};
ghost use Rattle.fb_wanted.specs.States.{wanted_of};
ghost use Rattle.fb_plan.specs.Ways.{AreOnDisk, IsGap};
ghost use Rattle.fb_plan.specs.Turns.{Stands, IsInTurn, AreInTurn, AreSides, passes_by, passes_in_either, added};

use crate::sides::{Sides, sides_of};
use crate::{DwellPair, Turning, dwells};
use fb_rows::{Gap, Plan};
use fb_service::Disk;
use fb_units::{Ns, Track};
use fb_wanted::{Offer, Wanted};

// What an offer adds if its passage ends by the instant `latest`, in ns.
fn added_until(offer: Offer, turning: &Turning, latest: Ns) -> u64
    requires stands { Stands turning.now }
    requires sweep { IsInTurn turning.now.rotation offer.sweep }
    ensures value { result ≡ added (passes_by turning.now latest) offer }
    ensures small { result < 2 ^ 32 }
{
    if turning.ends_by(offer.sweep, latest) {
        offer.worth as u64
    } else {
        0
    }
}

// What the offers of a track add to the value of a plan that stays there until the instant `latest`,
// in ns.
fn value_until(offers: &[Offer], turning: &Turning, latest: Ns) -> u64
    requires stands { Stands turning.now }
    requires sweeps { AreInTurn turning.now.rotation offers.now }
    requires few { length offers.now ≤ 16000000 }
    ensures value { result ≡ sum_by (added (passes_by turning.now latest)) offers.now }
    ensures small { result ≤ 16000000 * 2 ^ 32 }
{
    let mut sum = 0;
    for offer in offers {
        sum += added_until(*offer, turning, latest);
    }
    sum
}

// What an offer adds if its passage ends in time in either dwell.
fn added_in_either(offer: Offer, pair: DwellPair, early: &Turning, late: &Turning) -> u64
    requires early { Stands early.now }
    requires late { Stands late.now }
    requires early_sweep { IsInTurn early.now.rotation offer.sweep }
    requires late_sweep { IsInTurn late.now.rotation offer.sweep }
    ensures value { result ≡ added (passes_in_either early.now pair.early.end late.now pair.late.end) offer }
    ensures small { result < 2 ^ 32 }
{
    if early.ends_by(offer.sweep, pair.early.end) {
        return offer.worth as u64;
    }
    added_until(offer, late, pair.late.end)
}

// What the offers of a track add to the value of a plan that stays there twice.
fn value_in_either(offers: &[Offer], pair: DwellPair, early: &Turning, late: &Turning) -> u64
    requires early { Stands early.now }
    requires late { Stands late.now }
    requires early_sweeps { AreInTurn early.now.rotation offers.now }
    requires late_sweeps { AreInTurn late.now.rotation offers.now }
    requires few { length offers.now ≤ 16000000 }
    ensures { result ≡ sum_by (added (passes_in_either early.now pair.early.end late.now pair.late.end)) offers.now }
{
    let mut sum = 0;
    for offer in offers {
        sum += added_in_either(*offer, pair, early, late);
    }
    sum
}

/// The value of a plan, from what is offered on its two tracks.
pub fn value_by(disk: &Disk, wanted: &Wanted, gap: &Gap, sides: &Sides, plan: Plan) -> u64
    requires plan { IsPlan disk.now gap.now plan }
    requires gap { IsGap disk.now gap.now }
    requires sides { AreSides disk.now gap.now.target wanted.now (early_dwell disk.now gap.now plan) sides.now }
    requires early { AreOnDisk disk.now sides.now.early }
    requires late { AreOnDisk disk.now sides.now.late }
    ensures { result ≡ value disk.now gap.entry.now (wanted_of wanted.now) plan }
{
    let _ = wanted;
    let pair = dwells(disk, plan, gap);
    let late = Turning::new(disk, pair.late.begin);
    let offers = sides.early.offers();
    if is_same(pair.early.track, gap.target) {
        return value_in_either(offers, pair, &sides.turning, &late);
    }
    let sum = value_until(offers, &sides.turning, pair.early.end);
    sum + value_until(sides.late.offers(), &late, pair.late.end)
}

/// The value of a plan: weight times sectors, summed over the wanted blocks that it catches.
pub fn plan_value(disk: &Disk, wanted: &Wanted, gap: &Gap, plan: Plan) -> u64
    requires plan { IsPlan disk.now gap.now plan }
    requires gap { IsGap disk.now gap.now }
    requires blocks { AreOnDisk disk.now wanted.now }
    ensures { result ≡ value disk.now gap.entry.now (wanted_of wanted.now) plan }
{
    let pair = dwells(disk, plan, gap);
    value_by(
        disk,
        wanted,
        gap,
        &sides_of(disk, wanted, gap.target, pair.early),
        plan,
    )
}

/// Whether both are the same track.
pub fn is_same(a: Track, b: Track) -> bool
    ensures { result ≡ same_track a b }
{
    a == b
}
