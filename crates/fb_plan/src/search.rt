// The search over tracks and over the instants at which the head leaves. At each step the best plan
// so far is at least as good as every plan behind it.
ghost use Rattle.std.specs.Prelude.{◌≡◌, ◌+◌, ◌*◌, ◌≤◌, ◌<◌, ◌^◌, ℕ, IfSome, IfNone};
ghost use Rattle.fb_geometry.specs.Shape.{IsTrackOf};
ghost use Rattle.fb_model.specs.Plans.{IsPlan, early_dwell};
ghost use Rattle.fb_wanted.specs.States.{wanted_of};
ghost use Rattle.fb_plan.specs.Ways.{AreOnDisk, IsGap, IsWay, IsScored, IsNoWorse, plan_by, early_track, arrival, move_on};
ghost use Rattle.fb_plan.specs.Turns.{Stands, IsInTurn, AreSides, end_of, longest_stay};

use crate::choice::choose;
use crate::sides::{Sides, sides_of};
use crate::sums::{is_same, plan_value, value_by};
use crate::{Scored, Turning, Way};
use fb_rows::{Dwell, Gap, Plan};
use fb_service::Disk;
use fb_units::{Ns, Sweep, Track};
use fb_wanted::Wanted;

/// The plan that goes this way and leaves for the target at the instant `leave`, in ns.
pub fn plan_by(way: Way, leave: Ns) -> Plan
    ensures { result ≡ plan_by way leave }
{
    match way {
        Way::Source => Plan::Direct { leave },
        Way::Over(track) => Plan::Detour { track, leave },
    }
}

// The track of the early dwell.
fn early_track(gap: &Gap, way: Way) -> Track
    ensures { result ≡ early_track gap.entry.now way }
{
    match way {
        Way::Source => gap.source,
        Way::Over(track) => track,
    }
}

// When the head comes to the track of the early dwell, in ns.
fn arrival(disk: &Disk, gap: &Gap, way: Way) -> Ns
    requires gap { IsGap disk.now gap.now }
    requires track { IsTrackOf disk.now.map (early_track gap.now way) }
    ensures value { result ≡ arrival disk.now gap.entry.now way }
    ensures soon { result ≤ 9 * 10 ^ 18 + 2 * 10 ^ 9 }
{
    match way {
        Way::Source => gap.now,
        Way::Over(track) => gap.now + disk.mechanism.pos(gap.source, track, false),
    }
}

/// How long the move from the early dwell's track to the target takes, in ns, with the settle of a
/// write.
pub fn move_on(disk: &Disk, gap: &Gap, way: Way) -> Ns
    requires gap { IsGap disk.now gap.now }
    requires track { IsTrackOf disk.now.map (early_track gap.now way) }
    ensures value { result ≡ move_on disk.now gap.entry.now way }
    ensures soon { result ≤ 2 * 10 ^ 9 }
{
    disk.mechanism
        .pos(early_track(gap, way), gap.target, gap.write)
}

/// The plan with its value.
///
/// It looks up the blocks of both tracks; `try_plan` takes those that were looked up before.
pub fn scored(disk: &Disk, wanted: &Wanted, gap: &Gap, plan: Plan) -> Scored
    requires plan { IsPlan disk.now gap.now plan }
    requires gap { IsGap disk.now gap.now }
    requires blocks { AreOnDisk disk.now wanted.now }
    ensures scored { IsScored disk.now gap.entry.now (wanted_of wanted.now) result }
    ensures plan { result.plan ≡ plan }
{
    Scored {
        plan,
        value: plan_value(disk, wanted, gap, plan),
    }
}

// The same, from the blocks of the plan's two tracks.
fn scored_by(disk: &Disk, wanted: &Wanted, gap: &Gap, sides: &Sides, plan: Plan) -> Scored
    requires plan { IsPlan disk.now gap.now plan }
    requires gap { IsGap disk.now gap.now }
    requires sides { AreSides disk.now gap.now.target wanted.now (early_dwell disk.now gap.now plan) sides.now }
    requires early { AreOnDisk disk.now sides.now.early }
    requires late { AreOnDisk disk.now sides.now.late }
    ensures scored { IsScored disk.now gap.entry.now (wanted_of wanted.now) result }
    ensures plan { result.plan ≡ plan }
{
    Scored {
        plan,
        value: value_by(disk, wanted, gap, sides, plan),
    }
}

/// The better of the best so far and a plan.
pub fn try_plan(
    disk: &Disk,
    wanted: &Wanted,
    gap: &Gap,
    sides: &Sides,
    plan: Plan,
    best: Scored,
) -> Scored
    requires plan { IsPlan disk.now gap.now plan }
    requires gap { IsGap disk.now gap.now }
    requires sides { AreSides disk.now gap.now.target wanted.now (early_dwell disk.now gap.now plan) sides.now }
    requires early { AreOnDisk disk.now sides.now.early }
    requires late { AreOnDisk disk.now sides.now.late }
    requires best { IsScored disk.now gap.now (wanted_of wanted.now) best }
    ensures scored { IsScored disk.now gap.entry.now (wanted_of wanted.now) result }
    ensures keeps { IsNoWorse disk.now gap.entry.now (wanted_of wanted.now) result.plan best.plan }
    ensures tried { IsNoWorse disk.now gap.entry.now (wanted_of wanted.now) result.plan plan }
{
    choose(best, scored_by(disk, wanted, gap, sides, plan))
}

// The instant, in ns, at which the sweep ends, if that is no later than `latest`.
fn end_by(turning: &Turning, sweep: Sweep, latest: Ns) -> Option<Ns>
    requires stands { Stands turning.now }
    requires sweep { IsInTurn turning.now.rotation sweep }
    ensures some { IfSome result (λ end. (end ≡ end_of turning.now.rotation sweep turning.now.from) × (end ≤ latest)) }
    ensures none { IfNone result (latest < end_of turning.now.rotation sweep turning.now.from) }
{
    let end = turning.end(sweep);
    if end <= latest { Some(end) } else { None }
}

/// The longest early dwell of this way: from the arrival to the deadline.
pub fn longest_stay(disk: &Disk, gap: &Gap, way: Way) -> Dwell
    requires gap { IsGap disk.now gap.now }
    requires track { IsTrackOf disk.now.map (early_track gap.now way) }
    ensures value { result ≡ longest_stay disk.now gap.entry.now way }
    ensures soon { result.begin ≤ 9 * 10 ^ 18 + 2 * 10 ^ 9 }
{
    Dwell {
        track: early_track(gap, way),
        begin: arrival(disk, gap, way),
        end: gap.deadline,
    }
}

/// Tries all plans of a way.
///
/// It tries to leave on arrival and as each wanted block's passage ends: no other plan of this way
/// is better.
pub fn try_way(disk: &Disk, wanted: &Wanted, gap: &Gap, way: Way, best: Scored) -> Scored
    requires way { IsWay disk.now gap.now way }
    requires track { IsTrackOf disk.now.map (early_track gap.now way) }
    requires gap { IsGap disk.now gap.now }
    requires blocks { AreOnDisk disk.now wanted.now }
    requires best { IsScored disk.now gap.now (wanted_of wanted.now) best }
    ensures scored { IsScored disk.now gap.entry.now (wanted_of wanted.now) result }
    ensures keeps { IsNoWorse disk.now gap.entry.now (wanted_of wanted.now) result.plan best.plan }
    ensures tried { (leave : ℕ) → IsPlan disk.now gap.entry.now (plan_by way leave)
        → IsNoWorse disk.now gap.entry.now (wanted_of wanted.now) result.plan (plan_by way leave) }
{
    let stay = longest_stay(disk, gap, way);
    let on = move_on(disk, gap, way);
    if gap.deadline < stay.begin + on {
        return best;
    }
    let both = sides_of(disk, wanted, gap.target, stay);
    let mut best = try_plan(disk, wanted, gap, &both, plan_by(way, stay.begin), best);
    let offers = both.early.offers();
    for offer in offers {
        best = match end_by(&both.turning, offer.sweep, gap.deadline - on) {
            Some(end) => try_plan(disk, wanted, gap, &both, plan_by(way, end), best),
            None => best,
        };
    }
    best
}

// Tries all detours over a track; there is none over the source or the target.
fn try_track(disk: &Disk, wanted: &Wanted, gap: &Gap, track: Track, best: Scored) -> Scored
    requires track { IsTrackOf disk.now.map track }
    requires gap { IsGap disk.now gap.now }
    requires blocks { AreOnDisk disk.now wanted.now }
    requires best { IsScored disk.now gap.now (wanted_of wanted.now) best }
    ensures scored { IsScored disk.now gap.entry.now (wanted_of wanted.now) result }
    ensures keeps { IsNoWorse disk.now gap.entry.now (wanted_of wanted.now) result.plan best.plan }
    ensures tried { (leave : ℕ) → IsPlan disk.now gap.entry.now (Plan.Detour track leave)
        → IsNoWorse disk.now gap.entry.now (wanted_of wanted.now) result.plan (Plan.Detour track leave) }
{
    if is_same(track, gap.source) {
        return best;
    }
    if is_same(track, gap.target) {
        return best;
    }
    try_way(disk, wanted, gap, Way::Over(track), best)
}

/// Tries all detours over the tracks of a cylinder.
pub fn try_cylinder(disk: &Disk, wanted: &Wanted, gap: &Gap, cylinder: u32, best: Scored) -> Scored
    requires cylinder { cylinder < disk.now.mechanism.cylinders }
    requires gap { IsGap disk.now gap.now }
    requires blocks { AreOnDisk disk.now wanted.now }
    requires best { IsScored disk.now gap.now (wanted_of wanted.now) best }
    ensures scored { IsScored disk.now gap.entry.now (wanted_of wanted.now) result }
    ensures keeps { IsNoWorse disk.now gap.entry.now (wanted_of wanted.now) result.plan best.plan }
    ensures tried { (head leave : ℕ) → IsPlan disk.now gap.entry.now (Plan.Detour (record { cylinder = cylinder; head = head }) leave)
        → IsNoWorse disk.now gap.entry.now (wanted_of wanted.now) result.plan
        (Plan.Detour (record { cylinder = cylinder; head = head }) leave) }
{
    let mut best = best;
    for head in 0..disk.map.geometry().heads() {
        best = try_track(disk, wanted, gap, Track { cylinder, head }, best);
    }
    best
}
