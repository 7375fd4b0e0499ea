// Upper bounds on the value of detours. What the target gives after a detour falls in steps; up to
// each step a track gives no more than it weighs, and no more than passes in the time there.
ghost use Rattle.std.specs.Prelude.{◌≡◌, ◌+◌, ◌*◌, ◌≤◌, ◌<◌, ◌^◌, ◌⊎◌, ℕ, get_or};
ghost use Rattle.fb_units.specs.declared.types.Track.{Track};
ghost use Rattle.fb_rows.specs.declared.gap.Plan.{Plan};
ghost use Rattle.fb_wanted.specs.Tracks.{wanted_weight};
ghost use Rattle.fb_plan.specs.Ways.{AreOnDisk};
ghost use Rattle.fb_detour.specs.Bounds.{passing, value_in, AreRated, AreSeeks, AreSmallSums, IsCeiling, IsDetourIn, IsRate, IsReach};
ghost use Rattle.fb_detour.specs.Bounds.{IsSearch};

use crate::bounds::{Seeks, first_track_on, least_moves, most_slots};
use crate::given::Search;
use crate::parts::{GAP_PARTS, LateParts};
use crate::rate::Rate;
use fb_service::Disk;
use fb_units::{Ns, Track};
use fb_wanted::{BAND, Wanted};

// What bounds a detour.
#[derive(Clone, Copy)]
pub struct Reach {
    // When it reaches the target at the earliest, in ns.
    pub at_target: Ns,
    // An upper bound on what passes on its track.
    pub rate: Rate,
}

// An upper bound on what passes on a track of these cylinders.
pub fn rate_over(disk: &Disk, wanted: &Wanted, from: u32, end: u32) -> Rate
    requires some { from < end }
    requires cylinders { end ≤ disk.now.mechanism.cylinders }
    requires blocks { AreOnDisk disk.now wanted.now }
    ensures { (track : Track) → from ≤ track.cylinder → track.cylinder < end → IsRate disk.now wanted.now track result }
{
    let geometry = disk.map.geometry();
    geometry.sound();
    geometry.own_places();
    let first = first_track_on(from);
    Rate {
        depth: wanted.greatest_depth_in(from, end),
        share: geometry.rotation() / most_slots(disk, from, end, first) as u64,
    }
}

// A rate for these cylinders, from one that is known for them: if they are fewer than a band has, that
// rate, else one of their own.
pub fn rate_in(search: &Search, from: u32, end: u32, known: Rate) -> Rate
    requires some { from < end }
    requires cylinders { end ≤ search.now.disk.now.mechanism.cylinders }
    requires search { IsSearch search.now }
    requires known { AreRated search.now from end known }
    ensures { AreRated search.now from end result }
{
    if end - from < BAND {
        return known;
    }
    rate_over(search.disk, search.wanted, from, end)
}

// The reach of detours over these cylinders, by their rate.
fn reach_of(search: &Search, from: u32, end: u32, rate: Rate) -> Reach
    requires some { from < end }
    requires cylinders { end ≤ search.now.disk.now.mechanism.cylinders }
    requires search { IsSearch search.now }
    requires rate { AreRated search.now from end rate }
    ensures { (track : Track) → from ≤ track.cylinder → track.cylinder < end → IsReach search.now track result }
{
    let moves = least_moves(search.disk, search.gap, from, end);
    Reach {
        at_target: search.gap.now + moves.there + moves.on,
        rate,
    }
}

// The reach of detours over a cylinder, by the times of the seeks there and on and by its rate.
pub fn reach_by(search: &Search, cylinder: u32, seeks: Seeks, rate: Rate) -> Reach
    requires cylinder { cylinder < search.now.disk.now.mechanism.cylinders }
    requires seeks { AreSeeks search.now.disk.now.mechanism search.now.gap.now cylinder seeks }
    requires search { IsSearch search.now }
    requires rate { AreRated search.now cylinder (cylinder + 1) rate }
    ensures { (track : Track) → cylinder ≤ track.cylinder → track.cylinder < cylinder + 1 → IsReach search.now track result }
{
    search.disk.mechanism.seeks_rise();
    let nearest = Track {
        cylinder,
        head: search.gap.target.head,
    };
    let on = search
        .disk
        .mechanism
        .pos_with(seeks.on, nearest, search.gap.target, search.gap.write);
    Reach {
        at_target: search.gap.now + seeks.there + on,
        rate,
    }
}

// The most that a track of this weight gives in a time, at this rate.
fn caught_in(rate: Rate, weight: u64, time: Ns) -> u64
    ensures most { (caught : ℕ) → caught ≤ weight → caught ≤ passing rate time → caught ≤ result }
    ensures small { result ≤ weight }
{
    let passed = rate.depth.saturating_mul(time / rate.share);
    weight.min(passed)
}

// The most that a track of this weight and the target give by plans that reach the target before
// the limit behind part k, and no earlier than the part begins.
fn worth_by_step(late: &LateParts, k: usize, reach: Reach, weight: u64) -> u64
    requires part { k < 32 }
    requires parts { AreSmallSums late.now.parts 32 }
    requires light { weight ≤ 16000000 * 2048000 }
    ensures most { (caught time : ℕ) → caught ≤ weight → caught ≤ passing reach.rate time
        → reach.at_target + time < get_or late.now.limits (k + 1) 0 → caught + get_or late.now.parts k 0 ≤ result }
    ensures small { result ≤ 2 * (16000000 * 2048000) }
{
    let limit = late.limits[k + 1];
    if limit <= reach.at_target {
        return 0;
    }
    late.parts[k] + caught_in(reach.rate, weight, limit - 1 - reach.at_target)
}

// The part in which an instant lies, or the last one for a later instant; 0 if that part's first limit
// hasn't passed.
fn part_from(late: &LateParts, instant: Ns) -> usize
    requires step { 0 < late.now.step }
    ensures part { result < 32 }
    ensures before { (result ≡ 0) ⊎ (get_or late.now.limits result 0 ≤ instant) }
{
    let part = (instant.saturating_sub(late.begin) / late.step).min(GAP_PARTS as u64 - 1) as usize;
    if late.limits[part] <= instant {
        part
    } else {
        0
    }
}

// An upper bound on the value of detours over a track of this reach and this weight; 0 where it is
// out of reach. The steps that are left are passed over once none of them can raise the bound or lift
// it to `known`.
pub fn most_by_steps(search: &Search, reach: Reach, weight: u64, known: u64) -> u64
    requires search { IsSearch search.now }
    requires light { weight ≤ 16000000 * 2048000 }
    ensures most { (track : Track) (leave : ℕ) → IsReach search.now track reach → wanted_weight track search.now.wanted.now ≤ weight
        → IsDetourIn search.now track leave → value_in search.now (Plan.Detour track leave) ≤ result }
    ensures small { result ≤ 2 * (16000000 * 2048000) }
{
    if search.gap.deadline < reach.at_target {
        return 0;
    }
    let whole = caught_in(reach.rate, weight, search.gap.deadline - reach.at_target);
    let mut most = whole;
    for k in part_from(search.late, reach.at_target)..GAP_PARTS {
        let rest = search.late.parts[k] + whole;
        let enough = known.max(most + 1);
        if rest < enough {
            return most.max(rest);
        }
        most = most.max(worth_by_step(search.late, k, reach, weight));
    }
    most
}

// An upper bound on the value of detours over the tracks of these cylinders. It is found without a
// look at the times of moves where even the weights are less than `known`.
pub fn most_over(search: &Search, from: u32, end: u32, rate: Rate, known: u64) -> u64
    requires some { from < end }
    requires cylinders { end ≤ search.now.disk.now.mechanism.cylinders }
    requires search { IsSearch search.now }
    requires rate { AreRated search.now from end rate }
    ensures most { IsCeiling search.now from end result }
    ensures small { result ≤ 2 * (16000000 * 2048000) }
{
    let weight = search.wanted.greatest_weight_in(from, end);
    let sum = weight + search.late.parts[0];
    if sum < known {
        return sum;
    }
    let reach = reach_of(search, from, end, rate_in(search, from, end, rate));
    most_by_steps(search, reach, weight, known)
}
