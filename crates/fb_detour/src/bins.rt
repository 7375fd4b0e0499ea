// The time on a track in bins finer than its slots, and what plans that leave in each of them are worth at
// most.
ghost use Rattle.std.specs.Prelude.{◌≡◌, ◌+◌, ◌-◌, ◌*◌, ◌≤◌, ◌<◌, ◌^◌, ℕ, get_or, length, replicate, IfOk, IfSome};
ghost use Rattle.std.specs.List.{sum_by};
ghost use Rattle.fb_geometry.specs.Shape.{IsTrackOf};
ghost use Rattle.fb_wanted.specs.States.{on_track};
ghost use Rattle.fb_plan.specs.Turns.{IsInTurn, IsTurning};
ghost use Rattle.fb_detour.specs.Bounds.{bin_at, bin_ceiling, late_gain, offered, AreFilled, AreLeaves, AreTooLate, IsBounded, IsGrid};
ghost use Rattle.fb_detour.specs.Bounds.{IsReady, IsSearch, IsStop, IsTable};

use crate::given::Search;
use crate::parts::{add_at, add_up, last_catch};
use crate::stop::Stop;
use fb_plan::Turning;
use fb_service::Disk;
use fb_units::{NoMemory, Ns, Sweep};
use std::alloc::Global;

// For so many slots there are bins at most.
const MOST_SLOTS: u64 = 20_000;

// No leave: it is later than all.
const NEVER: Ns = Ns::MAX;

// The time from the arrival at a track on, in bins. The last one has no end.
#[derive(Clone, Copy)]
pub struct Grid {
    // When the head arrives, in ns.
    pub begin: Ns,
    // Each bin is 2 to this power long, in ns.
    pub shift: u32,
    // How many bins there are.
    pub bins: usize,
}

// The leaves from a track, bin by bin.
#[derive(Clone, Copy)]
pub struct Leaves<'a> {
    pub grid: Grid,
    // How long the move on to the target takes, in ns.
    pub move_on: Ns,
    // The first leave in each bin; `NEVER` where it has none.
    pub firsts: &'a [Ns],
}

// What plans are worth at most, by the bin in which they leave.
#[derive(Clone, Copy)]
pub struct Bins<'a> {
    pub leaves: &'a Leaves<'a>,
    // What the track gives up to the last leave in each bin.
    pub early: &'a [u64],
    // What the target gives from the first leave in each bin on, with that of the last bin first.
    pub late: &'a [u64],
}

// How long after the arrival the last passage ends, in ns.
fn last_end(stop: &Stop) -> Ns
    requires stop { IsReady stop.now }
    ensures { result ≤ 2 * 10 ^ 9 }
{
    let mut last = stop.turning.from;
    for offer in stop.offers {
        last = last.max(stop.turning.end(offer.sweep));
    }
    last - stop.turning.from
}

// Bins up to the end of the last passage. Each is shorter than a slot of the track, where a slot takes 10 ns or more
// and no more than 20,000 pass in that time.
pub fn grid_on(disk: &Disk, stop: &Stop) -> Grid
    requires stop { IsReady stop.now }
    requires track { IsTrackOf disk.now.map stop.now.track }
    ensures begin { result.begin ≡ stop.now.turning.from }
    ensures grid { IsGrid result }
{
    let geometry = disk.map.geometry();
    let time = last_end(stop);
    let passing = time.saturating_mul(geometry.slots(stop.track) as u64) / geometry.rotation();
    let slots = passing.min(MOST_SLOTS);
    let length = time / (slots + slots / 4 + 16);
    let shift = length.max(1).ilog2();
    Grid {
        begin: stop.turning.from,
        shift,
        bins: (time >> shift).saturating_add(1) as usize,
    }
}

// The bin in which an instant lies.
pub fn bin_at(grid: Grid, instant: Ns) -> usize
    requires grid { IsGrid grid }
    ensures value { result ≡ bin_at grid instant }
    ensures within { result < grid.bins }
{
    let k = instant.saturating_sub(grid.begin) >> grid.shift;
    k.min(grid.bins as u64 - 1) as usize
}

// Notes the first leave in each bin, of the arrival and the ends of all passages.
fn note_firsts(stop: &Stop, grid: Grid, firsts: &mut [Ns])
    requires stop { IsReady stop.now }
    requires grid { IsGrid grid }
    requires whole { length firsts.old ≡ grid.bins }
    ensures { length firsts.new ≡ grid.bins }
{
    firsts[0] = stop.turning.from;
    for offer in stop.offers {
        let end = stop.turning.end(offer.sweep);
        let k = bin_at(grid, end);
        firsts[k] = firsts[k].min(end);
    }
}

// The first leave in each bin; `NEVER` where it has none. Nothing that is promised rests on it: a leave before its
// bin's first one is tried without a bound.
pub fn firsts_of(alloc: Global, stop: &Stop, grid: Grid) -> Result<Vec<Ns>, NoMemory>
    requires stop { IsReady stop.now }
    requires grid { IsGrid grid }
    ensures { IfOk result (λ firsts. length firsts.items ≡ grid.bins) }
{
    let mut firsts = vec![in alloc; NEVER; grid.bins]?;
    note_firsts(stop, grid, &mut firsts);
    Ok(firsts)
}

// Adds up what a stop gives at most to a head that leaves in each bin.
fn add_early(stop: &Stop, grid: Grid, bins: &mut [u64])
    requires stop { IsReady stop.now }
    requires grid { IsGrid grid }
    requires whole { length bins.old ≡ grid.bins }
    requires empty { bins.old ≡ replicate grid.bins 0 }
    ensures most { (leave : ℕ) → offered stop.now leave ≤ get_or bins.new (bin_at grid leave) 0 }
    ensures table { IsTable bins.new grid.bins }
{
    for offer in stop.offers {
        let end = stop.turning.end(offer.sweep);
        let k = bin_at(grid, end);
        add_at(bins, k, offer.worth);
    }
    add_up(bins);
}

// What a stop gives at most to a head that leaves in each bin.
pub fn early_bins(alloc: Global, stop: &Stop, grid: Grid) -> Result<Vec<u64>, NoMemory>
    requires stop { IsReady stop.now }
    requires grid { IsGrid grid }
    ensures most { IfOk result (λ bins. (leave : ℕ) → offered stop.now leave ≤ get_or bins.items (bin_at grid leave) 0) }
    ensures table { IfOk result (λ bins. IsTable bins.items grid.bins) }
{
    let mut bins = vec![in alloc; 0; grid.bins]?;
    add_early(stop, grid, &mut bins);
    Ok(bins)
}

// How many bins, counted from the last one back, have no leave from which the head comes to the target by this
// instant.
fn too_late_by(leaves: &Leaves, last: Ns) -> usize
    requires grid { IsGrid leaves.now.grid }
    requires whole { length leaves.now.firsts.now ≡ leaves.now.grid.bins }
    requires room { leaves.now.grid.begin + leaves.now.move_on ≤ 9 * 10 ^ 18 }
    ensures { (leave : ℕ) → leaves.now.grid.begin ≤ leave → IsBounded leaves.now leave → leave + leaves.now.move_on ≤ last
        → result + bin_at leaves.now.grid leave < leaves.now.grid.bins }
{
    let grid = leaves.grid;
    if last < grid.begin + leaves.move_on {
        return grid.bins;
    }
    let latest = last - leaves.move_on;
    let k = bin_at(grid, latest);
    if latest < leaves.firsts[k] {
        return grid.bins - k;
    }
    grid.bins - 1 - k
}

// How many bins, counted from the last one back, have no leave from which the head still catches at the target
// what passes so.
fn too_late_for(search: &Search, target: &Turning, leaves: &Leaves, sweep: Sweep) -> usize
    requires search { IsSearch search.now }
    requires target { IsTurning search.now.disk.now target.now }
    requires from { target.now.from ≡ search.now.gap.now.now }
    requires in_turn { IsInTurn target.now.rotation sweep }
    requires leaves { AreLeaves search.now leaves.now }
    ensures { AreTooLate search.now target.now leaves.now sweep result }
{
    if let Some(last) = last_catch(search.disk, search.gap, target, sweep) {
        return too_late_by(leaves, last);
    }
    leaves.grid.bins
}

// Adds up what the target gives at most to a head that leaves in each bin, with that of the last bin first.
fn add_late(search: &Search, target: &Stop, leaves: &Leaves, bins: &mut [u64])
    requires search { IsSearch search.now }
    requires target { IsStop search.now.disk.now (on_track search.now.gap.now.target search.now.wanted.now) target.now }
    requires from { target.now.turning.from ≡ search.now.gap.now.now }
    requires leaves { AreLeaves search.now leaves.now }
    requires whole { length bins.old ≡ leaves.now.grid.bins }
    requires empty { bins.old ≡ replicate leaves.now.grid.bins 0 }
    ensures most { (leave : ℕ) → leaves.now.grid.begin ≤ leave → IsBounded leaves.now leave
        → sum_by (late_gain target.now.turning search.now.gap.now (leave + leaves.now.move_on)) target.now.offers.now
        ≤ get_or bins.new (leaves.now.grid.bins - 1 - bin_at leaves.now.grid leave) 0 }
    ensures table { IsTable bins.new leaves.now.grid.bins }
{
    for offer in target.offers {
        let k = too_late_for(search, &target.turning, leaves, offer.sweep);
        add_at(bins, k, offer.worth);
    }
    add_up(bins);
}

// What the target gives at most to a head that leaves in each bin, with that of the last bin first.
pub fn late_bins(
    alloc: Global,
    search: &Search,
    target: &Stop,
    leaves: &Leaves,
) -> Result<Vec<u64>, NoMemory>
    requires search { IsSearch search.now }
    requires target { IsStop search.now.disk.now (on_track search.now.gap.now.target search.now.wanted.now) target.now }
    requires from { target.now.turning.from ≡ search.now.gap.now.now }
    requires leaves { AreLeaves search.now leaves.now }
    ensures most { IfOk result (λ bins. (leave : ℕ) → leaves.now.grid.begin ≤ leave → IsBounded leaves.now leave
        → sum_by (late_gain target.now.turning search.now.gap.now (leave + leaves.now.move_on)) target.now.offers.now
        ≤ get_or bins.items (leaves.now.grid.bins - 1 - bin_at leaves.now.grid leave) 0) }
    ensures table { IfOk result (λ bins. IsTable bins.items leaves.now.grid.bins) }
{
    let mut bins = vec![in alloc; 0; leaves.grid.bins]?;
    add_late(search, target, leaves, &mut bins);
    Ok(bins)
}

// The upper bound on the value of the plan that leaves at this instant; `None` where its bin has no leave so early.
pub fn bound_at(bins: &Bins, leave: Ns) -> Option<u64>
    requires filled { AreFilled bins.now }
    ensures { IfSome result (λ bound. IsBounded bins.now.leaves.now leave × (bound ≡ bin_ceiling bins.now leave)) }
{
    let grid = bins.leaves.grid;
    let k = bin_at(grid, leave);
    if leave < bins.leaves.firsts[k] {
        return None;
    }
    Some(bins.early[k] + bins.late[grid.bins - 1 - k])
}

// The bin whose bound is the greatest, of those with a leave up to the latest one; the first of several such bins.
pub fn fullest(bins: &Bins, latest: Ns) -> usize
    requires filled { AreFilled bins.now }
{
    let grid = bins.leaves.grid;
    let mut fullest = 0;
    let mut most = 0;
    for k in 0..grid.bins {
        let bound = bins.early[k] + bins.late[grid.bins - 1 - k];
        if bins.leaves.firsts[k] <= latest && most < bound {
            fullest = k;
            most = bound;
        }
    }
    fullest
}
