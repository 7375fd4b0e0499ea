// The plans of a way that can be better than the best so far.
ghost use Rattle.std.specs.Prelude.{◌≡◌, ◌<◌, ◌≤◌, ◌^◌, ◌⊎◌, true, IfOk, IfSome};
ghost use Rattle.fb_geometry.specs.Shape.{IsTrackOf};
ghost use Rattle.fb_model.specs.Plans.{IsNoLater, IsPlan};
ghost use Rattle.fb_plan.specs.declared.way.Way.{Way};
ghost use Rattle.fb_plan.specs.Ways.{IsWay, plan_by, arrival, early_track};
ghost use Rattle.fb_detour.specs.Bounds.{AreBins, AreCeilings, IsFound, IsGrid, IsNoBetter, IsNoWorseIn, IsNoWorseThanWay};
ghost use Rattle.fb_detour.specs.Bounds.{IsReady, IsSearch, IsStopOf, IsTrial, value_in};

use crate::bins::{
    Bins, Grid, Leaves, bin_at, bound_at, early_bins, firsts_of, fullest, grid_on, late_bins,
};
use crate::given::Search;
use crate::intervals::{Ceilings, ceiling_at, ceilings_of};
use crate::stop::{Stop, stop_at};
use fb_plan::{
    Scored, Sides, Way, blocks_on, is_no_worse, longest_stay, move_on, plan_by, sides_of, try_plan,
};
use fb_rows::Gap;
use fb_service::Disk;
use fb_units::{NoMemory, Ns};
use fb_wanted::Wanted;

// Whether the plan of the way that leaves at this instant, of no more value than the ceiling, is no
// better than the best so far.
fn is_no_better(best: Scored, ceiling: u64, way: Way, leave: Ns) -> bool
    ensures { result ≡ true → (ceiling < best.value) ⊎ ((ceiling ≡ best.value) × IsNoLater best.plan (plan_by way leave)) }
{
    let most = Scored {
        plan: plan_by(way, leave),
        value: ceiling,
    };
    is_no_worse(best, most)
}

// A way on trial: the blocks of its track and of the target, and what its plans are worth at most.
#[derive(Clone, Copy)]
struct Trial<'a> {
    search: &'a Search<'a>,
    way: Way,
    sides: &'a Sides<'a>,
    ceilings: &'a Ceilings<'a>,
}

// The upper bound on the value of the plan that leaves at this instant: by its bin, where there are bins, and
// else by its interval.
fn ceiling_of(trial: &Trial, bins: Option<&Bins>, leave: Ns) -> u64
    requires trial { IsTrial trial.now }
    requires bins { IfSome bins (λ bins. AreBins trial.now.search.now trial.now.way bins.now) }
    requires after { trial.now.ceilings.now.begin ≤ leave }
    requires soon { leave ≤ 10 ^ 19 }
    ensures { IsPlan trial.now.search.now.disk.now trial.now.search.now.gap.now (plan_by trial.now.way leave)
        → value_in trial.now.search.now (plan_by trial.now.way leave) ≤ result }
{
    if let Some(bins) = bins {
        if let Some(bound) = bound_at(bins, leave) {
            return bound;
        }
    }
    ceiling_at(trial.ceilings, leave)
}

// Tries to leave at an instant, unless that is too late or the ceiling shows that it isn't better.
fn try_leave(trial: &Trial, bins: Option<&Bins>, leave: Ns, best: Scored) -> Scored
    requires trial { IsTrial trial.now }
    requires bins { IfSome bins (λ bins. AreBins trial.now.search.now trial.now.way bins.now) }
    requires after { trial.now.ceilings.now.begin ≤ leave }
    requires soon { leave ≤ 10 ^ 19 }
    requires best { IsFound trial.now.search.now best }
    ensures scored { IsFound trial.now.search.now result }
    ensures keeps { IsNoWorseIn trial.now.search.now result.plan best.plan }
    ensures tried { IsNoBetter trial.now result.plan leave }
{
    let search = trial.search;
    if search.gap.deadline < leave + trial.ceilings.move_on {
        return best;
    }
    let ceiling = ceiling_of(trial, bins, leave);
    if is_no_better(best, ceiling, trial.way, leave) {
        return best;
    }
    let plan = plan_by(trial.way, leave);
    try_plan(
        search.disk,
        search.wanted,
        search.gap,
        trial.sides,
        plan,
        best,
    )
}

// Tries all plans of a way: the leave on arrival, and for each block that at its end.
fn try_each(trial: &Trial, bins: Option<&Bins>, best: Scored) -> Scored
    requires trial { IsTrial trial.now }
    requires bins { IfSome bins (λ bins. AreBins trial.now.search.now trial.now.way bins.now) }
    requires best { IsFound trial.now.search.now best }
    ensures scored { IsFound trial.now.search.now result }
    ensures keeps { IsNoWorseIn trial.now.search.now result.plan best.plan }
    ensures tried { IsNoWorseThanWay trial.now.search.now trial.now.way result.plan }
{
    let sides = trial.sides;
    let offers = sides.early.offers();
    let mut best = try_leave(trial, bins, trial.ceilings.begin, best);
    for offer in offers {
        let end = sides.turning.end(offer.sweep);
        best = try_leave(trial, bins, end, best);
    }
    best
}

// Tries the leaves of the bin that promises most.
fn try_fullest(trial: &Trial, bins: &Bins, stop: &Stop, best: Scored) -> Scored
    requires trial { IsTrial trial.now }
    requires bins { AreBins trial.now.search.now trial.now.way bins.now }
    requires stop { IsReady stop.now }
    requires from { stop.now.turning.from ≡ trial.now.ceilings.now.begin }
    requires best { IsFound trial.now.search.now best }
    ensures scored { IsFound trial.now.search.now result }
    ensures keeps { IsNoWorseIn trial.now.search.now result.plan best.plan }
{
    let latest = trial.search.gap.deadline - trial.ceilings.move_on;
    let most = fullest(bins, latest);
    let mut best = best;
    for offer in stop.offers {
        let end = stop.turning.end(offer.sweep);
        if bin_at(bins.leaves.grid, end) == most {
            best = try_leave(trial, Some(bins), end, best);
        }
    }
    best
}

// Tries all plans of a way: at first those of the bin that promises most, so that the bounds of nearly all
// others show that they aren't better.
fn try_binned(trial: &Trial, bins: &Bins, stop: &Stop, best: Scored) -> Scored
    requires trial { IsTrial trial.now }
    requires bins { AreBins trial.now.search.now trial.now.way bins.now }
    requires stop { IsReady stop.now }
    requires from { stop.now.turning.from ≡ trial.now.ceilings.now.begin }
    requires best { IsFound trial.now.search.now best }
    ensures scored { IsFound trial.now.search.now result }
    ensures keeps { IsNoWorseIn trial.now.search.now result.plan best.plan }
    ensures tried { IsNoWorseThanWay trial.now.search.now trial.now.way result.plan }
{
    let best = try_fullest(trial, bins, stop, best);
    try_each(trial, Some(bins), best)
}

// Tries all plans of a way by bins. The only error is `NoMemory`.
fn try_many(trial: &Trial, stop: &Stop, grid: Grid, best: Scored) -> Result<Scored, NoMemory>
    requires trial { IsTrial trial.now }
    requires stop { IsStopOf trial.now.search.now trial.now.way stop.now }
    requires from { stop.now.turning.from ≡ trial.now.ceilings.now.begin }
    requires grid { IsGrid grid }
    requires begin { grid.begin ≡ stop.now.turning.from }
    requires best { IsFound trial.now.search.now best }
    ensures scored { IfOk result (IsFound trial.now.search.now) }
    ensures keeps { IfOk result (λ found. IsNoWorseIn trial.now.search.now found.plan best.plan) }
    ensures tried { IfOk result (λ found. IsNoWorseThanWay trial.now.search.now trial.now.way found.plan) }
{
    let search = trial.search;
    let gap = search.gap;
    let alloc = search.wanted.alloc();
    let target = stop_at(search.disk, &trial.sides.late, gap.target, gap.now);
    let firsts = firsts_of(alloc, stop, grid)?;
    let leaves = Leaves {
        grid,
        move_on: trial.ceilings.move_on,
        firsts: firsts.as_slice(),
    };
    let early = early_bins(alloc, stop, grid)?;
    let late = late_bins(alloc, search, &target, &leaves)?;
    let bins = Bins {
        leaves: &leaves,
        early: early.as_slice(),
        late: late.as_slice(),
    };
    Ok(try_binned(trial, &bins, stop, best))
}

// Tries to leave on arrival, and as late as there is time.
fn try_both_ends(trial: &Trial, best: Scored) -> Scored
    requires trial { IsTrial trial.now }
    requires best { IsFound trial.now.search.now best }
    ensures scored { IsFound trial.now.search.now result }
    ensures keeps { IsNoWorseIn trial.now.search.now result.plan best.plan }
{
    let begin = trial.ceilings.begin;
    let latest = trial.search.gap.deadline - trial.ceilings.move_on;
    let best = try_leave(trial, None, begin, best);
    try_leave(trial, None, latest, best)
}

// So many leaves are valued one by one, without a look at how many bins there would be.
const FEW: usize = 16;

// How many leaves are valued one by one, at most: so many that it takes as long as to fill the bins.
fn most_open(trial: &Trial, stop: &Stop, grid: Grid) -> usize {
    let offers = stop.offers.len();
    let valued = offers.saturating_add(trial.sides.late.offers().len());
    FEW.saturating_add(grid.bins.saturating_mul(2) / valued.max(1))
}

// Whether the intervals leave it open for more leaves than that, of those in time, whether they are better than
// the best so far.
fn are_many_open(trial: &Trial, stop: &Stop, most: usize, best: Scored) -> bool
    requires trial { IsTrial trial.now }
    requires stop { IsReady stop.now }
    requires from { stop.now.turning.from ≡ trial.now.ceilings.now.begin }
{
    let latest = trial.search.gap.deadline - trial.ceilings.move_on;
    let mut open: usize = 0;
    for offer in stop.offers {
        let end = stop.turning.end(offer.sweep);
        let ceiling = ceiling_at(trial.ceilings, end);
        if end <= latest && !is_no_better(best, ceiling, trial.way, end) {
            open = open.saturating_add(1);
        }
        if most < open {
            return true;
        }
    }
    false
}

// Tries all plans of a way whose track has many blocks: by bins where the intervals leave many of them open and
// there is memory for bins, and else one by one.
fn try_dense(trial: &Trial, stop: &Stop, best: Scored) -> Scored
    requires trial { IsTrial trial.now }
    requires stop { IsStopOf trial.now.search.now trial.now.way stop.now }
    requires from { stop.now.turning.from ≡ trial.now.ceilings.now.begin }
    requires best { IsFound trial.now.search.now best }
    ensures scored { IsFound trial.now.search.now result }
    ensures keeps { IsNoWorseIn trial.now.search.now result.plan best.plan }
    ensures tried { IsNoWorseThanWay trial.now.search.now trial.now.way result.plan }
{
    let best = try_both_ends(trial, best);
    let grid = grid_on(trial.search.disk, stop);
    if are_many_open(trial, stop, most_open(trial, stop, grid), best) {
        if let Ok(found) = try_many(trial, stop, grid, best) {
            return found;
        }
    }
    try_each(trial, None, best)
}

// Tries all plans of a way.
pub fn try_leaves(
    search: &Search,
    way: Way,
    stop: &Stop,
    ceilings: &Ceilings,
    best: Scored,
) -> Scored
    requires way { IsWay search.now.disk.now search.now.gap.now way }
    requires track { IsTrackOf search.now.disk.now.map (early_track search.now.gap.now way) }
    requires search { IsSearch search.now }
    requires stop { IsStopOf search.now way stop.now }
    requires arrive { stop.now.turning.from ≡ arrival search.now.disk.now search.now.gap.now way }
    requires ceilings { AreCeilings search.now way ceilings.now }
    requires best { IsFound search.now best }
    ensures scored { IsFound search.now result }
    ensures keeps { IsNoWorseIn search.now result.plan best.plan }
    ensures tried { IsNoWorseThanWay search.now way result.plan }
{
    let stay = longest_stay(search.disk, search.gap, way);
    let both = sides_of(search.disk, search.wanted, search.gap.target, stay);
    let trial = Trial {
        search,
        way,
        sides: &both,
        ceilings,
    };
    if stop.offers.len() <= FEW {
        return try_each(&trial, None, best);
    }
    try_dense(&trial, stop, best)
}

// Tries all plans that wait at the source.
pub fn try_source(search: &Search, best: Scored) -> Scored
    requires search { IsSearch search.now }
    requires best { IsFound search.now best }
    ensures scored { IsFound search.now result }
    ensures keeps { IsNoWorseIn search.now result.plan best.plan }
    ensures tried { IsNoWorseThanWay search.now Way.Source result.plan }
{
    let blocks = blocks_on(search.wanted, search.gap.source);
    let stop = stop_at(search.disk, &blocks, search.gap.source, search.gap.now);
    let on = move_on(search.disk, search.gap, Way::Source);
    let ceilings = ceilings_of(search, Way::Source, &stop, on);
    try_leaves(search, Way::Source, &stop, &ceilings, best)
}
