// The search over tracks: a track is passed over where it is shown that no detour over it is better
// than the best so far.
ghost use Rattle.std.specs.Prelude.{◌≡◌, ◌+◌, ◌-◌, ◌*◌, ◌≤◌, ◌<◌, ◌^◌, ◌⊎◌, ℕ, get_or, false};
ghost use Rattle.fb_units.specs.declared.types.Track.{Track};
ghost use Rattle.fb_units.specs.Tracks.{same_track};
ghost use Rattle.fb_geometry.specs.Shape.{IsTrackOf};
ghost use Rattle.fb_wanted.specs.States.{on_track};
ghost use Rattle.fb_plan.specs.Ways.{AreOnDisk};
ghost use Rattle.fb_detour.specs.Bounds.{AreRated, AreSeeks, IsCeiling, IsKey, IsReach, IsSearch, IsFound, IsNoWorseIn};
ghost use Rattle.fb_detour.specs.Bounds.{IsNoWorseThanTrack, IsNoWorseThanTracks};

use crate::bounds::{Seeks, first_track_on, is_enough, seeks_over};
use crate::candidates::try_leaves;
use crate::given::Search;
use crate::intervals::ceilings_of;
use crate::leaves::none_is_better;
use crate::missing::misses_enough;
use crate::parts::late_at;
use crate::rate::Rate;
use crate::steps::{Reach, most_by_steps, most_over, rate_in, rate_over, reach_by};
use crate::stop::stop_at;
use fb_plan::{Scored, Way, blocks_on, is_same};
use fb_units::{Ns, Track};
use fb_wanted::TrackBlocks;

// Tries the plans that stop at a track with these blocks, unless none can be better than the best so far.
fn try_stop(
    search: &Search,
    track: Track,
    seeks: Seeks,
    blocks: &TrackBlocks,
    best: Scored,
) -> Scored
    requires seeks { AreSeeks search.now.disk.now.mechanism search.now.gap.now track.cylinder seeks }
    requires track { IsTrackOf search.now.disk.now.map track }
    requires detour { same_track track search.now.gap.now.source ≡ false }
    requires elsewhere { same_track track search.now.gap.now.target ≡ false }
    requires its { blocks.now ≡ on_track track search.now.wanted.now }
    requires on_disk { AreOnDisk search.now.disk.now blocks.now }
    requires search { IsSearch search.now }
    requires best { IsFound search.now best }
    ensures scored { IsFound search.now result }
    ensures keeps { IsNoWorseIn search.now result.plan best.plan }
    ensures tried { IsNoWorseThanTrack search.now result.plan track }
{
    let mechanism = &search.disk.mechanism;
    let there = mechanism.pos_with(seeks.there, search.gap.source, track, false);
    let on = mechanism.pos_with(seeks.on, track, search.gap.target, search.gap.write);
    let arrive = search.gap.now + there;
    if search.gap.deadline < arrive + on {
        return best;
    }
    let stop = stop_at(search.disk, blocks, track, arrive);
    let after = late_at(search.late, arrive + on);
    if misses_enough(&stop, search.gap.deadline - on, after, best) {
        return best;
    }
    let way = Way::Over(track);
    let ceilings = ceilings_of(search, way, &stop, on);
    if none_is_better(search, &ceilings, track, best) {
        return best;
    }
    try_leaves(search, way, &stop, &ceilings, best)
}

// Tries the plans over a track, unless none can be better than the best so far.
fn try_track(search: &Search, track: Track, seeks: Seeks, reach: Reach, best: Scored) -> Scored
    requires seeks { AreSeeks search.now.disk.now.mechanism search.now.gap.now track.cylinder seeks }
    requires track { IsTrackOf search.now.disk.now.map track }
    requires reach { IsReach search.now track reach }
    requires search { IsSearch search.now }
    requires best { IsFound search.now best }
    ensures scored { IsFound search.now result }
    ensures keeps { IsNoWorseIn search.now result.plan best.plan }
    ensures tried { IsNoWorseThanTrack search.now result.plan track }
{
    if is_same(track, search.gap.source) {
        return best;
    }
    if is_same(track, search.gap.target) {
        return best;
    }
    let blocks = blocks_on(search.wanted, track);
    let most = most_by_steps(search, reach, blocks.wanted_weight(), best.value);
    if is_enough(best, most, track) {
        return best;
    }
    try_stop(search, track, seeks, &blocks, best)
}

// Tries the tracks of a cylinder.
fn try_cylinder(search: &Search, cylinder: u32, rate: Rate, best: Scored) -> Scored
    requires cylinder { cylinder < search.now.disk.now.mechanism.cylinders }
    requires rate { AreRated search.now cylinder (cylinder + 1) rate }
    requires search { IsSearch search.now }
    requires best { IsFound search.now best }
    ensures scored { IsFound search.now result }
    ensures keeps { IsNoWorseIn search.now result.plan best.plan }
    ensures tried { IsNoWorseThanTracks search.now result.plan cylinder (cylinder + 1) }
{
    let _cylinders = search.disk.map.geometry().cylinders();
    let seeks = seeks_over(search.disk, search.gap, cylinder);
    let reach = reach_by(search, cylinder, seeks, rate);
    let mut best = best;
    for head in 0..search.disk.map.geometry().heads() {
        let track = Track { cylinder, head };
        best = try_track(search, track, seeks, reach, best);
    }
    best
}

// Into how many parts a range of cylinders is divided, at most.
const RANGE_PARTS: usize = 8;

// Cylinders that are next to one another, at most 8 to the power of their level.
#[derive(Clone, Copy)]
struct Range {
    from: u32,
    end: u32,
    // How often they are divided, at most, until each stands alone.
    level: u32,
}

// The level of all cylinders of the largest disk.
const TOP_LEVEL: u32 = 7;

// How many cylinders a range of this level has at most: a power of 8, so that parts and bands of cylinders begin
// together.
fn width_of(level: u32) -> u32
    requires shallow { level ≤ 7 }
    ensures { result ≡ 8 ^ level }
{
    8u32.pow(level)
}

// The least level of so many cylinders.
fn level_of(cylinders: u32) -> u32
    requires few { cylinders ≤ 10 ^ 6 }
    ensures shallow { result ≤ 7 }
    ensures whole { cylinders ≤ 8 ^ result }
{
    for level in 0..TOP_LEVEL {
        if cylinders <= width_of(level) {
            return level;
        }
    }
    TOP_LEVEL
}

// For each part of the range an upper bound on the value of detours over it, in one number with the
// part: eight times the bound, plus 8 for the first part, 7 for the second and so on. So numbers
// differ, and a greater bound has a greater number.
fn keys_of(
    search: &Search,
    from: u32,
    end: u32,
    width: u32,
    rate: Rate,
    known: u64,
) -> [u64; RANGE_PARTS]
    requires within { end ≤ search.now.disk.now.mechanism.cylinders }
    requires order { from ≤ end }
    requires few { search.now.disk.now.mechanism.cylinders ≤ 10 ^ 6 }
    requires width { width ≤ 10 ^ 6 }
    requires search { IsSearch search.now }
    requires rate { AreRated search.now from end rate }
    ensures { (j : ℕ) → j < 8 → IsKey search.now from end width j (get_or result j 0) }
{
    let mut keys = [0; RANGE_PARTS];
    for j in 0..RANGE_PARTS {
        let first = from + j as u32 * width;
        let behind = first + width;
        let upto = end.min(behind);
        let most = most_within(search, first, upto, rate, known);
        keys[j] = most * 8 + (8 - j as u64);
    }
    keys
}

// An upper bound on the value of detours over the tracks of these cylinders, if there are any.
fn most_within(search: &Search, from: u32, end: u32, rate: Rate, known: u64) -> u64
    requires cylinders { end ≤ search.now.disk.now.mechanism.cylinders }
    requires search { IsSearch search.now }
    requires rate { AreRated search.now from end rate }
    ensures most { IsCeiling search.now from end result }
    ensures small { result ≤ 2 * (16000000 * 2048000) }
{
    if end <= from {
        return 0;
    }
    most_over(search, from, end, rate, known)
}

// The greatest of the numbers below this one; 0 if there is none.
fn next_below(keys: &[u64; RANGE_PARTS], below: u64) -> u64
    ensures less { 0 < result → result < below }
    ensures its { 0 < result → (j : ℕ) × (j < 8) × (get_or keys.now j 0 ≡ result) }
    ensures greatest { (j : ℕ) → j < 8 → get_or keys.now j 0 < below → get_or keys.now j 0 ≤ result }
{
    let mut key = 0;
    for j in 0..RANGE_PARTS {
        key = greater_below(key, keys[j], below);
    }
    key
}

// The greater of both numbers, or the first one where the other isn't below this one.
fn greater_below(key: u64, other: u64, below: u64) -> u64
    ensures either { (result ≡ key) ⊎ ((result ≡ other) × (other < below)) }
    ensures key { key ≤ result }
    ensures other { other < below → other ≤ result }
{
    if below <= other {
        return key;
    }
    key.max(other)
}

// Tries the tracks of these cylinders, if their upper bound leaves it open whether one is better
// than the best so far: part by part, that with the greatest bound first.
fn visit(search: &Search, range: Range, most: u64, rate: Rate, best: Scored) -> Scored
    requires within { range.end ≤ search.now.disk.now.mechanism.cylinders }
    requires few { search.now.disk.now.mechanism.cylinders ≤ 10 ^ 6 }
    requires shallow { range.level ≤ 7 }
    requires whole { range.end - range.from ≤ 8 ^ range.level }
    requires most { IsCeiling search.now range.from range.end most }
    requires search { IsSearch search.now }
    requires rate { AreRated search.now range.from range.end rate }
    requires best { IsFound search.now best }
    ensures scored { IsFound search.now result }
    ensures keeps { IsNoWorseIn search.now result.plan best.plan }
    ensures tried { IsNoWorseThanTracks search.now result.plan range.from range.end }
{
    let Range { from, end, level } = range;
    if end <= from {
        return best;
    }
    if is_enough(best, most, first_track_on(from)) {
        return best;
    }
    if end - from == 1 {
        return try_cylinder(search, from, rate, best);
    }
    let own = rate_in(search, from, end, rate);
    let below = level - 1;
    let width = width_of(below);
    let keys = keys_of(search, from, end, width, own, best.value);
    let mut best = best;
    let mut key = next_below(&keys, u64::MAX);
    while 0 < key {
        let most = (key - 1) / 8;
        if most < best.value {
            return best;
        }
        let begin = from + (7 - (key - 1) % 8) as u32 * width;
        let behind = begin + width;
        let upto = end.min(behind);
        let part = Range {
            from: begin,
            end: upto,
            level: below,
        };
        best = visit(search, part, most, own, best);
        key = next_below(&keys, key);
    }
    best
}

// Tries the tracks of all cylinders.
pub fn try_all(search: &Search, best: Scored) -> Scored
    requires search { IsSearch search.now }
    requires best { IsFound search.now best }
    ensures scored { IsFound search.now result }
    ensures keeps { IsNoWorseIn search.now result.plan best.plan }
    ensures tried { IsNoWorseThanTracks search.now result.plan 0 search.now.disk.now.mechanism.cylinders }
{
    let geometry = search.disk.map.geometry();
    geometry.sound();
    let end = geometry.cylinders();
    let rate = rate_over(search.disk, search.wanted, 0, end);
    let most = most_within(search, 0, end, rate, best.value);
    let all = Range {
        from: 0,
        end,
        level: level_of(end),
    };
    visit(search, all, most, rate, best)
}
