// The search for the best spill of a gap. Ranges of cylinders are passed over where no spill can be
// better than the best so far.
ghost use Rattle.std.specs.Prelude.{◌≡◌, ◌+◌, ◌-◌, ◌*◌, ◌<◌, ◌≤◌, ◌^◌, ◌⊎◌, ℕ, List, false, true, length, max, if◌then◌else◌};
ghost use Rattle.std.specs.List.{sum_by};
ghost use Rattle.fb_geometry.specs.Shape.{slots_at, IsTrackOf};
ghost use Rattle.fb_seek.specs.Positioning.{distance_of};
ghost use Rattle.fb_wanted.specs.declared.block.Entry.{Entry as Registered};
ghost use Rattle.fb_wanted.specs.States.{on_track, wanted_of};
ghost use Rattle.fb_wanted.specs.Tracks.{wanted_weight};
ghost use Rattle.fb_units.specs.declared.types.Track.{Track};
ghost use Rattle.fb_plan.specs.Ways.{AreOnDisk};
ghost use Rattle.fb_plan.specs.Turns.{added, end_of, passes_by, AreInTurn, IsInTurn, IsTurning, Stands};
ghost use Rattle.fb_detour.specs.Bounds.{slots_within};
ghost use Rattle.fb_bgwrite.specs.declared.choice.Spill.{Spill};
ghost use Rattle.fb_bgwrite.specs.ByAngle.{as_offers, AreByAngle, HasWritten, IsWrittenFrom, PassInTurn};
ghost use Rattle.fb_bgwrite.specs.Choosing.{AreLeast, ArePending, AreTried, IsBestIf, IsEnough, IsFound, IsGap, IsKept};
ghost use Rattle.fb_bgwrite.specs.Choosing.{IsLastEnd, IsMostOn, IsOnly, IsPart, IsSearch, IsShare, IsTried, IsValuedIf};
ghost use Rattle.fb_bgwrite.specs.Depth.{depth};
ghost use Rattle.fb_bgwrite.specs.Shortest.{AreAtLeast};
ghost use Rattle.fb_bgwrite.specs.Spilling.{value, IsSpill};

use crate::choice::{Spill, Valued, better};
use crate::pending::{Pending, are_longer};
use crate::spots::{Spot, count_before};
use fb_detour::most_slots;
use fb_plan::Turning;
use fb_rows::Gap;
use fb_service::Disk;
use fb_units::{Ns, Sweep, Track};
use fb_wanted::{Offer, TrackBlocks};

// The most sectors of a block.
const LONGEST: u32 = 2_048;

// More cylinders than these aren't tried one after the other. Their weights aren't looked at, and the
// time of a slot is that of a wider range.
const WIDE: u32 = 2_048;

// So few cylinders are tried one after the other.
const FEW: u32 = 32;

// A gap on its disk, and the registered blocks.
#[derive(Clone, Copy)]
struct Search<'a> {
    disk: &'a Disk,
    pending: &'a Pending,
    gap: &'a Gap,
}

// Cylinders that are searched.
#[derive(Clone, Copy)]
struct Part {
    // The first of them.
    from: u32,
    // The one behind the last.
    end: u32,
    // The least time of a slot there, in ns.
    share: Ns,
    // An upper bound on the sectors that a spill writes on a track there.
    most: u64,
    // Whether less than a turn is left beside the moves; the heaviest track may need half of it.
    brief: bool,
}

// The least time, in ns, of a move to a track, and of the move on from it to the target.
#[derive(Clone, Copy)]
struct Moves {
    there: Ns,
    on: Ns,
}

// The best spill so far, and the cylinders that are still to be tried.
#[derive(Clone, Copy)]
struct Swept {
    best: Option<Valued>,
    rest: Part,
}

// What a stay writes, and when the last passage of that ends, in ns.
#[derive(Clone, Copy)]
struct Written {
    sectors: u64,
    last: Ns,
}

/// The best spill of a gap, where these are the registered blocks; none where none writes anything.
pub fn best_spill(disk: &Disk, pending: &Pending, gap: &Gap) -> Option<Valued>
    requires gap { IsGap disk.now gap.now }
    requires blocks { ArePending disk.now pending.now }
    ensures best { IsBestIf disk.now gap.entry.now (wanted_of pending.now) result }
    ensures valued { IsValuedIf disk.now gap.entry.now (wanted_of pending.now) result }
{
    let cylinders = disk.map.geometry().cylinders();
    let (from, end) = trimmed(pending, 0, cylinders, LONGEST);
    if from == end {
        return None;
    }
    let share = least_share(disk, gap, from, end);
    let search = Search { disk, pending, gap };
    let all = part_of(&search, from, end, share);
    visit(&search, all, None)
}

// Where the first of these cylinders is that may have a pending block of at most so many sectors, and
// where the last one ends.
fn trimmed(pending: &Pending, from: u32, end: u32, most: u32) -> (u32, u32)
    requires order { from ≤ end }
    requires short { most ≤ 2048 }
    ensures after { from ≤ result.0 }
    ensures order { result.0 ≤ result.1 }
    ensures within { result.1 ≤ end }
    ensures before { AreAtLeast from result.0 (most + 1) pending.now }
    ensures behind { AreAtLeast result.1 end (most + 1) pending.now }
{
    let behind = pending.end_short(from, end, most);
    (pending.first_short(from, behind, most), behind)
}

// Tries the tracks of these cylinders, if their bound leaves it open whether a spill there is better
// than the best so far: in two parts, that with the greater bound first.
fn visit(search: &Search, part: Part, best: Option<Valued>) -> Option<Valued>
    requires search { IsSearch search.now }
    requires part { IsPart search.now part }
    requires best { IsFound search.now best }
    ensures valued { IsFound search.now result }
    ensures keeps { IsKept search.now best result }
    ensures tried { AreTried search.now result part.from part.end }
{
    if is_enough(best, part.most, part.from) {
        return best;
    }
    if is_swept(search.gap, part) {
        return sweep(search, part, best);
    }
    let middle = split_at(search.gap, part);
    let low = narrowed(search, part, part.from, middle);
    let high = narrowed(search, part, middle, part.end);
    if low.most < high.most {
        let best = visit(search, high, best);
        return visit(search, low, best);
    }
    let best = visit(search, low, best);
    visit(search, high, best)
}

// Whether the cylinders of a part are tried one after the other: if they are few, or if they lie on one
// side of the gap, so that the moves get longer from one to the next, and less than a turn is left.
fn is_swept(gap: &Gap, part: Part) -> bool
    requires { part.from ≤ part.end }
    ensures { result ≡ false → part.from + 1 < part.end }
{
    let cylinders = part.end - part.from;
    let beside = is_below(gap, part.end) || is_above(gap, part.from);
    cylinders <= FEW || part.brief && beside && cylinders <= WIDE
}

// Where a part is divided: beside the tracks of the gap on either side, or else in the middle.
fn split_at(gap: &Gap, part: Part) -> u32
    requires { part.from + 1 < part.end }
    ensures after { part.from < result }
    ensures within { result < part.end }
    ensures low { depth gap.entry.now part.from result < depth gap.entry.now part.from part.end }
    ensures high { depth gap.entry.now result part.end < depth gap.entry.now part.from part.end }
{
    let low = gap.source.cylinder.min(gap.target.cylinder);
    let high = gap.source.cylinder.max(gap.target.cylinder);
    if part.from < low && low < part.end {
        low
    } else if part.from <= high && high < part.end - 1 {
        high + 1
    } else {
        part.from + (part.end - part.from) / 2
    }
}

// Some of the cylinders of a part, from the first to the last that may have a pending block short enough
// for its bound, with a bound of their own.
fn narrowed(search: &Search, whole: Part, from: u32, end: u32) -> Part
    requires order { from ≤ end }
    requires after { whole.from ≤ from }
    requires inside { end ≤ whole.end }
    requires search { IsSearch search.now }
    requires whole { IsPart search.now whole }
    ensures after { from ≤ result.from }
    ensures within { result.end ≤ end }
    ensures part { IsPart search.now result }
    ensures only { IsOnly search.now.disk.now search.now.gap.now (wanted_of search.now.pending.now) from end result }
{
    let short = whole.most.min(LONGEST as u64) as u32;
    let (from, end) = trimmed(search.pending, from, end, short);
    if from == end {
        return Part {
            from,
            end,
            most: 0,
            ..whole
        };
    }
    let share = share_inside(search, whole, from, end);
    part_of(search, from, end, share)
}

// The least time of a slot of some of the cylinders of a part: found anew where they are few of many.
fn share_inside(search: &Search, whole: Part, from: u32, end: u32) -> Ns
    requires some { from < end }
    requires after { whole.from ≤ from }
    requires inside { end ≤ whole.end }
    requires search { IsSearch search.now }
    requires whole { IsPart search.now whole }
    ensures { IsShare search.now.disk.now from end result }
{
    if whole.end - whole.from > WIDE && end - from <= WIDE {
        return least_share(search.disk, search.gap, from, end);
    }
    whole.share
}

// These cylinders with a bound of their own.
fn part_of(search: &Search, from: u32, end: u32, share: Ns) -> Part
    requires some { from < end }
    requires within { end ≤ search.now.disk.now.mechanism.cylinders }
    requires share { IsShare search.now.disk.now from end share }
    requires search { IsSearch search.now }
    ensures from { result.from ≡ from }
    ensures end { result.end ≡ end }
    ensures part { IsPart search.now result }
{
    let slots = most_passing(search.disk, search.gap, from, end, share);
    let most = unless_lighter(search.pending, from, end, slots);
    Part {
        from,
        end,
        share,
        most,
        brief: is_brief(search.disk, share, slots, most),
    }
}

// Whether no more slots pass than in a turn, and the heaviest track may take half of them.
fn is_brief(disk: &Disk, share: Ns, slots: u64, most: u64) -> bool
    requires { 0 < share }
{
    slots <= disk.map.geometry().rotation() / share && slots / 2 <= most
}

// Whether the best so far is at least as good as each spill that writes `most` sectors at most, on
// a track from this cylinder on.
fn is_enough(best: Option<Valued>, most: u64, from: u32) -> bool
    ensures { result ≡ true → IsEnough best most from }
{
    match best {
        Some(best) => {
            most < best.value || (most == best.value && best.spill.track.cylinder < from)
        }
        None => most == 0,
    }
}

// This number, or a bound on the sectors of the heaviest track of these cylinders, if that is less; many
// cylinders aren't looked at.
fn unless_lighter(pending: &Pending, from: u32, end: u32, most: u64) -> u64
    requires some { from < end }
    ensures { (result ≡ most)
        ⊎ ((result < most) × ((track : Track) → from ≤ track.cylinder → track.cylinder < end → wanted_weight track pending.now ≤ result)) }
{
    if end - from > WIDE {
        return most;
    }
    let weight = pending.greatest_weight_in(from, end);
    if weight < most { weight } else { most }
}

// An upper bound on the slots that pass on a track of these cylinders in the time that is left beside
// the moves, of at least `share` ns each; 0 where none is left.
fn most_passing(disk: &Disk, gap: &Gap, from: u32, end: u32, share: Ns) -> u64
    requires some { from < end }
    requires within { end ≤ disk.now.mechanism.cylinders }
    requires share { IsShare disk.now from end share }
    requires gap { IsGap disk.now gap.now }
    ensures { (entries : List Registered) (spill : Spill) → ArePending disk.now entries → from ≤ spill.track.cylinder
        → spill.track.cylinder < end → IsSpill disk.now gap.entry.now spill
        → value disk.now gap.entry.now (wanted_of entries) spill ≤ result }
{
    disk.map.geometry().sound();
    disk.map.geometry().own_places();
    let moves = least_moves(disk, gap, from, end);
    let back = gap.now + moves.there + moves.on;
    if gap.deadline < back {
        return 0;
    }
    (gap.deadline - back) / share + 1
}

// A lower bound on the time of a slot, in ns, over all tracks of these cylinders.
fn least_share(disk: &Disk, gap: &Gap, from: u32, end: u32) -> Ns
    requires some { from < end }
    requires gap { IsGap disk.now gap.now }
    ensures { IsShare disk.now from end result }
{
    disk.map.geometry().rotation() / most_slots(disk, from, end, gap.target) as u64
}

// Lower bounds on the times of both moves, over all tracks of these cylinders.
fn least_moves(disk: &Disk, gap: &Gap, from: u32, end: u32) -> Moves
    requires some { from < end }
    requires within { end ≤ disk.now.mechanism.cylinders }
    requires gap { IsGap disk.now gap.now }
    ensures least { AreLeast disk.now gap.entry.now from end result }
    ensures small { (result.there ≤ 2 * 10 ^ 9) × (result.on ≤ 2 * 10 ^ 9) }
{
    disk.mechanism.seeks_rise();
    let near_source = Track {
        cylinder: nearest(from, end, gap.source.cylinder),
        head: gap.source.head,
    };
    let near_target = Track {
        cylinder: nearest(from, end, gap.target.cylinder),
        head: gap.target.head,
    };
    Moves {
        there: disk.mechanism.pos(gap.source, near_source, true),
        on: disk.mechanism.pos(near_target, gap.target, gap.write),
    }
}

// The cylinder of the range that is nearest to this one.
fn nearest(from: u32, end: u32, cylinder: u32) -> u32
    requires some { from < end }
    ensures after { from ≤ result }
    ensures within { result < end }
    ensures near { (other : ℕ) → from ≤ other → other < end → distance_of result cylinder ≤ distance_of other cylinder }
{
    if cylinder < from {
        from
    } else if cylinder < end {
        cylinder
    } else {
        end - 1
    }
}

// Whether the cylinders before this one lie before both tracks of the gap.
fn is_below(gap: &Gap, end: u32) -> bool {
    end <= gap.source.cylinder && end <= gap.target.cylinder
}

// Whether the cylinders from this one on lie behind both tracks of the gap.
fn is_above(gap: &Gap, from: u32) -> bool {
    gap.source.cylinder < from && gap.target.cylinder < from
}

// Tries the tracks of the cylinders of a part one after the other, beside the gap from the nearest one
// on, until a bound shows that no other is better.
fn sweep(search: &Search, part: Part, best: Option<Valued>) -> Option<Valued>
    requires search { IsSearch search.now }
    requires part { IsPart search.now part }
    requires best { IsFound search.now best }
    ensures valued { IsFound search.now result }
    ensures keeps { IsKept search.now best result }
    ensures tried { AreTried search.now result part.from part.end }
{
    let mut swept = Swept { best, rest: part };
    while !is_enough(swept.best, swept.rest.most, swept.rest.from) {
        if swept.rest.end == swept.rest.from {
            break;
        }
        swept = try_next(search, swept.rest, swept.best);
    }
    swept.best
}

// Tries one more cylinder of a part, the first one if it lies behind the gap, else the last one; the
// others are left.
fn try_next(search: &Search, part: Part, best: Option<Valued>) -> Swept
    requires some { part.from < part.end }
    requires search { IsSearch search.now }
    requires part { IsPart search.now part }
    requires best { IsFound search.now best }
    ensures after { part.from ≤ result.rest.from }
    ensures within { result.rest.end ≤ part.end }
    ensures fewer { result.rest.end + part.from < part.end + result.rest.from }
    ensures rest { IsPart search.now result.rest }
    ensures valued { IsFound search.now result.best }
    ensures keeps { IsKept search.now best result.best }
    ensures before { AreTried search.now result.best part.from result.rest.from }
    ensures behind { AreTried search.now result.best result.rest.end part.end }
{
    if is_above(search.gap, part.from) {
        try_first(search, part, best)
    } else {
        try_last(search, part, best)
    }
}

// Tries the last cylinder of a part that has a block short enough for the part's bound. The cylinders
// before it are left, with a bound for all up to this one.
fn try_last(search: &Search, part: Part, best: Option<Valued>) -> Swept
    requires some { part.from < part.end }
    requires search { IsSearch search.now }
    requires part { IsPart search.now part }
    requires best { IsFound search.now best }
    ensures from { result.rest.from ≡ part.from }
    ensures fewer { result.rest.end < part.end }
    ensures rest { IsPart search.now result.rest }
    ensures valued { IsFound search.now result.best }
    ensures keeps { IsKept search.now best result.best }
    ensures tried { AreTried search.now result.best result.rest.end part.end }
{
    let short = part.most.min(LONGEST as u64) as u32;
    let end = search.pending.end_short(part.from, part.end, short);
    if end == part.from {
        return Swept {
            best,
            rest: Part { end, ..part },
        };
    }
    if is_light(search, end - 1, best) {
        return Swept {
            best,
            rest: Part {
                end: end - 1,
                ..part
            },
        };
    }
    let slots = most_passing(search.disk, search.gap, part.from, end, part.share);
    let most = slots.min(part.most);
    let own = Part {
        from: end - 1,
        end,
        most,
        ..part
    };
    Swept {
        best: try_cylinder(search, own, best),
        rest: Part {
            end: end - 1,
            most,
            ..part
        },
    }
}

// Tries the first cylinder of a part that has a block short enough for the part's bound. The cylinders
// behind it are left, with a bound for all from this one on.
fn try_first(search: &Search, part: Part, best: Option<Valued>) -> Swept
    requires some { part.from < part.end }
    requires search { IsSearch search.now }
    requires part { IsPart search.now part }
    requires best { IsFound search.now best }
    ensures end { result.rest.end ≡ part.end }
    ensures fewer { part.from < result.rest.from }
    ensures rest { IsPart search.now result.rest }
    ensures valued { IsFound search.now result.best }
    ensures keeps { IsKept search.now best result.best }
    ensures tried { AreTried search.now result.best part.from result.rest.from }
{
    let short = part.most.min(LONGEST as u64) as u32;
    let from = search.pending.first_short(part.from, part.end, short);
    if from == part.end {
        return Swept {
            best,
            rest: Part { from, ..part },
        };
    }
    if is_light(search, from, best) {
        return Swept {
            best,
            rest: Part {
                from: from + 1,
                ..part
            },
        };
    }
    let slots = most_passing(search.disk, search.gap, from, part.end, part.share);
    let most = slots.min(part.most);
    let own = Part {
        from,
        end: from + 1,
        most,
        ..part
    };
    Swept {
        best: try_cylinder(search, own, best),
        rest: Part {
            from: from + 1,
            most,
            ..part
        },
    }
}

// Whether there is a best so far, and it is at least as good as each spill on a track of this cylinder, by
// its weights.
fn is_light(search: &Search, cylinder: u32, best: Option<Valued>) -> bool
    requires room { cylinder < 2 ^ 32 - 1 }
    requires search { IsSearch search.now }
    ensures { result ≡ true → AreTried search.now best cylinder (cylinder + 1) }
{
    if best.is_none() {
        return false;
    }
    let weight = search.pending.greatest_weight_in(cylinder, cylinder + 1);
    is_enough(best, weight, cylinder)
}

// Tries the tracks of a part of one cylinder, if a pending block there is short enough.
fn try_cylinder(search: &Search, part: Part, best: Option<Valued>) -> Option<Valued>
    requires one { part.end ≡ part.from + 1 }
    requires search { IsSearch search.now }
    requires part { IsPart search.now part }
    requires best { IsFound search.now best }
    ensures valued { IsFound search.now result }
    ensures keeps { IsKept search.now best result }
    ensures tried { AreTried search.now result part.from part.end }
{
    if part.most < search.pending.shortest_at(part.from) as u64 {
        return best;
    }
    let mut best = best;
    for head in 0..search.disk.map.geometry().heads() {
        let track = Track {
            cylinder: part.from,
            head,
        };
        best = try_track(search, track, part.most, best);
    }
    best
}

// Tries the spills on a track, none of which writes more than `most`, unless its pending blocks are
// too few or each of them is too long.
fn try_track(search: &Search, track: Track, most: u64, best: Option<Valued>) -> Option<Valued>
    requires track { IsTrackOf search.now.disk.now.map track }
    requires most { IsMostOn search.now.disk.now search.now.gap.now (wanted_of search.now.pending.now) track most }
    requires search { IsSearch search.now }
    requires best { IsFound search.now best }
    ensures valued { IsFound search.now result }
    ensures keeps { IsKept search.now best result }
    ensures tried { IsTried search.now result track }
{
    let blocks = search.pending.on(track);
    if is_enough(best, most.min(blocks.wanted_weight()), track.cylinder) {
        return best;
    }
    if search.pending.spots_on(track).is_none() && are_longer(&blocks, most) {
        return best;
    }
    let found = spill_on(search, track, &blocks);
    match (best, found) {
        (Some(best), Some(found)) => Some(better(best, found)),
        (None, found) => found,
        (best, None) => best,
    }
}

// The best spill on a track, whose blocks these are: it leaves as the last passage ends that the head can
// wait for.
fn spill_on(search: &Search, track: Track, blocks: &TrackBlocks) -> Option<Valued>
    requires track { IsTrackOf search.now.disk.now.map track }
    requires search { IsSearch search.now }
    requires its { blocks.now ≡ on_track track search.now.pending.now }
    requires on_disk { AreOnDisk search.now.disk.now blocks.now }
    ensures valued { IsFound search.now result }
    ensures tried { IsTried search.now result track }
{
    let disk = search.disk;
    let gap = search.gap;
    let begin = gap.now + disk.mechanism.pos(gap.source, track, true);
    let on = disk.mechanism.pos(track, gap.target, gap.write);
    if gap.deadline < begin + on {
        return None;
    }
    let turning = Turning::new(disk, begin);
    let written = written_on(search, track, blocks, &turning, gap.deadline - on);
    if written.sectors == 0 {
        return None;
    }
    Some(Valued {
        spill: Spill {
            track,
            leave: written.last,
        },
        value: written.sectors,
    })
}

// What is written of a track's blocks in a stay there until the instant `latest`, in ns.
fn written_on(
    search: &Search,
    track: Track,
    blocks: &TrackBlocks,
    turning: &Turning,
    latest: Ns,
) -> Written
    requires its { blocks.now ≡ on_track track search.now.pending.now }
    requires turning { IsTurning search.now.disk.now turning.now }
    requires on_disk { AreOnDisk search.now.disk.now blocks.now }
    requires order { turning.now.from ≤ latest }
    ensures { HasWritten turning.now latest blocks.now result.sectors result.last }
{
    let offers = blocks.offers();
    match search.pending.spots_on(track) {
        Some(spots) => written_within(spots, turning, latest),
        None => written_by(offers, turning, latest),
    }
}

// What is written of these spots in a stay until the instant `latest`, in ns. Those that pass before the platter
// comes to angle 0 are looked at first.
fn written_within(spots: &[Spot], turning: &Turning, latest: Ns) -> Written
    requires stands { Stands turning.now }
    requires by_angle { AreByAngle spots.now }
    requires sweeps { AreInTurn turning.now.rotation (as_offers spots.now) }
    requires order { turning.now.from ≤ latest }
    requires few { length spots.now ≤ 16000000 }
    ensures { IsWrittenFrom turning.now latest spots.now 0 result.sectors result.last }
{
    let none = Written {
        sectors: 0,
        last: turning.from,
    };
    let next = count_before(spots, turning.at);
    let written = written_from(spots, next, spots.len(), turning, latest, none);
    written_from(spots, 0, next, turning, latest, written)
}

// The same with the spots of a range, which pass one after the other, up to the first that begins too late.
fn written_from(
    spots: &[Spot],
    from: usize,
    end: usize,
    turning: &Turning,
    latest: Ns,
    so_far: Written,
) -> Written
    requires order { from ≤ end }
    requires within { end ≤ length spots.now }
    requires stands { Stands turning.now }
    requires sweeps { AreInTurn turning.now.rotation (as_offers spots.now) }
    requires few { length spots.now ≤ 16000000 }
    requires turns { PassInTurn turning.now spots.now from end }
    requires behind { IsWrittenFrom turning.now latest spots.now end so_far.sectors so_far.last }
    ensures { IsWrittenFrom turning.now latest spots.now from result.sectors result.last }
{
    let mut written = so_far;
    for i in from..end {
        let spot = spots[i];
        if latest < turning.begin(spot.sweep) {
            return written;
        }
        written = with_sweep(spot.sweep, spot.worth, turning, latest, written);
    }
    written
}

// What is written of a track's offers in a stay there until the instant `latest`, in ns.
fn written_by(offers: &[Offer], turning: &Turning, latest: Ns) -> Written
    requires stands { Stands turning.now }
    requires sweeps { AreInTurn turning.now.rotation offers.now }
    requires order { turning.now.from ≤ latest }
    requires few { length offers.now ≤ 16000000 }
    ensures sectors { result.sectors ≡ sum_by (added (passes_by turning.now latest)) offers.now }
    ensures last { IsLastEnd turning.now latest offers.now result.sectors result.last }
{
    let mut written = Written {
        sectors: 0,
        last: turning.from,
    };
    for offer in offers {
        written = with_sweep(offer.sweep, offer.worth, turning, latest, written);
    }
    written
}

// The same with one block more, by how it passes and what it is worth.
fn with_sweep(sweep: Sweep, worth: u32, turning: &Turning, latest: Ns, so_far: Written) -> Written
    requires stands { Stands turning.now }
    requires sweep { IsInTurn turning.now.rotation sweep }
    requires room { so_far.sectors < 2 ^ 62 }
    ensures sectors { result.sectors ≡ so_far.sectors + (if passes_by turning.now latest sweep then worth else 0) }
    ensures last { result.last ≡ (if passes_by turning.now latest sweep
        then max so_far.last (end_of turning.now.rotation sweep turning.now.from) else so_far.last) }
    ensures small { result.sectors < so_far.sectors + 2 ^ 32 }
{
    let end = turning.end(sweep);
    if latest < end {
        return so_far;
    }
    Written {
        sectors: so_far.sectors + worth as u64,
        last: so_far.last.max(end),
    }
}
