// Shortest positioning time first.
ghost use Rattle.std.specs.Prelude.{◌≡◌, ℕ, ◌+◌, ◌*◌, ◌<◌, ◌≤◌, ◌^◌, ◌⊎◌, true, IfSome, ◌-◌, length};
ghost use Rattle.fb_units.specs.declared.types.Request.{Request};
ghost use Rattle.fb_geometry.specs.Shape.{IsTrackOf};
ghost use Rattle.fb_sectormap.specs.LookUp.{track_at};
ghost use Rattle.fb_seek.specs.Positioning.{distance_of};
ghost use Rattle.fb_service.specs.declared.approach.Departure.{Departure};
ghost use Rattle.fb_service.specs.Approaching.{IsDeparture};
ghost use Rattle.fb_model.specs.PlainReplay.{sptf};
ghost use Rattle.fb_fastq.specs.Joining.{AllHeld, IsFirstHeld};
ghost use Rattle.fb_fastq.specs.Lanes.{IsLane, IsAlong};
ghost use Rattle.fb_fastq.specs.Visits.{IsVisit};
ghost use Rattle.fb_fastq.specs.Sides.{IsNoFarther, IsReached};
ghost use Rattle.fb_fastq.specs.Candidates.{IsCandidate, IsBefore, ComesNoLaterBetween, ComesNoLaterUntil, ComesNoLaterOn};

use crate::by_spot::{next_or_first, next_round};
use crate::lanes::cylinder_start;
use crate::ray::Ray;
use crate::side::Side;
use crate::visit::{Visit, visit_to};
use fb_service::{Departure, Disk, departure_from};
use fb_units::{Ns, Request, Track};
use std::collections::BTreeMap;

// So many requests of a lane are valued one after another. Where more wait, a search for the first to pass is less work.
const FEW: u32 = 16;

/// A request that waits, and how long it is until its first sector passes.
#[derive(Clone, Copy)]
pub struct Candidate {
    pub key: (u64, u64),
    pub wait: Ns,
}

// One that never passes.
const NEVER: Candidate = Candidate {
    key: (0, u64::MAX),
    wait: u64::MAX,
};

/// What a walk along one side of the arm found.
#[derive(Clone, Copy)]
pub struct Walked {
    pub best: Candidate,
    /// The lane at which the walk broke off, since more wait there than are valued one after another.
    pub full: Option<Visit>,
}

/// The sooner of two; of two with the same wait, the one that joined first.
pub fn sooner(a: Candidate, b: Candidate) -> Candidate
    ensures one { (result ≡ a) ⊎ (result ≡ b) }
    ensures first { IsBefore result a }
    ensures second { IsBefore result b }
{
    if b.wait < a.wait || (b.wait == a.wait && b.key.1 < a.key.1) {
        b
    } else {
        a
    }
}

// Whether the seek to a lane's cylinder alone takes longer than this wait, in ns.
fn is_too_far(disk: &Disk, from: Departure, visit: &Visit, wait: Ns) -> bool
    requires visit { IsVisit disk.now from visit.now }
    ensures { result ≡ true → (now : ℕ) (r : Request) → distance_of from.track.cylinder visit.now.lane.track.cylinder
        ≤ distance_of from.track.cylinder (track_at disk.now.map r.lbn).cylinder → wait < sptf disk.now from.track now r }
{
    disk.mechanism.seeks_rise();
    wait < visit.seek
}

// The soonest among a candidate and the requests of a lane, by a search.
fn soonest_of_lane(
    waiting: &BTreeMap<(u64, u64), Request>,
    disk: &Disk,
    visit: &Visit,
    best: Candidate,
) -> Candidate
    requires spots { AllHeld (λ key request. IsAlong disk.now request key.0) waiting.now }
    requires lane { IsLane visit.now.lane }
    requires way { visit.now.way ≤ 2 * 10 ^ 9 }
    requires angle { visit.now.angle < disk.now.map.rotation }
    ensures found { (from : Departure) → IsVisit disk.now from visit.now → IsCandidate disk.now from.track from.instant waiting.now best
        → IsCandidate disk.now from.track from.instant waiting.now result }
    ensures first { IsBefore result best }
    ensures least { (from : Departure) → IsVisit disk.now from visit.now
        → ComesNoLaterBetween disk.now from.track from.instant waiting.now result visit.now.lane.start (visit.now.lane.start + 2 ^ 30) }
{
    let rotation = disk.map.geometry().rotation();
    match next_round(waiting, visit.lane.start, rotation, visit.angle) {
        Some((key, _)) => {
            let wait = visit.wait(disk, key.0);
            sooner(best, Candidate { key, wait })
        }
        None => best,
    }
}

// The soonest of a candidate and of the requests of a ray, as far as the first lane on which more than a few wait.
#[tactic(auto, using(crate::proofs::Walks::fewer_left))]
fn walk(
    waiting: &BTreeMap<(u64, u64), Request>,
    disk: &Disk,
    from: Departure,
    ray: Ray,
    any: Visit,
    first: Candidate,
) -> Walked
    requires spots { AllHeld (λ key request. IsAlong disk.now request key.0) waiting.now }
    requires from { IsDeparture disk.now from }
    requires outside { IsNoFarther ray.side (from.track.cylinder * 2 ^ 37) ray.start }
    requires any { IsVisit disk.now from any }
    requires first { IsCandidate disk.now from.track from.instant waiting.now first }
    ensures found { IsCandidate disk.now from.track from.instant waiting.now result.best }
    ensures first { IsBefore result.best first }
    ensures full { IfSome result.full (IsVisit disk.now from) }
    ensures reached { IfSome result.full (λ visit. IsReached ray.side ray.start visit.lane.start) }
    ensures least { ComesNoLaterUntil disk.now from.track from.instant waiting.now result.best ray result.full }
{
    let mut best = first;
    let mut visit = any;
    let mut few = FEW;
    let mut left = ray.those_of(waiting);
    while let Some((key, _)) = ray.side.next(&mut left) {
        if visit.go_on(disk, &from, key.0) {
            if is_too_far(disk, from, &visit, best.wait) {
                return Walked { best, full: None };
            }
            few = FEW;
        }
        if few == 0 {
            let full = Some(visit);
            return Walked { best, full };
        }
        few -= 1;
        let wait = visit.wait(disk, key.0);
        best = sooner(best, Candidate { key: *key, wait });
    }
    Walked { best, full: None }
}

// The soonest of a candidate and of the requests of a ray.
fn soonest_on(
    waiting: &BTreeMap<(u64, u64), Request>,
    disk: &Disk,
    from: Departure,
    ray: Ray,
    any: Visit,
    first: Candidate,
) -> Candidate
    requires spots { AllHeld (λ key request. IsAlong disk.now request key.0) waiting.now }
    requires from { IsDeparture disk.now from }
    requires outside { IsNoFarther ray.side (from.track.cylinder * 2 ^ 37) ray.start }
    requires any { IsVisit disk.now from any }
    requires first { IsCandidate disk.now from.track from.instant waiting.now first }
    ensures found { IsCandidate disk.now from.track from.instant waiting.now result }
    ensures first { IsBefore result first }
    ensures least { ComesNoLaterOn disk.now from.track from.instant waiting.now result ray }
{
    let mut walked = walk(waiting, disk, from, ray, any, first);
    while let Some(visit) = walked.full {
        let best = soonest_of_lane(waiting, disk, &visit, walked.best);
        let rest = ray.beyond(&visit.lane);
        walked = walk(waiting, disk, from, rest, visit, best);
    }
    walked.best
}

/// The request of a map whose first sector passes soonest, while the head is on this track at
/// the instant `now`, in ns; where none waits, one that never passes.
///
/// Of several that pass at the same time the one that joined first is found.
pub fn soonest_in_map(
    waiting: &BTreeMap<(u64, u64), Request>,
    disk: &Disk,
    head: Track,
    now: Ns,
) -> Candidate
    requires spots { AllHeld (λ key request. IsAlong disk.now request key.0) waiting.now }
    requires head { IsTrackOf disk.now.map head }
    requires now { now ≤ 9 * 10 ^ 18 }
    ensures found { 0 < length waiting.now.entries → IsCandidate disk.now head now waiting.now result }
    ensures first { 0 < length waiting.now.entries → IsFirstHeld (sptf disk.now head now) waiting.now result.key }
    ensures none { length waiting.now.entries ≡ 0 → result.wait ≡ 2 ^ 64 - 1 }
{
    if waiting.is_empty() {
        return NEVER;
    }
    let from = departure_from(disk, head, now);
    let start = cylinder_start(disk, head.cylinder);
    let (key, _) = next_or_first(waiting, start);
    let visit = visit_to(disk, &from, key.0);
    let wait = visit.wait(disk, key.0);
    let above = Ray {
        side: Side::Above,
        start,
    };
    let below = Ray {
        side: Side::Below,
        start,
    };
    let first = soonest_on(waiting, disk, from, above, visit, Candidate { key, wait });
    soonest_on(waiting, disk, from, below, visit, first)
}
