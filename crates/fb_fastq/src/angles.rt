// The soonest of requests that wait by the angle of their first sector.
ghost use Rattle.std.specs.Prelude.{◌≡◌, ℕ, ◌+◌, ◌-◌, ◌*◌, ◌%◌, ◌<◌, ◌≤◌, ◌^◌, length, true};
ghost use Rattle.fb_geometry.specs.Shape.{IsTrackOf};
ghost use Rattle.fb_model.specs.Accepted.{IsRequestOf};
ghost use Rattle.fb_model.specs.PlainReplay.{sptf};
ghost use Rattle.fb_fastq.specs.Candidates.{IsCandidate, IsBefore, ComesNoLaterBetween};
ghost use Rattle.fb_fastq.specs.Joining.{AllHeld, IsFirstHeld, IsNoLater, Waits};
ghost use Rattle.fb_fastq.specs.Spots.{IsAngleOf};
ghost use Rattle.fb_fastq.specs.Arcs.{IsArc};

use crate::by_spot::{next_key, next_or_first};
use crate::soonest::{Candidate, sooner};
use fb_queue::{Policy, Soonest};
use fb_service::Disk;
use fb_units::{Ns, Request, Track};
use std::collections::BTreeMap;

/// The angle at which a request's first sector begins, in ns of rotation.
pub fn angle_of(disk: &Disk, request: &Request) -> Ns
    requires { IsRequestOf disk.now.map request.now }
    ensures { IsAngleOf disk.now request.now result }
{
    let place = disk.map.place(request.lbn);
    disk.map.geometry().slot_begin(place.track, place.slot)
}

/// Some angles, and how long it is until the first of them passes.
#[derive(Clone, Copy)]
pub struct Arc {
    /// The first angle, in ns of rotation.
    pub begin: Ns,
    /// The angle behind the last one.
    pub end: Ns,
    /// How long the platter turns until the first of them passes, in ns.
    pub ahead: Ns,
}

// Whether a candidate comes no later than one that joined with this number and waits at least so long.
fn comes_no_later(best: Candidate, wait: Ns, number: u64) -> bool
    ensures { result ≡ true → IsNoLater best.wait best.key.1 wait number }
{
    best.wait < wait || (best.wait == wait && best.key.1 <= number)
}

// The soonest of a candidate and of the requests of an arc.
#[tactic(auto, using(crate::proofs::Passing::none_passed))]
fn soonest_of_arc(
    waiting: &BTreeMap<(u64, u64), Request>,
    disk: &Disk,
    head: Track,
    now: Ns,
    arc: Arc,
    first: Candidate,
) -> Candidate
    requires spots { AllHeld (λ key request. IsAngleOf disk.now request key.0) waiting.now }
    requires on_disk { AllHeld (λ key request. IsRequestOf disk.now.map request) waiting.now }
    requires numbers { AllHeld (λ key request. key.1 < 2 ^ 64 - 1) waiting.now }
    requires head { IsTrackOf disk.now.map head }
    requires now { now ≤ 9 * 10 ^ 18 }
    requires arc { IsArc disk.now now arc }
    ensures found { IsCandidate disk.now head now waiting.now first → IsCandidate disk.now head now waiting.now result }
    ensures first { IsBefore result first }
    ensures least { ComesNoLaterBetween disk.now head now waiting.now result arc.begin arc.end }
{
    let mut best = first;
    let mut start = (arc.begin, 0);
    while let Some((key, request)) = next_key(waiting, start) {
        if arc.end <= key.0 {
            return best;
        }
        let least = arc.ahead + (key.0 - arc.begin);
        if comes_no_later(best, least, key.1) {
            return best;
        }
        let wait = Soonest.key_of(disk, head, now, &request);
        best = sooner(best, Candidate { key, wait });
        start = (key.0, key.1 + 1);
    }
    best
}

/// The key of the request whose first sector passes soonest, while the head is on this track at the
/// instant `now`, in ns; of several that pass at the same time, of the one that joined first.
///
/// The requests are looked at as their angles pass, until none of the others can be sooner.
#[tactic(auto, using(crate::proofs::Passing::arc_behind, crate::proofs::Least::waits_there))]
pub fn first_by_angle(
    waiting: &BTreeMap<(u64, u64), Request>,
    disk: &Disk,
    head: Track,
    now: Ns,
) -> (u64, u64)
    requires some { 0 < length waiting.now.entries }
    requires spots { AllHeld (λ key request. IsAngleOf disk.now request key.0) waiting.now }
    requires on_disk { AllHeld (λ key request. IsRequestOf disk.now.map request) waiting.now }
    requires numbers { AllHeld (λ key request. key.1 < 2 ^ 64 - 1) waiting.now }
    requires head { IsTrackOf disk.now.map head }
    requires now { now ≤ 9 * 10 ^ 18 }
    ensures found { Waits waiting.now result }
    ensures first { IsFirstHeld (sptf disk.now head now) waiting.now result }
{
    let rotation = disk.map.geometry().rotation();
    let angle = now % rotation;
    let (key, request) = next_or_first(waiting, angle);
    let wait = Soonest.key_of(disk, head, now, &request);
    let ahead = Arc {
        begin: angle,
        end: rotation,
        ahead: 0,
    };
    let behind = Arc {
        begin: 0,
        end: angle,
        ahead: rotation - angle,
    };
    let best = soonest_of_arc(waiting, disk, head, now, ahead, Candidate { key, wait });
    soonest_of_arc(waiting, disk, head, now, behind, best).key
}
