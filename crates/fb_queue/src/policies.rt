// The keys of the policies.
ghost use Rattle.std.specs.Prelude.{◌≡◌, [], ◌≤◌, ◌^◌, ◌*◌};
ghost use Rattle.fb_geometry.specs.Shape.{IsTrackOf};
ghost use Rattle.fb_model.specs.Accepted.{IsRequestOf};
ghost use Rattle.fb_model.specs.PlainReplay.{Key, fcfs, sstf, clook, sptf};

use crate::Keyed;
use fb_service::{Disk, first_pass};
use fb_units::{Ns, Request, Track};

/// What decides which request is served next.
pub trait Policy: Drop {
    /// The key: the request with the least is served next.
    ghost key: { Key };

    /// The key of a request while the head is on this track at the instant `now`, in ns.
    fn key_of(&self, disk: &Disk, head: Track, now: Ns, request: &Request) -> u64
        requires request { IsRequestOf disk.now.map request.now }
        requires head { IsTrackOf disk.now.map head }
        requires now { now ≤ 9 * 10 ^ 18 }
        ensures { result ≡ key disk.now head now request.now };
}

/// The request that joined first: all keys are 0.
#[derive(Clone, Copy, Debug, Default, PartialEq, Eq)]
pub struct Earliest;

/// The nearest cylinder first: the key is the distance in cylinders.
#[derive(Clone, Copy, Debug, Default, PartialEq, Eq)]
pub struct Nearest;

/// The next cylinder upwards first, and after the last cylinder the first one again.
///
/// The key is the distance upwards in cylinders.
#[derive(Clone, Copy, Debug, Default, PartialEq, Eq)]
pub struct Upwards;

/// The request whose first sector begins to pass under the head soonest.
///
/// The key is that wait in ns. Worthington, Ganger and Patt study it (SIGMETRICS 1994).
#[derive(Clone, Copy, Debug, Default, PartialEq, Eq)]
pub struct Soonest;

/// First come, first served.
pub type Fcfs = Keyed<Earliest>;

/// Shortest seek time first, by distance in cylinders.
pub type Sstf = Keyed<Nearest>;

/// The circular elevator (C-LOOK).
pub type Clook = Keyed<Upwards>;

/// Shortest positioning time first.
pub type Sptf = Keyed<Soonest>;

impl Policy for Earliest {
    ghost key = { fcfs };

    fn key_of(&self, _disk: &Disk, _head: Track, _now: Ns, _request: &Request) -> u64 {
        0
    }
}

impl Policy for Nearest {
    ghost key = { sstf };

    fn key_of(&self, disk: &Disk, head: Track, _now: Ns, request: &Request) -> u64 {
        disk.map
            .place(request.lbn)
            .track
            .cylinder
            .abs_diff(head.cylinder) as u64
    }
}

impl Policy for Upwards {
    ghost key = { clook };

    fn key_of(&self, disk: &Disk, head: Track, _now: Ns, request: &Request) -> u64 {
        let cylinders = disk.map.geometry().cylinders() as u64;
        let cylinder = disk.map.place(request.lbn).track.cylinder as u64;
        (cylinder + cylinders - head.cylinder as u64) % cylinders
    }
}

impl Policy for Soonest {
    ghost key = { sptf };

    fn key_of(&self, disk: &Disk, head: Track, now: Ns, request: &Request) -> u64 {
        first_pass(disk, head, now, request.lbn, request.write) - now
    }
}
