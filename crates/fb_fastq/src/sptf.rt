// Shortest positioning time first.
ghost use Rattle.std.specs.Prelude.{◌≡◌};
ghost use Rattle.fb_model.specs.PlainReplay.{sptf};
ghost use Rattle.fb_fastq.specs.Stored.{pending_in, FitsIn, fits_none};

use crate::by_angle::AngleMap;
use crate::row_buckets::RowBuckets;
use crate::{LatePlacing, Placing};
use fb_queue::{Policy, Soonest};
use fb_service::Disk;
use fb_units::{NoMemory, Ns, Request, Track};
use std::alloc::Global;

// An arm is quick if it comes to any cylinder in this part of a turn,
const SEEKS: Ns = 16;

// and to any track, to write there, in this part.
const WAYS: Ns = 4;

// Where requests wait.
#[derive(Drop)]
enum Store {
    // In rows by cylinder.
    Rows(RowBuckets),
    // In a map by angle.
    Angles(AngleMap),
}

/// Shortest positioning time first.
///
/// Requests wait in a row for each cylinder, whose requests are looked at one after another; where
/// more wait than a row has room for, they wait in a map by lane and angle, which is searched. Where
/// the arm comes to any cylinder in a small part of a turn, they wait in a map by angle instead.
#[derive(Drop)]
pub struct Buckets {
    alloc: Global,
    store: Store,
    // Whether the store is the one for the disk.
    is_chosen: bool,
}

/// Shortest positioning time first, over rows, or over a map by angle where the arm is quick.
pub type SptfBuckets = LatePlacing<Buckets>;

// Whether the arm comes to any cylinder in a small part of a turn.
fn is_quick(disk: &Disk) -> bool {
    let geometry = disk.map.geometry();
    let cylinders = geometry.cylinders();
    if cylinders < 2 {
        return false;
    }
    let first = Track {
        cylinder: 0,
        head: 0,
    };
    let farthest = Track {
        cylinder: cylinders - 1,
        head: 1,
    };
    let rotation = geometry.rotation();
    disk.mechanism.seek(cylinders - 1) <= rotation / SEEKS
        && disk.mechanism.pos(first, farthest, true) <= rotation / WAYS
}

impl Buckets {
    // Chooses the store for a disk, while no request waits.
    fn choose(&mut self, disk: &Disk)
        requires fits { FitsIn self.old.store disk.now }
        ensures pending { pending_in self.new.store ≡ pending_in self.old.store }
        ensures fits { FitsIn self.new.store disk.now }
    {
        self.is_chosen = true;
        if !self.is_empty() || !is_quick(disk) {
            return;
        }
        self.store = Store::Angles(AngleMap::new(self.alloc));
    }
}

impl Policy for Buckets {
    ghost key = { sptf };

    fn key_of(&self, disk: &Disk, head: Track, now: Ns, request: &Request) -> u64 {
        Soonest.key_of(disk, head, now, request)
    }
}

impl Placing for Buckets {
    ghost pending = { λ q. pending_in q.store };

    ghost fits = { λ q disk. FitsIn q.store disk };

    ghost fits_any = { λ q disk none. fits_none q.store disk none };

    fn new(alloc: Global) -> Buckets {
        Buckets {
            alloc,
            store: Store::Rows(RowBuckets::new(alloc)),
            is_chosen: false,
        }
    }

    fn place(&mut self, disk: &Disk, request: Request) -> Result<(), NoMemory> {
        if !self.is_chosen {
            self.choose(disk);
        }
        match &mut self.store {
            Store::Rows(rows) => rows.place(disk, request),
            Store::Angles(angles) => angles.place(disk, request),
        }
    }

    fn least_key(&self, disk: &Disk, head: Track, now: Ns) -> u64 {
        match &self.store {
            Store::Rows(rows) => rows.least_key(disk, head, now),
            Store::Angles(angles) => angles.least_key(disk, head, now),
        }
    }

    fn take(&mut self, disk: &Disk, head: Track, now: Ns) -> Request {
        match &mut self.store {
            Store::Rows(rows) => rows.take(disk, head, now),
            Store::Angles(angles) => angles.take(disk, head, now),
        }
    }

    fn is_empty(&self) -> bool {
        match &self.store {
            Store::Rows(rows) => rows.is_empty(),
            Store::Angles(angles) => angles.is_empty(),
        }
    }
}
