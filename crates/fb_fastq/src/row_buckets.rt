// Shortest positioning time first, over rows and a map.
ghost use Rattle.std.specs.Prelude.{◌≡◌, ◌++◌, ◌*◌, ◌<◌, ◌≤◌, ◌^◌, MatchOption, length};
ghost use Rattle.std.specs.List.{AllByRecursion};
ghost use Rattle.fb_geometry.specs.Shape.{IsTrackOf};
ghost use Rattle.fb_model.specs.PlainReplay.{sptf};
ghost use Rattle.fb_fastq.specs.ByCylinder.{AreOccupied, AreRows, IsAt, all_of_rows};
ghost use Rattle.fb_fastq.specs.Candidates.{IsCandidate};
ghost use Rattle.fb_fastq.specs.Joining.{IsFirst, NumbersDiffer, Waiting, pending_of};
ghost use Rattle.fb_fastq.specs.Lanes.{IsAlong};

use crate::Placing;
use crate::by_spot::{add, take_out};
use crate::lanes::{along, cylinder_around};
use crate::rows::{Pick, free_if_empty, put, soonest_in_rows, take_from};
use crate::soonest::soonest_in_map;
use fb_queue::{Policy, Soonest};
use fb_service::{Disk, departure_from};
use fb_units::{NoMemory, Ns, Request, Track};
use std::alloc::Global;
use std::collections::{BTreeMap, BTreeSet};
use std::marker::Model;

// So many requests of a cylinder are looked at one after another. Where more wait, the others wait in the map.
const ROOM: usize = 128;

/// Shortest positioning time first.
///
/// Requests wait in a row for each cylinder, whose requests are looked at one after another; where
/// more wait than a row has room for, they wait in a map by lane and angle, which is searched.
#[derive(Drop)]
pub struct RowBuckets {
    alloc: Global,
    // The requests for which their row had no room.
    overflow: BTreeMap<(u64, u64), Request>,
    rows: Vec<Vec<((u64, u64), Request)>>,
    // The rows that have requests.
    occupied: BTreeSet<u32>,
    in_rows: u64,
    joined: u64,
}

impl Model for RowBuckets {
    ghost use Rattle.std.specs.Prelude.{◌++◌};
    ghost use Rattle.fb_fastq.specs.Joining.{QueueState};
    ghost use Rattle.fb_fastq.specs.ByCylinder.{all_of_rows, IsDivided, AreOccupied};

    ghost Value = { QueueState };

    ghost view = { λ q. record { waiting = q.overflow.entries ++ all_of_rows q.rows.items; joined = q.joined } };

    ghost invariant = { λ q. IsDivided q.overflow.entries q.rows.items q.in_rows q.joined × AreOccupied q.occupied q.rows.items };
}

impl RowBuckets {
    // Whether a request of a cylinder is to wait in its row.
    fn has_room(&self, row: u32) -> bool {
        match self.rows.get(row as usize) {
            Some(row) => row.len() < ROOM,
            None => true,
        }
    }
}

// The soonest of the requests of a map and of rows.
fn soonest_of_all(
    overflow: &BTreeMap<(u64, u64), Request>,
    rows: &[Vec<((u64, u64), Request)>],
    occupied: &BTreeSet<u32>,
    disk: &Disk,
    head: Track,
    now: Ns,
) -> Pick
    requires some { 0 < length (overflow.now.entries ++ all_of_rows rows.now) }
    requires apart { NumbersDiffer (overflow.now.entries ++ all_of_rows rows.now) }
    requires rows { AreRows 0 rows.now }
    requires occupied { AreOccupied occupied.now rows.now }
    requires spots { AllByRecursion (λ w. IsAlong disk.now w.1 w.0.0) (overflow.now.entries ++ all_of_rows rows.now) }
    requires head { IsTrackOf disk.now.map head }
    requires now { now ≤ 9 * 10 ^ 18 }
    ensures found { MatchOption result.position (IsCandidate disk.now head now overflow.now result.best)
        (λ position. IsAt disk.now head now rows.now position result.best) }
    ensures first { (w : Waiting) → result.best.key ≡ w.0 → result.best.wait ≡ sptf disk.now head now w.1
        → IsFirst (sptf disk.now head now) w (overflow.now.entries ++ all_of_rows rows.now) }
{
    let from_map = soonest_in_map(overflow, disk, head, now);
    let from = departure_from(disk, head, now);
    soonest_in_rows(rows, occupied, disk, &from, from_map)
}

impl Policy for RowBuckets {
    ghost key = { sptf };

    fn key_of(&self, disk: &Disk, head: Track, now: Ns, request: &Request) -> u64 {
        Soonest.key_of(disk, head, now, request)
    }
}

impl Placing for RowBuckets {
    ghost pending = { λ q. pending_of q.waiting };

    ghost fits = { λ q disk. AllByRecursion (λ w. IsAlong disk w.1 w.0.0) q.waiting };

    ghost use Rattle.fb_fastq.specs.NonePending.{all_of_none};

    ghost fits_any = { λ q disk none. all_of_none (λ w. IsAlong disk w.1 w.0.0) q.waiting none };

    fn new(alloc: Global) -> RowBuckets {
        RowBuckets {
            alloc,
            overflow: BTreeMap::new(alloc),
            rows: Vec::new(alloc),
            occupied: BTreeSet::new(alloc),
            in_rows: 0,
            joined: 0,
        }
    }

    fn place(&mut self, disk: &Disk, request: Request) -> Result<(), NoMemory> {
        if self.joined == u64::MAX {
            return Err(NoMemory);
        }
        let spot = along(disk, &request);
        let row = cylinder_around(disk, spot);
        if !self.has_room(row) {
            add(&mut self.overflow, spot, self.joined, request)?;
            self.joined += 1;
            return Ok(());
        }
        let entry = ((spot, self.joined), request);
        put(self.alloc, &mut self.rows, &mut self.occupied, row, entry)?;
        self.in_rows += 1;
        self.joined += 1;
        Ok(())
    }

    fn least_key(&self, disk: &Disk, head: Track, now: Ns) -> u64 {
        soonest_of_all(
            &self.overflow,
            self.rows.as_slice(),
            &self.occupied,
            disk,
            head,
            now,
        )
        .best
        .wait
    }

    fn take(&mut self, disk: &Disk, head: Track, now: Ns) -> Request {
        let pick = soonest_of_all(
            &self.overflow,
            self.rows.as_slice(),
            &self.occupied,
            disk,
            head,
            now,
        );
        match pick.position {
            Some(position) => {
                let request = take_from(&mut self.rows, position);
                free_if_empty(self.alloc, &mut self.rows, &mut self.occupied, position.row);
                self.in_rows -= 1;
                request
            }
            None => take_out(&mut self.overflow, pick.best.key),
        }
    }

    fn is_empty(&self) -> bool {
        self.overflow.is_empty() && self.in_rows == 0
    }
}
