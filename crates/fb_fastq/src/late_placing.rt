// Requests that are placed when the next one is to be taken.
ghost use Rattle.std.specs.Prelude.{◌≡◌, ◌*◌, ◌≤◌, ◌<◌, ◌^◌, [], ◌++◌, take, length, Some};
ghost use Rattle.std.specs.List.{AllByRecursion};
ghost use Rattle.fb_geometry.specs.Shape.{IsTrackOf};
ghost use Rattle.fb_model.specs.PlainReplay.{first_least};
ghost use Rattle.fb_model.specs.Accepted.{IsRequestOf};

use crate::Placing;
use fb_queue::{Queue, first_least};
use fb_service::Disk;
use fb_units::{NoMemory, Ns, Request, Track};
use std::alloc::Global;

/// A queue that lists what joins, and places it when the next request is to be taken.
///
/// Where memory for placing is refused, requests stay in the list, and are looked at one by one.
#[derive(Drop)]
pub struct LatePlacing<M: Placing> {
    placed: M,
    // Those that joined behind all that are placed, in order.
    arrived: Vec<Request>,
    joined: u64,
}

impl<M: Placing> LatePlacing<M> {
    /// An empty queue.
    pub fn new(alloc: Global) -> LatePlacing<M>
        ensures pending { M.pending result.placed ++ result.arrived.items ≡ [] }
        ensures joined { result.joined ≡ 0 }
    {
        LatePlacing {
            placed: M::new(alloc),
            arrived: Vec::new(alloc),
            joined: 0,
        }
    }

    // Places what has arrived, as long as there is memory.
    fn place(&mut self, disk: &Disk)
        requires fits { M.fits self.old.placed disk.now }
        requires on_disk { AllByRecursion (IsRequestOf disk.now.map) self.old.arrived.items }
        ensures pending { M.pending self.new.placed ++ self.new.arrived.items ≡ M.pending self.old.placed ++ self.old.arrived.items }
        ensures joined { self.new.joined ≡ self.old.joined }
        ensures fits { M.fits self.new.placed disk.now }
    {
        let count = place_all(&mut self.placed, disk, self.arrived.as_slice());
        if count == self.arrived.len() {
            self.arrived.clear();
        } else {
            let left = self.arrived.len() - count;
            self.arrived.as_mut_slice().rotate_left(count);
            self.arrived.truncate(left);
        }
    }

    // Takes the first request with the least key, of those that are placed and those that aren't.
    #[tactic(auto, using(fb_units::proofs::Lists::all_left))]
    fn take_of_both(&mut self, disk: &Disk, head: Track, now: Ns) -> Request
        requires some { 0 < length self.old.arrived.items }
        requires fits { M.fits self.old.placed disk.now }
        requires on_disk { AllByRecursion (IsRequestOf disk.now.map) (M.pending self.old.placed ++ self.old.arrived.items) }
        requires head { IsTrackOf disk.now.map head }
        requires now { now ≤ 9 * 10 ^ 18 }
        ensures least { first_least (M.key disk.now head now) (M.pending self.old.placed ++ self.old.arrived.items)
            ≡ Some (result, M.pending self.new.placed ++ self.new.arrived.items) }
        ensures joined { self.new.joined ≡ self.old.joined }
        ensures fits { M.fits self.new.placed disk.now }
    {
        let index = first_least(&self.placed, disk, head, now, self.arrived.as_slice());
        if !self.placed.is_empty() {
            let least = self.placed.least_key(disk, head, now);
            if least <= self.placed.key_of(disk, head, now, &self.arrived[index]) {
                return self.placed.take(disk, head, now);
            }
        }
        self.arrived.remove(index)
    }
}

// Places requests in order, until memory is refused. How many are placed.
#[tactic(auto, using(fb_units::proofs::Lists::all_at))]
fn place_all<M: Placing>(placed: &mut M, disk: &Disk, arrived: &[Request]) -> usize
    requires fits { M.fits placed.old disk.now }
    requires on_disk { AllByRecursion (IsRequestOf disk.now.map) arrived.now }
    ensures within { result ≤ length arrived.now }
    ensures pending { M.pending placed.new ≡ M.pending placed.old ++ take result arrived.now }
    ensures fits { M.fits placed.new disk.now }
{
    for i in 0..arrived.len() {
        match placed.place(disk, arrived[i]) {
            Ok(()) => {}
            Err(NoMemory) => return i,
        }
    }
    arrived.len()
}

impl<M: Placing> Queue for LatePlacing<M> {
    ghost pending = { λ q. M.pending q.placed ++ q.arrived.items };

    ghost joined = { λ q. q.joined };

    ghost key = { M.key };

    ghost fits = { λ q disk. M.fits q.placed disk };

    ghost use Rattle.fb_fastq.specs.NonePending.{none_left};

    ghost fits_any = { λ q disk none. M.fits_any q.placed disk (none_left (M.pending q.placed) q.arrived.items none) };

    fn add(&mut self, request: Request) -> Result<(), NoMemory> {
        self.arrived.push(request)?;
        self.joined += 1;
        Ok(())
    }

    fn take(&mut self, disk: &Disk, head: Track, now: Ns) -> Request {
        self.place(disk);
        if self.arrived.is_empty() {
            self.placed.take(disk, head, now)
        } else {
            self.take_of_both(disk, head, now)
        }
    }

    fn is_empty(&self) -> bool {
        self.arrived.is_empty() && self.placed.is_empty()
    }
}
