// The background blocks that a foreground read carries along.
ghost use Rattle.std.specs.Prelude.{◌≡◌, ◌==◌, ◌∷◌, [], ◌+◌, ◌*◌, ◌≤◌, ◌<◌, ◌^◌, find, OnOk, IfOk};
ghost use Rattle.std.specs.List.{AllByRecursion};
ghost use Rattle.fb_service.specs.Extents.{all_passages_of, IsUnbroken};
ghost use Rattle.fb_model.specs.Blocks.{IsBlockOn};
ghost use Rattle.fb_model.specs.History.{Past, wanted};
ghost use Rattle.fb_model.specs.Deliveries.{in_order, lies_in, carried_of, ride_of, carried_rows};
ghost use Rattle.fb_wanted.specs.States.{on_track, wanted_of};
ghost use Rattle.fb_plan.specs.Ways.{AreOnDisk};
ghost use Rattle.fb_decide.specs.Carried.{added, begins_in, AreExtents, AreLaid};
ghost use Rattle.fb_decide.specs.Deliveries.{TellsUpToDate, HasDelivered, AreDistinct, held_now};
ghost use Rattle.fb_decide.specs.Start.{IsStartOn, IsServiceOf, served_from};

use crate::background::Background;
use crate::start::Start;
use fb_plan::put_in_order;
use fb_rows::{Catch, How};
use fb_service::{Disk, Extent, Passage, Service, nth_passage};
use fb_store::Store;
use fb_units::{NoMemory, Request};
use fb_wanted::{Block, Wanted};
use std::alloc::Global;

impl Background {
    /// Delivers the wanted blocks whose sectors a read reads anyway; a write carries none.
    ///
    /// The only error is out of memory.
    pub fn ride(
        &mut self,
        alloc: Global,
        disk: &Disk,
        store: &Store,
        start: Start,
        service: &Service,
    ) -> Result<(), NoMemory>
        requires current { (past : Past) × TellsUpToDate disk.now.map past self.old }
        requires start { IsStartOn disk.now start }
        requires service { IsServiceOf disk.now start service.now }
        ensures { OnOk result ((past : Past) → TellsUpToDate disk.now.map past self.old
            → HasDelivered disk.now.map past (carried_rows (held_now store.now) (served_from disk.now start) (wanted past))
            self.old.rows self.new) }
    {
        if start.request.write {
            return Ok(());
        }
        let extents = service.extents.as_slice();
        let catches = carried(alloc, disk, &self.blocks, start.request, extents)?;
        self.deliver_all(alloc, store, How::Ride, catches.as_slice())
    }
}

// The wanted blocks that a read carries whole, with their passages, in the order of delivery.
fn carried(
    alloc: Global,
    disk: &Disk,
    wanted: &Wanted,
    request: Request,
    extents: &[Extent],
) -> Result<Vec<Catch>, NoMemory>
    requires extents { AreExtents disk.now.map extents.now }
    requires covers { AreLaid request.lbn extents.now request.count }
    requires request { request.lbn + request.count ≤ 10 ^ 12 }
    requires registered { AreOnDisk disk.now wanted.now }
    requires distinct { AreDistinct (wanted_of wanted.now) }
    ensures { IfOk result (λ found. found.items ≡ carried_of (all_passages_of disk.now.map extents.now) request (wanted_of wanted.now)) }
{
    let mut found = Vec::new(alloc);
    for extent in extents {
        add_carried(disk, wanted, request, extents, extent, &mut found)?;
    }
    put_in_order(&mut found)?;
    Ok(found)
}

// Adds the wanted blocks that the read carries and whose first sector passes in this extent, in any order.
fn add_carried(
    disk: &Disk,
    wanted: &Wanted,
    request: Request,
    extents: &[Extent],
    extent: &Extent,
    found: &mut Vec<Catch>,
) -> Result<(), NoMemory>
    requires extents { AreExtents disk.now.map extents.now }
    requires extent { extent.now.first + extent.now.count ≤ 10 ^ 12 }
    requires request { request.lbn + request.count ≤ 10 ^ 12 }
    requires registered { AreOnDisk disk.now wanted.now }
    ensures { OnOk result (in_order found.new.items
        ≡ in_order (added (all_passages_of disk.now.map extents.now) extent.now request found.old.items
        (wanted_of (on_track extent.now.track wanted.now)))) }
{
    wanted.numbered_in_order();
    let candidates = wanted.on(extent.track).wanted();
    for i in 0..candidates.len() {
        add_ride(disk, request, extents, extent, candidates.get(i), found)?;
    }
    Ok(())
}

// Adds a block, if the read carries it and its first sector passes in this extent.
#[tactic(auto, using(crate::proofs::Carrying::ends_within))]
fn add_ride(
    disk: &Disk,
    request: Request,
    extents: &[Extent],
    extent: &Extent,
    block: Block,
    found: &mut Vec<Catch>,
) -> Result<(), NoMemory>
    requires extents { AreExtents disk.now.map extents.now }
    requires extent { extent.now.first + extent.now.count ≤ 10 ^ 12 }
    requires request { request.lbn + request.count ≤ 10 ^ 12 }
    requires block { IsBlockOn disk.now.map block }
    ensures { OnOk result (found.new.items
        ≡ added (all_passages_of disk.now.map extents.now) extent.now request found.old.items (block ∷ [])) }
{
    if begins_in(extent, block) && lies_in(request, block) {
        found.push(ride_of(disk, extents, block))?;
    }
    Ok(())
}

// Whether the block's first sector passes in the extent.
fn begins_in(extent: &Extent, block: Block) -> bool
    requires { extent.now.first + extent.now.count ≤ 10 ^ 12 }
    ensures { result ≡ begins_in extent.now block }
{
    extent.first <= block.lbn && block.lbn < extent.first + extent.count as u64
}

// Whether the request reads all sectors of the block.
fn lies_in(request: Request, block: Block) -> bool
    requires request { request.lbn + request.count ≤ 10 ^ 12 }
    requires block { block.lbn + block.count ≤ 10 ^ 12 }
    ensures { result ≡ lies_in request block }
{
    request.lbn <= block.lbn && block.lbn + block.count as u64 <= request.lbn + request.count as u64
}

// The passage of a block that a read carries.
fn ride_of(disk: &Disk, extents: &[Extent], block: Block) -> Catch
    requires extents { AreExtents disk.now.map extents.now }
    requires block { block.lbn + block.count ≤ 10 ^ 12 }
    requires some { 0 < block.count }
    ensures { result ≡ ride_of (all_passages_of disk.now.map extents.now) block }
{
    let first = passage_of(disk, extents, block.lbn);
    let last = passage_of(disk, extents, block.lbn + block.count as u64 - 1);
    Catch {
        block,
        begin: first.map_or(0, |passage| passage.begin),
        end: last.map_or(0, |passage| passage.end),
    }
}

// The passage of a sector, if one of the extents has it.
fn passage_of(disk: &Disk, extents: &[Extent], lbn: u64) -> Option<Passage>
    requires { AreExtents disk.now.map extents.now }
    ensures { result ≡ find (λ passage. passage.lbn == lbn) (all_passages_of disk.now.map extents.now) }
{
    for extent in extents {
        if extent.first <= lbn && lbn < extent.first + extent.count as u64 {
            return Some(nth_passage(disk, extent, (lbn - extent.first) as u32));
        }
    }
    None
}
