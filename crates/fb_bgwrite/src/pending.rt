// The registered blocks of puts, of which those are pending that are still wanted.
ghost use Rattle.std.specs.Prelude.{◌≡◌, ◌+◌, ◌<◌, ◌≤◌, ℕ, [], ◌∷◌, ◌++◌, length, map, Some, slice_get, true, IfOk, IfSome, OnOk, ◌*◌, ◌^◌};
ghost use Rattle.fb_wanted.specs.declared.block.Entry.{Entry};
ghost use Rattle.fb_wanted.specs.declared.block.Change.{Change};
ghost use Rattle.fb_wanted.specs.declared.block.State.TheVariants.{Wanted as StillWanted};
ghost use Rattle.fb_wanted.specs.States.{after, is_block, is_wanted, on_track, wanted_of};
ghost use Rattle.fb_wanted.specs.Tracks.{wanted_weight};
ghost use Rattle.fb_units.specs.declared.types.Track.{Track};
ghost use Rattle.fb_model.specs.Deliveries.{caught_of};
ghost use Rattle.fb_plan.specs.Order.{AreOrdered};
ghost use Rattle.fb_wanted.specs.Numbering.{blocks_of, registered_count};
ghost use Rattle.fb_service.specs.declared.disk.Disk.{Disk};
ghost use Rattle.fb_plan.specs.Ways.{AreOnDisk};
ghost use Rattle.fb_model.specs.Segments.{numbered};
ghost use Rattle.fb_bgwrite.specs.ByAngle.{AreSpots};
ghost use Rattle.fb_bgwrite.specs.Shortest.{AreAtLeast};
ghost use Rattle.fb_bgwrite.specs.Standing.{wanted_entry};

use crate::by_angle::ByAngle;
use crate::shortest::{NONE, Shortest};
use crate::spots::Spot;
use fb_plan::{blocks_on, caught};
use fb_rows::{Catch, Dwell};
use fb_sectormap::Cut;
use fb_service::Disk;
use fb_units::{NoMemory, Track};
use fb_wanted::{Block, TrackBlocks};
use std::alloc::Global;
use std::marker::Model;

/// The registered blocks of puts, each with its state, and how short the pending ones of each
/// cylinder are. Each of their sectors weighs 1.
///
/// To register or to deliver a block takes constant time and a search among the tracks that have many
/// pending blocks; on such a track the blocks that begin at a greater angle are moved. A refresh looks
/// at each track of a cylinder, and at its pending blocks up to one that is as short as the bound; at
/// all of them where there is none.
#[derive(Drop)]
pub struct Pending {
    blocks: ByAngle,
    shortest: Shortest,
}

impl Model for Pending {
    ghost use Rattle.std.specs.Prelude.{List};
    ghost use Rattle.std.specs.List.{AllByRecursion};
    ghost use Rattle.fb_wanted.specs.declared.block.Entry.{Entry};
    ghost use Rattle.fb_bgwrite.specs.Shortest.{AreLight, IsNoShorter};

    ghost Value = { List Entry };

    ghost view = { λ p. p.blocks };

    ghost invariant = { λ p. AllByRecursion (IsNoShorter p.shortest) p.blocks × AreLight p.blocks };
}

/// The least worth, weight times sectors, of the pending ones of these blocks, or this number if it is
/// less.
pub fn least_on(blocks: &TrackBlocks, start: u32) -> u32
    ensures start { result ≤ start }
    ensures each { (i : ℕ) (entry : Entry) → slice_get blocks.now i ≡ Some entry → is_wanted entry.state ≡ true
        → result ≤ entry.block.weight * entry.block.count }
{
    let offers = blocks.offers();
    let mut least = start;
    for offer in offers {
        least = least.min(offer.worth);
    }
    least
}

/// Whether each of the pending ones of these blocks has a worth, weight times sectors, of more than
/// this number.
pub fn are_longer(blocks: &TrackBlocks, most: u64) -> bool
    ensures { result ≡ true → (i : ℕ) (entry : Entry) → slice_get blocks.now i ≡ Some entry → is_wanted entry.state ≡ true
        → most < entry.block.weight * entry.block.count }
{
    let offers = blocks.offers();
    for offer in offers {
        if offer.worth as u64 <= most {
            return false;
        }
    }
    true
}

impl Pending {
    /// No block.
    pub fn new(alloc: Global) -> Pending
        ensures { result ≡ [] }
    {
        Pending {
            blocks: ByAngle::new(alloc),
            shortest: Shortest::new(alloc),
        }
    }

    /// Registers what a cut gives as a pending block of the put with the number `put`. Its index
    /// is the next of that put. The only error is `NoMemory`.
    pub fn register(&mut self, put: u32, number: u32, cut: Cut) -> Result<(), NoMemory>
        requires numbered { number ≡ registered_count put (blocks_of self.old) }
        requires room { length self.old < 16000000 }
        requires short { cut.count ≤ 2048 }
        ensures ok { OnOk result (self.new ≡ self.old ++ map wanted_entry (numbered put 1 number (cut ∷ []))) }
    {
        self.shortest.lower(cut.track.cylinder, cut.count)?;
        let block = Block {
            task: put,
            index: number,
            lbn: cut.lbn,
            count: cut.count,
            track: cut.track,
            weight: 1,
            sweep: cut.sweep,
        };
        self.blocks.register(block)
    }

    /// Marks a pending block as written, by its put and its index there.
    pub fn deliver(&mut self, put: u32, number: u32)
        requires { (e : Entry) × (i : ℕ) × (slice_get self.old i ≡ Some e) × (is_block put number e ≡ true) × (e.state ≡ StillWanted) }
        ensures { self.new ≡ after put (Change.Deliver number) self.old }
    {
        self.blocks.deliver(put, number);
    }

    /// Sees to it that the blocks of a cylinder that were written no longer count when it is asked how
    /// short the pending ones are.
    pub fn refresh(&mut self, disk: &Disk, cylinder: u32)
        requires blocks { AreOnDisk disk.now self.old }
        ensures { self.new ≡ self.old }
    {
        if !self.is_reached(disk, cylinder) {
            self.renew(disk, cylinder);
        }
    }

    // Whether a pending block of the cylinder is as short as its bound.
    fn is_reached(&self, disk: &Disk, cylinder: u32) -> bool {
        let bound = self.shortest.at(cylinder) as u64;
        for head in 0..disk.map.geometry().heads() {
            if !are_longer(&self.blocks.all().on(Track { cylinder, head }), bound) {
                return true;
            }
        }
        false
    }

    // Finds the bound of a cylinder anew, from all its pending blocks.
    fn renew(&mut self, disk: &Disk, cylinder: u32)
        requires blocks { AreOnDisk disk.now self.old }
        ensures { self.new ≡ self.old }
    {
        disk.map.geometry().sound();
        let mut least = NONE;
        for head in 0..disk.map.geometry().heads() {
            least = least_on(&self.blocks.all().on(Track { cylinder, head }), least);
        }
        self.shortest.renew(cylinder, least);
    }

    /// The pending blocks that pass whole during a dwell, in the order in which they have passed.
    ///
    /// The only error is out of memory.
    pub fn caught(&self, alloc: Global, disk: &Disk, dwell: Dwell) -> Result<Vec<Catch>, NoMemory>
        requires blocks { AreOnDisk disk.now self.now }
        requires early { dwell.begin ≤ 9 * 10 ^ 18 }
        ensures all { IfOk result (λ found. found.items ≡ caught_of disk.now dwell (wanted_of self.now)) }
        ensures ordered { IfOk result (λ found. AreOrdered found.items) }
    {
        caught(alloc, disk, self.blocks.all(), dwell)
    }

    /// The registered blocks of a track.
    pub fn on(&self, track: Track) -> TrackBlocks<'_>
        ensures its { result ≡ on_track track self.now }
        ensures on_disk { (disk : Disk) → AreOnDisk disk self.now → AreOnDisk disk result }
    {
        blocks_on(self.blocks.all(), track)
    }

    /// The pending blocks of a track by angle, if they are kept.
    pub fn spots_on(&self, track: Track) -> Option<&[Spot]>
        ensures { IfSome result (λ spots. AreSpots spots.now (on_track track self.now)) }
    {
        self.blocks.spots_on(track)
    }

    /// An upper bound on the sectors of the pending blocks of each track of these cylinders.
    pub fn greatest_weight_in(&self, from: u32, end: u32) -> u64
        requires some { from < end }
        ensures each { (track : Track) → from ≤ track.cylinder → track.cylinder < end → wanted_weight track self.now ≤ result }
    {
        self.blocks.all().greatest_weight_in(from, end)
    }

    /// A lower bound on the sectors of each pending block of this cylinder; 2,049 where it is known that
    /// there is none.
    pub fn shortest_at(&self, cylinder: u32) -> u32
        ensures { AreAtLeast cylinder (cylinder + 1) result self.now }
    {
        self.shortest.at(cylinder)
    }

    /// Where the last of these cylinders ends that may have a pending block of at most so many sectors;
    /// `from` if none has.
    pub fn end_short(&self, from: u32, end: u32, most: u32) -> u32
        requires order { from ≤ end }
        requires short { most ≤ 2048 }
        ensures after { from ≤ result }
        ensures within { result ≤ end }
        ensures each { AreAtLeast result end (most + 1) self.now }
    {
        self.shortest.end_short(from, end, most)
    }

    /// Where the first of these cylinders is that may have a pending block of at most so many sectors;
    /// the end if none has.
    pub fn first_short(&self, from: u32, end: u32, most: u32) -> u32
        requires order { from ≤ end }
        requires short { most ≤ 2048 }
        ensures after { from ≤ result }
        ensures within { result ≤ end }
        ensures each { AreAtLeast from result (most + 1) self.now }
    {
        self.shortest.first_short(from, end, most)
    }
}
