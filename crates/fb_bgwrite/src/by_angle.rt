// The registered blocks of puts, and by angle those of the tracks that have many pending ones.
ghost use Rattle.std.specs.Prelude.{◌≡◌, ℕ, ◌*◌, ◌<◌, ◌≤◌, [], ◌∷◌, ◌++◌, List, Some, length, slice_get, true, IfSome, OnOk, OnErr};
ghost use Rattle.fb_wanted.specs.declared.block.Change.{Change};
ghost use Rattle.fb_wanted.specs.declared.block.Entry.{Entry};
ghost use Rattle.fb_wanted.specs.declared.block.State.TheVariants.{Wanted as StillWanted};
ghost use Rattle.fb_wanted.specs.Numbering.{blocks_of, registered_count};
ghost use Rattle.fb_wanted.specs.States.{after, is_block, on_track};
ghost use Rattle.fb_bgwrite.specs.ByAngle.{key_of, AreByAngle, AreSpots, HaveOneMore, IsKeptWith, LackOne};
ghost use Rattle.fb_bgwrite.specs.Standing.{wanted_entry};

use crate::spots::{Spot, put_in, spots_of, take_out};
use fb_units::{NoMemory, Sweep, Track};
use fb_wanted::{Block, TrackBlocks, Wanted};
use std::alloc::Global;
use std::collections::BTreeMap;
use std::marker::Model;

// A track with so many pending blocks gets them by angle.
const MANY: usize = 64;

/// The registered blocks of puts, and by angle those of the tracks that have many pending ones.
///
/// A track for which memory is refused goes without.
#[derive(Drop)]
pub struct ByAngle {
    registered: Wanted,
    kept: BTreeMap<u64, Vec<Spot>>,
}

impl Model for ByAngle {
    ghost use Rattle.std.specs.Prelude.{List};
    ghost use Rattle.fb_wanted.specs.declared.block.Entry.{Entry};
    ghost use Rattle.fb_bgwrite.specs.ByAngle.{AreKept};

    ghost Value = { List Entry };

    ghost view = { λ b. b.registered };

    ghost invariant = { λ b. AreKept b.kept b.registered };
}

// The number of a track.
fn key_of(track: Track) -> u64
    ensures { result ≡ key_of track }
{
    track.cylinder as u64 * 4_294_967_296 + track.head as u64
}

// How a block passes.
fn spot_of(block: Block) -> Spot
    requires light { block.weight ≤ 1000 }
    requires short { block.count ≤ 2048 }
    ensures sweep { result.sweep ≡ block.sweep }
    ensures worth { result.worth ≡ block.weight * block.count }
{
    Spot {
        sweep: block.sweep,
        worth: block.weight * block.count,
    }
}

// The spots with one more, if there are any; else those of these blocks, if many are pending.
fn with_block(
    alloc: Global,
    spots: Option<Vec<Spot>>,
    spot: Spot,
    blocks: &TrackBlocks,
) -> Option<Vec<Spot>>
    requires { IfSome spots (λ kept. LackOne kept.items spot blocks.now) }
    ensures { IfSome result (λ kept. AreSpots kept.items blocks.now) }
{
    if let Some(mut spots) = spots {
        if put_in(&mut spots, spot).is_err() {
            return None;
        }
        return Some(spots);
    }
    if blocks.offers().len() < MANY {
        return None;
    }
    spots_of(alloc, blocks).ok()
}

// The spots without that of a block that passes so and is worth so much.
fn without_block(spots: Option<Vec<Spot>>, sweep: Sweep, worth: u64) -> Option<Vec<Spot>>
    requires { IfSome spots (λ kept. AreByAngle kept.items) }
    ensures { (entries : List Entry) → IfSome spots (λ kept. HaveOneMore kept.items sweep worth entries)
        → IfSome result (λ kept. AreSpots kept.items entries) }
{
    if let Some(mut spots) = spots {
        if take_out(&mut spots, sweep, worth) {
            return Some(spots);
        }
    }
    None
}

// Keeps spots under a number, if there are any and there is memory for it.
fn keep(kept: &mut BTreeMap<u64, Vec<Spot>>, key: u64, spots: Option<Vec<Spot>>)
    ensures { IsKeptWith kept.old kept.new key spots }
{
    if let Some(spots) = spots {
        let _ = kept.insert(key, spots);
    }
}

impl ByAngle {
    /// No block.
    pub fn new(alloc: Global) -> ByAngle
        ensures { result ≡ [] }
    {
        ByAngle {
            registered: Wanted::new(alloc),
            kept: BTreeMap::new(alloc),
        }
    }

    /// The registered blocks.
    pub fn all(&self) -> &Wanted
        ensures { result.now ≡ self.now }
    {
        &self.registered
    }

    /// Registers a block, which is pending. Out of memory, it returns `NoMemory` and no block is
    /// registered.
    pub fn register(&mut self, block: Block) -> Result<(), NoMemory>
        requires numbered { block.index ≡ registered_count block.task (blocks_of self.old) }
        requires room { length self.old < 16000000 }
        requires light { block.weight ≤ 1000 }
        requires short { block.count ≤ 2048 }
        ensures ok { OnOk result (self.new ≡ self.old ++ wanted_entry block ∷ []) }
        ensures err { OnErr result (self.new ≡ self.old) }
    {
        let key = key_of(block.track);
        let spots = self.kept.remove(&key);
        self.registered.register(block, false)?;
        let on = self.registered.on(block.track);
        let spots = with_block(self.registered.alloc(), spots, spot_of(block), &on);
        keep(&mut self.kept, key, spots);
        Ok(())
    }

    /// Marks a pending block as written, by its put and its index there.
    pub fn deliver(&mut self, put: u32, number: u32)
        requires { (e : Entry) × (i : ℕ) × (slice_get self.old i ≡ Some e) × (is_block put number e ≡ true) × (e.state ≡ StillWanted) }
        ensures { self.new ≡ after put (Change.Deliver number) self.old }
    {
        let block = self.registered.entry(put, number).block;
        let key = key_of(block.track);
        let spots = self.kept.remove(&key);
        self.registered.numbered_in_order();
        self.registered.deliver(put, number);
        let worth = block.weight as u64 * block.count as u64;
        keep(
            &mut self.kept,
            key,
            without_block(spots, block.sweep, worth),
        );
    }

    /// The pending blocks of a track by angle, if they are kept.
    pub fn spots_on(&self, track: Track) -> Option<&[Spot]>
        ensures { IfSome result (λ spots. AreSpots spots.now (on_track track self.now)) }
    {
        let _ = &self.registered;
        let key = key_of(track);
        match self.kept.get(&key) {
            Some(spots) => Some(spots.as_slice()),
            None => None,
        }
    }
}
