// The look-up of the registered blocks of one cylinder's tracks.
ghost use Rattle.std.specs.Prelude.{◌≡◌, ℕ, ◌≤◌, ◌<◌, ◌+◌, ◌-◌, ◌^◌, ◌==◌, ◌∷◌, ◌++◌, [], List, IfSome, IfNone, OnOk, OnErr, length};
ghost use Rattle.std.specs.Prelude.{get_or, if◌then◌else◌};
ghost use Rattle.fb_wanted.specs.LookUp.{grown, reweighed, with_offer, without_offer, last_of, no_block_on, IsHeadChanged, IsNextHead};
ghost use Rattle.fb_wanted.specs.LookUp.{NoHeadIsNext};

use crate::Offer;
use crate::on_track::OnTrack;
use fb_units::NoMemory;
use std::alloc::Global;
use std::marker::Model;

/// The tracks of a cylinder, by head, up to the last one with a block.
#[derive(Drop)]
pub struct Heads {
    items: Vec<OnTrack>,
}

impl Model for Heads {
    ghost use Rattle.std.specs.Prelude.{List};
    ghost use Rattle.fb_wanted.specs.LookUp as look_up;

    ghost Value = { List look_up.OnTrack };

    ghost view = { λ h. h.items.items };
}

// Adds a block that isn't wanted to a track. Out of memory, it returns `NoMemory` and no track has
// changed.
fn add_to(tracks: &mut Vec<OnTrack>, alloc: Global, head: u32, index: u32) -> Result<(), NoMemory>
    ensures ok { OnOk result (IsHeadChanged tracks.old.items tracks.new.items head (grown index)) }
    ensures err { OnErr result ((h : ℕ) → get_or tracks.new.items h no_block_on ≡ get_or tracks.old.items h no_block_on) }
{
    let head = head as usize;
    for _ in tracks.len()..head + 1 {
        tracks.push(OnTrack::new(alloc))?;
    }
    tracks[head].add(index)?;
    Ok(())
}

// Takes `lost` from the wanted weight of a track and adds `gained`, and returns the weight
// afterwards.
fn reweigh(tracks: &mut Vec<OnTrack>, head: u32, lost: u64, gained: u64) -> u64
    requires there { head < length tracks.old.items }
    requires part { lost ≤ (get_or tracks.old.items head no_block_on).weight }
    requires room { (get_or tracks.old.items head no_block_on).weight + gained < 2 ^ 64 }
    ensures tracks { IsHeadChanged tracks.old.items tracks.new.items head (reweighed lost gained) }
    ensures weight { result ≡ (get_or tracks.new.items head no_block_on).weight }
{
    let head = head as usize;
    tracks[head].reweigh(lost, gained);
    tracks[head].weight()
}

// The greatest wanted weight of these tracks; 0 if there are none.
fn greatest(tracks: &[OnTrack]) -> u64
    ensures each { (h : ℕ) → (get_or tracks.now h no_block_on).weight ≤ result }
    ensures least { (most : ℕ) → ((h : ℕ) → (get_or tracks.now h no_block_on).weight ≤ most) → result ≤ most }
{
    let mut greatest: u64 = 0;
    for i in 0..tracks.len() {
        greatest = greatest.max(tracks[i].weight());
    }
    greatest
}

// The first of these tracks from a head on that has a block.
fn next_with_block(tracks: &[OnTrack], from: u32) -> Option<&OnTrack>
    ensures some { IfSome result (λ on. (head : ℕ) × (on.now ≡ get_or tracks.now head no_block_on) × IsNextHead tracks.now from head) }
    ensures none { IfNone result (NoHeadIsNext tracks.now from) }
{
    for head in from as usize..tracks.len() {
        if !tracks[head].indexes().is_empty() {
            return Some(&tracks[head]);
        }
    }
    None
}

impl Heads {
    /// No track with a block.
    pub fn new(alloc: Global) -> Self
        ensures { result ≡ [] }
    {
        Heads {
            items: Vec::new(alloc),
        }
    }

    /// Adds a block that isn't wanted to the track of a head. Out of memory, it returns `NoMemory`
    /// and no track has changed.
    pub fn add(&mut self, alloc: Global, head: u32, index: u32) -> Result<(), NoMemory>
        ensures ok { OnOk result (IsHeadChanged self.old self.new head (grown index)) }
        ensures err { OnErr result ((h : ℕ) → get_or self.new h no_block_on ≡ get_or self.old h no_block_on) }
    {
        add_to(&mut self.items, alloc, head, index)
    }

    /// Takes `lost` from the wanted weight of a head's track and adds `gained`, and returns the
    /// weight afterwards.
    pub fn reweigh(&mut self, head: u32, lost: u64, gained: u64) -> u64
        requires there { head < length self.old }
        requires part { lost ≤ (get_or self.old head no_block_on).weight }
        requires room { (get_or self.old head no_block_on).weight + gained < 2 ^ 64 }
        ensures tracks { IsHeadChanged self.old self.new head (reweighed lost gained) }
        ensures weight { result ≡ (get_or self.new head no_block_on).weight }
    {
        reweigh(&mut self.items, head, lost, gained)
    }

    /// Adds an offer to those of a head's track, and returns its index there.
    pub fn offer(&mut self, head: u32, offer: Offer) -> u32
        requires there { head < length self.old }
        requires room { length (get_or self.old head no_block_on).offers < length (get_or self.old head no_block_on).indexes }
        requires few { length (get_or self.old head no_block_on).offers < 2 ^ 32 }
        ensures tracks { IsHeadChanged self.old self.new head (with_offer offer) }
        ensures index { result ≡ length (get_or self.old head no_block_on).offers }
    {
        self.items[head as usize].offer(offer)
    }

    /// Takes an offer of a head's track away, by its index there, to which the last offer is moved;
    /// returns the index of that one's block among all registered ones.
    pub fn withdraw(&mut self, head: u32, index: u32) -> u32
        requires there { head < length self.old }
        requires index { index < length (get_or self.old head no_block_on).offers }
        ensures tracks { IsHeadChanged self.old self.new head (without_offer index) }
        ensures moved { result ≡ (last_of (get_or self.old head no_block_on).offers).index }
    {
        self.items[head as usize].withdraw(index)
    }

    /// The registered blocks of a head's track; none if the track isn't in the list yet.
    pub fn at(&self, head: u32) -> Option<&OnTrack>
        ensures some { IfSome result (λ on. on.now ≡ get_or self.now head no_block_on) }
        ensures none { IfNone result (no_block_on ≡ get_or self.now head no_block_on) }
    {
        self.items.get(head as usize)
    }

    /// The greatest wanted weight of the tracks; 0 if there are none.
    pub fn greatest(&self) -> u64
        ensures each { (h : ℕ) → (get_or self.now h no_block_on).weight ≤ result }
        ensures least { (most : ℕ) → ((h : ℕ) → (get_or self.now h no_block_on).weight ≤ most) → result ≤ most }
    {
        greatest(&self.items)
    }

    /// The first track from a head on that has a block.
    pub fn next(&self, from: u32) -> Option<&OnTrack>
        ensures some { IfSome result (λ on. (head : ℕ) × (on.now ≡ get_or self.now head no_block_on) × IsNextHead self.now from head) }
        ensures none { IfNone result (NoHeadIsNext self.now from) }
    {
        next_with_block(&self.items, from)
    }
}
