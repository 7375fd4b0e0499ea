// The look-up of the registered blocks by track.
ghost use Rattle.std.specs.Prelude.{◌≡◌, ℕ, ◌≤◌, ◌<◌, ◌+◌, ◌-◌, ◌^◌, ◌∷◌, ◌++◌, [], List, IfSome, IfNone, OnOk, OnErr, length, get_or};
ghost use Rattle.std.specs.Prelude.{if◌then◌else◌};
ghost use Rattle.fb_units.specs.declared.types.Track.{Track};
ghost use Rattle.fb_units.specs.Tracks.{same_track};
ghost use Rattle.fb_wanted.specs.LookUp.{track_at, offers_at, weight_kept, last_of, no_block_on, IsThere, IsChanged};
ghost use Rattle.fb_wanted.specs.LookUp.{grown, reweighed, with_offer, without_offer, IsNextHead, NoHeadIsNext, IsNextTrack};
ghost use Rattle.fb_wanted.specs.LookUp.{NoneIsBetween, first_track};
ghost use Rattle.fb_wanted.specs.Tracks.{wanted_weight};

use crate::heads::Heads;
use crate::on_track::OnTrack;
use crate::{Entry, Offer, State};
use fb_units::{NoMemory, Track};
use std::alloc::Global;
use std::marker::Model;

/// The tracks of all cylinders, up to the last one with a block.
#[derive(Drop)]
pub struct Tracks {
    cylinders: Vec<Heads>,
}

impl Model for Tracks {
    ghost use Rattle.std.specs.Prelude.{List};
    ghost use Rattle.fb_wanted.specs.LookUp as look_up;

    ghost Value = { List (List look_up.OnTrack) };

    ghost view = { λ t. t.cylinders.items };
}

/// What a block adds to the wanted weight of its track: weight times sectors if it is wanted, else
/// 0.
pub fn weight_of(entry: Entry) -> u64
    requires light { entry.block.weight ≤ 1000 }
    requires short { entry.block.count ≤ 2048 }
    ensures value { result ≡ wanted_weight entry.block.track (entry ∷ []) }
    ensures small { result ≤ 2048000 }
{
    match entry.state {
        State::Wanted => entry.block.weight as u64 * entry.block.count as u64,
        _ => 0,
    }
}

// Makes room for all cylinders up to this one. Tracks stay as they are, also out of memory.
fn add_cylinders(cylinders: &mut Vec<Heads>, alloc: Global, cylinder: u32) -> Result<(), NoMemory>
    ensures stay { (c : ℕ) → get_or cylinders.new.items c [] ≡ get_or cylinders.old.items c [] }
    ensures no_longer { (n : ℕ) → length cylinders.old.items ≤ n → cylinder < n → length cylinders.new.items ≤ n }
    ensures there { OnOk result (cylinder < length cylinders.new.items) }
{
    for _ in cylinders.len()..cylinder as usize + 1 {
        cylinders.push(Heads::new(alloc))?;
    }
    Ok(())
}

impl Tracks {
    /// No track with a block.
    pub fn new(alloc: Global) -> Self
        ensures { result ≡ [] }
    {
        Tracks {
            cylinders: Vec::new(alloc),
        }
    }

    /// Adds a block that isn't wanted to a track. Out of memory, it returns `NoMemory` and no track
    /// has changed.
    pub fn add(&mut self, alloc: Global, track: Track, index: u32) -> Result<(), NoMemory>
        ensures ok { OnOk result (IsChanged self.old self.new track (grown index)) }
        ensures err { OnErr result ((t : Track) → track_at self.new t ≡ track_at self.old t) }
        ensures no_longer { (n : ℕ) → length self.old ≤ n → track.cylinder < n → length self.new ≤ n }
    {
        add_cylinders(&mut self.cylinders, alloc, track.cylinder)?;
        self.cylinders[track.cylinder as usize].add(alloc, track.head, index)
    }

    /// Takes `lost` from the wanted weight of a track and adds `gained`, and returns the weight
    /// afterwards.
    pub fn reweigh(&mut self, track: Track, lost: u64, gained: u64) -> u64
        requires there { IsThere self.old track }
        requires part { lost ≤ weight_kept self.old track }
        requires room { weight_kept self.old track + gained < 2 ^ 64 }
        ensures tracks { IsChanged self.old self.new track (reweighed lost gained) }
        ensures weight { result ≡ weight_kept self.new track }
        ensures length { length self.new ≡ length self.old }
    {
        self.cylinders[track.cylinder as usize].reweigh(track.head, lost, gained)
    }

    /// Adds an offer to those of a track, and returns its index there.
    pub fn offer(&mut self, track: Track, offer: Offer) -> u32
        requires there { IsThere self.old track }
        requires room { length (offers_at self.old track) < length (track_at self.old track).indexes }
        requires few { length (offers_at self.old track) < 2 ^ 32 }
        ensures tracks { IsChanged self.old self.new track (with_offer offer) }
        ensures index { result ≡ length (offers_at self.old track) }
        ensures length { length self.new ≡ length self.old }
    {
        self.cylinders[track.cylinder as usize].offer(track.head, offer)
    }

    /// Takes an offer of a track away, by its index there, to which the last offer is moved; returns
    /// the index of that one's block among all registered ones.
    pub fn withdraw(&mut self, track: Track, index: u32) -> u32
        requires there { IsThere self.old track }
        requires index { index < length (offers_at self.old track) }
        ensures tracks { IsChanged self.old self.new track (without_offer index) }
        ensures moved { result ≡ (last_of (offers_at self.old track)).index }
        ensures length { length self.new ≡ length self.old }
    {
        self.cylinders[track.cylinder as usize].withdraw(track.head, index)
    }

    /// The registered blocks of a track; none if the track isn't in the list yet.
    pub fn at(&self, track: Track) -> Option<&OnTrack>
        ensures some { IfSome result (λ on. on.now ≡ track_at self.now track) }
        ensures none { IfNone result (no_block_on ≡ track_at self.now track) }
    {
        match self.cylinders.get(track.cylinder as usize) {
            Some(heads) => heads.at(track.head),
            None => None,
        }
    }

    /// The greatest wanted weight of the tracks of a cylinder; 0 if it has none.
    pub fn greatest_on(&self, cylinder: u32) -> u64
        ensures each { (t : Track) → t.cylinder ≡ cylinder → weight_kept self.now t ≤ result }
        ensures least { (most : ℕ) → ((t : Track) → t.cylinder ≡ cylinder → weight_kept self.now t ≤ most) → result ≤ most }
    {
        match self.cylinders.get(cylinder as usize) {
            Some(heads) => heads.greatest(),
            None => 0,
        }
    }

    /// The number of cylinders up to the last one with a block.
    pub fn len(&self) -> usize
        ensures count { result ≡ length self.now }
        ensures few { result < 2 ^ 63 }
    {
        self.cylinders.len()
    }

    /// The first track of a cylinder, from a head on, that has a block.
    pub fn next_on(&self, cylinder: usize, head: u32) -> Option<&OnTrack>
        ensures some { IfSome result (λ on. (h : ℕ) × (on.now ≡ get_or (get_or self.now cylinder []) h no_block_on)
            × IsNextHead (get_or self.now cylinder []) head h) }
        ensures none { IfNone result (NoHeadIsNext (get_or self.now cylinder []) head) }
    {
        match self.cylinders.get(cylinder) {
            Some(heads) => heads.next(head),
            None => None,
        }
    }

    /// The first track with a block on the cylinders from `start` up to the end.
    pub fn first_between(&self, start: usize, end: usize) -> Option<&OnTrack>
        ensures some { IfSome result (λ on. (t : Track) × (on.now ≡ track_at self.now t) × IsNextTrack self.now (first_track start) t) }
        ensures none { IfNone result (NoneIsBetween self.now start end) }
    {
        for cylinder in start..end.min(self.cylinders.len()) {
            if let Some(on) = self.next_on(cylinder, 0) {
                return Some(on);
            }
        }
        None
    }
}
