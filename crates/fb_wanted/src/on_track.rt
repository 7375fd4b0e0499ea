// The look-up of the registered blocks of one track.
ghost use Rattle.std.specs.Prelude.{◌≡◌, ℕ, ◌<◌, ◌+◌, ◌-◌, ◌≤◌, ◌^◌, length, OnOk, OnErr};
ghost use Rattle.fb_wanted.specs.LookUp.{grown, reweighed, with_offer, without_offer, last_of, no_block_on};

use crate::Offer;
use fb_units::{Items, NoMemory};
use std::alloc::Global;
use std::marker::Model;

/// The registered blocks of a track.
#[derive(Drop)]
pub struct OnTrack {
    // Their indexes among all registered blocks.
    indexes: Items<u32>,
    // The sum of weight times sectors over the wanted ones.
    weight: u64,
    // What the wanted ones offer, in any order; there is room for an offer of each block.
    offers: Vec<Offer>,
}

impl Model for OnTrack {
    ghost use Rattle.std.specs.Prelude.{◌≤◌, length, vec_capacity};
    ghost use Rattle.fb_wanted.specs.LookUp as look_up;

    ghost Value = { look_up.OnTrack };

    ghost view = { λ t. record { indexes = t.indexes; weight = t.weight; offers = t.offers.items } };

    ghost invariant = { λ t. length t.indexes ≤ vec_capacity t.offers };
}

impl OnTrack {
    /// No block.
    pub fn new(alloc: Global) -> Self
        ensures { result ≡ no_block_on }
    {
        OnTrack {
            indexes: Items::new(alloc),
            weight: 0,
            offers: Vec::new(alloc),
        }
    }

    /// Adds a block that isn't wanted. Out of memory, it returns `NoMemory` and nothing has changed.
    pub fn add(&mut self, index: u32) -> Result<(), NoMemory>
        ensures ok { OnOk result (self.new ≡ grown index self.old) }
        ensures err { OnErr result (self.new ≡ self.old) }
    {
        let blocks = self.indexes.len() + 1;
        self.offers
            .reserve(blocks.saturating_sub(self.offers.len()))?;
        self.indexes.push(index)
    }

    /// Takes `lost` from the wanted weight and adds `gained`.
    pub fn reweigh(&mut self, lost: u64, gained: u64)
        requires part { lost ≤ self.old.weight }
        requires room { self.old.weight + gained < 2 ^ 64 }
        ensures { self.new ≡ reweighed lost gained self.old }
    {
        self.weight = self.weight - lost + gained;
    }

    /// Adds an offer, and returns its index.
    pub fn offer(&mut self, offer: Offer) -> u32
        requires room { length self.old.offers < length self.old.indexes }
        requires few { length self.old.offers < 2 ^ 32 }
        ensures offers { self.new ≡ with_offer offer self.old }
        ensures index { result ≡ length self.old.offers }
    {
        let index = self.offers.len() as u32;
        match self.offers.push(offer) {
            Ok(()) => index,
            Err(_) => unreachable!(),
        }
    }

    /// Takes an offer away, by its index, to which the last offer is moved; returns the index of that
    /// one's block among all registered ones.
    pub fn withdraw(&mut self, index: u32) -> u32
        requires { index < length self.old.offers }
        ensures offers { self.new ≡ without_offer index self.old }
        ensures moved { result ≡ (last_of self.old.offers).index }
    {
        let last = self.offers[self.offers.len() - 1];
        self.offers.swap_remove(index as usize);
        last.index
    }

    /// The indexes of the blocks among all registered ones, in order of registration.
    pub fn indexes(&self) -> &[u32]
        ensures { result.now ≡ self.now.indexes }
    {
        self.indexes.as_slice()
    }

    /// The sum of weight times sectors over the wanted blocks.
    pub fn weight(&self) -> u64
        ensures { result ≡ self.now.weight }
    {
        self.weight
    }

    /// What the wanted blocks offer, in any order.
    pub fn offers(&self) -> &[Offer]
        ensures { result.now ≡ self.now.offers }
    {
        self.offers.as_slice()
    }
}
