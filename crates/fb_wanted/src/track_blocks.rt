// The registered blocks of a track, looked up once.
ghost use Rattle.std.specs.Prelude.{◌≡◌, ◌*◌, ◌≤◌, ◌<◌, List, Some, length, slice_get};
ghost use Rattle.std.specs.List.{sum_by};
ghost use Rattle.fb_wanted.specs.States.{on_track, wanted_of};
ghost use Rattle.fb_wanted.specs.Offers.{AreOffers, AreSameBlocks, AreFound, offered_blocks};
ghost use Rattle.fb_wanted.specs.Tracks.{wanted_weight};
ghost use Rattle.fb_wanted.specs.LookUp.{indexes_of, is_of_track};

use crate::{Entry, Offer, WantedBlocks};
use fb_units::Track;
use std::marker::Model;

/// The registered blocks of a track, in order of registration.
///
/// Looking at one of them takes constant time. What the wanted ones offer lies side by side in memory,
/// so looking at all of that is faster than looking at each block. A walk over the wanted blocks
/// costs nothing for blocks that aren't wanted.
#[derive(Drop)]
pub struct TrackBlocks<'a> {
    track: Track,
    entries: &'a [Entry],
    // Their indexes among all registered blocks.
    indexes: &'a [u32],
    // The sum of weight times sectors over the wanted ones.
    weight: u64,
    // What the wanted ones offer.
    offers: &'a [Offer],
}

impl<'a> Model for TrackBlocks<'a> {
    ghost use Rattle.std.specs.Prelude.{◌≡◌, ◌*◌, ◌≤◌, List, length};
    ghost use Rattle.fb_wanted.specs.declared.block.Entry.{Entry};
    ghost use Rattle.fb_wanted.specs.States.{on_track, wanted_of};
    ghost use Rattle.fb_wanted.specs.Offers.{AreSameBlocks, AreFound, offered_blocks};
    ghost use Rattle.fb_wanted.specs.Tracks.{wanted_weight};
    ghost use Rattle.fb_wanted.specs.LookUp.{indexes_of, is_of_track};

    ghost Value = { List Entry };

    ghost view = { λ t. on_track t.track t.entries.now };

    ghost invariant = { λ t. (t.indexes.now ≡ indexes_of (is_of_track t.track) t.entries.now)
        × (length t.entries.now ≤ 16000000)
        × (t.weight ≡ wanted_weight t.track t.entries.now)
        × (t.weight ≤ 16000000 * 2048000)
        × AreSameBlocks (offered_blocks t.entries.now t.offers.now) (wanted_of (on_track t.track t.entries.now))
        × AreFound t.entries.now t.offers.now };
}

impl<'a> TrackBlocks<'a> {
    /// The blocks of a track among all, whose indexes, wanted weight and offers are known.
    pub(crate) fn new(
        track: Track,
        entries: &'a [Entry],
        indexes: &'a [u32],
        weight: u64,
        offers: &'a [Offer],
    ) -> Self
        requires its { indexes.now ≡ indexes_of (is_of_track track) entries.now }
        requires few { length entries.now ≤ 16000000 }
        requires weight { weight ≡ wanted_weight track entries.now }
        requires small { weight ≤ 16000000 * 2048000 }
        requires blocks { AreSameBlocks (offered_blocks entries.now offers.now) (wanted_of (on_track track entries.now)) }
        requires found { AreFound entries.now offers.now }
        ensures { result ≡ on_track track entries.now }
    {
        TrackBlocks {
            track,
            entries,
            indexes,
            weight,
            offers,
        }
    }

    /// The number of blocks.
    pub fn len(&self) -> u32
        ensures count { result ≡ length self.now }
        ensures few { result ≤ 16000000 }
    {
        self.indexes.len() as u32
    }

    /// The i-th block, from 0, with its state.
    pub fn get(&self, i: u32) -> Entry
        requires { i < length self.now }
        ensures { slice_get self.now i ≡ Some result }
    {
        self.entries[self.indexes[i as usize] as usize]
    }

    /// The sum of weight times sectors over the wanted blocks.
    pub fn wanted_weight(&self) -> u64
        ensures sum { result ≡ sum_by (λ block. block.weight * block.count) (wanted_of self.now) }
        ensures small { result ≤ 16000000 * 2048000 }
    {
        let _ = &self.entries;
        self.weight
    }

    /// What the wanted blocks offer, in any order, side by side in memory.
    pub fn offers(&self) -> &'a [Offer]
        ensures its { AreOffers result.now self.now }
        ensures few { length result.now ≤ 16000000 }
    {
        let _ = &self.entries;
        self.offers
    }

    /// The wanted blocks, in any order, that of their offers.
    pub fn wanted(&self) -> WantedBlocks<'a>
        ensures { AreSameBlocks result (wanted_of self.now) }
    {
        WantedBlocks::new(self.entries, self.offers)
    }
}
