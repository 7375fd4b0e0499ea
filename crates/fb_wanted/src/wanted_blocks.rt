// The wanted blocks of a track, in the order of their offers.
ghost use Rattle.std.specs.Prelude.{◌≡◌, ◌≤◌, ◌<◌, Some, length, slice_get};
ghost use Rattle.fb_wanted.specs.declared.block.Block.{Block};
ghost use Rattle.fb_wanted.specs.Offers.{AreFound, offered_blocks};

use crate::{Block, Entry, Offer};
use fb_units::Sweep;
use std::marker::Model;

/// The wanted blocks of a track, in any order.
///
/// How one of them passes stands with its offer; those lie side by side in memory. To get the block
/// itself is a look-up among all registered blocks, which also takes constant time, but may have to
/// wait for memory.
#[derive(Drop)]
pub struct WantedBlocks<'a> {
    entries: &'a [Entry],
    offers: &'a [Offer],
}

impl<'a> Model for WantedBlocks<'a> {
    ghost use Rattle.std.specs.Prelude.{◌≤◌, List, length};
    ghost use Rattle.fb_wanted.specs.declared.block.Block.{Block};
    ghost use Rattle.fb_wanted.specs.Offers.{AreFound, offered_blocks};

    ghost Value = { List Block };

    ghost view = { λ w. offered_blocks w.entries.now w.offers.now };

    ghost invariant = { λ w. AreFound w.entries.now w.offers.now × (length w.offers.now ≤ 16000000) };
}

impl<'a> WantedBlocks<'a> {
    /// The blocks of some offers among all.
    pub(crate) fn new(entries: &'a [Entry], offers: &'a [Offer]) -> Self
        requires found { AreFound entries.now offers.now }
        requires few { length offers.now ≤ 16000000 }
        ensures { result ≡ offered_blocks entries.now offers.now }
    {
        WantedBlocks { entries, offers }
    }

    /// The number of blocks.
    pub fn len(&self) -> u32
        ensures count { result ≡ length self.now }
        ensures few { result ≤ 16000000 }
    {
        self.offers.len() as u32
    }

    /// How the i-th block passes, from 0. The block isn't looked up.
    pub fn sweep(&self, i: u32) -> Sweep
        requires { i < length self.now }
        ensures { (block : Block) → slice_get self.now i ≡ Some block → result ≡ block.sweep }
    {
        self.offers[i as usize].sweep
    }

    /// The i-th block, from 0.
    pub fn get(&self, i: u32) -> Block
        requires { i < length self.now }
        ensures { slice_get self.now i ≡ Some result }
    {
        self.entries[self.offers[i as usize].index as usize].block
    }
}
