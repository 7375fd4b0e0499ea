// All segments of one session.
ghost use Rattle.std.specs.Prelude.{◌≡◌, ◌≢◌, ℕ, List, [], ◌∷◌, ◌++◌, Bool, Option, None, Some, ◌+◌, ◌-◌, ◌*◌, ◌<◌, ◌≤◌, ◌^◌, length};
ghost use Rattle.std.specs.Prelude.{filter, map, IfOk, IfSome, OnOk, OnErr, slice_get};
ghost use Rattle.std.specs.List.{AllByRecursion, flat_map, list_any, range_with_len};
ghost use Rattle.fb_store.specs.declared.content.Content.{Content};
ghost use Rattle.fb_store.specs.Ranges.{held_at};
ghost use Rattle.fb_store.specs.Sparse.{Gives, after_take, held_in};
ghost use Rattle.fb_store.specs.Runs.{runs_of};
ghost use Rattle.fb_clean.specs.Greatest.{IsChoice};
ghost use Rattle.fb_clean.specs.Segments.{live_blocks, no_longer_waiting, after_add, choice_of, after_choice, after_drop, live_of};
ghost use Rattle.fb_clean.specs.Segments.{taken_for, packed_sectors};

use crate::choice::{best_waiting, next_waiting};
use crate::segment::Segment;
use fb_script::Live;
use fb_store::{Contents, SparseContents};
use fb_units::NoMemory;
use fb_wanted::Block;
use std::alloc::Global;
use std::collections::BTreeSet;
use std::marker::Model;

/// The segments of a session that cleans a log, numbered from 1 in order of adding.
#[derive(Drop)]
pub struct Segments {
    alloc: Global,
    block: u32,
    segments: Vec<Segment>,
    unfinished: Option<u32>,
    taken: Vec<SparseContents>,
    // The ranks of the segments that are still to be chosen.
    ranks: BTreeSet<u128>,
    // No segment before this index is still to be chosen.
    passed: usize,
}

impl Model for Segments {
    ghost use Rattle.std.specs.Prelude.{length};
    ghost use Rattle.fb_clean.specs.Segments.{Cleaning};
    ghost use Rattle.fb_clean.specs.Numbers.{AreInPlace};
    ghost use Rattle.fb_clean.specs.Ranks.{AreRanked};

    ghost Value = { Cleaning };

    ghost view = { λ s. record { block = s.block; segments = s.segments.items; unfinished = s.unfinished; taken = s.taken.items } };

    ghost invariant = { λ s. AreInPlace s.block s.segments.items s.unfinished (length s.taken.items)
        × AreRanked s.segments.items s.ranks s.passed };
}

impl Segments {
    /// No segments yet; `block` is the session's block size in sectors.
    pub fn new(alloc: Global, block: u32) -> Self
        ensures { result ≡ record { block = block; segments = []; unfinished = None; taken = [] } }
    {
        Segments {
            alloc,
            block,
            segments: Vec::new(alloc),
            unfinished: None,
            taken: Vec::new(alloc),
            ranks: BTreeSet::new(alloc),
            passed: 0,
        }
    }

    /// Adds a segment under the next number.
    ///
    /// It has `blocks` blocks from LBN `first` on, and `live` says of each whether it is live. The
    /// only error is out of memory, after which nothing has changed.
    pub fn add(&mut self, first: u64, blocks: u32, age: u64, live: &Live) -> Result<(), NoMemory>
        requires few { blocks ≤ 4096 }
        requires each { length live.now ≡ blocks }
        requires range { first + blocks * self.old.block ≤ 10 ^ 12 }
        requires room { length self.old.segments < 2 ^ 32 - 1 }
        ensures ok { OnOk result (self.new ≡ after_add first blocks age live.now self.old) }
        ensures err { OnErr result (self.new ≡ self.old) }
    {
        let number = self.segments.len() as u32 + 1;
        let segment = Segment::new(self.alloc, number, first, self.block, age, live)?;
        let held = SparseContents::new(self.alloc);
        let rank = segment.rank();
        self.ranks.insert(rank)?;
        match push_both(&mut self.segments, segment, &mut self.taken, held) {
            Ok(()) => Ok(()),
            Err(NoMemory) => {
                self.ranks.remove(&rank);
                Err(NoMemory)
            }
        }
    }

    /// How many segments were added so far.
    pub fn len(&self) -> u32
        ensures { result ≡ length self.now.segments }
    {
        self.segments.len() as u32
    }

    /// The number of the segment that was chosen and isn't finished, if there is one.
    pub fn unfinished(&self) -> Option<u32>
        ensures value { result ≡ self.now.unfinished }
        ensures known { IfSome result (λ number. (0 < number) × (number ≤ length self.now.segments)) }
    {
        self.unfinished
    }

    /// Whether any segment is still to be chosen.
    pub fn has_rest(&self) -> bool
        ensures { result ≡ list_any (λ segment. segment.waits) self.now.segments }
    {
        !self.ranks.is_empty()
    }

    /// How many live blocks the segment of this number has.
    pub fn live_count(&self, segment: u32) -> u32
        requires { (0 < segment) × (segment ≤ length self.now.segments) }
        ensures { result ≡ length (live_of self.now segment) }
    {
        self.segments[segment as usize - 1].live().len() as u32
    }

    /// The first LBN of the segment's live block number `i`, counted from 0.
    pub fn live_block(&self, segment: u32, i: u32) -> u64
        requires added { (0 < segment) × (segment ≤ length self.now.segments) }
        requires within { i < length (live_of self.now segment) }
        ensures { slice_get (live_of self.now segment) i ≡ Some result }
    {
        self.segments[segment as usize - 1].live()[i as usize]
    }

    /// Chooses the segment with the greatest ratio of benefit to cost, and returns its number.
    ///
    /// `None`, and nothing is chosen, while the last chosen segment is unfinished, or where no
    /// segment is left.
    pub fn choose(&mut self) -> Option<u32>
        ensures choice { result ≡ choice_of self.old }
        ensures greatest { IsChoice self.old result }
        ensures state { self.new ≡ after_choice result self.old }
        ensures known { IfSome result (λ number. (0 < number) × (number ≤ length self.new.segments)) }
    {
        if self.unfinished.is_some() {
            return None;
        }
        self.passed = next_waiting(&self.segments, self.passed);
        let best = best_waiting(&self.segments, &self.ranks, self.passed)?;
        self.ranks.remove(&self.segments[best].rank());
        self.segments[best].stop_waiting();
        self.unfinished = Some(best as u32 + 1);
        self.unfinished
    }

    /// Keeps the content of a delivered block for the chosen segment.
    ///
    /// The only error is out of memory; what was kept before then stays as it was.
    pub fn take(&mut self, block: Block, content: &Contents) -> Result<(), NoMemory>
        requires covers { (content_of : ℕ → Content) × Gives content.now content_of block.lbn block.count }
        requires chosen { self.old.unfinished ≢ None }
        ensures same { (self.new.block ≡ self.old.block) × (self.new.segments ≡ self.old.segments)
            × (self.new.unfinished ≡ self.old.unfinished) }
        ensures ok { OnOk result ((content_of : ℕ → Content) (number lbn : ℕ)
            → Gives content.now content_of block.lbn block.count → self.old.unfinished ≡ Some number
            → taken_for self.new number lbn ≡ after_take content_of block.lbn block.count lbn (taken_for self.old number lbn)) }
        ensures others { (number lbn : ℕ) → 0 < number → self.old.unfinished ≢ Some number
            → taken_for self.new number lbn ≡ taken_for self.old number lbn }
        ensures err { OnErr result ((number lbn : ℕ) → taken_for self.new number lbn ≡ taken_for self.old number lbn) }
    {
        match self.unfinished {
            Some(number) => self.taken[number as usize - 1].take(content),
            None => Ok(()),
        }
    }

    /// Finishes the chosen segment, so that the next one can be chosen.
    pub fn finish(&mut self, segment: u32)
        requires { self.old.unfinished ≡ Some segment }
        ensures { self.new ≡ record self.old { unfinished = None } }
    {
        self.unfinished = None;
    }

    /// Drops all segments that haven't been chosen: none is left to choose.
    pub fn drop_rest(&mut self)
        ensures { self.new ≡ after_drop self.old }
    {
        stop_all_waiting(&mut self.segments);
        self.ranks.clear();
    }

    /// What was kept for a segment, in the order of its live blocks, as the fewest runs.
    ///
    /// The only error is out of memory.
    pub fn packed(&self, alloc: Global, segment: u32) -> Result<Contents, NoMemory>
        requires { (0 < segment) × (segment ≤ length self.now.segments) }
        ensures { IfOk result (λ runs. runs ≡ runs_of (packed_sectors self.now segment)) }
    {
        let index = segment as usize - 1;
        pack(
            alloc,
            &self.taken[index],
            self.segments[index].live(),
            self.block,
        )
    }
}

/// A segment has as many live blocks as its list of live bits has set.
pub fn live_blocks_are_live()
    ensures { (block first : ℕ) (live : List Bool) → length (live_blocks block first live) ≡ length (filter (λ is_live. is_live) live) }
{}

// Removes all segments from those still to be chosen.
fn stop_all_waiting(segments: &mut [Segment])
    ensures { segments.new ≡ map no_longer_waiting segments.old }
{
    for i in 0..segments.len() {
        segments[i].stop_waiting();
    }
}

// The contents of the live blocks, one after another. The only error is out of memory.
fn pack(
    alloc: Global,
    taken: &SparseContents,
    live: &[u64],
    block: u32,
) -> Result<Contents, NoMemory>
    requires { AllByRecursion (λ lbn. lbn + block ≤ 10 ^ 12) live.now }
    ensures { IfOk result (λ runs. runs ≡ runs_of (flat_map (λ lbn. held_in (held_at taken.now) (range_with_len lbn block)) live.now)) }
{
    let mut runs = Contents::new(alloc);
    for lbn in live {
        taken.add_runs(&mut runs, *lbn, block as u64)?;
    }
    Ok(runs)
}

// Adds to both lists, or to neither where it runs out of memory.
fn push_both(
    segments: &mut Vec<Segment>,
    segment: Segment,
    taken: &mut Vec<SparseContents>,
    held: SparseContents,
) -> Result<(), NoMemory>
    ensures ok { OnOk result ((segments.new.items ≡ segments.old.items ++ segment ∷ [])
        × (taken.new.items ≡ taken.old.items ++ held ∷ [])) }
    ensures err { OnErr result ((segments.new.items ≡ segments.old.items) × (taken.new.items ≡ taken.old.items)) }
{
    taken.push(held)?;
    match push(segments, segment) {
        Ok(()) => Ok(()),
        Err(NoMemory) => {
            taken.pop();
            Err(NoMemory)
        }
    }
}

// Adds a segment to the list. The only error is out of memory.
fn push(segments: &mut Vec<Segment>, segment: Segment) -> Result<(), NoMemory>
    ensures ok { OnOk result (segments.new.items ≡ segments.old.items ++ segment ∷ []) }
    ensures err { OnErr result (segments.new.items ≡ segments.old.items) }
{
    segments.push(segment)?;
    Ok(())
}
