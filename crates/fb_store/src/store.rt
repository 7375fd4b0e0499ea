// Who wrote each sector last.
ghost use Rattle.std.specs.Prelude.{◌≡◌, ℕ, List, ◌+◌, ◌<◌, ◌≤◌, ◌^◌, true, false, map, IfOk, OnOk, OnErr};
ghost use Rattle.std.specs.Ordering.{nat_cmp};
ghost use Rattle.std.specs.BTreeSet.{contains, IsFromIterResult};
ghost use Rattle.std.specs.List.{range_with_len, sum_by};
ghost use Rattle.fb_store.specs.declared.content.Content.{Content};
ghost use Rattle.fb_store.specs.Writes.{unwritten, after_write};
ghost use Rattle.fb_store.specs.Ranges.{content_in};
ghost use Rattle.fb_store.specs.Runs.{runs_of, ArePacked, IsRun};

use crate::ranges::{held_at, held_up_to, write};
use crate::{Content, ContentRun, Contents};
use fb_units::NoMemory;
use std::alloc::{AllocError, Global};
use std::collections::{BTreeMap, BTreeSet};
use std::marker::Model;

/// What each sector of a disk holds.
#[derive(Drop)]
pub struct Store {
    latent: BTreeSet<u64>,
    ranges: BTreeMap<u64, Option<Content>>,
}

impl Model for Store {
    ghost use Rattle.fb_store.specs.Ranges.{Holding};

    ghost Value = { Holding };

    ghost view = { λ s. record { latent = s.latent.keys; ranges = s.ranges.entries } };
}

impl Store {
    /// The store of a disk to which nothing was written, and on which these sectors cannot be read.
    /// Its only error is `NoMemory`.
    #[tactic(auto, using(crate::proofs::Originals::content_in_empty))]
    pub fn new(alloc: Global, latent: &[u64]) -> Result<Store, NoMemory>
        ensures { IfOk result (λ store. (lbn : ℕ) → content_in store lbn ≡ unwritten latent.now lbn) }
    {
        Ok(Store {
            latent: set_of(alloc, latent)?,
            ranges: BTreeMap::new(alloc),
        })
    }

    /// A write of a range: each of its sectors holds the writer's fill from now on, and all other
    /// sectors stay as they are. Out of memory, it returns `NoMemory` and no content has changed.
    pub fn write_range(&mut self, first: u64, count: u32, writer: u64) -> Result<(), NoMemory>
        requires { first + count ≤ 10 ^ 12 }
        ensures ok { OnOk result ((lbn : ℕ) → content_in self.new lbn ≡ after_write first count writer lbn (content_in self.old lbn)) }
        ensures err { OnErr result ((lbn : ℕ) → content_in self.new lbn ≡ content_in self.old lbn) }
    {
        if count == 0 {
            return Ok(());
        }
        let end = first + count as u64;
        write(&mut self.ranges, first, end, Some(Content::Filled(writer)))?;
        Ok(())
    }

    /// What a sector holds: the fill of its last writer, or what was there before any write.
    pub fn read(&self, lbn: u64) -> Content
        ensures { result ≡ content_in self.now lbn }
    {
        match held_at(&self.ranges, lbn) {
            Some(content) => content,
            None => original(&self.latent, lbn),
        }
    }

    /// The contents of a range as the fewest runs, ascending. Its only error is `NoMemory`.
    pub fn runs(&self, alloc: Global, first: u64, count: u32) -> Result<Contents, NoMemory>
        requires { first + count ≤ 10 ^ 12 }
        ensures fewest { IfOk result (λ runs. runs ≡ runs_of (map (λ lbn. (lbn, content_in self.now lbn)) (range_with_len first count))) }
        ensures whole { IfOk result (λ runs. sum_by (λ run. run.count) runs ≡ count) }
    {
        let end = first + count as u64;
        let mut runs = Contents::new(alloc);
        let mut lbn = first;
        while lbn < end {
            let run = self.run_in_range(lbn, end);
            lbn += run.count;
            runs.join(run)?;
        }
        Ok(runs)
    }

    // Sectors from the first on, before the end, that hold the same as the first: up to the next
    // range or the next latent sector.
    fn run_in_range(&self, first: u64, end: u64) -> ContentRun
        requires { first < end }
        ensures { IsRun (content_in self.now) first end result }
    {
        let (held, stop) = held_up_to(&self.ranges, first, end);
        match held {
            Some(content) => ContentRun {
                first,
                count: stop - first,
                content,
            },
            None => original_run(&self.latent, first, stop),
        }
    }
}

/// The runs of sectors give each sector its content, in order, and are the fewest runs that do.
pub fn runs_are_fewest()
    ensures { (sectors : List (ℕ × Content)) → ArePacked sectors (runs_of sectors) }
{}

fn set_of(alloc: Global, latent: &[u64]) -> Result<BTreeSet<u64>, AllocError>
    ensures { IfOk result (IsFromIterResult nat_cmp latent.now) }
{
    latent.iter().copied().collect(alloc)
}

// What a sector holds before any write.
fn original(latent: &BTreeSet<u64>, lbn: u64) -> Content
    ensures { result ≡ unwritten latent.now.keys lbn }
{
    if latent.contains(&lbn) {
        Content::Unreadable
    } else {
        Content::Filled(0)
    }
}

// The first latent sector from one on, or the end.
fn next_latent(latent: &BTreeSet<u64>, first: u64, end: u64) -> u64
    requires { first < end }
    ensures from { first ≤ result }
    ensures within { result ≤ end }
    ensures is_latent { result < end → contains nat_cmp latent.now result ≡ true }
    ensures least { (bad : ℕ) → first ≤ bad → bad < result → contains nat_cmp latent.now bad ≡ false }
{
    match latent.range(first..).next() {
        Some(bad) => (*bad).min(end),
        None => end,
    }
}

// The first latent sector, or the sectors up to the next one.
fn original_run(latent: &BTreeSet<u64>, first: u64, end: u64) -> ContentRun
    requires { first < end }
    ensures { IsRun (unwritten latent.now.keys) first end result }
{
    let bad = next_latent(latent, first, end);
    if bad == first {
        ContentRun {
            first,
            count: 1,
            content: Content::Unreadable,
        }
    } else {
        ContentRun {
            first,
            count: bad - first,
            content: Content::Filled(0),
        }
    }
}
