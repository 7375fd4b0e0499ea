// The contents of some of the sectors.
ghost use Rattle.std.specs.Prelude.{◌≡◌, ℕ, List, Option, [], ◌+◌, ◌-◌, ◌<◌, ◌≤◌, ◌^◌, ◌++◌, None, IfOk, OnOk, OnErr};
ghost use Rattle.std.specs.Ordering.{nat_cmp};
ghost use Rattle.std.specs.BTreeMap.{get};
ghost use Rattle.std.specs.List.{range_with_len};
ghost use Rattle.fb_store.specs.declared.content.Content.{Content};
ghost use Rattle.fb_store.specs.Ranges.{held_of, held_at, AreCut};
ghost use Rattle.fb_store.specs.Sparse.{after_taking, ascend, Gives, EndsBy, after_take, after_dropping, held_in};
ghost use Rattle.fb_store.specs.Runs.{runs_of, sectors_in, sectors_of, IsInRange};

use crate::ranges::{assign, cut, held_at, next_begin, write};
use crate::{Content, ContentRun, Contents};
use fb_units::NoMemory;
use std::alloc::Global;
use std::collections::BTreeMap;
use std::marker::Model;

// No LBN is as great as this.
const SECTORS: u64 = 1_000_000_000_000;

/// What some sectors hold: each sector has a content or none.
#[derive(Drop)]
pub struct SparseContents {
    alloc: Global,
    ranges: BTreeMap<u64, Option<Content>>,
}

impl Model for SparseContents {
    ghost use Rattle.std.specs.Prelude.{ℕ, ◌^◌, List, Option};
    ghost use Rattle.fb_store.specs.declared.content.Content.{Content};
    ghost use Rattle.fb_store.specs.Ranges.{held_at};
    ghost use Rattle.fb_store.specs.Sparse.{EndsBy};

    ghost Value = { List (ℕ × Option Content) };

    ghost view = { λ p. p.ranges.entries };

    ghost invariant = { λ p. EndsBy (held_at p.ranges.entries) (10 ^ 12) };
}

impl SparseContents {
    /// No sector holds anything.
    #[tactic(auto, using(crate::proofs::Taken::held_at_empty))]
    pub fn new(alloc: Global) -> Self
        ensures empty { result ≡ [] }
        ensures none { (lbn : ℕ) → held_at result lbn ≡ None }
    {
        SparseContents {
            alloc,
            ranges: BTreeMap::new(alloc),
        }
    }

    /// Each sector of the runs holds from now on what the last run that has it says, and all other
    /// sectors stay as they are. Out of memory, it returns `NoMemory` and no content has changed.
    ///
    /// Its cost grows with the number of runs and of the ranges that their sectors are in, each of
    /// which is met once, however many runs have them.
    pub fn take(&mut self, contents: &Contents) -> Result<(), NoMemory>
        ensures ok { OnOk result ((lbn : ℕ) → held_at self.new lbn ≡ after_taking (sectors_of contents.now) lbn (held_at self.old lbn)) }
        ensures given { OnOk result ((content_of : ℕ → Content) (first n lbn : ℕ) → Gives contents.now content_of first n
            → held_at self.new lbn ≡ after_take content_of first n lbn (held_at self.old lbn)) }
        ensures err { OnErr result ((lbn : ℕ) → held_at self.new lbn ≡ held_at self.old lbn) }
    {
        if ascend(contents) {
            return take_runs(&mut self.ranges, contents);
        }
        let last = last_said(self.alloc, contents)?;
        take_runs(&mut self.ranges, &last)
    }

    /// No sector of the range holds anything from now on, and all other sectors stay as they are.
    /// Out of memory, it returns `NoMemory` and no content has changed.
    pub fn drop_range(&mut self, first: u64, count: u64) -> Result<(), NoMemory>
        requires { first + count ≤ 10 ^ 12 }
        ensures ok { OnOk result ((lbn : ℕ) → held_at self.new lbn ≡ after_dropping first count lbn (held_at self.old lbn)) }
        ensures err { OnErr result ((lbn : ℕ) → held_at self.new lbn ≡ held_at self.old lbn) }
    {
        if count == 0 {
            return Ok(());
        }
        write(&mut self.ranges, first, first + count, None)?;
        Ok(())
    }

    /// All that is held, as the fewest runs, ascending. Its only error is `NoMemory`.
    pub fn contents(&self, alloc: Global) -> Result<Contents, NoMemory>
        ensures ends { EndsBy (held_at self.now) (10 ^ 12) }
        ensures fewest { IfOk result
            (λ runs. (end : ℕ) → EndsBy (held_at self.now) end → runs ≡ runs_of (held_in (held_at self.now) (range_with_len 0 end))) }
    {
        let mut runs = Contents::new(alloc);
        self.add_runs(&mut runs, 0, self.end())?;
        Ok(runs)
    }

    /// Adds what the sectors of a range hold behind runs that are the fewest for their sectors, and
    /// they stay so. Out of memory, it returns `NoMemory`, and some runs may have been added.
    #[tactic(auto, using(crate::proofs::Joined::fewest_again))]
    pub fn add_runs(&self, runs: &mut Contents, first: u64, count: u64) -> Result<(), NoMemory>
        requires range { first + count ≤ 10 ^ 12 }
        requires fewest { (sectors : List (ℕ × Content)) × (runs.old ≡ runs_of sectors) }
        ensures { OnOk result ((sectors : List (ℕ × Content)) → runs.old ≡ runs_of sectors
            → runs.new ≡ runs_of (sectors ++ held_in (held_at self.now) (range_with_len first count))) }
    {
        let end = first + count;
        let mut lbn = first;
        while lbn < end {
            lbn = self.add_range(runs, lbn, end)?;
        }
        Ok(())
    }

    // An LBN from which on no sector holds anything.
    fn end(&self) -> u64
        ensures most { result ≤ 10 ^ 12 }
        ensures none { EndsBy (held_at self.now) result }
    {
        let _ranges = &self.ranges;
        SECTORS
    }

    // Adds what the sectors hold up to the beginning of the next range, or to the end, and returns
    // where that is.
    fn add_range(&self, runs: &mut Contents, lbn: u64, end: u64) -> Result<u64, NoMemory>
        requires range { (lbn < end) × (end ≤ 10 ^ 12) }
        requires fewest { runs.old ≡ runs_of (sectors_of runs.old) }
        ensures next { IfOk result (λ next. (lbn < next) × (next ≤ end)) }
        ensures more { IfOk result
            (λ next. runs.new ≡ runs_of (sectors_of runs.old ++ held_in (held_at self.now) (range_with_len lbn (next - lbn)))) }
    {
        let next = next_begin(&self.ranges, lbn, end);
        match held_at(&self.ranges, lbn) {
            Some(content) => {
                runs.join(ContentRun {
                    first: lbn,
                    count: next - lbn,
                    content,
                })?;
                Ok(next)
            }
            None => Ok(next),
        }
    }
}

// Whether no run begins before the end of the one before it.
fn ascend(contents: &Contents) -> bool
    ensures { result ≡ ascend 0 contents.now }
{
    let mut end = 0;
    for i in 0..contents.len() {
        let run = contents.get(i);
        if run.first < end {
            return false;
        }
        end = run.first + run.count;
    }
    true
}

// Of each sector what the last run that has it says, as the fewest runs, ascending. The only error
// is out of memory.
fn last_said(alloc: Global, contents: &Contents) -> Result<Contents, NoMemory>
    ensures { IfOk result (λ runs. (lbn : ℕ) (held : Option Content)
        → after_taking (sectors_of runs) lbn held ≡ after_taking (sectors_of contents.now) lbn held) }
{
    let mut ranges = BTreeMap::new(alloc);
    for i in 0..contents.len() {
        let run = contents.get(i);
        write_run(&mut ranges, &run)?;
    }
    let said = SparseContents { alloc, ranges };
    let runs = said.contents(alloc)?;
    Ok(runs)
}

// Each sector of the runs holds from now on what the last run that has it says, and all other
// sectors stay as they are. Out of memory, no content has changed.
#[tactic(auto, using(fb_units::proofs::Lists::on_err))]
fn take_runs(
    ranges: &mut BTreeMap<u64, Option<Content>>,
    contents: &Contents,
) -> Result<(), NoMemory>
    ensures past { EndsBy (held_of (get nat_cmp ranges.old)) (10 ^ 12) → EndsBy (held_of (get nat_cmp ranges.new)) (10 ^ 12) }
    ensures ok { OnOk result ((lbn : ℕ) → held_of (get nat_cmp ranges.new) lbn
        ≡ after_taking (sectors_of contents.now) lbn (held_of (get nat_cmp ranges.old) lbn)) }
    ensures err { OnErr result ((lbn : ℕ) → held_of (get nat_cmp ranges.new) lbn ≡ held_of (get nat_cmp ranges.old) lbn) }
{
    if contents.len() == 1 {
        let run = contents.get(0);
        return write_run(ranges, &run);
    }
    cut_runs(ranges, contents)?;
    assign_runs(ranges, contents);
    Ok(())
}

// Each sector of the run holds its content from now on, and all other sectors stay as they are. Out
// of memory, no content has changed.
#[tactic(auto, using(fb_units::proofs::Lists::on_err))]
fn write_run(ranges: &mut BTreeMap<u64, Option<Content>>, run: &ContentRun) -> Result<(), NoMemory>
    requires { IsInRange run.now }
    ensures past { EndsBy (held_of (get nat_cmp ranges.old)) (10 ^ 12) → EndsBy (held_of (get nat_cmp ranges.new)) (10 ^ 12) }
    ensures ok { OnOk result ((lbn : ℕ) → held_of (get nat_cmp ranges.new) lbn
        ≡ after_taking (sectors_in run.now) lbn (held_of (get nat_cmp ranges.old) lbn)) }
    ensures err { OnErr result ((lbn : ℕ) → held_of (get nat_cmp ranges.new) lbn ≡ held_of (get nat_cmp ranges.old) lbn) }
{
    if run.count == 0 {
        return Ok(());
    }
    let end = run.first + run.count;
    write(ranges, run.first, end, Some(run.content))?;
    Ok(())
}

// Makes ranges begin at each run and behind it. What sectors hold stays as it is.
#[tactic(auto, using(std::proofs::lemmas::Option::slice_get_within))]
fn cut_runs(
    ranges: &mut BTreeMap<u64, Option<Content>>,
    contents: &Contents,
) -> Result<(), NoMemory>
    ensures same { (lbn : ℕ) → held_of (get nat_cmp ranges.new) lbn ≡ held_of (get nat_cmp ranges.old) lbn }
    ensures begins { OnOk result (AreCut (get nat_cmp ranges.new) contents.now) }
{
    for i in 0..contents.len() {
        let run = contents.get(i);
        cut(ranges, run.first)?;
        cut(ranges, run.first + run.count)?;
    }
    Ok(())
}

// Gives the sectors of each run the content of that run.
fn assign_runs(ranges: &mut BTreeMap<u64, Option<Content>>, contents: &Contents)
    requires { AreCut (get nat_cmp ranges.old) contents.now }
    ensures past { EndsBy (held_of (get nat_cmp ranges.old)) (10 ^ 12) → EndsBy (held_of (get nat_cmp ranges.new)) (10 ^ 12) }
    ensures value { (lbn : ℕ)
        → held_of (get nat_cmp ranges.new) lbn ≡ after_taking (sectors_of contents.now) lbn (held_of (get nat_cmp ranges.old) lbn) }
{
    for i in 0..contents.len() {
        let run = contents.get(i);
        assign(ranges, run.first, run.first + run.count, run.content);
    }
}
