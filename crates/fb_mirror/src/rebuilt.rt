// The replacement of a lost disk.
ghost use Rattle.std.specs.Prelude.{◌≡◌, ℕ, ◌+◌, ◌<◌, ◌≤◌, ◌^◌, length, map, None, IfOk};
ghost use Rattle.std.specs.List.{AllByRecursion, range_with_len, sum_by};
ghost use Rattle.std.specs.Option.{unwrap_or};
ghost use Rattle.fb_store.specs.declared.content.Content.TheVariants.{Unreadable};
ghost use Rattle.fb_store.specs.Runs.{runs_of, sectors_of};
ghost use Rattle.fb_store.specs.Sparse.{after_taking, held_in};
ghost use Rattle.fb_mirror.specs.Replacement.{contents_after, covered_after, events, IsWithin, sealed_in};

use crate::changes::contents_in_order;
use fb_rows::{BackRow, BackRows, Run};
use fb_store::{Content, ContentRun, Contents, SparseContents};
use fb_units::{NoMemory, Ns};
use std::alloc::Global;

/// What the replacement of a lost disk holds at the end of the survivor's run.
#[derive(Drop)]
pub struct Rebuilt {
    /// The instant at which the backup was sealed, in nanoseconds, if it was.
    pub sealed: Option<Ns>,
    /// The content of each sector of the disk, as the fewest runs; a sector that no write and no
    /// delivery concerned cannot be read.
    pub content: Contents,
    /// How many sectors a write or a delivery concerned.
    pub covered: u64,
}

/// The replacement of a lost disk of `count` sectors: it gets each foreground write of the
/// survivor's run at its finish, and each delivered block at its end; at one instant a write comes
/// before a delivery, and otherwise the order of the run holds. The only error is `NoMemory`.
#[tactic(auto, using(crate::proofs::Covering::within_more, crate::proofs::Covering::whole_few))]
pub fn rebuild(alloc: Global, count: u64, run: &Run) -> Result<Rebuilt, NoMemory>
    requires disk { count ≤ 10 ^ 12 }
    requires ranges { AllByRecursion (IsWithin count) (events run.now) }
    ensures sealed { IfOk result (λ copy. copy.sealed ≡ sealed_in run.now.back) }
    ensures content { IfOk result (λ copy. copy.content ≡ contents_after (events run.now) count) }
    ensures covered { IfOk result (λ copy. copy.covered ≡ covered_after (events run.now) count) }
    ensures most { IfOk result (λ copy. copy.covered ≤ count) }
    ensures few { IfOk result (λ copy. length copy.content ≤ count) }
{
    let contents = contents_in_order(alloc, run)?;
    let covered = covered(alloc, &contents)?;
    let content = over_unreadable(alloc, count, &contents)?;
    Ok(Rebuilt {
        sealed: sealed(&run.back),
        content,
        covered: sectors(&covered),
    })
}

// The sectors that have contents, as the fewest runs.
fn covered(alloc: Global, contents: &Contents) -> Result<Contents, NoMemory>
    ensures { IfOk result (λ runs. (end : ℕ) → AllByRecursion (λ run. run.first + run.count ≤ end) contents.now
        → runs ≡ runs_of (held_in (λ lbn. after_taking (sectors_of contents.now) lbn None) (range_with_len 0 end))) }
{
    let mut held = SparseContents::new(alloc);
    held.take(contents)?;
    held.contents(alloc)
}

// A disk of `count` sectors that cannot be read, with these contents over it, as the fewest runs.
fn over_unreadable(alloc: Global, count: u64, contents: &Contents) -> Result<Contents, NoMemory>
    requires disk { count ≤ 10 ^ 12 }
    requires ranges { AllByRecursion (λ run. run.first + run.count ≤ count) contents.now }
    ensures { IfOk result (λ runs. runs
        ≡ runs_of (map (λ lbn. (lbn, unwrap_or (after_taking (sectors_of contents.now) lbn None) Unreadable)) (range_with_len 0 count))) }
{
    let mut lost = Contents::new(alloc);
    lost.push(ContentRun {
        first: 0,
        count,
        content: Content::Unreadable,
    })?;
    let mut held = SparseContents::new(alloc);
    held.take(&lost)?;
    held.take(contents)?;
    held.contents(alloc)
}

// The instant of the seal, if there is one.
#[tactic(auto, using(crate::proofs::Listing::seal_found))]
fn sealed(rows: &BackRows) -> Option<Ns>
    ensures { result ≡ sealed_in rows.now }
{
    for i in 0..rows.len() {
        if let BackRow::Seal(row) = rows.get(i) {
            return Some(row.instant);
        }
    }
    None
}

// The number of sectors of the runs.
fn sectors(runs: &Contents) -> u64
    requires { sum_by (λ run. run.count) runs.now < 2 ^ 64 }
    ensures { result ≡ sum_by (λ run. run.count) runs.now }
{
    let mut sectors = 0;
    for i in 0..runs.len() {
        sectors += runs.get(i).count;
    }
    sectors
}
