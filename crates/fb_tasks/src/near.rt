// Which open backups a write looks at: each is noted by the chunks of 2,048 LBNs in which its blocks begin.
ghost use Rattle.std.specs.Prelude.{◌≡◌, ◌⊎◌, ◌<◌, ◌≤◌, ◌+◌, ◌^◌, ℕ, true, false, IfSome, IfNone, OnOk};
ghost use Rattle.std.specs.BTreeSet.{contains};
ghost use Rattle.fb_wanted.specs.declared.block.Block.{Block};
ghost use Rattle.fb_wanted.specs.States.{shares};
ghost use Rattle.fb_tasks.specs.Nearby.{IsAmong, BeginsIn, chunk_of, pair_cmp};

use fb_units::NoMemory;
use std::collections::BTreeSet;

/// The number of LBNs of a chunk, and the greatest number of sectors of a block. Chunk k has the
/// LBNs from 2,048 k to 2,048 k + 2,047.
const CHUNK: u64 = 2048;

/// Neighbouring chunks.
#[derive(Clone, Copy)]
pub struct Chunks {
    /// The first of them.
    pub first: u64,
    /// The one behind the last.
    pub end: u64,
}

/// No chunk.
pub fn no_chunks() -> Chunks
    ensures { (chunk : ℕ) → IsAmong result chunk → ⊥ }
{
    Chunks { first: 0, end: 0 }
}

/// The chunks in which blocks of a range begin.
pub fn chunks_in(first: u64, count: u64) -> Chunks
    requires { first + count ≤ 10 ^ 12 }
    ensures { (lbn : ℕ) → first ≤ lbn → lbn < first + count → IsAmong result (chunk_of lbn) }
{
    Chunks {
        first: first / CHUNK,
        end: (first + count) / CHUNK + 1,
    }
}

/// The chunks in which a block may begin that shares a sector with the range: those that the range
/// touches, and the one before them.
pub fn chunks_near(first: u64, count: u64) -> Chunks
    ensures { (block : Block) → block.lbn < 2 ^ 64 → block.count ≤ 2048 → shares first count block ≡ true → BeginsIn result block }
{
    Chunks {
        first: first.saturating_sub(CHUNK - 1) / CHUNK,
        end: first.saturating_add(count) / CHUNK + 1,
    }
}

/// Notes a task in each of the chunks.
///
/// The only error is out of memory, after which all that was noted before is still noted.
pub fn note_near(near: &mut BTreeSet<(u64, u32)>, task: u32, chunks: Chunks) -> Result<(), NoMemory>
    ensures stay { (k : ℕ × ℕ) → contains pair_cmp near.old k ≡ true → contains pair_cmp near.new k ≡ true }
    ensures noted { OnOk result ((chunk : ℕ) → IsAmong chunks chunk → contains pair_cmp near.new (chunk, task) ≡ true) }
{
    for chunk in chunks.first..chunks.end {
        near.insert((chunk, task))?;
    }
    Ok(())
}

/// Takes a task out of each of the chunks.
pub fn forget_near(near: &mut BTreeSet<(u64, u32)>, task: u32, chunks: Chunks)
    ensures others { (k : ℕ × ℕ) → contains pair_cmp near.old k ≡ true
        → ((k.1 ≡ task) × IsAmong chunks k.0) ⊎ (contains pair_cmp near.new k ≡ true) }
    ensures gone { (chunk : ℕ) → IsAmong chunks chunk → contains pair_cmp near.new (chunk, task) ≡ false }
{
    for chunk in chunks.first..chunks.end {
        near.remove(&(chunk, task));
    }
}

/// The first task from `from` on that is noted in one of the chunks; the end if there is none before it.
pub fn next_near(near: &BTreeSet<(u64, u32)>, chunks: Chunks, from: u32, end: u32) -> u32
    requires { from ≤ end }
    ensures order { (from ≤ result) × (result ≤ end) }
    ensures others { (chunk task : ℕ) → IsAmong chunks chunk → from ≤ task → task < result
        → contains pair_cmp near.now (chunk, task) ≡ false }
{
    let mut least = end;
    for chunk in chunks.first..chunks.end {
        if let Some(task) = next_in(near, chunk, from) {
            least = least.min(task);
        }
    }
    least
}

// The first task from `from` on that is noted in the chunk.
fn next_in(near: &BTreeSet<(u64, u32)>, chunk: u64, from: u32) -> Option<u32>
    ensures from { IfSome result (λ task. from ≤ task) }
    ensures first { IfSome result (λ task. (k : ℕ) → from ≤ k → k < task → contains pair_cmp near.now (chunk, k) ≡ false) }
    ensures none { IfNone result ((k : ℕ) → from ≤ k → contains pair_cmp near.now (chunk, k) ≡ false) }
{
    match near.range((chunk, from)..).next() {
        Some(pair) => { if pair.0 == chunk { Some(pair.1) } else { None } }
        None => None,
    }
}
