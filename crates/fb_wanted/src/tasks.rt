// The look-up of the registered blocks by task.
ghost use Rattle.std.specs.Prelude.{◌≡◌, ℕ, ◌<◌, length, get_or, OnOk, OnErr};
ghost use Rattle.fb_wanted.specs.Counting.{sum_of, AreNoMore, Fit};
ghost use Rattle.fb_wanted.specs.LookUp.{IsTaskChanged, no_blocks, joined, counted_anew};

use crate::Counts;
use crate::counting::{no_counts, recounted};
use fb_units::{Items, NoMemory};
use std::alloc::Global;

/// The registered blocks of a task.
#[derive(Drop)]
pub struct OfTask {
    /// Their indexes among all registered blocks.
    pub indexes: Items<u32>,
    /// How many there are, and how many of them are delivered and aborted.
    pub counts: Counts,
}

/// Adds the index of a block to those of the task, without counting the block. Out of memory, it
/// returns `NoMemory` and no task has changed.
pub fn add_index(
    tasks: &mut Vec<OfTask>,
    alloc: Global,
    task: u32,
    index: u32,
) -> Result<(), NoMemory>
    ensures ok { OnOk result (IsTaskChanged tasks.old.items tasks.new.items task (joined index)) }
    ensures there { OnOk result (task < length tasks.new.items) }
    ensures err { OnErr result ((k : ℕ) → get_or tasks.new.items k no_blocks ≡ get_or tasks.old.items k no_blocks) }
{
    let task = task as usize;
    for _ in tasks.len()..task + 1 {
        tasks.push(OfTask {
            indexes: Items::new(alloc),
            counts: no_counts(),
        })?;
    }
    tasks[task].indexes.push(index)?;
    Ok(())
}

/// Removes the last index of the task.
pub fn take_index_back(tasks: &mut Vec<OfTask>, task: u32)
    ensures { (blocks : OfTask) (last : ℕ) → get_or tasks.old.items task no_blocks ≡ joined last blocks
        → IsTaskChanged tasks.old.items tasks.new.items task (λ _. blocks) }
{
    let task = task as usize;
    if task < tasks.len() {
        tasks[task].indexes.pop();
    }
}

/// Takes `lost` from the counts of the task, and adds `gained`.
pub fn recount(tasks: &mut Vec<OfTask>, task: u32, lost: Counts, gained: Counts)
    requires there { task < length tasks.old.items }
    requires part { AreNoMore lost (get_or tasks.old.items task no_blocks).counts }
    requires room { Fit (sum_of (get_or tasks.old.items task no_blocks).counts gained) }
    ensures { IsTaskChanged tasks.old.items tasks.new.items task (counted_anew lost gained) }
{
    let blocks = &mut tasks[task as usize];
    blocks.counts = recounted(blocks.counts, lost, gained);
}
