// How far the blocks of each task are, by groups of 512 that were registered one after another, so that
// a change passes over the groups that it can't concern.
ghost use Rattle.std.specs.Prelude.{◌≡◌, ℕ, ◌≤◌, ◌<◌, ◌+◌, ◌*◌, ◌/◌, ◌==◌, [], length, get_or, if◌then◌else◌, OnOk};
ghost use Rattle.fb_wanted.specs.Counting.{no_counts, sum_of, recounted, AreNoMore, Fit};
ghost use Rattle.fb_wanted.specs.Groups.{group_at, IsGroupThere, IsRecounted};

use crate::bands::add_bands;
use crate::counting::{no_counts, recounted};
use crate::{Block, Counts};
use fb_units::NoMemory;
use std::alloc::Global;
use std::marker::Model;

// The number of blocks of a group. Group k of a task has the blocks numbered from 512 k to 512 k + 511.
const GROUP: u32 = 512;

/// The number of the first block of the group behind that of this one.
pub fn next_group(number: u32) -> u32
    requires { number < 16000000 }
    ensures { result ≡ (number / 512 + 1) * 512 }
{
    (number / GROUP + 1) * GROUP
}

// The groups of one task, up to the last one with a block.
#[derive(Drop)]
struct TaskGroups {
    counts: Vec<Counts>,
}

impl Model for TaskGroups {
    ghost use Rattle.std.specs.Prelude.{List};
    ghost use Rattle.fb_wanted.specs.declared.block.Counts.{Counts};

    ghost Value = { List Counts };

    ghost view = { λ g. g.counts.items };
}

impl TaskGroups {
    // No group.
    fn new(alloc: Global) -> Self
        ensures { result ≡ [] }
    {
        TaskGroups {
            counts: Vec::new(alloc),
        }
    }

    // Makes room for all groups up to this one. Counts stay as they are, also out of memory.
    fn add_room(&mut self, group: u32) -> Result<(), NoMemory>
        ensures stay { (g : ℕ) → get_or self.new g no_counts ≡ get_or self.old g no_counts }
        ensures there { OnOk result (group < length self.new) }
    {
        add_bands(&mut self.counts, group, no_counts())
    }

    // Takes `lost` from the counts of a group, and adds `gained`.
    fn recount(&mut self, group: u32, lost: Counts, gained: Counts)
        requires there { group < length self.old }
        requires part { AreNoMore lost (get_or self.old group no_counts) }
        requires room { Fit (sum_of (get_or self.old group no_counts) gained) }
        ensures { (g : ℕ) → get_or self.new g no_counts
            ≡ (if group == g then recounted lost gained (get_or self.old g no_counts) else get_or self.old g no_counts) }
    {
        let counts = self.counts[group as usize];
        self.counts[group as usize] = recounted(counts, lost, gained);
    }

    // The counts of a group.
    fn at(&self, group: u32) -> Counts
        ensures { result ≡ get_or self.now group no_counts }
    {
        match self.counts.get(group as usize) {
            Some(counts) => *counts,
            None => no_counts(),
        }
    }
}

// Makes room for all tasks up to this one. Counts stay as they are, also out of memory.
fn add_tasks(tasks: &mut Vec<TaskGroups>, alloc: Global, task: u32) -> Result<(), NoMemory>
    ensures stay { (k : ℕ) → get_or tasks.new.items k [] ≡ get_or tasks.old.items k [] }
    ensures there { OnOk result (task < length tasks.new.items) }
{
    for _ in tasks.len()..task as usize + 1 {
        tasks.push(TaskGroups::new(alloc))?;
    }
    Ok(())
}

/// The groups of all tasks, with the counts of their blocks.
///
/// A task has 12 bytes for each group of its blocks, and a task with no block takes no memory of its own.
#[derive(Drop)]
pub struct Groups {
    tasks: Vec<TaskGroups>,
}

impl Model for Groups {
    ghost use Rattle.std.specs.Prelude.{List};
    ghost use Rattle.fb_wanted.specs.declared.block.Counts.{Counts};

    ghost Value = { List (List Counts) };

    ghost view = { λ g. g.tasks.items };
}

impl Groups {
    /// No group.
    pub fn new(alloc: Global) -> Self
        ensures { result ≡ [] }
    {
        Groups {
            tasks: Vec::new(alloc),
        }
    }

    /// Makes room for the group of a block. Counts stay as they are, also out of memory.
    pub fn add_room(&mut self, alloc: Global, block: Block) -> Result<(), NoMemory>
        ensures stay { (task group : ℕ) → group_at self.new task group ≡ group_at self.old task group }
        ensures there { OnOk result (IsGroupThere self.new block) }
    {
        add_tasks(&mut self.tasks, alloc, block.task)?;
        self.tasks[block.task as usize].add_room(block.index / GROUP)
    }

    /// Takes `lost` from the counts of the block's group, and adds `gained`.
    pub fn recount(&mut self, block: Block, lost: Counts, gained: Counts)
        requires there { IsGroupThere self.old block }
        requires part { AreNoMore lost (group_at self.old block.task (block.index / 512)) }
        requires room { Fit (sum_of (group_at self.old block.task (block.index / 512)) gained) }
        ensures { IsRecounted self.old self.new block lost gained }
    {
        self.tasks[block.task as usize].recount(block.index / GROUP, lost, gained);
    }

    /// The counts of the group of the task's block with this number.
    pub fn at(&self, task: u32, number: u32) -> Counts
        ensures { result ≡ group_at self.now task (number / 512) }
    {
        match self.tasks.get(task as usize) {
            Some(groups) => groups.at(number / GROUP),
            None => no_counts(),
        }
    }
}
