// The registered blocks, in order of registration, with look-ups by task, by track, by cylinder, by
// band of cylinders and by region of LBNs.
ghost use Rattle.std.specs.Prelude.{◌≡◌, List, suc, Bool, true, false, ◌+◌, ◌-◌, ◌<◌, ◌≤◌, ℕ, [], ◌∷◌, ◌++◌, ◌*◌, ◌/◌, length, filter, map};
ghost use Rattle.std.specs.Prelude.{OnOk, OnErr, IfSome, IfNone, Some, slice_get, get_or, ◌==◌, if◌then◌else◌};
ghost use Rattle.fb_wanted.specs.declared.block.Block.{Block};
ghost use Rattle.fb_wanted.specs.declared.block.Entry.{Entry};
ghost use Rattle.fb_wanted.specs.States.{after, shares, entry_after, is_abortable, is_wanted, wanted_unless, on_track, is_block};
ghost use Rattle.fb_wanted.specs.Numbering.{AreInOrder, blocks_of, registered_count};
ghost use Rattle.fb_wanted.specs.Counting.{counts_of, sum_of, Fit};
ghost use Rattle.fb_wanted.specs.Tracks.{band_of, wanted_weight, IsNextRegistered, NoneIsRegistered};
ghost use Rattle.fb_wanted.specs.Depth.{depth_at, no_depth};
ghost use Rattle.fb_wanted.specs.LookUp.{indexes_of, is_of_task, lbns, region_of, AreChanged, IsStable, IsWithin};
ghost use Rattle.fb_wanted.specs.LookUp.{with_state, change_nth, track_at, grown, no_blocks, grown_task};
ghost use Rattle.fb_wanted.specs.LookUp.{IsChanged, IsTaskChanged};
ghost use Rattle.fb_units.specs.declared.types.Track.{Track};
ghost use Rattle.fb_units.specs.Tracks.{same_track};

use crate::bands::{BAND, band_of};
use crate::changes::{is_same, may_change, state_after};
use crate::counting::{counts_of, no_counts};
use crate::depths::Depths;
use crate::greatest::{Greatest, update_greatest};
use crate::groups::{Groups, next_group};
use crate::next::next_track;
use crate::offers::reoffer;
use crate::streaks::{Streak, forget_streak, is_behind, next_streak, note_streak, region_of};
use crate::tasks::{OfTask, add_index, recount, take_index_back};
use crate::tracks::{Tracks, weight_of};
use crate::{Block, Change, Counts, Entry, State, TrackBlocks};
use fb_units::{NoMemory, Track};
use std::alloc::Global;
use std::collections::BTreeSet;
use std::marker::Model;

/// Registered blocks, each with its state, in order of registration.
///
/// For each track, what its wanted blocks offer lies side by side in memory, in any order. The room
/// for what a block offers is taken as it is registered, so no change of state takes memory.
///
/// Costs: to register, to deliver or to look up a block, to look up the blocks of a track, the
/// counts of a task and the bounds of a band take constant time. Besides, to register a block takes
/// logarithmic time if it is the first of its task or the one before it in its task begins in
/// another region of 512 LBNs: a note is kept for each of these.
///
/// An abort, a suspension and its end concern the blocks that are neither delivered nor aborted, and a want
/// again those that are delivered: where the task has no such block, they take constant time. Else to
/// suspend or to resume takes constant time for each group of 512 blocks that were registered one after
/// another in the task, and for each block of the groups that have such a block. An abort and a want again
/// look at the regions that the range touches and at those before it from which the longest block reaches
/// the range: they take logarithmic time for each streak of the task's blocks, which were registered one
/// after another and begin in one of these regions, and constant time for each group that the streak
/// touches and for each of its blocks in the groups that have such a block. A block whose state stays as it
/// is is read and no more.
///
/// When the heaviest track of a cylinder loses weight, each track of that cylinder is looked at, and
/// likewise each cylinder of a band when its heaviest one does, and each of the 64 bands that are a
/// group. There is an entry for each task number up to the greatest one, for each cylinder up to the
/// last one with a block, and for each head of a cylinder up to the last one with a block. The next
/// track with a block is found by the heads of its cylinder and of the one where the search begins, by
/// the cylinders of their bands, and by the bands between, as a bound of many bands is: each group that
/// lies between as a whole is looked at once.
#[derive(Drop)]
pub struct Wanted {
    alloc: Global,
    entries: Vec<Entry>,
    tasks: Vec<OfTask>,
    groups: Groups,
    tracks: Tracks,
    streaks: BTreeSet<(u32, u64, u32)>,
    // For each wanted block the index of its offer among those of its track.
    offer_indexes: Vec<u32>,
    // No block has more sectors.
    longest: u32,
    greatest: Greatest,
    depths: Depths,
}

impl Model for Wanted {
    ghost use Rattle.std.specs.Prelude.{List};
    ghost use Rattle.fb_wanted.specs.declared.block.Entry.{Entry};
    ghost use Rattle.fb_wanted.specs.LookUp.{IsKept, AreNoted, AreGreatest, AreShort, AreOffered, offers_at};
    ghost use Rattle.fb_wanted.specs.Depth.{AreDeep};
    ghost use Rattle.fb_wanted.specs.Groups.{AreGrouped};

    ghost Value = { List Entry };

    ghost view = { λ w. w.entries.items };

    ghost invariant = { λ w. IsKept w.entries.items w.tasks.items w.tracks
        × AreNoted w.entries.items w.streaks
        × AreGreatest w.tracks w.greatest
        × AreDeep w.entries.items w.depths
        × AreShort w.longest w.entries.items
        × AreOffered w.entries.items (offers_at w.tracks) w.offer_indexes.items
        × AreGrouped w.entries.items w.groups };
}

// Adds a block that is to be registered, and isn't wanted yet, to the look-up by task and by track.
// Out of memory, it returns `NoMemory` and nothing has changed.
fn add_to_look_up(
    tasks: &mut Vec<OfTask>,
    tracks: &mut Tracks,
    alloc: Global,
    index: u32,
    entry: Entry,
) -> Result<(), NoMemory>
    requires { Fit (sum_of (get_or tasks.old.items entry.block.task no_blocks).counts (counts_of entry.block.task (entry ∷ []))) }
    ensures tasks { OnOk result (IsTaskChanged tasks.old.items tasks.new.items entry.block.task (grown_task index entry)) }
    ensures tracks { OnOk result (IsChanged tracks.old tracks.new entry.block.track (grown index)) }
    ensures tasks_stay { OnErr result ((k : ℕ) → get_or tasks.new.items k no_blocks ≡ get_or tasks.old.items k no_blocks) }
    ensures no_longer { (n : ℕ) → length tracks.old ≤ n → entry.block.track.cylinder < n → length tracks.new ≤ n }
    ensures tracks_stay { OnErr result ((t : Track) → track_at tracks.new t ≡ track_at tracks.old t) }
{
    let block = entry.block;
    add_index(tasks, alloc, block.task, index)?;
    match tracks.add(alloc, block.track, index) {
        Ok(()) => {
            recount(tasks, block.task, no_counts(), counts_of(entry));
            Ok(())
        }
        Err(error) => {
            take_index_back(tasks, block.task);
            Err(error)
        }
    }
}

// Makes room in the bounds of cylinders and of bands for a block that is to be registered. No bound
// changes, also out of memory.
fn make_room(greatest: &mut Greatest, depths: &mut Depths, block: Block) -> Result<(), NoMemory>
    ensures greatest { (c : ℕ) → get_or greatest.new c 0 ≡ get_or greatest.old c 0 }
    ensures longer { length greatest.old ≤ length greatest.new }
    ensures cylinder { OnOk result (block.track.cylinder < length greatest.new) }
    ensures depths { (k : ℕ) → get_or depths.new k no_depth ≡ get_or depths.old k no_depth }
    ensures band { OnOk result (band_of block < length depths.new) }
{
    greatest.add_room(block.track.cylinder)?;
    depths.add_room(band_of(block))
}

// The streak that a block begins, if it begins one.
fn streak_from(block: Block) -> Streak
    ensures region { result.region ≡ region_of block.lbn }
    ensures number { result.number ≡ block.index }
{
    Streak {
        region: region_of(block.lbn),
        number: block.index,
    }
}

impl Wanted {
    // How many blocks of the task are registered.
    fn registered_count(&self, task: u32) -> u32
        ensures { result ≡ length (filter (is_of_task task) self.now) }
    {
        self.counts(task).registered
    }

    // The index, among all registered blocks, of the task's block whose index in its task is `number`.
    fn index_of(&self, task: u32, number: u32) -> u32
        requires { number < length (filter (is_of_task task) self.now) }
        ensures { slice_get (indexes_of (is_of_task task) self.now) number ≡ Some result }
    {
        *self.tasks[task as usize].indexes.get(number as usize)
    }

    // The entry at this index among all registered blocks.
    fn entry_at(&self, index: u32) -> Entry
        requires { index < length self.now }
        ensures { slice_get self.now index ≡ Some result }
    {
        self.entries[index as usize]
    }

    // The entry of the task's block whose index in its task is `number`.
    fn entry_of(&self, task: u32, number: u32) -> Entry
        requires { number < length (filter (is_of_task task) self.now) }
        ensures { slice_get (filter (is_of_task task) self.now) number ≡ Some result }
    {
        self.entry_at(self.index_of(task, number))
    }

    // Changes the state of the entry with this index.
    fn set_state(&mut self, index: u32, state: State)
        requires { index < length self.old }
        ensures { self.new ≡ with_state state index self.old }
    {
        let entry = self.entries[index as usize];
        reoffer(
            &mut self.tracks,
            &mut self.offer_indexes,
            &self.entries,
            index,
            state,
        );
        let changed = Entry {
            block: entry.block,
            state,
        };
        self.entries[index as usize] = changed;
        let before = counts_of(entry);
        let after = counts_of(changed);
        recount(&mut self.tasks, entry.block.task, before, after);
        self.groups.recount(entry.block, before, after);
        let lost = weight_of(entry);
        let gained = weight_of(changed);
        let weight = self.tracks.reweigh(entry.block.track, lost, gained);
        update_greatest(
            &mut self.greatest,
            &self.tracks,
            entry.block.track,
            weight,
            lost,
        );
    }

    // Changes the task's block whose index in its task is `number`.
    fn change_block(&mut self, task: u32, number: u32, change: Change)
        requires { number < length (filter (is_of_task task) self.old) }
        ensures { self.new ≡ change_nth (is_of_task task) (entry_after task change) number self.old }
    {
        let index = self.index_of(task, number);
        let entry = self.entry_at(index);
        let state = state_after(change, entry.block, entry.state);
        if is_same(state, entry.state) {
            return;
        }
        self.set_state(index, state);
    }

    // Changes the task's block whose index in its task is `number`, unless no block of its group can
    // change; returns the number of the next block, or of the next group's first one.
    fn change_at(&mut self, task: u32, number: u32, change: Change) -> u32
        requires there { number < length (filter (is_of_task task) self.old) }
        requires stable { IsStable change }
        ensures changed { AreChanged task change number result self.old self.new }
        ensures on { number < result }
    {
        if !may_change(self.groups.at(task, number), change) {
            return next_group(number);
        }
        self.change_block(task, number, change);
        number + 1
    }

    // Changes each block of the task.
    fn change(&mut self, task: u32, change: Change)
        requires { IsStable change }
        ensures { self.new ≡ after task change self.old }
    {
        if !may_change(self.counts(task), change) {
            return;
        }
        let _ = &self.entries;
        let end = self.registered_count(task);
        let mut number = 0;
        while number < end {
            number = self.change_at(task, number, change);
        }
    }

    // Whether a block that is to be registered begins a streak: the first of its task does, and one
    // in another region than the block of its task before it.
    fn begins_streak(&self, block: Block) -> bool
        requires { block.index ≡ length (filter (is_of_task block.task) self.now) }
        ensures new { result ≡ true → (i last : ℕ) → suc i ≡ block.index → slice_get (lbns block.task self.now) i ≡ Some last
            → region_of last ≡ region_of block.lbn → ⊥ }
        ensures same { result ≡ false → (last : ℕ) × (0 < block.index)
            × (slice_get (lbns block.task self.now) (block.index - 1) ≡ Some last) × (region_of last ≡ region_of block.lbn) }
    {
        if block.index == 0 {
            return true;
        }
        let before = self.entry_of(block.task, block.index - 1).block;
        region_of(before.lbn) != region_of(block.lbn)
    }

    // Changes the task's blocks from the first one of a streak on, up to one that begins in another
    // region; returns that one's number, or one behind those of all blocks. The blocks of a group that
    // can't change are passed over, also if the streak ends before them.
    fn change_streak(&mut self, task: u32, streak: Streak, change: Change) -> u32
        requires { IsStable change }
        ensures changed { AreChanged task change streak.number result self.old self.new }
        ensures over { (last : ℕ) → slice_get (lbns task self.old) result ≡ Some last → region_of last ≡ streak.region → ⊥ }
        ensures since { streak.number ≤ result }
    {
        let end = self.registered_count(task);
        let mut number = streak.number;
        while number < end {
            let block = self.entry_of(task, number).block;
            if region_of(block.lbn) != streak.region {
                return number;
            }
            number = self.change_at(task, number, change);
        }
        number
    }

    // Changes the blocks of the task that share a sector with the range, streak by streak: no block
    // is longer than the longest, so all of them begin in the regions from `start` on.
    fn change_range(&mut self, task: u32, first: u64, count: u64, change: Change)
        requires within { IsWithin change first count }
        requires stable { IsStable change }
        ensures { self.new ≡ after task change self.old }
    {
        if !may_change(self.counts(task), change) {
            return;
        }
        let start = region_of(first.saturating_sub(self.longest.saturating_sub(1) as u64));
        let mut region = start;
        let mut number = 0;
        while let Some(streak) = next_streak(&self.streaks, task, Streak { region, number }) {
            if is_behind(streak.region, first, count) {
                return;
            }
            region = streak.region;
            number = self.change_streak(task, streak, change);
        }
    }

    // Registers a block, suspended, behind all others. Out of memory, it returns `NoMemory` and
    // nothing has changed.
    fn add(&mut self, block: Block) -> Result<(), NoMemory>
        requires numbered { block.index ≡ registered_count block.task (blocks_of self.old) }
        requires room { length self.old < 16000000 }
        requires light { block.weight ≤ 1000 }
        requires short { block.count ≤ 2048 }
        ensures ok { OnOk result (self.new ≡ self.old ++ record { block = block; state = State.Suspended } ∷ []) }
        ensures err { OnErr result (self.new ≡ self.old) }
    {
        let entry = Entry {
            block,
            state: State::Suspended,
        };
        let begins_streak = self.begins_streak(block);
        let streak = streak_from(block);
        let index = self.entries.len() as u32;
        self.entries.reserve(1)?;
        self.offer_indexes.reserve(1)?;
        self.groups.add_room(self.alloc, block)?;
        make_room(&mut self.greatest, &mut self.depths, block)?;
        note_streak(&mut self.streaks, block.task, streak, begins_streak)?;
        match add_to_look_up(&mut self.tasks, &mut self.tracks, self.alloc, index, entry) {
            Ok(()) => {
                self.groups.recount(block, no_counts(), counts_of(entry));
                self.depths.deepen(band_of(block), block);
                self.longest = self.longest.max(block.count);
                self.offer_indexes.push_reserved(0);
                self.entries.push_reserved(entry);
                Ok(())
            }
            Err(error) => {
                forget_streak(&mut self.streaks, block.task, streak);
                Err(error)
            }
        }
    }

    /// No registered block.
    pub fn new(alloc: Global) -> Self
        ensures { result ≡ [] }
    {
        Wanted {
            alloc,
            entries: Vec::new(alloc),
            tasks: Vec::new(alloc),
            groups: Groups::new(alloc),
            tracks: Tracks::new(alloc),
            streaks: BTreeSet::new(alloc),
            offer_indexes: Vec::new(alloc),
            longest: 0,
            greatest: Greatest::new(alloc),
            depths: Depths::new(alloc),
        }
    }

    /// Where the memory for the blocks is taken from. Whoever looks for a plan takes its tables from there.
    pub fn alloc(&self) -> Global {
        self.alloc
    }

    /// Registers a block, wanted or suspended, behind all others; its index is the next of its
    /// task. There are at most 16,000,000 blocks, each of at most 2,048 sectors and weight 1,000. Out
    /// of memory, it returns `NoMemory` and nothing has changed.
    pub fn register(&mut self, block: Block, suspended: bool) -> Result<(), NoMemory>
        requires numbered { block.index ≡ registered_count block.task (blocks_of self.old) }
        requires room { length self.old < 16000000 }
        requires light { block.weight ≤ 1000 }
        requires short { block.count ≤ 2048 }
        ensures ok { OnOk result (self.new ≡ self.old ++ record { block = block; state = wanted_unless suspended } ∷ []) }
        ensures err { OnErr result (self.new ≡ self.old) }
    {
        let index = self.entries.len() as u32;
        self.add(block)?;
        if !suspended {
            self.set_state(index, State::Wanted);
        }
        Ok(())
    }

    /// Aborts the task's blocks that share a sector with the range and are neither delivered nor
    /// aborted, and returns how many.
    pub fn abort(&mut self, task: u32, first: u64, count: u64) -> u64
        ensures states { self.new ≡ after task (Change.Abort first count) self.old }
        ensures number { result ≡ length (filter (is_abortable task first count) self.old) }
    {
        let before = self.counts(task).aborted;
        self.change_range(task, first, count, Change::Abort { first, count });
        (self.counts(task).aborted - before) as u64
    }

    /// Marks a wanted block as delivered, by its task and its index there.
    pub fn deliver(&mut self, task: u32, index: u32)
        requires { (e : Entry) × (i : ℕ) × (slice_get self.old i ≡ Some e) × (is_block task index e ≡ true) × (e.state ≡ State.Wanted) }
        ensures { self.new ≡ after task (Change.Deliver index) self.old }
    {
        let _ = &self.entries;
        self.change_block(task, index, Change::Deliver { index });
    }

    /// Wants the task's delivered blocks again that share a sector with the range; they become
    /// suspended if the task is.
    pub fn rewant(&mut self, task: u32, first: u64, count: u64, suspended: bool)
        ensures { self.new ≡ after task (Change.Rewant first count suspended) self.old }
    {
        self.change_range(
            task,
            first,
            count,
            Change::Rewant {
                first,
                count,
                suspended,
            },
        );
    }

    /// Suspends the task's wanted blocks.
    pub fn suspend(&mut self, task: u32)
        ensures { self.new ≡ after task Change.Suspend self.old }
    {
        self.change(task, Change::Suspend);
    }

    /// Wants the task's suspended blocks again.
    pub fn resume(&mut self, task: u32)
        ensures { self.new ≡ after task Change.Resume self.old }
    {
        self.change(task, Change::Resume);
    }

    /// The state of a registered block, by its task and its index there.
    pub fn state(&self, task: u32, index: u32) -> State
        requires { (e : Entry) × (i : ℕ) × (slice_get self.now i ≡ Some e) × (is_block task index e ≡ true) }
        ensures { (e : Entry) (i : ℕ) → slice_get self.now i ≡ Some e → is_block task index e ≡ true → e.state ≡ result }
    {
        self.entry(task, index).state
    }

    /// A registered block with its state, by its task and its index there.
    pub fn entry(&self, task: u32, index: u32) -> Entry
        requires { (e : Entry) × (i : ℕ) × (slice_get self.now i ≡ Some e) × (is_block task index e ≡ true) }
        ensures { (e : Entry) (i : ℕ) → slice_get self.now i ≡ Some e → is_block task index e ≡ true → e ≡ result }
    {
        let _ = &self.entries;
        self.entry_of(task, index)
    }

    /// How many blocks of the task are registered, and how many of them are delivered and aborted.
    pub fn counts(&self, task: u32) -> Counts
        ensures { result ≡ counts_of task self.now }
    {
        match self.tasks.get(task as usize) {
            Some(blocks) => blocks.counts,
            None => no_counts(),
        }
    }

    /// The k-th registered block of a task, counted from 0, has the index k.
    pub fn numbered_in_order(&self)
        ensures { AreInOrder (blocks_of self.now) }
    {
        let _ = &self.entries;
    }

    /// The registered blocks of the track, looked up once.
    pub fn on(&self, track: Track) -> TrackBlocks<'_>
        ensures { result ≡ on_track track self.now }
    {
        match self.tracks.at(track) {
            Some(on) => TrackBlocks::new(
                track,
                self.entries.as_slice(),
                on.indexes(),
                on.weight(),
                on.offers(),
            ),
            None => TrackBlocks::new(track, self.entries.as_slice(), &[], 0, &[]),
        }
    }

    /// The number of registered blocks of the track.
    pub fn registered_on(&self, track: Track) -> u32
        ensures count { result ≡ length (on_track track self.now) }
        ensures few { result ≤ 16000000 }
    {
        self.on(track).len()
    }

    /// The i-th registered block of the track, from 0.
    pub fn block_on(&self, track: Track, i: u32) -> Block
        requires { i < length (on_track track self.now) }
        ensures { slice_get (blocks_of (on_track track self.now)) i ≡ Some result }
    {
        self.on(track).get(i).block
    }

    /// The sum of weight times sectors over the wanted blocks of the track.
    pub fn wanted_weight_on(&self, track: Track) -> u64
        ensures sum { result ≡ wanted_weight track self.now }
        ensures small { result ≤ 16000000 * 2048000 }
    {
        self.on(track).wanted_weight()
    }

    /// The least track not before `from`, by cylinder and then by head, on which a block is
    /// registered, whatever its state; `None` exactly if there is none.
    pub fn next_registered_track(&self, from: Track) -> Option<Track>
        ensures some { IfSome result (λ track. IsNextRegistered self.now from track) }
        ensures none { IfNone result (NoneIsRegistered self.now from) }
    {
        match next_track(&self.tracks, &self.depths, from) {
            Some(on) => Some(self.entries[on.indexes()[0] as usize].block.track),
            None => None,
        }
    }

    /// An upper bound on the wanted weight of each track on the cylinders from `from` up to the
    /// end.
    ///
    /// If there are fewer than 64 cylinders, each of them is looked at, else the bands that they
    /// touch, and of these 64 at once where a whole group is touched.
    pub fn greatest_weight_in(&self, from: u32, end: u32) -> u64
        requires some { from < end }
        ensures each { (track : Track) → from ≤ track.cylinder → track.cylinder < end → wanted_weight track self.now ≤ result }
        ensures small { result ≤ 16000000 * 2048000 }
    {
        self.greatest.among(from, end)
    }

    /// An upper bound on the weights of all registered blocks that have one sector of the band in
    /// common.
    pub fn depth_in(&self, band: u32) -> u64
        ensures deep { (track : Track) (lbn : ℕ) → track.cylinder / 64 ≡ band → depth_at track lbn self.now ≤ result }
        ensures small { result ≤ 16000000 * 1000 }
    {
        self.depths.most_in(band)
    }

    /// An upper bound on the weights of all registered blocks that have one sector of the cylinders
    /// from `from` up to the end in common.
    ///
    /// It is the greatest of the bounds of the bands that they touch, of which 64 are looked at at once
    /// where a whole group is touched.
    pub fn greatest_depth_in(&self, from: u32, end: u32) -> u64
        requires some { from < end }
        ensures each { (track : Track) (lbn : ℕ) → from ≤ track.cylinder → track.cylinder < end → depth_at track lbn self.now ≤ result }
        ensures small { result ≤ 16000000 * 1000 }
    {
        self.depths.most_among(from / BAND, (end - 1) / BAND + 1)
    }
}
