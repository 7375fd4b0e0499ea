// Changes of the blocks of a task.
ghost use Rattle.std.specs.Prelude.{◌≡◌, ◌+◌, ℕ, Bool, List, true, false, length, filter};
ghost use Rattle.fb_wanted.specs.declared.block.Block.{Block};
ghost use Rattle.fb_wanted.specs.declared.block.Entry.{Entry};
ghost use Rattle.fb_wanted.specs.Counting.{counted};
ghost use Rattle.fb_wanted.specs.LookUp.{LeavesAll};
ghost use Rattle.fb_wanted.specs.States.{shares, is_wanted, is_suspended, is_delivered, is_open, wanted_unless, state_after};
ghost use Rattle.fb_wanted.specs.States.{entry_after, is_block};
ghost use Rattle.fb_units.specs.Tracks.{same_track};

use crate::{Block, Change, Counts, State};

// Whether the block shares a sector with the range.
fn shares(block: Block, first: u64, count: u64) -> bool
    ensures { result ≡ shares first count block }
{
    if count == 0 {
        return false;
    }
    if block.count == 0 {
        return false;
    }
    if first <= block.lbn {
        block.lbn - first < count
    } else {
        first - block.lbn < block.count as u64
    }
}

fn is_open(state: State) -> bool
    ensures { result ≡ is_open state }
{
    match state {
        State::Wanted => true,
        State::Suspended => true,
        State::Delivered => false,
        State::Aborted => false,
    }
}

/// The state of a block that is to be read: suspended if its task is, else wanted.
pub fn wanted_unless(suspended: bool) -> State
    ensures { result ≡ wanted_unless suspended }
{
    if suspended {
        State::Suspended
    } else {
        State::Wanted
    }
}

fn aborted(first: u64, count: u64, block: Block, state: State) -> State
    ensures { result ≡ state_after (Change.Abort first count) block state }
{
    if !shares(block, first, count) {
        return state;
    }
    if is_open(state) {
        State::Aborted
    } else {
        state
    }
}

fn rewanted(first: u64, count: u64, suspended: bool, block: Block, state: State) -> State
    ensures { result ≡ state_after (Change.Rewant first count suspended) block state }
{
    if !shares(block, first, count) {
        return state;
    }
    match state {
        State::Delivered => wanted_unless(suspended),
        _ => state,
    }
}

/// The state of a block of the task after a change.
pub fn state_after(change: Change, block: Block, state: State) -> State
    ensures { result ≡ state_after change block state }
{
    match change {
        Change::Abort { first, count } => aborted(first, count, block, state),
        Change::Deliver { index } => {
            if block.index == index {
                State::Delivered
            } else {
                state
            }
        }
        Change::Rewant {
            first,
            count,
            suspended,
        } => rewanted(first, count, suspended, block, state),
        Change::Suspend => match state {
            State::Wanted => State::Suspended,
            _ => state,
        },
        Change::Resume => match state {
            State::Suspended => State::Wanted,
            _ => state,
        },
    }
}

/// Whether the two states are one.
pub fn is_same(state: State, other: State) -> bool
    ensures same { result ≡ true → state ≡ other }
    ensures differ { result ≡ false → state ≡ other → ⊥ }
{
    state == other
}

// Whether a task with these counts has a block that is neither delivered nor aborted.
fn has_open(counts: Counts) -> bool
    ensures none { result ≡ false → counts.delivered + counts.aborted ≡ counts.registered }
    ensures some { result ≡ true → counts.delivered + counts.aborted ≡ counts.registered → ⊥ }
{
    counts.delivered as u64 + counts.aborted as u64 != counts.registered as u64
}

/// Whether the change may concern one of the blocks that have these counts, such as those of a task or of a group: a want again
/// concerns those that are delivered, and an abort, a suspension and its end those that are neither delivered nor aborted.
pub fn may_change(counts: Counts, change: Change) -> bool
    ensures { result ≡ false → (test : Block → Bool) (es : List Entry) → counts ≡ counted test es → LeavesAll test change es }
{
    let some_open = has_open(counts);
    match change {
        Change::Abort { first: _, count: _ } => some_open,
        Change::Deliver { index: _ } => true,
        Change::Rewant {
            first: _,
            count: _,
            suspended: _,
        } => counts.delivered != 0,
        Change::Suspend => some_open,
        Change::Resume => some_open,
    }
}
