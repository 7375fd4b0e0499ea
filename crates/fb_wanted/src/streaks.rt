// Where the streaks of a task's blocks begin. A streak has blocks that were registered one after
// another and begin in one region of the disk, so that the blocks near a range are found without a
// look at all others.
ghost use Rattle.std.specs.Prelude.{◌≡◌, ◌⊎◌, ℕ, ◌<◌, ◌≤◌, ◌+◌, ◌^◌, true, false, IfSome, IfNone, OnOk, OnErr};
ghost use Rattle.std.specs.BTreeSet.{contains};
ghost use Rattle.fb_wanted.specs.declared.streaks.Streak.{Streak};
ghost use Rattle.fb_wanted.specs.LookUp.{region_of, streak_cmp, key_of, IsUpTo};

use fb_units::NoMemory;
use std::collections::BTreeSet;

/// The number of neighbouring LBNs of a region. Region k has the LBNs from 512 k to 512 k + 511.
pub const REGION: u64 = 512;

/// Where a streak begins.
#[derive(Clone, Copy)]
pub struct Streak {
    /// The region in which each of its blocks begins.
    pub region: u64,
    /// The number of its first block in the task.
    pub number: u32,
}

/// The region of an LBN.
pub fn region_of(lbn: u64) -> u64
    ensures { result ≡ region_of lbn }
{
    lbn / REGION
}

/// Notes a streak of a task, if `is_streak`. Out of memory, nothing has changed.
pub fn note_streak(
    streaks: &mut BTreeSet<(u32, u64, u32)>,
    task: u32,
    streak: Streak,
    is_streak: bool,
) -> Result<(), NoMemory>
    ensures stay { (k : ℕ × ℕ × ℕ) → contains streak_cmp streaks.old k ≡ true → contains streak_cmp streaks.new k ≡ true }
    ensures more { (k : ℕ × ℕ × ℕ) → contains streak_cmp streaks.new k ≡ true
        → (contains streak_cmp streaks.old k ≡ true) ⊎ ((is_streak ≡ true) × (k ≡ key_of task streak)) }
    ensures noted { OnOk result (is_streak ≡ true → contains streak_cmp streaks.new (key_of task streak) ≡ true) }
    ensures err { OnErr result (streaks.new ≡ streaks.old) }
{
    if is_streak {
        streaks.insert((task, streak.region, streak.number))?;
    }
    Ok(())
}

/// Takes a streak of a task from those that are noted.
pub fn forget_streak(streaks: &mut BTreeSet<(u32, u64, u32)>, task: u32, streak: Streak)
    ensures gone { contains streak_cmp streaks.new (key_of task streak) ≡ false }
    ensures only { (k : ℕ × ℕ × ℕ) → contains streak_cmp streaks.new k ≡ true → contains streak_cmp streaks.old k ≡ true }
    ensures others { (k : ℕ × ℕ × ℕ) → contains streak_cmp streaks.old k ≡ true
        → (contains streak_cmp streaks.new k ≡ true) ⊎ (k ≡ key_of task streak) }
{
    streaks.remove(&(task, streak.region, streak.number));
}

/// The first streak of the task that is noted, from `from` on: by region, and then by number.
pub fn next_streak(streaks: &BTreeSet<(u32, u64, u32)>, task: u32, from: Streak) -> Option<Streak>
    ensures found { IfSome result (λ streak. contains streak_cmp streaks.now (key_of task streak) ≡ true) }
    ensures from { IfSome result (λ streak. IsUpTo from streak) }
    ensures first { IfSome result (λ streak. (other : Streak) → IsUpTo from other
        → contains streak_cmp streaks.now (key_of task other) ≡ true → IsUpTo streak other) }
    ensures none { IfNone result ((other : Streak) → IsUpTo from other → contains streak_cmp streaks.now (key_of task other) ≡ false) }
{
    match streaks.range((task, from.region, from.number)..).next() {
        Some(key) => {
            if key.0 == task {
                let region = key.1;
                let number = key.2;
                Some(Streak { region, number })
            } else {
                None
            }
        }
        None => None,
    }
}

/// Whether all blocks of a region begin behind the range of `count` sectors from the LBN `first` on.
pub fn is_behind(region: u64, first: u64, count: u64) -> bool
    ensures { result ≡ true → (lbn : ℕ) → region ≤ region_of lbn → first + count ≤ lbn }
{
    match first.checked_add(count) {
        Some(end) => region_of(end.saturating_sub(1)) < region,
        None => false,
    }
}
