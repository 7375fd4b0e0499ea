// The tasks that were touched since tasks last chose and were tested.
ghost use Rattle.std.specs.Prelude.{◌≡◌, ◌⊎◌, ℕ, ◌<◌, ◌≤◌, true, false, Some, slice_get, IfSome, IfNone, OnOk, OnErr};
ghost use Rattle.std.specs.BTreeSet.{BTreeSet as Set, contains};
ghost use Rattle.std.specs.Ordering.{nat_cmp};
ghost use Rattle.fb_tasks.specs.declared.session.Session.{Session};
ghost use Rattle.fb_tasks.specs.Listing.{AreListed};

use crate::session::Session;
use fb_units::NoMemory;
use std::collections::BTreeSet;

/// Adds a task to a list.
///
/// The only error is out of memory, after which nothing has changed.
pub fn note(list: &mut BTreeSet<u32>, task: u32) -> Result<(), NoMemory>
    ensures stay { (k : ℕ) → contains nat_cmp list.old k ≡ true → contains nat_cmp list.new k ≡ true }
    ensures only { (k : ℕ) → contains nat_cmp list.new k ≡ true → (k ≡ task) ⊎ (contains nat_cmp list.old k ≡ true) }
    ensures noted { OnOk result (contains nat_cmp list.new task ≡ true) }
    ensures err { OnErr result ((k : ℕ) → contains nat_cmp list.new k ≡ true → contains nat_cmp list.old k ≡ true) }
{
    list.insert(task)?;
    Ok(())
}

/// Takes a task from a list.
pub fn forget(list: &mut BTreeSet<u32>, task: u32)
    ensures others { (k : ℕ) → contains nat_cmp list.old k ≡ true → (k ≡ task) ⊎ (contains nat_cmp list.new k ≡ true) }
    ensures only { (k : ℕ) → contains nat_cmp list.new k ≡ true → contains nat_cmp list.old k ≡ true }
    ensures gone { contains nat_cmp list.new task ≡ false }
{
    list.remove(&task);
}

/// The first task from `from` on that was touched since tasks last chose and were tested.
///
/// The list may also name a task that a call was about to touch when it ran out of memory.
pub fn next_touched(listed: &BTreeSet<u32>, sessions: &[Session], from: u32) -> Option<u32>
    requires { (near : Set (ℕ × ℕ)) × AreListed sessions.now listed.now near }
    ensures found { IfSome result (λ task. contains nat_cmp listed.now task ≡ true) }
    ensures touched { IfSome result (λ task. (session : Session) → slice_get sessions.now task ≡ Some session → session.touched ≡ true) }
    ensures from { IfSome result (λ task. from ≤ task) }
    ensures first { IfSome result
        (λ task. (k : ℕ) (session : Session) → from ≤ k → k < task → slice_get sessions.now k ≡ Some session → session.touched ≡ false) }
    ensures none { IfNone result ((k : ℕ) (session : Session) → from ≤ k → slice_get sessions.now k ≡ Some session
        → session.touched ≡ false) }
{
    let mut from = from;
    while let Some(task) = next_noted(listed, from) {
        if sessions[task as usize].touched {
            return Some(task);
        }
        from = task + 1;
    }
    None
}

// The first task of a list from `from` on.
fn next_noted(list: &BTreeSet<u32>, from: u32) -> Option<u32>
    ensures found { IfSome result (λ task. contains nat_cmp list.now task ≡ true) }
    ensures from { IfSome result (λ task. from ≤ task) }
    ensures first { IfSome result (λ task. (k : ℕ) → from ≤ k → k < task → contains nat_cmp list.now k ≡ false) }
    ensures none { IfNone result ((k : ℕ) → from ≤ k → contains nat_cmp list.now k ≡ false) }
{
    if list.is_empty() {
        return None;
    }
    match list.range(from..).next() {
        Some(task) => Some(*task),
        None => None,
    }
}
