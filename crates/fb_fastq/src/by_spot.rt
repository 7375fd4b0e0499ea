// Pending requests by spot and number of joining.
ghost use Rattle.std.specs.Prelude.{◌≡◌, ℕ, ◌+◌, ◌-◌, ◌<◌, ◌≤◌, ◌^◌, ◌∷◌, ◌++◌, [], Some, IfSome, IfNone, OnOk, OnErr, ◌⊎◌, length};
ghost use Rattle.std.specs.BTreeMap.{insert_entry, is_at};
ghost use Rattle.std.specs.Map.{remove_entry};
ghost use Rattle.fb_model.specs.PlainReplay.{first_least};
ghost use Rattle.fb_fastq.specs.Joining.{order, Waits, Holds, pending_of, HaveOwnNumbers, IsNoLater, IsFirstHeld};
ghost use Rattle.fb_fastq.specs.Turns.{turn};

use fb_units::{NoMemory, Request};
use std::collections::BTreeMap;

/// The request of the least spot from this one on; of several at that spot, the one that joined
/// first.
pub fn next_from(
    waiting: &BTreeMap<(u64, u64), Request>,
    spot: u64,
) -> Option<((u64, u64), Request)>
    ensures found { IfSome result (λ w. Holds waiting.now w.0 w.1) }
    ensures from { IfSome result (λ w. spot ≤ w.0.0) }
    ensures least { IfSome result (λ w. (k : ℕ × ℕ) → Waits waiting.now k → spot ≤ k.0 → w.0.0 ≤ k.0) }
    ensures first { IfSome result (λ w. (k : ℕ × ℕ) → Waits waiting.now k → k.0 ≡ w.0.0 → w.0.1 ≤ k.1) }
    ensures none { IfNone result ((k : ℕ × ℕ) → Waits waiting.now k → k.0 < spot) }
{
    match waiting.range((spot, 0)..).next() {
        Some((key, request)) => Some((*key, *request)),
        None => None,
    }
}

/// The first request from this key on, by spot and then by number of joining.
pub fn next_key(
    waiting: &BTreeMap<(u64, u64), Request>,
    start: (u64, u64),
) -> Option<((u64, u64), Request)>
    ensures found { IfSome result (λ w. Holds waiting.now w.0 w.1) }
    ensures behind { IfSome result (λ w. IsNoLater start.0 start.1 w.0.0 w.0.1) }
    ensures least { IfSome result (λ w. (k : ℕ × ℕ) → Waits waiting.now k → IsNoLater start.0 start.1 k.0 k.1
        → IsNoLater w.0.0 w.0.1 k.0 k.1) }
    ensures none { IfNone result ((k : ℕ × ℕ) → Waits waiting.now k → IsNoLater start.0 start.1 k.0 k.1 → ⊥) }
{
    match waiting.range(start..).next() {
        Some((key, request)) => Some((*key, *request)),
        None => None,
    }
}

/// The request of the least spot from this one on; if there is none, that of the least spot of all.
pub fn next_or_first(waiting: &BTreeMap<(u64, u64), Request>, spot: u64) -> ((u64, u64), Request)
    requires { 0 < length waiting.now.entries }
    ensures found { Holds waiting.now result.0 result.1 }
    ensures next { (k : ℕ × ℕ) → Waits waiting.now k → spot ≤ k.0 → (spot ≤ result.0.0) × (result.0.0 ≤ k.0) }
    ensures first { result.0.0 < spot → (k : ℕ × ℕ) → Waits waiting.now k → result.0.0 ≤ k.0 }
{
    if let Some(next) = next_from(waiting, spot) {
        return next;
    }
    match next_from(waiting, 0) {
        Some(first) => first,
        None => unreachable!(),
    }
}

/// The last request before a spot, by spot and number of joining.
pub fn last_before(
    waiting: &BTreeMap<(u64, u64), Request>,
    spot: u64,
) -> Option<((u64, u64), Request)>
    ensures found { IfSome result (λ w. Holds waiting.now w.0 w.1) }
    ensures before { IfSome result (λ w. w.0.0 < spot) }
    ensures greatest { IfSome result (λ w. (k : ℕ × ℕ) → Waits waiting.now k → k.0 < spot → k.0 ≤ w.0.0) }
    ensures none { IfNone result ((k : ℕ × ℕ) → Waits waiting.now k → spot ≤ k.0) }
{
    match waiting.range(..(spot, 0)).next_back() {
        Some((key, request)) => Some((*key, *request)),
        None => None,
    }
}

/// The key of the request of the greatest spot before this one; of several at that spot, the one
/// that joined first.
pub fn first_before(waiting: &BTreeMap<(u64, u64), Request>, spot: u64) -> Option<(u64, u64)>
    ensures found { IfSome result (Waits waiting.now) }
    ensures before { IfSome result (λ key. key.0 < spot) }
    ensures greatest { IfSome result (λ key. (k : ℕ × ℕ) → Waits waiting.now k → k.0 < spot → k.0 ≤ key.0) }
    ensures first { IfSome result (λ key. (k : ℕ × ℕ) → Waits waiting.now k → k.0 ≡ key.0 → key.1 ≤ k.1) }
    ensures none { IfNone result ((k : ℕ × ℕ) → Waits waiting.now k → spot ≤ k.0) }
{
    match last_before(waiting, spot) {
        Some((last, _)) => match next_from(waiting, last.0) {
            Some((first, _)) => Some(first),
            None => unreachable!(),
        },
        None => None,
    }
}

/// The first request at a spot or behind it, before an end.
pub fn next_in(
    waiting: &BTreeMap<(u64, u64), Request>,
    spot: u64,
    end: u64,
) -> Option<((u64, u64), Request)>
    ensures found { IfSome result (λ w. Holds waiting.now w.0 w.1) }
    ensures inside { IfSome result (λ w. (spot ≤ w.0.0) × (w.0.0 < end)) }
    ensures least { IfSome result (λ w. (k : ℕ × ℕ) → Waits waiting.now k → spot ≤ k.0 → w.0.0 ≤ k.0) }
    ensures first { IfSome result (λ w. (k : ℕ × ℕ) → Waits waiting.now k → k.0 ≡ w.0.0 → w.0.1 ≤ k.1) }
    ensures none { IfNone result ((k : ℕ × ℕ) → Waits waiting.now k → spot ≤ k.0 → end ≤ k.0) }
{
    match next_from(waiting, spot) {
        Some((key, request)) => {
            if key.0 < end {
                Some((key, request))
            } else {
                None
            }
        }
        None => None,
    }
}

/// The next request in a ring of `length` spots that begins at spot `start`.
///
/// The search begins `from` spots behind `start`, and goes on from the ring's end to its start. Of
/// several requests at one spot the one that joined first is found.
#[tactic(auto, using(crate::proofs::Turns::next_ahead))]
pub fn next_round(
    waiting: &BTreeMap<(u64, u64), Request>,
    start: u64,
    length: u64,
    from: u64,
) -> Option<((u64, u64), Request)>
    requires from { from < length }
    requires short { start + length < 2 ^ 64 }
    ensures found { IfSome result (λ w. Holds waiting.now w.0 w.1) }
    ensures inside { IfSome result (λ w. (start ≤ w.0.0) × (w.0.0 < start + length)) }
    ensures first { IfSome result (λ w. (k : ℕ × ℕ) → Waits waiting.now k → start ≤ k.0 → k.0 < start + length
        → IsNoLater (turn length from (w.0.0 - start)) w.0.1 (turn length from (k.0 - start)) k.1) }
    ensures none { IfNone result ((k : ℕ × ℕ) → Waits waiting.now k → start ≤ k.0 → start + length ≤ k.0) }
{
    match next_in(waiting, start + from, start + length) {
        Some(ahead) => Some(ahead),
        None => next_in(waiting, start, start + from),
    }
}

/// Adds a request at its spot, behind all that joined before.
///
/// The only error is out of memory, after which nothing has changed.
pub fn add(
    waiting: &mut BTreeMap<(u64, u64), Request>,
    spot: u64,
    joined: u64,
    request: Request,
) -> Result<(), NoMemory>
    requires { HaveOwnNumbers waiting.old.entries joined }
    ensures ok { OnOk result (pending_of waiting.new.entries ≡ pending_of waiting.old.entries ++ request ∷ []) }
    ensures numbers { OnOk result (HaveOwnNumbers waiting.new.entries (joined + 1)) }
    ensures entries { OnOk result (waiting.new.entries ≡ insert_entry order waiting.old.entries (spot, joined) request) }
    ensures err { OnErr result (waiting.new.entries ≡ waiting.old.entries) }
{
    waiting.insert((spot, joined), request)?;
    Ok(())
}

/// The request under a key.
pub fn held(waiting: &BTreeMap<(u64, u64), Request>, key: (u64, u64)) -> Request
    requires has { Waits waiting.now key }
    ensures value { Holds waiting.now key result }
{
    match waiting.get(&key) {
        Some(request) => *request,
        None => unreachable!(),
    }
}

/// Takes out a request.
pub fn take_out(waiting: &mut BTreeMap<(u64, u64), Request>, key: (u64, u64)) -> Request
    requires has { Waits waiting.old key }
    ensures value { Holds waiting.old key result }
    ensures least { (joined : ℕ) (rank : Request → ℕ) → HaveOwnNumbers waiting.old.entries joined → IsFirstHeld rank waiting.old key
        → first_least rank (pending_of waiting.old.entries) ≡ Some (result, pending_of waiting.new.entries) }
    ensures numbers { (joined : ℕ) → HaveOwnNumbers waiting.old.entries joined → HaveOwnNumbers waiting.new.entries joined }
    ensures entries { waiting.new.entries ≡ remove_entry (is_at (order key)) waiting.old.entries }
{
    match waiting.remove(&key) {
        Some(request) => request,
        None => unreachable!(),
    }
}

/// The one of two that joined first.
pub fn earlier(a: (u64, u64), b: (u64, u64)) -> (u64, u64)
    ensures one { (result ≡ a) ⊎ (result ≡ b) }
    ensures least { (result.1 ≤ a.1) × (result.1 ≤ b.1) }
{
    if b.1 < a.1 { b } else { a }
}
