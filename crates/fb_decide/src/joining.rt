// Requests that join the queue.
ghost use Rattle.std.specs.Prelude.{◌≡◌, ◌<◌, ◌≤◌, ◌^◌, length, take, IfOk, IfSome, OnOk, slice_get};
ghost use Rattle.std.specs.List.{AllByRecursion};
ghost use Rattle.fb_service.specs.declared.disk.Disk.{Disk};
ghost use Rattle.fb_decide.specs.Waiting.{left};

use fb_queue::Queue;
use fb_units::{NoMemory, Ns, Request};

/// Adds the requests that have arrived to the queue; returns how many have joined by then.
///
/// The only error is out of memory.
pub fn join_arrived<Q: Queue>(
    requests: &[Request],
    queue: &mut Q,
    next: usize,
    now: Ns,
) -> Result<usize, NoMemory>
    requires within { next ≤ length requests.now }
    requires few { length requests.now ≤ 10 ^ 6 }
    requires joined { Q.joined queue.old ≡ next }
    requires arrived { AllByRecursion (λ r. r.arrival ≤ now) (Q.pending queue.old) }
    requires come { AllByRecursion (λ r. r.arrival ≤ now) (take next requests.now) }
    ensures within { IfOk result (λ later. later ≤ length requests.now) }
    ensures joined { IfOk result (λ later. Q.joined queue.new ≡ later) }
    ensures left { IfOk result (λ later. left requests.now later (Q.pending queue.new) ≡ left requests.now next (Q.pending queue.old)) }
    ensures arrived { OnOk result (AllByRecursion (λ r. r.arrival ≤ now) (Q.pending queue.new)) }
    ensures come { IfOk result (λ later. AllByRecursion (λ r. r.arrival ≤ now) (take later requests.now)) }
    ensures fits { OnOk result ((disk : Disk) → Q.fits queue.old disk → Q.fits queue.new disk) }
    ensures ahead { IfOk result (λ later. IfSome (slice_get requests.now later) (λ r. now < r.arrival)) }
{
    let mut next = next;
    while next < requests.len() && requests[next].arrival <= now {
        queue.add(requests[next])?;
        next += 1;
    }
    Ok(next)
}
