// A queue that takes the request of least key.
ghost use Rattle.std.specs.Prelude.{◌≡◌, [], ◌*◌, ◌<◌, ◌≤◌, ◌^◌, length};
ghost use Rattle.std.specs.List.{AllByRecursion};
ghost use Rattle.fb_geometry.specs.Shape.{IsTrackOf};
ghost use Rattle.fb_model.specs.Accepted.{IsRequestOf};
ghost use Rattle.fb_queue.specs.Least.{IsFirstLeastAt};

use crate::{Policy, Queue};
use fb_service::Disk;
use fb_units::{NoMemory, Ns, Request, Track};
use std::alloc::Global;

/// Waiting requests in order of joining, of which the one with the policy's least key is taken.
///
/// Of several with the least key the one that joined first is taken. Each look at the queue costs
/// time in proportion to its length.
#[derive(Drop)]
pub struct Keyed<P: Policy> {
    policy: P,
    waiting: Vec<Request>,
    joined: u64,
}

impl<P: Policy + Default> Keyed<P> {
    /// An empty queue.
    pub fn new(alloc: Global) -> Keyed<P>
        ensures pending { result.waiting.items ≡ [] }
        ensures joined { result.joined ≡ 0 }
    {
        Keyed {
            policy: P::default(),
            waiting: Vec::new(alloc),
            joined: 0,
        }
    }
}

/// The index of the first request with the least key.
pub fn first_least<P: Policy>(
    policy: &P,
    disk: &Disk,
    head: Track,
    now: Ns,
    waiting: &[Request],
) -> usize
    requires some { 0 < length waiting.now }
    requires on_disk { AllByRecursion (IsRequestOf disk.now.map) waiting.now }
    requires head { IsTrackOf disk.now.map head }
    requires now { now ≤ 9 * 10 ^ 18 }
    ensures { IsFirstLeastAt (P.key disk.now head now) waiting.now (length waiting.now) result }
{
    let mut best = 0;
    let mut least = policy.key_of(disk, head, now, &waiting[0]);
    for i in 1..waiting.len() {
        let next = policy.key_of(disk, head, now, &waiting[i]);
        if next < least {
            best = i;
            least = next;
        }
    }
    best
}

impl<P: Policy> Queue for Keyed<P> {
    ghost pending = { λ q. q.waiting.items };

    ghost joined = { λ q. q.joined };

    ghost key = { P.key };

    ghost fits = { λ queue disk. Unit {0} };

    ghost fits_any = { λ queue disk none. tt };

    fn add(&mut self, request: Request) -> Result<(), NoMemory> {
        self.waiting.push(request)?;
        self.joined += 1;
        Ok(())
    }

    fn take(&mut self, disk: &Disk, head: Track, now: Ns) -> Request {
        let index = first_least(&self.policy, disk, head, now, self.waiting.as_slice());
        self.waiting.remove(index)
    }

    fn is_empty(&self) -> bool {
        self.waiting.is_empty()
    }
}
