// First come, first served, from a ring.
ghost use Rattle.std.specs.Prelude.{◌≡◌, []};
ghost use Rattle.fb_model.specs.PlainReplay.{fcfs};

use fb_queue::Queue;
use fb_service::Disk;
use fb_units::{NoMemory, Ns, Request, Track};
use std::alloc::Global;
use std::collections::VecDeque;

/// Takes requests in order of joining, from the front of a ring.
#[derive(Drop)]
pub struct FcfsRing {
    waiting: VecDeque<Request>,
    joined: u64,
}

impl FcfsRing {
    /// An empty queue.
    pub fn new(alloc: Global) -> FcfsRing
        ensures pending { result.waiting.items ≡ [] }
        ensures joined { result.joined ≡ 0 }
    {
        FcfsRing {
            waiting: VecDeque::new(alloc),
            joined: 0,
        }
    }
}

impl Queue for FcfsRing {
    ghost pending = { λ q. q.waiting.items };

    ghost joined = { λ q. q.joined };

    ghost key = { fcfs };

    ghost fits = { λ queue disk. Unit {0} };

    ghost fits_any = { λ queue disk none. tt };

    fn add(&mut self, request: Request) -> Result<(), NoMemory> {
        self.waiting.push_back(request)?;
        self.joined += 1;
        Ok(())
    }

    fn take(&mut self, _disk: &Disk, _head: Track, _now: Ns) -> Request {
        match self.waiting.pop_front() {
            Some(request) => request,
            None => unreachable!(),
        }
    }

    fn is_empty(&self) -> bool {
        self.waiting.is_empty()
    }
}
