// A queue over pending requests by angle.
ghost use Rattle.std.specs.Prelude.{◌≡◌, []};
ghost use Rattle.std.specs.List.{AllByRecursion};
ghost use Rattle.fb_model.specs.PlainReplay.{sptf};
ghost use Rattle.fb_fastq.specs.Joining.{pending_of};
ghost use Rattle.fb_fastq.specs.Spots.{IsAngleOf};

use crate::Placing;
use crate::angles::{angle_of, first_by_angle};
use crate::by_spot::{add, held, take_out};
use fb_queue::{Policy, Soonest};
use fb_service::Disk;
use fb_units::{NoMemory, Ns, Request, Track};
use std::alloc::Global;
use std::collections::BTreeMap;
use std::marker::Model;

/// Waiting requests in a map by the angle at which their first sector begins, and number of joining.
///
/// It serves an arm that comes to any cylinder in a small part of a turn: the request that passes
/// next can then nearly always be reached in time.
#[derive(Drop)]
pub struct AngleMap {
    waiting: BTreeMap<(u64, u64), Request>,
    joined: u64,
}

impl Model for AngleMap {
    ghost use Rattle.std.specs.Prelude.{◌<◌, ◌^◌};
    ghost use Rattle.fb_fastq.specs.Joining.{QueueState, HaveOwnNumbers};

    ghost Value = { QueueState };

    ghost view = { λ q. record { waiting = q.waiting.entries; joined = q.joined } };

    ghost invariant = { λ q. HaveOwnNumbers q.waiting.entries q.joined × (q.joined < 2 ^ 64) };
}

impl Policy for AngleMap {
    ghost key = { sptf };

    fn key_of(&self, disk: &Disk, head: Track, now: Ns, request: &Request) -> u64 {
        Soonest.key_of(disk, head, now, request)
    }
}

impl Placing for AngleMap {
    ghost pending = { λ q. pending_of q.waiting };

    ghost fits = { λ q disk. AllByRecursion (λ w. IsAngleOf disk w.1 w.0.0) q.waiting };

    ghost use Rattle.fb_fastq.specs.NonePending.{all_of_none};

    ghost fits_any = { λ q disk none. all_of_none (λ w. IsAngleOf disk w.1 w.0.0) q.waiting none };

    fn new(alloc: Global) -> AngleMap {
        AngleMap {
            waiting: BTreeMap::new(alloc),
            joined: 0,
        }
    }

    fn place(&mut self, disk: &Disk, request: Request) -> Result<(), NoMemory> {
        if self.joined == u64::MAX {
            return Err(NoMemory);
        }
        let angle = angle_of(disk, &request);
        add(&mut self.waiting, angle, self.joined, request)?;
        self.joined += 1;
        Ok(())
    }

    fn least_key(&self, disk: &Disk, head: Track, now: Ns) -> u64 {
        let key = first_by_angle(&self.waiting, disk, head, now);
        let request = held(&self.waiting, key);
        self.key_of(disk, head, now, &request)
    }

    fn take(&mut self, disk: &Disk, head: Track, now: Ns) -> Request {
        let key = first_by_angle(&self.waiting, disk, head, now);
        take_out(&mut self.waiting, key)
    }

    fn is_empty(&self) -> bool {
        self.waiting.is_empty()
    }
}
