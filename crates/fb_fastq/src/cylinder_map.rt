// A queue over pending requests by cylinder.
ghost use Rattle.std.specs.Prelude.{◌≡◌, []};
ghost use Rattle.std.specs.List.{AllByRecursion};
ghost use Rattle.fb_fastq.specs.Joining.{pending_of};
ghost use Rattle.fb_fastq.specs.Spots.{IsCylinderOf};

use crate::by_spot::{add, held, take_out};
use crate::cylinders::cylinder_of;
use crate::{Choice, Placing};
use fb_queue::Policy;
use fb_service::Disk;
use fb_units::{NoMemory, Ns, Request, Track};
use std::alloc::Global;
use std::collections::BTreeMap;
use std::marker::Model;

/// Waiting requests in a map by cylinder and number of joining; the choice finds the one of least
/// key.
#[derive(Drop)]
pub struct CylinderMap<C: Choice> {
    choice: C,
    waiting: BTreeMap<(u64, u64), Request>,
    joined: u64,
}

impl<C: Choice> Model for CylinderMap<C> {
    ghost use Rattle.fb_fastq.specs.Joining.{QueueState, HaveOwnNumbers};

    ghost Value = { QueueState };

    ghost view = { λ q. record { waiting = q.waiting.entries; joined = q.joined } };

    ghost invariant = { λ q. HaveOwnNumbers q.waiting.entries q.joined };
}

impl<C: Choice + Default> Policy for CylinderMap<C> {
    ghost key = { C.key };

    fn key_of(&self, disk: &Disk, head: Track, now: Ns, request: &Request) -> u64 {
        self.choice.key_of(disk, head, now, request)
    }
}

impl<C: Choice + Default> Placing for CylinderMap<C> {
    ghost pending = { λ q. pending_of q.waiting };

    ghost fits = { λ q disk. AllByRecursion (λ w. IsCylinderOf disk w.1 w.0.0) q.waiting };

    ghost use Rattle.fb_fastq.specs.NonePending.{all_of_none};

    ghost fits_any = { λ q disk none. all_of_none (λ w. IsCylinderOf disk w.1 w.0.0) q.waiting none };

    fn new(alloc: Global) -> CylinderMap<C> {
        CylinderMap {
            choice: C::default(),
            waiting: BTreeMap::new(alloc),
            joined: 0,
        }
    }

    fn place(&mut self, disk: &Disk, request: Request) -> Result<(), NoMemory> {
        if self.joined == u64::MAX {
            return Err(NoMemory);
        }
        let cylinder = cylinder_of(disk, &request);
        add(&mut self.waiting, cylinder, self.joined, request)?;
        self.joined += 1;
        Ok(())
    }

    fn least_key(&self, disk: &Disk, head: Track, now: Ns) -> u64 {
        let key = self.choice.choose(&self.waiting, disk, head, now);
        let request = held(&self.waiting, key);
        self.choice.key_of(disk, head, now, &request)
    }

    fn take(&mut self, disk: &Disk, head: Track, now: Ns) -> Request {
        let key = self.choice.choose(&self.waiting, disk, head, now);
        take_out(&mut self.waiting, key)
    }

    fn is_empty(&self) -> bool {
        self.waiting.is_empty()
    }
}
