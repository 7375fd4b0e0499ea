// What decides which request is taken.
ghost use Rattle.std.specs.Prelude.{◌<◌, ◌≤◌, ◌^◌, ◌*◌, length};
ghost use Rattle.fb_geometry.specs.Shape.{IsTrackOf};
ghost use Rattle.fb_model.specs.Accepted.{IsRequestOf};
ghost use Rattle.fb_fastq.specs.Joining.{Waits, AllHeld, IsFirstHeld};
ghost use Rattle.fb_fastq.specs.Spots.{IsCylinderOf};

use fb_queue::Policy;
use fb_service::Disk;
use fb_units::{Ns, Request, Track};
use std::collections::BTreeMap;

/// What decides which of the requests that wait is taken next.
///
/// Requests wait in a map by the cylinder of their first sector, and those of one cylinder in
/// order of joining.
pub trait Choice: Policy {
    /// The cylinder and the number of joining of the request of least key, while the head is on this
    /// track at the instant `now`, in ns.
    ///
    /// Of several requests with the least key the one that joined first is chosen.
    fn choose(
        &self,
        waiting: &BTreeMap<(u64, u64), Request>,
        disk: &Disk,
        head: Track,
        now: Ns,
    ) -> (u64, u64)
        requires some { 0 < length waiting.now.entries }
        requires spots { AllHeld (λ key request. IsCylinderOf disk.now request key.0) waiting.now }
        requires on_disk { AllHeld (λ key request. IsRequestOf disk.now.map request) waiting.now }
        requires head { IsTrackOf disk.now.map head }
        requires now { now ≤ 9 * 10 ^ 18 }
        ensures found { Waits waiting.now result }
        ensures first { IsFirstHeld (Self.key disk.now head now) waiting.now result };
}
