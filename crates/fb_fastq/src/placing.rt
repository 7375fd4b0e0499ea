// Where requests are put that have joined a queue.
ghost use Rattle.std.specs.Prelude.{◌≡◌, ◌==◌, ◌*◌, ◌<◌, ◌≤◌, ◌^◌, List, [], ◌∷◌, ◌++◌, length, OnOk, OnErr, Some};
ghost use Rattle.std.specs.List.{AllByRecursion};
ghost use Rattle.fb_units.specs.declared.types.Request.{Request};
ghost use Rattle.fb_service.specs.declared.disk.Disk.{Disk};
ghost use Rattle.fb_geometry.specs.Shape.{IsTrackOf};
ghost use Rattle.fb_model.specs.PlainReplay.{first_least};
ghost use Rattle.fb_model.specs.Accepted.{IsRequestOf};

use fb_queue::Policy;
use fb_service::Disk;
use fb_units::{NoMemory, Ns, Request, Track};
use std::alloc::Global;

/// Requests, each in a place that depends on the disk, in which the one of least key is found quickly.
pub trait Placing: Policy {
    /// The requests, in order of joining.
    ghost pending: { Self → List Request };

    /// Each request has its place on this disk.
    ghost fits: { Self → Disk → Type 0 };

    /// With no request.
    fn new(alloc: Global) -> Self
        ensures { pending result ≡ [] };

    /// Places a request behind all others.
    ///
    /// The only error is out of memory, or of numbers for requests, after which nothing has changed.
    fn place(&mut self, disk: &Disk, request: Request) -> Result<(), NoMemory>
        requires fits { fits self.old disk.now }
        requires on_disk { IsRequestOf disk.now.map request }
        ensures ok { OnOk result (pending self.new ≡ pending self.old ++ request ∷ []) }
        ensures err { OnErr result (pending self.new ≡ pending self.old) }
        ensures fits { fits self.new disk.now };

    /// The least key, while the head is on this track at the instant `now`, in ns.
    fn least_key(&self, disk: &Disk, head: Track, now: Ns) -> u64
        requires some { 0 < length (pending self.now) }
        requires fits { fits self.now disk.now }
        requires on_disk { AllByRecursion (IsRequestOf disk.now.map) (pending self.now) }
        requires head { IsTrackOf disk.now.map head }
        requires now { now ≤ 9 * 10 ^ 18 }
        ensures { (request : Request) (others : List Request)
            → first_least (Self.key disk.now head now) (pending self.now) ≡ Some (request, others)
            → result ≡ Self.key disk.now head now request };

    /// Takes out the first request with the least key, while the head is on this track at the
    /// instant `now`, in ns.
    fn take(&mut self, disk: &Disk, head: Track, now: Ns) -> Request
        requires some { 0 < length (pending self.old) }
        requires fits { fits self.old disk.now }
        requires on_disk { AllByRecursion (IsRequestOf disk.now.map) (pending self.old) }
        requires head { IsTrackOf disk.now.map head }
        requires now { now ≤ 9 * 10 ^ 18 }
        ensures least { first_least (Self.key disk.now head now) (pending self.old) ≡ Some (result, pending self.new) }
        ensures fits { fits self.new disk.now };

    /// Whether there is no request.
    fn is_empty(&self) -> bool
        ensures { result ≡ (length (pending self.now) == 0) };

    /// With no request they fit any disk.
    ghost fits_any: { (placed : Self) (disk : Disk) → pending placed ≡ [] → fits placed disk };
}
