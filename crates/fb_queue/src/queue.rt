// What every queue promises.
ghost use Rattle.std.specs.Prelude.{◌≡◌, ◌==◌, ℕ, ◌+◌, ◌*◌, ◌<◌, ◌≤◌, ◌^◌, List, [], ◌∷◌, ◌++◌, length, OnOk, OnErr};
ghost use Rattle.std.specs.List.{AllByRecursion};
ghost use Rattle.fb_units.specs.declared.types.Request.{Request};
ghost use Rattle.fb_service.specs.declared.disk.Disk.{Disk};
ghost use Rattle.fb_geometry.specs.Shape.{IsTrackOf};
ghost use Rattle.fb_model.specs.PlainReplay.{Key, first_least};
ghost use Rattle.fb_model.specs.Accepted.{IsRequestOf};

use fb_service::Disk;
use fb_units::{NoMemory, Ns, Request, Track};

/// The requests that have joined and haven't been served.
pub trait Queue: Drop {
    /// The pending requests, in order of joining.
    ghost pending: { Self → List Request };

    /// How many requests have joined so far, served or not.
    ghost joined: { Self → ℕ };

    /// The key that decides: the first request with the least key is taken.
    ghost key: { Key };

    /// The queue fits this disk: what it keeps about its requests is true of it.
    ghost fits: { Self → Disk → Type 0 };

    /// Adds a request behind all others.
    ///
    /// The only error is out of memory, after which nothing has changed.
    fn add(&mut self, request: Request) -> Result<(), NoMemory>
        requires few { joined self.old < 2 ^ 32 }
        ensures ok { OnOk result (pending self.new ≡ pending self.old ++ request ∷ []) }
        ensures counted { OnOk result (joined self.new ≡ joined self.old + 1) }
        ensures err { OnErr result (pending self.new ≡ pending self.old) }
        ensures not_counted { OnErr result (joined self.new ≡ joined self.old) }
        ensures fits { (disk : Disk) → fits self.old disk → fits self.new disk };

    /// Takes out the first request with the least key, while the head is on this track at the
    /// instant `now`, in ns.
    fn take(&mut self, disk: &Disk, head: Track, now: Ns) -> Request
        requires some { 0 < length (pending self.old) }
        requires fits { fits self.old disk.now }
        requires on_disk { AllByRecursion (IsRequestOf disk.now.map) (pending self.old) }
        requires head { IsTrackOf disk.now.map head }
        requires now { now ≤ 9 * 10 ^ 18 }
        ensures least { first_least (key disk.now head now) (pending self.old) ≡ Some (result, pending self.new) }
        ensures counted { joined self.new ≡ joined self.old }
        ensures fits { fits self.new disk.now };

    /// Whether no request is pending.
    fn is_empty(&self) -> bool
        ensures { result ≡ (length (pending self.now) == 0) };

    /// A queue with no pending request fits any disk.
    ghost fits_any: { (queue : Self) (disk : Disk) → pending queue ≡ [] → fits queue disk };
}
