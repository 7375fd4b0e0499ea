// Where the platter stands from an instant on.
ghost use Rattle.std.specs.Prelude.{◌≡◌, ◌+◌, ◌*◌, ◌≤◌, ◌^◌};
ghost use Rattle.fb_plan.specs.Turns.{IsTurning, IsInTurn, Stands, begin_of, end_of, passes_by};

use fb_service::Disk;
use fb_units::{Ns, Sweep};

/// Where the platter stands at an instant: it tells when sweeps next begin and end.
#[derive(Clone, Copy)]
pub struct Turning {
    /// The instant, in ns.
    pub from: Ns,
    /// The angle at which the platter stands then, in ns from angle 0 on; less than a rotation.
    pub at: Ns,
    /// A rotation, in ns; at most a second.
    pub rotation: Ns,
}

impl Turning {
    /// Where the platter stands at the instant `from`, in ns.
    pub fn new(disk: &Disk, from: Ns) -> Turning
        requires early { from ≤ 9 * 10 ^ 18 }
        ensures turning { IsTurning disk.now result }
        ensures from { result.from ≡ from }
    {
        let geometry = disk.map.geometry();
        geometry.sound();
        let rotation = geometry.rotation();
        Turning {
            from,
            at: from % rotation,
            rotation,
        }
    }

    /// When the sweep next begins from the instant on, in ns.
    pub fn begin(&self, sweep: Sweep) -> Ns
        requires stands { Stands self.now }
        requires sweep { IsInTurn self.now.rotation sweep }
        ensures value { result ≡ begin_of self.now.rotation sweep self.now.from }
        ensures soon { result ≤ self.now.from + 10 ^ 9 }
    {
        let begin = sweep.begin as u64;
        if begin < self.at {
            self.from + (begin + self.rotation - self.at)
        } else {
            self.from + (begin - self.at)
        }
    }

    /// When the passage that `begin` tells of ends, in ns.
    pub fn end(&self, sweep: Sweep) -> Ns
        requires stands { Stands self.now }
        requires sweep { IsInTurn self.now.rotation sweep }
        ensures value { result ≡ end_of self.now.rotation sweep self.now.from }
        ensures soon { result ≤ self.now.from + 2 * 10 ^ 9 }
    {
        self.begin(sweep) + sweep.length as u64
    }

    /// Whether it ends by the instant `latest`, in ns.
    pub fn ends_by(&self, sweep: Sweep, latest: Ns) -> bool
        requires stands { Stands self.now }
        requires sweep { IsInTurn self.now.rotation sweep }
        ensures { result ≡ passes_by self.now latest sweep }
    {
        self.end(sweep) <= latest
    }
}
