// The head's arrival at a cylinder.
ghost use Rattle.std.specs.Prelude.{◌≡◌, ◌+◌, ◌*◌, ◌%◌, ◌<◌, ◌≤◌, ◌^◌};
ghost use Rattle.fb_geometry.specs.Shape.{cylinders_of};
ghost use Rattle.fb_service.specs.Approaching.{IsDeparture};
ghost use Rattle.fb_model.specs.PlainReplay.{sptf};
ghost use Rattle.fb_fastq.specs.Lanes.{IsAlong};
ghost use Rattle.fb_fastq.specs.Turns.{turn};
ghost use Rattle.fb_fastq.specs.ByCylinder.{IsArrival, IsOnCylinder};

use crate::lanes::{LANE, lane_around};
use crate::visit::{angle_at, visit_after};
use fb_service::{Departure, Disk};
use fb_units::{Ns, Request};

/// The head's arrival from a departure at a cylinder, with no head switch and no settle.
#[derive(Clone, Copy)]
pub struct Arrival {
    pub cylinder: u32,
    /// The time of the seek, in ns.
    pub seek: Ns,
    /// The angle at which the platter stands then, in ns of its rotation.
    pub angle: Ns,
    pub rotation: Ns,
}

impl Arrival {
    /// How long it is from the departure until the platter has turned to the spot of a request of
    /// the cylinder after this arrival, in ns; the request's own wait is no shorter.
    pub fn least_wait(&self, disk: &Disk, from: &Departure, waiting: &((u64, u64), Request)) -> Ns
        requires arrival { IsArrival disk.now from.now self.now }
        requires along { IsAlong disk.now waiting.now.1 waiting.now.0.0 }
        requires on { IsOnCylinder self.now.cylinder waiting.now.0.0 }
        ensures value { result ≡ self.now.seek + turn disk.now.map.rotation self.now.angle (waiting.now.0.0 % 2 ^ 30) }
        ensures least { result ≤ sptf disk.now from.now.track from.now.instant waiting.now.1 }
        ensures soon { result ≤ 4 * 10 ^ 9 }
    {
        let ahead = self.rotation - self.angle + waiting.0.0 % LANE;
        // Which it is, is as good as random. Both sums read the same numbers, so that no branch is needed.
        if ahead < self.rotation {
            self.seek + ahead
        } else {
            self.seek + (ahead - self.rotation)
        }
    }

    /// How long it is from the departure until the first sector of a request of the cylinder passes,
    /// in ns.
    pub fn wait(&self, disk: &Disk, from: &Departure, waiting: &((u64, u64), Request)) -> Ns
        requires from { IsDeparture disk.now from.now }
        requires arrival { IsArrival disk.now from.now self.now }
        requires along { IsAlong disk.now waiting.now.1 waiting.now.0.0 }
        requires on { IsOnCylinder self.now.cylinder waiting.now.0.0 }
        ensures value { result ≡ sptf disk.now from.now.track from.now.instant waiting.now.1 }
        ensures soon { result ≤ 4 * 10 ^ 9 }
    {
        let spot = waiting.0.0;
        let lane = lane_around(disk, spot);
        visit_after(disk, from, self.seek, lane).wait(disk, spot)
    }
}

/// The arrival from a departure at a cylinder.
pub fn arrival_at(disk: &Disk, from: &Departure, cylinder: u32) -> Arrival
    requires from { IsDeparture disk.now from.now }
    requires cylinder { cylinder < cylinders_of disk.now.map.zones }
    ensures arrival { IsArrival disk.now from.now result }
    ensures cylinder { result.cylinder ≡ cylinder }
{
    let seek = disk.mechanism.seek(from.track.cylinder.abs_diff(cylinder));
    Arrival {
        cylinder,
        seek,
        angle: angle_at(disk, from, seek),
        rotation: disk.map.geometry().rotation(),
    }
}
