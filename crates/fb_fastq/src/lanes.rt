// Lanes: the tracks laid end to end, each once for reads and once for writes.
ghost use Rattle.std.specs.Prelude.{◌≡◌, ◌+◌, ◌*◌, ◌<◌, ◌≤◌, ◌^◌};
ghost use Rattle.fb_geometry.specs.Shape.{cylinders_of};
ghost use Rattle.fb_model.specs.Accepted.{IsRequestOf};
ghost use Rattle.fb_fastq.specs.Lanes.{IsLane, IsAlong};
ghost use Rattle.fb_fastq.specs.ByCylinder.{IsOnCylinder};

use fb_service::Disk;
use fb_units::{Ns, Request, Track};

/// The length of each lane, in ns: room for the longest rotation. It is a power of two, so that no
/// division tells the lane of a spot.
pub const LANE: Ns = 1_073_741_824;

/// The length of a cylinder's lanes, in ns: room for two lanes for each of 64 heads.
pub const CYLINDER: Ns = 128 * LANE;

/// A track for reads or for writes.
#[derive(Clone, Copy)]
pub struct Lane {
    pub track: Track,
    pub write: bool,
    /// Where the lane, and so angle 0 of its track, lies along all lanes laid end to end, in ns.
    pub start: Ns,
}

/// A disk has few cylinders and heads.
pub fn few_tracks(disk: &Disk)
    ensures cylinders { cylinders_of disk.now.map.zones ≤ 10 ^ 6 }
    ensures heads { disk.now.map.heads ≤ 64 }
{
    let geometry = disk.map.geometry();
    let _cylinders = geometry.cylinders();
    let _heads = geometry.heads();
}

/// Where the lanes of a cylinder start.
pub fn cylinder_start(disk: &Disk, cylinder: u32) -> Ns
    requires { cylinder < cylinders_of disk.now.map.zones }
    ensures value { result ≡ cylinder * 2 ^ 37 }
    ensures few { result ≤ 2 ^ 57 }
{
    few_tracks(disk);
    cylinder as u64 * CYLINDER
}

/// The lane of a track for reads or for writes.
pub fn lane_of(disk: &Disk, track: Track, write: bool) -> Lane
    requires cylinder { track.cylinder < cylinders_of disk.now.map.zones }
    requires head { track.head < 64 }
    ensures lane { IsLane result }
    ensures track { result.track ≡ track }
    ensures write { result.write ≡ write }
{
    few_tracks(disk);
    let for_reads = cylinder_start(disk, track.cylinder) + track.head as u64 * 2 * LANE;
    let start = if write { for_reads + LANE } else { for_reads };
    Lane {
        track,
        write,
        start,
    }
}

/// The lane in whose room a spot lies.
pub fn lane_around(disk: &Disk, spot: Ns) -> Lane
    requires { spot < cylinders_of disk.now.map.zones * 2 ^ 37 }
    ensures lane { IsLane result }
    ensures cylinder { result.track.cylinder < cylinders_of disk.now.map.zones }
    ensures from { result.start ≤ spot }
    ensures before { spot < result.start + 2 ^ 30 }
{
    few_tracks(disk);
    let along = spot % CYLINDER;
    let number = along / LANE;
    let track = Track {
        cylinder: (spot / CYLINDER) as u32,
        head: (number / 2) as u32,
    };
    Lane {
        track,
        write: number % 2 == 1,
        start: spot - along % LANE,
    }
}

/// The cylinder in whose room a spot lies.
pub fn cylinder_around(disk: &Disk, spot: Ns) -> u32
    requires { spot < cylinders_of disk.now.map.zones * 2 ^ 37 }
    ensures { IsOnCylinder result spot }
{
    few_tracks(disk);
    (spot / CYLINDER) as u32
}

/// Where a request's first sector begins along all lanes laid end to end, in ns.
pub fn along(disk: &Disk, request: &Request) -> Ns
    requires { IsRequestOf disk.now.map request.now }
    ensures { IsAlong disk.now request.now result }
{
    few_tracks(disk);
    let place = disk.map.place(request.lbn);
    let begin = disk.map.geometry().slot_begin(place.track, place.slot);
    lane_of(disk, place.track, request.write).start + begin
}
