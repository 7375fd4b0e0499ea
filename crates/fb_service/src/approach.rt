// The head's way to a cylinder, looked up once for the first passages of many of its sectors.
ghost use Rattle.std.specs.Prelude.{◌≡◌, ℕ, ◌+◌, ◌-◌, ◌*◌, ◌%◌, ◌<◌, ◌≤◌, ◌^◌, length};
ghost use Rattle.fb_units.specs.Wait.{wait};
ghost use Rattle.fb_geometry.specs.Shape.{IsTrackOf};
ghost use Rattle.fb_geometry.specs.Places.{places};
ghost use Rattle.fb_sectormap.specs.LookUp.{place_at, track_at};
ghost use Rattle.fb_seek.specs.Positioning.{pos};
ghost use Rattle.fb_service.specs.Passing.{begin_from};
ghost use Rattle.fb_service.specs.Approaching.{IsDeparture, IsApproach};

use crate::Disk;
use fb_sectormap::CylinderRun;
use fb_units::{Ns, Track};

/// The track and the instant at which the head leaves.
#[derive(Clone, Copy)]
pub struct Departure {
    /// The track.
    pub track: Track,
    /// The instant, in nanoseconds.
    pub instant: Ns,
    /// The angle of the platter at that instant, in nanoseconds of its rotation.
    pub angle: Ns,
}

/// The head's way to the sectors of a cylinder.
#[derive(Clone, Copy)]
pub struct Approach {
    /// The sectors of the cylinder.
    pub run: CylinderRun,
    /// The time of the seek to the cylinder, in nanoseconds.
    pub seek: Ns,
}

/// The departure of the head from a track at an instant.
pub fn departure_from(disk: &Disk, track: Track, instant: Ns) -> Departure
    requires track { IsTrackOf disk.now.map track }
    requires instant { instant ≤ 9 * 10 ^ 18 }
    ensures departure { IsDeparture disk.now result }
    ensures track { result.track ≡ track }
    ensures instant { result.instant ≡ instant }
{
    let angle = instant % disk.map.geometry().rotation();
    Departure {
        track,
        instant,
        angle,
    }
}

/// The way from a departure to the cylinder of a sector, looked up once for the passages of many
/// sectors of that cylinder.
pub fn approach_to(disk: &Disk, from: Departure, lbn: u64) -> Approach
    requires from { IsDeparture disk.now from }
    requires sector { lbn < length (places disk.now.map) }
    ensures approach { IsApproach disk.now from result }
    ensures cylinder { result.run.on.number ≡ (track_at disk.now.map lbn).cylinder }
    ensures first { result.run.first ≤ lbn }
    ensures end { lbn < result.run.end }
{
    let run = disk.map.run_of(lbn);
    let distance = from.track.cylinder.abs_diff(run.on.number);
    Approach {
        run,
        seek: disk.mechanism.seek(distance),
    }
}

/// The same as `approach_to`, but without a look-up if `near` leads to the sector's cylinder.
pub fn approach_on(disk: &Disk, from: Departure, near: Approach, lbn: u64) -> Approach
    requires from { IsDeparture disk.now from }
    requires near { IsApproach disk.now from near }
    requires sector { lbn < length (places disk.now.map) }
    ensures approach { IsApproach disk.now from result }
    ensures cylinder { result.run.on.number ≡ (track_at disk.now.map lbn).cylinder }
    ensures first { result.run.first ≤ lbn }
    ensures end { lbn < result.run.end }
{
    if near.run.first <= lbn && lbn < near.run.end {
        near
    } else {
        approach_to(disk, from, lbn)
    }
}

/// The time, in nanoseconds, from the departure until a sector of the approach's cylinder begins to
/// pass: the positioning, with settle for a write, and then the wait for the sector.
pub fn wait_on(disk: &Disk, from: Departure, approach: &Approach, lbn: u64, write: bool) -> Ns
    requires from { IsDeparture disk.now from }
    requires approach { IsApproach disk.now from approach.now }
    requires first { approach.now.run.first ≤ lbn }
    requires end { lbn < approach.now.run.end }
    ensures value { result ≡ begin_from disk.now.map (place_at disk.now.map lbn) (from.instant
        + pos disk.now.mechanism from.track (track_at disk.now.map lbn) write) - from.instant }
    ensures soon { result < 3 * 10 ^ 9 }
{
    let geometry = disk.map.geometry();
    let rotation = geometry.rotation();
    let place = disk.map.place_in(&approach.run, lbn);
    let way = disk
        .mechanism
        .pos_with(approach.seek, from.track, place.track, write);
    let begin = geometry.begin_on(&approach.run.on, place.slot);
    way + wait_from(rotation, begin, turned(rotation, from.angle, way))
}

// The angle of the platter some time after it was at this angle.
fn turned(rotation: Ns, angle: Ns, time: Ns) -> Ns
    requires angle { angle < rotation }
    requires short { rotation ≤ 10 ^ 9 }
    requires time { time ≤ 2 * 10 ^ 9 }
    ensures value { result ≡ (angle + time) % rotation }
    ensures bound { result < rotation }
{
    let turned = angle + time;
    if turned < rotation {
        return turned;
    }
    let over = turned - rotation;
    if over < rotation {
        over
    } else {
        over % rotation
    }
}

// The time in which the platter turns from the angle `here` to `angle`.
fn wait_from(rotation: Ns, angle: Ns, here: Ns) -> Ns
    requires angle { angle < rotation }
    requires here { here < rotation }
    requires short { rotation ≤ 10 ^ 9 }
    ensures value { (now : ℕ) → here ≡ now % rotation → result ≡ wait rotation angle now }
    ensures bound { result < rotation }
{
    if here <= angle {
        angle - here
    } else {
        rotation - here + angle
    }
}
