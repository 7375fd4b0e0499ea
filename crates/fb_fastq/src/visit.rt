// The head's way to a lane.
ghost use Rattle.std.specs.Prelude.{◌≡◌, ◌⊎◌, true, false, ◌+◌, ◌*◌, ◌%◌, ◌<◌, ◌≤◌, ◌^◌};
ghost use Rattle.fb_units.specs.declared.types.Request.{Request};
ghost use Rattle.fb_geometry.specs.Shape.{cylinders_of};
ghost use Rattle.fb_seek.specs.Positioning.{seek, distance_of};
ghost use Rattle.fb_service.specs.declared.approach.Departure.{Departure};
ghost use Rattle.fb_service.specs.Approaching.{IsDeparture};
ghost use Rattle.fb_model.specs.PlainReplay.{sptf};
ghost use Rattle.fb_fastq.specs.Lanes.{IsLane, IsAlong};
ghost use Rattle.fb_fastq.specs.Visits.{IsVisit};

use crate::lanes::{LANE, Lane, lane_around};
use fb_service::{Departure, Disk};
use fb_units::Ns;

/// The head's way from a departure to a lane.
#[derive(Clone, Copy)]
pub struct Visit {
    pub lane: Lane,
    /// The time of the seek to the lane's cylinder alone, in ns.
    pub seek: Ns,
    /// The positioning time, with settle where the lane is for writes, in ns.
    pub way: Ns,
    /// The angle at which the platter stands when the head has come there, in ns of its rotation.
    pub angle: Ns,
}

impl Visit {
    /// Whether a spot lies in the room of the lane.
    pub fn has(&self, spot: Ns) -> bool
        requires { IsLane self.now.lane }
        ensures inside { result ≡ true → (self.now.lane.start ≤ spot) × (spot < self.now.lane.start + 2 ^ 30) }
        ensures outside { result ≡ false → (spot < self.now.lane.start) ⊎ (self.now.lane.start + 2 ^ 30 ≤ spot) }
    {
        self.lane.start <= spot && spot < self.lane.start + LANE
    }

    /// How long it is from the departure until the platter has turned to a spot of the lane, in ns.
    pub fn wait(&self, disk: &Disk, spot: Ns) -> Ns
        requires way { self.now.way ≤ 2 * 10 ^ 9 }
        requires angle { self.now.angle < disk.now.map.rotation }
        requires from { self.now.lane.start ≤ spot }
        requires before { spot < self.now.lane.start + 2 ^ 30 }
        ensures value { (from : Departure) (request : Request) → IsVisit disk.now from self.now → IsAlong disk.now request spot
            → result ≡ sptf disk.now from.track from.instant request }
        ensures soon { result ≤ 4 * 10 ^ 9 }
    {
        let rotation = disk.map.geometry().rotation();
        let angle = spot - self.lane.start;
        if self.angle <= angle {
            self.way + (angle - self.angle)
        } else {
            self.way + (rotation - self.angle + angle)
        }
    }

    /// Goes on to the lane in whose room a spot lies. Whether that is another lane.
    pub fn go_on(&mut self, disk: &Disk, from: &Departure, spot: Ns) -> bool
        requires from { IsDeparture disk.now from.now }
        requires last { IsVisit disk.now from.now self.old }
        requires spot { spot < cylinders_of disk.now.map.zones * 2 ^ 37 }
        ensures visit { IsVisit disk.now from.now self.new }
        ensures start { self.new.lane.start ≤ spot }
        ensures end { spot < self.new.lane.start + 2 ^ 30 }
        ensures same { result ≡ false → self.new ≡ self.old }
        ensures other { result ≡ true → (spot < self.old.lane.start) ⊎ (self.old.lane.start + 2 ^ 30 ≤ spot) }
    {
        if self.has(spot) {
            return false;
        }
        let lane = lane_around(disk, spot);
        if lane.track.cylinder != self.lane.track.cylinder {
            *self = visit_of(disk, from, lane);
            return true;
        }
        let way = disk
            .mechanism
            .pos_with(self.seek, from.track, lane.track, lane.write);
        self.angle = self.angle_after(disk, from, way);
        self.way = way;
        self.lane = lane;
        true
    }

    // The angle of the platter a time after the departure, in ns; the same as before if the way takes as long.
    fn angle_after(&self, disk: &Disk, from: &Departure, time: Ns) -> Ns
        requires from { IsDeparture disk.now from.now }
        requires last { IsVisit disk.now from.now self.now }
        requires short { time ≤ 2 * 10 ^ 9 }
        ensures value { result ≡ (from.now.instant + time) % disk.now.map.rotation }
        ensures bound { result < disk.now.map.rotation }
    {
        if time == self.way {
            self.angle
        } else {
            angle_at(disk, from, time)
        }
    }
}

/// The visit to the lane in whose room a spot lies.
pub fn visit_to(disk: &Disk, from: &Departure, spot: Ns) -> Visit
    requires from { IsDeparture disk.now from.now }
    requires spot { spot < cylinders_of disk.now.map.zones * 2 ^ 37 }
    ensures visit { IsVisit disk.now from.now result }
    ensures start { result.lane.start ≤ spot }
    ensures end { spot < result.lane.start + 2 ^ 30 }
{
    visit_of(disk, from, lane_around(disk, spot))
}

// The visit to a lane.
fn visit_of(disk: &Disk, from: &Departure, lane: Lane) -> Visit
    requires from { IsDeparture disk.now from.now }
    requires lane { IsLane lane }
    requires cylinder { lane.track.cylinder < cylinders_of disk.now.map.zones }
    ensures visit { IsVisit disk.now from.now result }
    ensures lane { result.lane ≡ lane }
{
    let seek = disk
        .mechanism
        .seek(from.track.cylinder.abs_diff(lane.track.cylinder));
    visit_after(disk, from, seek, lane)
}

/// The visit to a lane, to whose cylinder the seek takes so long.
pub fn visit_after(disk: &Disk, from: &Departure, time: Ns, lane: Lane) -> Visit
    requires from { IsDeparture disk.now from.now }
    requires lane { IsLane lane }
    requires seek { time ≡ seek disk.now.mechanism (distance_of from.now.track.cylinder lane.track.cylinder) }
    requires short { time ≤ 10 ^ 9 }
    ensures visit { IsVisit disk.now from.now result }
    ensures lane { result.lane ≡ lane }
{
    let way = disk
        .mechanism
        .pos_with(time, from.track, lane.track, lane.write);
    Visit {
        lane,
        seek: time,
        way,
        angle: angle_at(disk, from, way),
    }
}

/// The angle of the platter a time after the departure, in ns.
pub fn angle_at(disk: &Disk, from: &Departure, time: Ns) -> Ns
    requires from { IsDeparture disk.now from.now }
    requires short { time ≤ 2 * 10 ^ 9 }
    ensures value { result ≡ (from.now.instant + time) % disk.now.map.rotation }
    ensures bound { result < disk.now.map.rotation }
{
    let rotation = disk.map.geometry().rotation();
    let turned = from.angle + time;
    if turned < rotation {
        turned
    } else if turned - rotation < rotation {
        turned - rotation
    } else {
        turned % rotation
    }
}
