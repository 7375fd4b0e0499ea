// The moving parts of a disk.
ghost use Rattle.std.specs.Prelude.{◌≡◌, ◌+◌, ◌-◌, ◌*◌, ◌/◌, ◌<◌, ◌≤◌, ◌^◌};
ghost use Rattle.fb_seek.specs.Mechanics.{Mechanics};
ghost use Rattle.fb_seek.specs.Positioning.{seek, pos, distance_of};
ghost use Rattle.fb_seek.specs.Rising.{SeeksRise};
ghost use Rattle.fb_seek.specs.Faults.{Judges};
ghost use Rattle.fb_seek.specs.Table.{AreTimes};

use crate::table::{fault_of, next_point};
use crate::{SeekFault, SeekPoint};
use fb_units::{Ns, Track};
use std::marker::Model;

/// The moving parts of a disk: its seek table, the time of a head switch, and the time that a head
/// takes to settle before a write.
#[derive(Drop)]
pub struct Mechanism {
    points: Vec<SeekPoint>,
    cylinders: u32,
    head_switch: Ns,
    write_settle: Ns,
    // The time of each distance from 0 on, as far as there was memory for it.
    times: Vec<u32>,
}

impl Model for Mechanism {
    ghost use Rattle.fb_seek.specs.Mechanics.{Mechanics};
    ghost use Rattle.fb_seek.specs.Table.{IsArm};

    ghost Value = { Mechanics };

    ghost view = { λ m. record {
      points = m.points.items;
      cylinders = m.cylinders;
      head_switch = m.head_switch;
      write_settle = m.write_settle;
    } };

    ghost invariant = { λ m. IsArm (record {
      points = m.points.items;
      cylinders = m.cylinders;
      head_switch = m.head_switch;
      write_settle = m.write_settle;
    }) m.times.items };
}

impl Mechanism {
    /// The mechanism with this seek table, for a disk of this many cylinders; or the first fault.
    /// Times are in nanoseconds.
    ///
    /// The time of each distance is worked out here, so that `seek` only looks it up. Where the points'
    /// allocator refuses the memory for it, `seek` works it out, and gives the same time.
    pub fn new(
        points: Vec<SeekPoint>,
        cylinders: u32,
        head_switch: Ns,
        write_settle: Ns,
    ) -> Result<Mechanism, SeekFault>
        ensures { Judges (record { points = points.items; cylinders = cylinders; head_switch = head_switch; write_settle = write_settle })
            result }
    {
        match fault_of(points.as_slice(), cylinders, head_switch, write_settle) {
            Some(fault) => Err(fault),
            None => {
                let times = Vec::new(*points.allocator());
                let mut mechanism = Mechanism {
                    points,
                    cylinders,
                    head_switch,
                    write_settle,
                    times,
                };
                mechanism.times = mechanism.all_times();
                Ok(mechanism)
            }
        }
    }

    // The times of all distances in order, as far as there is memory for them.
    fn all_times(&self) -> Vec<u32>
        ensures { AreTimes self.now result.items }
    {
        let mut times = Vec::new(*self.points.allocator());
        for distance in 0..self.cylinders {
            let time = self.time_of(distance);
            if times.push(time as u32).is_err() {
                return times;
            }
        }
        times
    }

    // The time of a seek over this many cylinders by the table's points.
    fn time_of(&self, distance: u32) -> Ns
        requires { distance < self.now.cylinders }
        ensures value { result ≡ seek self.now distance }
        ensures bound { result ≤ 10 ^ 9 }
    {
        if distance == 0 {
            return 0;
        }
        let points = self.points.as_slice();
        let next = next_point(points, distance);
        if next == 0 {
            return points[0].time;
        }
        interpolate(points[next - 1], points[next], distance)
    }

    /// The time of a seek over this many cylinders, in nanoseconds, at most 10^9: 0 for distance 0,
    /// the table's time at one of its points, and on the straight line between two points, rounded
    /// down.
    pub fn seek(&self, distance: u32) -> Ns
        requires { distance < self.now.cylinders }
        ensures value { result ≡ seek self.now distance }
        ensures bound { result ≤ 10 ^ 9 }
    {
        match self.times.get(distance as usize) {
            Some(time) => *time as Ns,
            None => self.time_of(distance),
        }
    }

    /// A seek over more cylinders takes no less time.
    pub fn seeks_rise(&self)
        ensures { SeeksRise self.now }
    {
        let _points = &self.points;
    }

    /// The time, in nanoseconds, from one track to another, at most 2 * 10^9: 0 for the same track,
    /// else the greater of the seek and, if the heads differ, the head switch; plus the settle time
    /// for a write.
    pub fn pos(&self, source: Track, target: Track, write: bool) -> Ns
        requires source { source.cylinder < self.now.cylinders }
        requires target { target.cylinder < self.now.cylinders }
        ensures value { result ≡ pos self.now source target write }
        ensures bound { result ≤ 2 * 10 ^ 9 }
    {
        let seek_time = self.seek(source.cylinder.abs_diff(target.cylinder));
        self.pos_with(seek_time, source, target, write)
    }

    /// The same as `pos`, for a caller that knows the time of the seek between the cylinders.
    #[tactic(auto, unfolding(crate::specs::Positioning::pos))]
    pub fn pos_with(&self, seek_time: Ns, source: Track, target: Track, write: bool) -> Ns
        requires seek { seek_time ≡ seek self.now (distance_of source.cylinder target.cylinder) }
        requires short { seek_time ≤ 10 ^ 9 }
        ensures value { result ≡ pos self.now source target write }
        ensures bound { result ≤ 2 * 10 ^ 9 }
    {
        if source == target {
            return 0;
        }
        let switch = if source.head == target.head {
            0
        } else {
            self.head_switch
        };
        let settle = if write { self.write_settle } else { 0 };
        seek_time.max(switch) + settle
    }
}

// The time of a distance between those of two points, on the straight line, rounded down.
fn interpolate(before: SeekPoint, next: SeekPoint, distance: u32) -> Ns
    requires above { before.distance ≤ distance }
    requires below { distance ≤ next.distance }
    requires rising { before.distance < next.distance }
    requires time { before.time ≤ next.time }
    requires bound { next.time ≤ 10 ^ 9 }
    ensures value { result ≡ before.time + (distance - before.distance) * (next.time - before.time) / (next.distance - before.distance) }
    ensures bound { result ≤ next.time }
{
    let run = (next.distance - before.distance) as u64;
    let gone = (distance - before.distance) as u64;
    before.time + gone * (next.time - before.time) / run
}
