// Upper bounds on the value of detours.
ghost use Rattle.std.specs.Prelude.{◌≡◌, ◌+◌, ◌*◌, ◌≤◌, ◌<◌, ◌^◌, ℕ, true, nat_le, if◌then◌else◌};
ghost use Rattle.fb_units.specs.declared.types.Track.{Track};
ghost use Rattle.fb_geometry.specs.Shape.{IsTrackOf, slots_at};
ghost use Rattle.fb_plan.specs.Ways.{IsGap};
ghost use Rattle.fb_detour.specs.Bounds.{distance_to, AreLeast, AreSeeks, IsEnough};

use fb_geometry::Zone;
use fb_plan::{Scored, is_no_worse};
use fb_rows::{Gap, Plan};
use fb_service::Disk;
use fb_units::{Ns, Track};

// How many cylinders the cylinder lies outside a range; 0 inside it.
fn distance_to(from: u32, end: u32, cylinder: u32) -> u32
    requires some { from < end }
    ensures value { result ≡ distance_to from end cylinder }
{
    if cylinder < from {
        return from - cylinder;
    }
    if cylinder < end {
        return 0;
    }
    cylinder - (end - 1)
}

// The least time, in ns, of a move to a track, and of the move on from it to the target.
#[derive(Clone, Copy)]
pub struct Moves {
    pub there: Ns,
    pub on: Ns,
}

// Lower bounds on the times of both moves, over all tracks of these cylinders. That of the move on
// is the time from the nearest cylinder, with the same head as the target, so that it has the settle
// of a write.
pub fn least_moves(disk: &Disk, gap: &Gap, from: u32, end: u32) -> Moves
    requires gap { IsGap disk.now gap.now }
    requires some { from < end }
    requires cylinders { end ≤ disk.now.mechanism.cylinders }
    ensures least { AreLeast disk.now gap.entry.now from end result }
    ensures small { (result.there ≤ 10 ^ 9) × (result.on ≤ 2 * 10 ^ 9) }
{
    disk.mechanism.seeks_rise();
    let there = disk
        .mechanism
        .seek(distance_to(from, end, gap.source.cylinder));
    let nearest = Track {
        cylinder: gap.target.cylinder.max(from).min(end - 1),
        head: gap.target.head,
    };
    let on = disk.mechanism.pos(nearest, gap.target, gap.write);
    Moves { there, on }
}

// The times, in ns, of the seeks to a cylinder, and on from it to that of the target.
#[derive(Clone, Copy)]
pub struct Seeks {
    pub there: Ns,
    pub on: Ns,
}

// The times of the seeks of detours over a cylinder.
pub fn seeks_over(disk: &Disk, gap: &Gap, cylinder: u32) -> Seeks
    requires gap { IsGap disk.now gap.now }
    requires cylinder { cylinder < disk.now.mechanism.cylinders }
    ensures { AreSeeks disk.now.mechanism gap.entry.now cylinder result }
{
    let mechanism = &disk.mechanism;
    Seeks {
        there: mechanism.seek(gap.source.cylinder.abs_diff(cylinder)),
        on: mechanism.seek(cylinder.abs_diff(gap.target.cylinder)),
    }
}

// The first track of a cylinder.
pub fn first_track_on(cylinder: u32) -> Track
    ensures { result ≡ record { cylinder = cylinder; head = 0 } }
{
    Track { cylinder, head: 0 }
}

// How many slots a track of the zone has; 0 where the zone ends before the cylinder.
fn slots_from(zone: Zone, cylinder: u32) -> u32
    ensures { result ≡ (if nat_le cylinder zone.last then zone.sectors else 0) }
{
    if cylinder <= zone.last {
        zone.sectors
    } else {
        0
    }
}

/// An upper bound on the slots of a track, over the cylinders from the first one up to, but without,
/// `end`, and one other track. It is no greater than the nanoseconds of a rotation.
pub fn most_slots(disk: &Disk, from: u32, end: u32, other: Track) -> u32
    requires some { from < end }
    requires other { IsTrackOf disk.now.map other }
    ensures each { (cylinder : ℕ) → from ≤ cylinder → cylinder < end → slots_at disk.now.map.zones cylinder ≤ result }
    ensures other { slots_at disk.now.map.zones other.cylinder ≤ result }
    ensures some { 0 < result }
    ensures room { result ≤ disk.now.map.rotation }
{
    let geometry = disk.map.geometry();
    geometry.sound();
    let mut slots = geometry.slots(other);
    for i in 0..geometry.zones() {
        let zone = geometry.zone(i);
        slots = slots.max(slots_from(zone, from));
        if end - 1 <= zone.last {
            return slots;
        }
    }
    slots
}

// Whether no detour that is worth at most the ceiling, over this track or a later one, can take the best
// plan's place. Of all of these, one over this track that leaves at 0 comes first among ties, so that the best
// plan is held against that one.
pub fn is_enough(best: Scored, ceiling: u64, track: Track) -> bool
    ensures { result ≡ true → IsEnough best ceiling track }
{
    let most = Scored {
        plan: Plan::Detour { track, leave: 0 },
        value: ceiling,
    };
    is_no_worse(best, most)
}
