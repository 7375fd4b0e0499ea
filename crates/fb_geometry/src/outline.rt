// The outline of a disk as it is given, and what may be wrong with it.
ghost use Rattle.std.specs.Prelude.{◌≡◌, ◌<◌, ◌≤◌, ◌^◌, [], ◌++◌, length, map, find, position, slice_get, Some, None, false, IfOk, IfErr};
ghost use Rattle.std.specs.Prelude.{All};
ghost use Rattle.std.specs.List.{list_any};
ghost use Rattle.fb_geometry.specs.Shape.{Shape, cylinders_of, slots_at};
ghost use Rattle.fb_geometry.specs.Faults.{is_out_of_range, is_bad_zone, has_no_data, first_apart, is_too_skewed, is_outside};
ghost use Rattle.fb_geometry.specs.Faults.{is_place_before, is_track_before, repeated, is_full_track, is_full_cylinder};
ghost use Rattle.fb_geometry.specs.Faults.{first_fault, spare_fault};
ghost use Rattle.fb_geometry.specs.Turns.{IsZoneOf, AreZoneNumbers, zone_at};
ghost use Rattle.fb_geometry.specs.Slips.{Pairwise};
ghost use Rattle.fb_geometry.specs.Marks.{mark_of, AreMarksOf, AreSorted};
ghost use Rattle.fb_geometry.specs.Kept.{HasZones, zone_fault, defect_fault, grown_fault, Answers, AreJudged, RefusesFor};
ghost use Rattle.fb_geometry.specs.declared.layout.Layout.TheVariants.{PerTrack, PerCylinder};

use crate::marks::Mark;
use crate::zone::zone_number;
use crate::{GeometryError, GeometryFault, Layout, Zone};
use fb_units::{NoMemory, Ns, Place, Track};
use std::alloc::Global;
use std::marker::Model;

const LONGEST_ROTATION: Ns = 1_000_000_000;

const MOST_HEADS: u32 = 64;

const MOST_ZONES: usize = 64;

const LAST_CYLINDER: u32 = 999_999;

const MOST_SECTORS: u32 = 10_000;

/// The numbers, zones and bad slots that a disk is made from.
#[derive(Drop)]
pub(crate) struct Outline {
    /// Where the spare slots are.
    pub layout: Layout,
    /// The time of one rotation, in nanoseconds: from 1 to a second.
    pub rotation: Ns,
    /// The number of heads, from 1 to 64.
    pub heads: u32,
    /// The zones, in the order of cylinders: from 1 to 64.
    pub zones: Vec<Zone>,
    /// The slots that are bad from the first, in any order.
    pub defects: Vec<Place>,
    /// The slots that went bad later, in any order.
    pub grown: Vec<Place>,
}

impl Model for Outline {
    ghost use Rattle.fb_geometry.specs.Shape.{Shape};

    ghost Value = { Shape };

    ghost view = { λ o. record {
      layout = o.layout;
      rotation = o.rotation;
      heads = o.heads;
      zones = o.zones.items;
      defects = o.defects.items;
      grown = o.grown.items;
    } };
}

impl Outline {
    // Refuses an outline that has a fault, and names the first; or returns NoMemory.
    pub(crate) fn judge(&self, alloc: Global) -> Result<(), GeometryError>
        ensures { RefusesFor (first_fault self.now) result }
    {
        if let Some(fault) = self.zone_fault() {
            return Err(GeometryError::Fault(fault));
        }
        let defects = self.judged_defects(alloc)?;
        match self.layout {
            Layout::PerTrack => match self.track_spare_fault(&defects) {
                Some(fault) => Err(GeometryError::Fault(fault)),
                None => Ok(()),
            },
            Layout::PerCylinder => self.judge_cylinder_spares(alloc),
        }
    }

    // The fault of the first track with more defects than spares.
    fn track_spare_fault(&self, defects: &[Place]) -> Option<GeometryFault>
        requires zones { HasZones self.now }
        requires defects { AreJudged (defect_fault self.now) self.now.defects defects.now }
        ensures { result ≡ spare_fault PerTrack self.now }
    {
        let place = self.first_on_full_track(defects)?;
        Some(GeometryFault::TooManyDefects(place.track))
    }

    // Refuses an outline whose grown defects have a fault, or with more bad slots than spares on a
    // cylinder.
    fn judge_cylinder_spares(&self, alloc: Global) -> Result<(), GeometryError>
        requires zones { HasZones self.now }
        requires defects { defect_fault self.now ≡ None }
        ensures { RefusesFor (spare_fault PerCylinder self.now) result }
    {
        let bad = self.judged_grown(alloc)?;
        match self.first_on_full_cylinder(&bad) {
            Some(place) => Err(GeometryError::Fault(GeometryFault::TooManyInCylinder(
                place.track.cylinder,
            ))),
            None => Ok(()),
        }
    }

    // The first fault of the numbers and zones.
    fn zone_fault(&self) -> Option<GeometryFault>
        ensures { result ≡ zone_fault self.now }
    {
        if self.is_out_of_range() {
            return Some(GeometryFault::OutOfRange);
        }
        if let Some(index) = self.first_apart() {
            return Some(GeometryFault::ZonesNotContiguous(index));
        }
        match self.first_skewed() {
            Some(index) => Some(GeometryFault::SkewTooLarge(index)),
            None => None,
        }
    }

    fn is_out_of_range(&self) -> bool
        ensures { result ≡ is_out_of_range self.now }
    {
        self.rotation == 0
            || self.rotation > LONGEST_ROTATION
            || self.heads == 0
            || self.heads > MOST_HEADS
            || self.zones.is_empty()
            || self.zones.len() > MOST_ZONES
            || self.has_bad_zone()
    }

    fn has_bad_zone(&self) -> bool
        ensures { result ≡ list_any (is_bad_zone self.now) self.now.zones }
    {
        self.zones.iter().any(|zone| self.is_bad_zone(zone))
    }

    fn is_bad_zone(&self, zone: &Zone) -> bool
        ensures { result ≡ is_bad_zone self.now zone.now }
    {
        zone.last < zone.first
            || zone.last > LAST_CYLINDER
            || zone.sectors == 0
            || zone.sectors > MOST_SECTORS
            || zone.sectors as Ns > self.rotation
            || self.has_no_data(zone)
    }

    fn has_no_data(&self, zone: &Zone) -> bool
        ensures { result ≡ has_no_data self.now.layout self.now zone.now }
    {
        match self.layout {
            Layout::PerTrack => zone.spares >= zone.sectors,
            Layout::PerCylinder => {
                let slots = self.heads as u64 * zone.sectors as u64;
                zone.spares >= zone.sectors || zone.cylinder_spares as u64 >= slots
            }
        }
    }

    // The index of the first zone that doesn't begin right behind the one before it.
    fn first_apart(&self) -> Option<u32>
        requires { length self.now.zones ≤ 64 }
        ensures { result ≡ first_apart 0 0 self.now.zones }
    {
        let zones = self.zones.as_slice();
        let mut begin: u64 = 0;
        for (index, zone) in zones.iter().enumerate() {
            if zone.first as u64 != begin {
                return Some(index as u32);
            }
            begin = zone.last as u64 + 1;
        }
        None
    }

    // The index of the first zone with a skew that is not below its sectors a track.
    fn first_skewed(&self) -> Option<u32>
        requires { length self.now.zones ≤ 64 }
        ensures { result ≡ position is_too_skewed self.now.zones }
    {
        let zones = self.zones.as_slice();
        match zones.iter().position(|zone| zone.is_too_skewed()) {
            Some(index) => Some(index as u32),
            None => None,
        }
    }

    // The number of cylinders.
    #[tactic(auto, using(crate::proofs::Faultless::last_cylinder, crate::proofs::Faultless::some_zones))]
    pub(crate) fn cylinders(&self) -> u32
        requires { HasZones self.now }
        ensures value { result ≡ cylinders_of self.now.zones }
        ensures some { 0 < result }
        ensures few { result ≤ 10 ^ 6 }
    {
        self.zones[self.zones.len() - 1].last + 1
    }

    // The zone of a cylinder.
    #[tactic(auto, using(crate::proofs::Faultless::zones_rise))]
    pub(crate) fn zone_of(&self, cylinder: u32) -> Zone
        requires zones { HasZones self.now }
        requires on_disk { cylinder < cylinders_of self.now.zones }
        ensures zone { IsZoneOf self.now cylinder result }
        ensures slots { slots_at self.now.zones cylinder ≡ result.sectors }
    {
        self.zones[zone_number(self.zones.as_slice(), cylinder)]
    }

    // The index of the zone of each cylinder, in the order of cylinders.
    pub(crate) fn zone_numbers(&self, alloc: Global) -> Result<Vec<u8>, NoMemory>
        requires { HasZones self.now }
        ensures { IfOk result (λ numbers. AreZoneNumbers self.now.zones numbers.items) }
    {
        let zones = self.zones.as_slice();
        let cylinders = self.cylinders();
        let mut numbers = Vec::with_capacity(alloc, cylinders as usize)?;
        for cylinder in 0..cylinders {
            numbers.push(zone_number(zones, cylinder) as u8)?;
        }
        Ok(numbers)
    }

    // The zone of a cylinder, looked up by these numbers.
    #[tactic(auto, using(crate::proofs::Faultless::number_inside, crate::proofs::Faultless::numbered_zone))]
    pub(crate) fn zone_numbered(&self, numbers: &[u8], cylinder: u32) -> Zone
        requires numbers { AreZoneNumbers self.now.zones numbers.now }
        requires on_disk { cylinder < cylinders_of self.now.zones }
        ensures { zone_at self.now.zones cylinder ≡ Some result }
    {
        self.zones[numbers[cylinder as usize] as usize]
    }

    // The first of these places that is outside the disk.
    fn first_outside(&self, places: &[Place]) -> Option<Place>
        requires { HasZones self.now }
        ensures { result ≡ find (is_outside self.now) places.now }
    {
        for place in places {
            if self.is_outside(place) {
                return Some(*place);
            }
        }
        None
    }

    fn is_outside(&self, place: &Place) -> bool
        requires { HasZones self.now }
        ensures { result ≡ is_outside self.now place.now }
    {
        let cylinder = place.track.cylinder;
        if cylinder >= self.cylinders() || place.track.head >= self.heads {
            return true;
        }
        place.slot >= self.zone_of(cylinder).sectors
    }

    // The defects in order, or their first fault.
    #[tactic(auto, using(crate::proofs::Judging::defects_judged, crate::proofs::Judging::defects_sorted))]
    fn judged_defects(&self, alloc: Global) -> Result<Vec<Place>, GeometryError>
        requires { HasZones self.now }
        ensures sorted { IfOk result (λ sorted. AreJudged (defect_fault self.now) self.now.defects sorted.items) }
        ensures fault { IfErr result (Answers (defect_fault self.now)) }
    {
        let defects = self.defects.as_slice();
        if let Some(place) = self.first_outside(defects) {
            return Err(GeometryError::Fault(GeometryFault::DefectOutside(place)));
        }
        let bad = sorted(alloc, defects, &[])?;
        if let Some(place) = first_twin(&bad) {
            return Err(GeometryError::Fault(GeometryFault::DefectTwice(place)));
        }
        Ok(bad)
    }

    // The defects and the grown defects together in order, or the first fault of the grown ones.
    #[tactic(auto, using(crate::proofs::Judging::grown_judged))]
    fn judged_grown(&self, alloc: Global) -> Result<Vec<Place>, GeometryError>
        requires zones { HasZones self.now }
        requires defects { defect_fault self.now ≡ None }
        ensures sorted { IfOk result (λ sorted. AreJudged (grown_fault self.now) (self.now.defects ++ self.now.grown) sorted.items) }
        ensures fault { IfErr result (Answers (grown_fault self.now)) }
    {
        let grown = self.grown.as_slice();
        if let Some(place) = self.first_outside(grown) {
            return Err(GeometryError::Fault(GeometryFault::GrownOutside(place)));
        }
        let bad = sorted(alloc, self.defects.as_slice(), grown)?;
        if let Some(place) = first_twin(&bad) {
            return Err(GeometryError::Fault(GeometryFault::GrownTwice(place)));
        }
        Ok(bad)
    }

    // The marks, in ascending order, of places on the disk that are there once.
    pub(crate) fn marks(&self, alloc: Global, places: &[Place]) -> Result<Vec<Mark>, NoMemory>
        requires zones { HasZones self.now }
        requires inside { find (is_outside self.now) places.now ≡ None }
        requires once { repeated places.now ≡ [] }
        ensures { IfOk result (λ marks. AreMarksOf self.now places.now marks.items) }
    {
        let mut marks = self.unsorted_marks(alloc, places)?;
        marks.sort_unstable();
        Ok(marks)
    }

    fn unsorted_marks(&self, alloc: Global, places: &[Place]) -> Result<Vec<Mark>, NoMemory>
        requires zones { HasZones self.now }
        requires inside { find (is_outside self.now) places.now ≡ None }
        ensures { IfOk result (λ marks. marks.items ≡ map (mark_of self.now) places.now) }
    {
        let mut marks = Vec::with_capacity(alloc, places.len())?;
        for place in places {
            marks.push(self.mark(*place))?;
        }
        Ok(marks)
    }

    fn mark(&self, place: Place) -> Mark
        requires zones { HasZones self.now }
        requires inside { is_outside self.now place ≡ false }
        ensures { result ≡ mark_of self.now place }
    {
        let zone = self.zone_of(place.track.cylinder);
        Mark {
            cylinder: place.track.cylinder,
            position: zone.position(self.heads, place),
        }
    }

    // The first of the defects in order whose track has more of them than spares.
    fn first_on_full_track(&self, defects: &[Place]) -> Option<Place>
        requires zones { HasZones self.now }
        requires sorted { AreSorted self.now.defects defects.now }
        requires inside { All (λ place. is_outside self.now place ≡ false) defects.now }
        ensures { result ≡ find (λ place. is_full_track self.now place.track) defects.now }
    {
        for place in defects {
            if self.is_full_track(defects, *place) {
                return Some(*place);
            }
        }
        None
    }

    fn is_full_track(&self, defects: &[Place], place: Place) -> bool
        requires zones { HasZones self.now }
        requires sorted { AreSorted self.now.defects defects.now }
        requires inside { is_outside self.now place ≡ false }
        ensures { result ≡ is_full_track self.now place.track }
    {
        let track = place.track;
        let spares = self.zone_of(track.cylinder).spares as usize;
        let first = defects.partition_point(|place| is_before(place.track, track));
        let behind = defects.partition_point(|place| !is_before(track, place.track));
        behind - first > spares
    }

    // The first of all bad places in order whose cylinder has more of them than spares.
    fn first_on_full_cylinder(&self, bad: &[Place]) -> Option<Place>
        requires zones { HasZones self.now }
        requires sorted { AreSorted (self.now.defects ++ self.now.grown) bad.now }
        requires inside { All (λ place. is_outside self.now place ≡ false) bad.now }
        ensures { result ≡ find (λ place. is_full_cylinder self.now place.track.cylinder) bad.now }
    {
        for place in bad {
            if self.is_full_cylinder(bad, *place) {
                return Some(*place);
            }
        }
        None
    }

    fn is_full_cylinder(&self, bad: &[Place], place: Place) -> bool
        requires zones { HasZones self.now }
        requires sorted { AreSorted (self.now.defects ++ self.now.grown) bad.now }
        requires inside { is_outside self.now place ≡ false }
        ensures { result ≡ is_full_cylinder self.now place.track.cylinder }
    {
        let cylinder = place.track.cylinder;
        let spares = self.zone_of(cylinder).cylinder_spares as usize;
        let first = bad.partition_point(|place| place.track.cylinder < cylinder);
        let behind = bad.partition_point(|place| place.track.cylinder <= cylinder);
        behind - first > spares
    }
}

// Whether a track comes before another one.
fn is_before(track: Track, other: Track) -> bool
    ensures { result ≡ is_track_before track other }
{
    track < other
}

// These places and the others together, in order.
fn sorted(alloc: Global, places: &[Place], others: &[Place]) -> Result<Vec<Place>, NoMemory>
    ensures { IfOk result (λ sorted. AreSorted (places.now ++ others.now) sorted.items) }
{
    let mut sorted = Vec::from_slice(alloc, places)?;
    sorted.extend_from_slice(others)?;
    sorted.sort_unstable();
    Ok(sorted)
}

// The first of these places in order that is there twice.
#[tactic(auto, using(crate::proofs::Clashes::twin_on, crate::proofs::Clashes::twin_at, crate::proofs::Clashes::twin_none))]
fn first_twin(sorted: &[Place]) -> Option<Place>
    requires { Pairwise (λ place later. is_place_before later place ≡ false) sorted.now }
    ensures { result ≡ slice_get (repeated sorted.now) 0 }
{
    for i in 1..sorted.len() {
        if sorted[i - 1] == sorted[i] {
            return Some(sorted[i - 1]);
        }
    }
    None
}
