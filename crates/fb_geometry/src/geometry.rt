// The geometry of a disk.
ghost use Rattle.std.specs.Prelude.{◌≡◌, ℕ, ◌+◌, ◌-◌, ◌*◌, ◌/◌, ◌<◌, ◌≤◌, ◌^◌, ◌∷◌, length, slice_get, Some, MatchOption, false};
ghost use Rattle.fb_geometry.specs.Shape.{Shape, shape_of, slots_at, cylinders_of, offset_at, is_among};
ghost use Rattle.fb_geometry.specs.Angles.{slot_begin, CoverRotation};
ghost use Rattle.fb_geometry.specs.Places.{data_list, data_list_at, by_head, good_track};
ghost use Rattle.fb_geometry.specs.Faults.{Judges, FitsLayout};
ghost use Rattle.fb_geometry.specs.Sound.{IsSound, HasOwnPlaces, cylinder_size};
ghost use Rattle.fb_geometry.specs.Turns.{IsZoneAt, cylinder_slots};
ghost use Rattle.fb_geometry.specs.Slips.{IsAscending, indexes};
ghost use Rattle.fb_geometry.specs.Kept.{IsGoodOf, good_before};
ghost use Rattle.fb_geometry.specs.Marks.{positions};
ghost use Rattle.fb_geometry.specs.declared.zone.Zone.{Zone};

use crate::marks::{
    Mark, Marks, among_unmarked, entry_of_sector, is_marked, sector_of_entry, slipped,
    unmarked_before,
};
use crate::outline::Outline;
use crate::{GeometryError, Layout, Zone};
use fb_units::{Ns, Place, Track};
use std::alloc::Global;
use std::marker::Model;

/// The geometry of a disk: which slots its tracks have, and which of them hold data. Zones, skews
/// and defects: Ruemmler and Wilkes, "An introduction to disk drive modeling", 1994.
#[derive(Drop)]
pub struct Geometry {
    outline: Outline,
    zone_numbers: Vec<u8>,
    defect_marks: Marks,
    grown_marks: Marks,
}

impl Model for Geometry {
    ghost use Rattle.fb_geometry.specs.Shape.{Shape};
    ghost use Rattle.fb_geometry.specs.Kept.{IsKept};

    ghost Value = { Shape };

    ghost view = { λ g. g.outline };

    ghost invariant = { λ g. IsKept g.outline g.zone_numbers.items g.defect_marks g.grown_marks };
}

impl Geometry {
    /// The geometry of a disk with spare slots of this layout, a rotation in ns, heads, zones in the
    /// order of cylinders, and slots that are bad from the first or went bad later, both in any
    /// order; or its first fault, or `NoMemory`.
    ///
    /// Zones have no spares of the other layout, and with spares on each track no slot is grown.
    pub fn new(
        alloc: Global,
        layout: Layout,
        rotation: Ns,
        heads: u32,
        zones: Vec<Zone>,
        defects: Vec<Place>,
        grown: Vec<Place>,
    ) -> Result<Geometry, GeometryError>
        requires fits { FitsLayout layout (shape_of layout rotation heads zones.items defects.items grown.items) }
        ensures { Judges (shape_of layout rotation heads zones.items defects.items grown.items) result }
    {
        Geometry::of_outline(
            alloc,
            Outline {
                layout,
                rotation,
                heads,
                zones,
                defects,
                grown,
            },
        )
    }

    // The geometry of an outline; or the outline's first fault, or `NoMemory`.
    fn of_outline(alloc: Global, outline: Outline) -> Result<Geometry, GeometryError>
        requires fits { FitsLayout outline.layout outline }
        ensures { Judges outline result }
    {
        outline.judge(alloc)?;
        let defects = outline.marks(alloc, outline.defects.as_slice())?;
        let grown = outline.marks(alloc, outline.grown.as_slice())?;
        let grown = among_unmarked(alloc, &defects, &grown)?;
        let zone_numbers = outline.zone_numbers(alloc)?;
        Ok(Geometry {
            outline,
            zone_numbers,
            defect_marks: Marks::of(defects),
            grown_marks: Marks::of(grown),
        })
    }

    /// What holds of every geometry: its numbers are in their ranges, its zones follow one another,
    /// and the cylinders of a zone have the same number of sectors, each on slots of its own.
    pub fn sound(&self)
        ensures { IsSound self.now }
    {
        let _outline = &self.outline;
    }

    /// Each sector has a place of its own, which is not a bad slot.
    #[tactic(auto, using(crate::proofs::Once::own_places))]
    pub fn own_places(&self)
        ensures { HasOwnPlaces self.now }
    {
        let _outline = &self.outline;
    }

    /// The slots of a track follow one another around the whole rotation.
    #[tactic(auto, using(crate::proofs::Rotation::cover))]
    pub fn angles(&self, track: Track)
        requires { track.cylinder < cylinders_of self.now.zones }
        ensures { CoverRotation self.now.rotation (slots_at self.now.zones track.cylinder) }
    {
        let _slots = self.slots(track);
    }

    /// Where the spare slots are.
    pub fn layout(&self) -> Layout
        ensures { result ≡ self.now.layout }
    {
        self.outline.layout
    }

    /// The time of one rotation, in nanoseconds.
    pub fn rotation(&self) -> Ns
        ensures value { result ≡ self.now.rotation }
        ensures some { 0 < result }
        ensures bound { result ≤ 10 ^ 9 }
    {
        self.outline.rotation
    }

    /// The number of heads, which is the number of tracks of a cylinder.
    pub fn heads(&self) -> u32
        ensures value { result ≡ self.now.heads }
        ensures some { 0 < result }
        ensures few { result ≤ 64 }
    {
        self.outline.heads
    }

    /// The number of cylinders.
    pub fn cylinders(&self) -> u32
        ensures value { result ≡ cylinders_of self.now.zones }
        ensures some { 0 < result }
        ensures few { result ≤ 10 ^ 6 }
    {
        self.outline.cylinders()
    }

    /// The number of zones.
    pub fn zones(&self) -> u32
        ensures value { result ≡ length self.now.zones }
        ensures some { 0 < result }
        ensures few { result ≤ 64 }
    {
        self.outline.zones.len() as u32
    }

    /// The zone at this index, counted from 0 in the order of cylinders.
    pub fn zone(&self, i: u32) -> Zone
        requires { i < length self.now.zones }
        ensures { slice_get self.now.zones i ≡ Some result }
    {
        self.outline.zones[i as usize]
    }

    // The zone of a cylinder.
    #[tactic(auto, using(crate::proofs::Faultless::by_zone))]
    pub(crate) fn zone_of(&self, cylinder: u32) -> Zone
        requires { cylinder < cylinders_of self.now.zones }
        ensures zone { IsZoneAt self.now cylinder result }
        ensures slots { slots_at self.now.zones cylinder ≡ result.sectors }
        ensures list { data_list_at self.now cylinder ≡ data_list self.now result cylinder }
    {
        let numbers = self.zone_numbers.as_slice();
        self.outline.zone_numbered(numbers, cylinder)
    }

    /// The number of slots of a track.
    pub fn slots(&self, track: Track) -> u32
        requires { track.cylinder < cylinders_of self.now.zones }
        ensures value { result ≡ slots_at self.now.zones track.cylinder }
        ensures some { 0 < result }
        ensures few { result ≤ 10000 }
        ensures room { result ≤ self.now.rotation }
    {
        let _outline = &self.outline;
        self.zone_of(track.cylinder).sectors
    }

    /// The slot from which the sectors of a track are counted.
    pub fn offset(&self, track: Track) -> u32
        requires cylinder { track.cylinder < cylinders_of self.now.zones }
        requires head { track.head < self.now.heads }
        ensures value { result ≡ offset_at self.now.zones self.now.heads track }
        ensures below { result < slots_at self.now.zones track.cylinder }
    {
        self.zone_of(track.cylinder).offset(self.heads(), track)
    }

    /// The angle at which a slot begins, in nanoseconds of the rotation, rounded down.
    pub fn slot_begin(&self, track: Track, slot: u32) -> Ns
        requires track { track.cylinder < cylinders_of self.now.zones }
        requires slot { slot < slots_at self.now.zones track.cylinder }
        ensures value { result ≡ slot_begin self.now.rotation (slots_at self.now.zones track.cylinder) slot }
        ensures bound { result < self.now.rotation }
    {
        slot as u64 * self.rotation() / self.slots(track) as u64
    }

    /// The angle at which a slot ends, which is where the next one begins; for the last slot the
    /// whole rotation.
    pub fn slot_end(&self, track: Track, slot: u32) -> Ns
        requires track { track.cylinder < cylinders_of self.now.zones }
        requires slot { slot < slots_at self.now.zones track.cylinder }
        ensures value { result ≡ slot_begin self.now.rotation (slots_at self.now.zones track.cylinder) (slot + 1) }
        ensures after { slot_begin self.now.rotation (slots_at self.now.zones track.cylinder) slot < result }
        ensures bound { result ≤ self.now.rotation }
    {
        (slot as u64 + 1) * self.rotation() / self.slots(track) as u64
    }

    /// The number of sectors of a cylinder.
    #[tactic(auto, using(crate::proofs::Laws::length_data_list))]
    pub fn cylinder_sectors(&self, cylinder: u32) -> u32
        requires { cylinder < cylinders_of self.now.zones }
        ensures value { result ≡ length (data_list_at self.now cylinder) }
        ensures some { 0 < result }
    {
        self.sectors_of(self.zone_of(cylinder))
    }

    // The number of sectors of each cylinder of a zone.
    fn sectors_of(&self, zone: Zone) -> u32
        requires { (cylinder : ℕ) × IsZoneAt self.now cylinder zone }
        ensures value { result ≡ cylinder_size self.now zone }
        ensures some { 0 < result }
    {
        match self.layout() {
            Layout::PerTrack => self.heads() * (zone.sectors - zone.spares),
            Layout::PerCylinder => self.heads() * zone.sectors - zone.cylinder_spares,
        }
    }

    /// The place of the j-th sector of a cylinder, counted from 0.
    pub fn sector_place(&self, cylinder: u32, j: u32) -> Place
        requires cylinder { cylinder < cylinders_of self.now.zones }
        requires sector { j < length (data_list_at self.now cylinder) }
        ensures { slice_get (data_list_at self.now cylinder) j ≡ Some result }
    {
        let zone = self.zone_of(cylinder);
        let good = self.good_of_sector(zone, cylinder, j);
        zone.place_at(
            self.heads(),
            cylinder,
            slipped(self.defects_on(cylinder), good),
        )
    }

    // The index of a sector's slot among the slots of its cylinder that are no defects.
    #[tactic(auto, using(crate::proofs::Lookups::split_by_track, crate::proofs::Lookups::few_slots))]
    fn good_of_sector(&self, zone: Zone, cylinder: u32, j: u32) -> u32
        requires zone { IsZoneAt self.now cylinder zone }
        requires sector { j < length (data_list_at self.now cylinder) }
        ensures { IsGoodOf self.now zone cylinder j result }
    {
        let heads = self.heads();
        match self.layout() {
            Layout::PerTrack => {
                let sectors = zone.sectors - zone.spares;
                let first = j / sectors * zone.sectors;
                unmarked_before(self.defects_on(cylinder), first) + j % sectors
            }
            Layout::PerCylinder => {
                let sectors = heads * zone.sectors - zone.cylinder_spares;
                entry_of_sector(self.grown_on(cylinder), sectors, j)
            }
        }
    }

    /// Which sector of its cylinder a slot holds, counted from 0. None if it holds no data: it is a
    /// defect, a grown defect, or a spare that no sector has moved to.
    pub fn sector_of_slot(&self, track: Track, slot: u32) -> Option<u32>
        requires cylinder { track.cylinder < cylinders_of self.now.zones }
        requires head { track.head < self.now.heads }
        requires slot { slot < slots_at self.now.zones track.cylinder }
        ensures { MatchOption result
            ((j : ℕ) → slice_get (data_list_at self.now track.cylinder) j ≡ Some (record { track = track; slot = slot }) → ⊥)
            (λ j. slice_get (data_list_at self.now track.cylinder) j ≡ Some (record { track = track; slot = slot })) }
    {
        let zone = self.zone_of(track.cylinder);
        let defects = self.defects_on(track.cylinder);
        let place = Place { track, slot };
        let position = zone.position(self.heads(), place);
        if is_marked(defects, position) {
            return None;
        }
        self.sector_of_good(zone, place, unmarked_before(defects, position))
    }

    // Which sector a slot holds that is no defect, by its index among such slots of its cylinder.
    #[tactic(auto, using(crate::proofs::Lookups::slots_upto))]
    fn sector_of_good(&self, zone: Zone, place: Place, good: u32) -> Option<u32>
        requires zone { IsZoneAt self.now place.track.cylinder zone }
        requires head { place.track.head < self.now.heads }
        requires slot { place.slot < zone.sectors }
        requires good { is_among self.now.defects place ≡ false }
        requires index { good ≡ good_before self.now zone place }
        ensures { MatchOption result
            ((j : ℕ) → slice_get (data_list_at self.now place.track.cylinder) j ≡ Some place → ⊥)
            (λ j. slice_get (data_list_at self.now place.track.cylinder) j ≡ Some place) }
    {
        let heads = self.heads();
        match self.layout() {
            Layout::PerTrack => {
                let defects = self.defects_on(place.track.cylinder);
                let sectors = zone.sectors - zone.spares;
                let sector = good - unmarked_before(defects, place.track.head * zone.sectors);
                if sector >= sectors {
                    return None;
                }
                Some(place.track.head * sectors + sector)
            }
            Layout::PerCylinder => {
                let sectors = heads * zone.sectors - zone.cylinder_spares;
                sector_of_entry(self.grown_on(place.track.cylinder), sectors, good)
            }
        }
    }

    // The defects of a cylinder, by their positions.
    pub(crate) fn defects_on(&self, cylinder: u32) -> &[Mark]
        ensures marks { (zone : Zone) → IsZoneAt self.now cylinder zone
            → positions result.now ≡ indexes (is_among self.now.defects) 0 (cylinder_slots zone self.now.heads cylinder) }
        ensures ascending { IsAscending (positions result.now) }
    {
        self.defect_marks.on(cylinder)
    }

    // The grown defects of a cylinder, by their indexes among its good slots.
    pub(crate) fn grown_on(&self, cylinder: u32) -> &[Mark]
        ensures marks { (zone : Zone) → IsZoneAt self.now cylinder zone
            → positions result.now ≡ indexes (is_among self.now.grown) 0 (by_head self.now cylinder (good_track self.now zone)) }
        ensures ascending { IsAscending (positions result.now) }
    {
        self.grown_marks.on(cylinder)
    }
}
