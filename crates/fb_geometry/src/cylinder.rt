// A cylinder that is looked up once, for the places of many of its sectors.
ghost use Rattle.std.specs.Prelude.{◌≡◌, ℕ, ◌<◌, length, slice_get, Some, true};
ghost use Rattle.fb_geometry.specs.Shape.{cylinders_of, slots_at};
ghost use Rattle.fb_geometry.specs.Angles.{slot_begin};
ghost use Rattle.fb_geometry.specs.Places.{data_list_at};
ghost use Rattle.fb_geometry.specs.Turns.{IsZoneAt};
ghost use Rattle.fb_geometry.specs.declared.zone.Zone.{Zone};
ghost use Rattle.fb_geometry.specs.Even.{even_place, IsEven, IsLookedUp, HasNoBad, sectors_by};

use crate::{Geometry, Layout, Zone};
use fb_units::{Ns, Place, Track};

/// A cylinder, looked up once for the places of many of its sectors.
#[derive(Clone, Copy)]
pub struct Cylinder {
    /// Its number, from 0.
    pub number: u32,
    /// Whether none of its slots is bad.
    pub even: bool,
    /// The number of sectors on each of its tracks, if none of its slots is bad.
    pub sectors: u32,
    /// The number of slots of each of its tracks, 1 to 10,000.
    pub slots: u32,
    /// The slot from which the sectors of its first track are counted.
    pub offset: u32,
    /// The track skew: by how many slots the count of each track begins later than that of the one
    /// before it.
    pub skew: u32,
}

impl Geometry {
    /// Looks up a cylinder, for the places of many of its sectors.
    pub fn cylinder(&self, cylinder: u32) -> Cylinder
        requires { cylinder < cylinders_of self.now.zones }
        ensures number { result.number ≡ cylinder }
        ensures looked_up { IsLookedUp self.now result }
    {
        let zone = self.zone_of(cylinder);
        Cylinder {
            number: cylinder,
            even: self.has_no_bad(cylinder),
            sectors: self.track_sectors(zone),
            slots: zone.sectors,
            offset: zone.offset(self.heads(), Track { cylinder, head: 0 }),
            skew: zone.track_skew,
        }
    }

    // Whether no slot of a cylinder is bad.
    fn has_no_bad(&self, cylinder: u32) -> bool
        ensures { result ≡ true → (zone : Zone) → IsZoneAt self.now cylinder zone → HasNoBad self.now zone cylinder }
    {
        self.defects_on(cylinder).is_empty() && self.grown_on(cylinder).is_empty()
    }

    // How many sectors each track of a zone's cylinder has, if none of its slots is bad.
    fn track_sectors(&self, zone: Zone) -> u32
        requires { (cylinder : ℕ) × IsZoneAt self.now cylinder zone }
        ensures { result ≡ sectors_by self.now.layout zone }
    {
        match self.layout() {
            Layout::PerTrack => zone.sectors - zone.spares,
            Layout::PerCylinder => zone.sectors,
        }
    }

    /// The place of the j-th sector of a cylinder that was looked up, counted from 0.
    pub fn place_on(&self, on: &Cylinder, j: u32) -> Place
        requires looked_up { IsLookedUp self.now on.now }
        requires sector { j < length (data_list_at self.now on.now.number) }
        ensures { slice_get (data_list_at self.now on.now.number) j ≡ Some result }
    {
        if on.even {
            self.even_place(on, j)
        } else {
            self.sector_place(on.number, j)
        }
    }

    /// The angle, in nanoseconds of the rotation, at which a slot begins on a cylinder that was
    /// looked up.
    pub fn begin_on(&self, on: &Cylinder, slot: u32) -> Ns
        requires looked_up { IsLookedUp self.now on.now }
        requires slot { slot < slots_at self.now.zones on.now.number }
        ensures value { result ≡ slot_begin self.now.rotation (slots_at self.now.zones on.now.number) slot }
        ensures bound { result < self.now.rotation }
    {
        slot as u64 * self.rotation() / on.slots as u64
    }

    // The place of the j-th sector of a cylinder of which no slot is bad.
    fn even_place(&self, on: &Cylinder, j: u32) -> Place
        requires even { IsEven self.now on.now }
        requires sector { j < length (data_list_at self.now on.now.number) }
        ensures { result ≡ even_place on.now j }
    {
        let head = j / on.sectors;
        let turned = on.offset + head * on.skew + j % on.sectors;
        Place {
            track: Track {
                cylinder: on.number,
                head,
            },
            slot: turned % on.slots,
        }
    }
}
