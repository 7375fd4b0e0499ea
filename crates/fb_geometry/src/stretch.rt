// Sectors that come by directly one after another.
ghost use Rattle.std.specs.Prelude.{◌+◌, ◌<◌, ◌≤◌, length};
ghost use Rattle.fb_geometry.specs.Shape.{cylinders_of};
ghost use Rattle.fb_geometry.specs.Places.{data_list_at};
ghost use Rattle.fb_geometry.specs.Turns.{IsZoneAt};
ghost use Rattle.fb_geometry.specs.Stretches.{IsStretch, KeepsOrder};

use crate::marks::unmarked_from;
use crate::{Geometry, Layout, Zone};
use fb_units::Place;

/// Sectors in neighbouring slots of one turn of a track.
#[derive(Clone, Copy)]
pub struct Stretch {
    /// The place of the first sector.
    pub place: Place,
    /// The number of sectors, at least one.
    pub count: u32,
}

impl Geometry {
    /// The place of the j-th sector of a cylinder, counted from 0, and how many sectors from it on
    /// are in neighbouring slots.
    ///
    /// The stretch ends before the next bad slot, and with the turn of the track; a sector that has
    /// moved to a spare is a stretch of its own. It need not be the longest one.
    pub fn stretch(&self, cylinder: u32, j: u32) -> Stretch
        requires cylinder { cylinder < cylinders_of self.now.zones }
        requires sector { j < length (data_list_at self.now cylinder) }
        ensures { IsStretch self.now cylinder j result }
    {
        let zone = self.zone_of(cylinder);
        let in_order = self.in_order(zone, cylinder, j);
        let place = self.sector_place(cylinder, j);
        let position = zone.position(self.heads(), place);
        let end = (place.track.head + 1) * zone.sectors;
        let good = unmarked_from(self.defects_on(cylinder), position, end);
        Stretch {
            place,
            count: good.min(in_order),
        }
    }

    // A number of sectors, from the j-th on, that are on good slots in their order, with no good
    // slot left out between them.
    #[tactic(auto, using(crate::proofs::Stretched::order_by_track, crate::proofs::Stretched::order_by_cylinder))]
    fn in_order(&self, zone: Zone, cylinder: u32, j: u32) -> u32
        requires zone { IsZoneAt self.now cylinder zone }
        requires sector { j < length (data_list_at self.now cylinder) }
        ensures some { 0 < result }
        ensures order { KeepsOrder self.now zone cylinder j result }
    {
        match self.layout() {
            Layout::PerTrack => {
                let sectors = zone.sectors - zone.spares;
                sectors - j % sectors
            }
            Layout::PerCylinder => {
                let sectors = self.heads() * zone.sectors - zone.cylinder_spares;
                unmarked_from(self.grown_on(cylinder), j, sectors).max(1)
            }
        }
    }
}
