// The map between LBNs and places.
ghost use Rattle.std.specs.Prelude.{◌≡◌, ℕ, ◌+◌, ◌<◌, ◌≤◌, ◌^◌, length, map, IfOk, MatchOption};
ghost use Rattle.fb_geometry.specs.Shape.{slots_at, cylinders_of, turn_position, IsTrackOf};
ghost use Rattle.fb_geometry.specs.Places.{places};
ghost use Rattle.fb_sectormap.specs.LookUp.{IsAt, place_at, track_at, neighbour};
ghost use Rattle.fb_sectormap.specs.Runs.{IsRun};
ghost use Rattle.fb_sectormap.specs.Cylinders.{IsFirstOf, CylindersRise, IsSectorOf, TellsSector, TellsFirst};

use crate::CylinderRun;
use crate::numbering::{CylinderSector, ZoneStart};
use fb_geometry::{Geometry, Stretch};
use fb_units::{NoMemory, Place, Track};
use std::alloc::Global;
use std::marker::Model;

/// Which place each sector of a disk has. Sectors are numbered cylinder by cylinder; this is their
/// LBN, counted from 0.
#[derive(Drop)]
pub struct SectorMap {
    geometry: Geometry,
    starts: Vec<ZoneStart>,
    sectors: u64,
}

impl Model for SectorMap {
    ghost use Rattle.fb_geometry.specs.Shape.{Shape};
    ghost use Rattle.fb_sectormap.specs.Cylinders.{IsMapped};

    ghost Value = { Shape };

    ghost view = { λ m. m.geometry };

    ghost invariant = { λ m. IsMapped m.geometry m.starts.items m.sectors };
}

impl SectorMap {
    /// The map of a disk. Its only error is `NoMemory`.
    #[tactic(auto, using(crate::proofs::Making::all_made))]
    pub fn new(alloc: Global, geometry: Geometry) -> Result<SectorMap, NoMemory>
        ensures { IfOk result (λ map. map ≡ geometry) }
    {
        geometry.sound();
        let mut starts = Vec::new(alloc);
        let mut sectors = 0;
        for i in 0..geometry.zones() {
            let zone = geometry.zone(i);
            let start = ZoneStart {
                cylinder: zone.first,
                lbn: sectors,
                cylinder_sectors: geometry.cylinder_sectors(zone.first),
            };
            starts.push(start)?;
            sectors = start.first_of(zone.last + 1);
        }
        Ok(SectorMap {
            geometry,
            starts,
            sectors,
        })
    }

    /// The geometry that the map was made from.
    pub fn geometry(&self) -> &Geometry
        ensures { result.now ≡ self.now }
    {
        &self.geometry
    }

    /// The number of sectors of the disk.
    #[tactic(auto, using(crate::proofs::ByCylinder::count_few))]
    pub fn count(&self) -> u64
        ensures value { result ≡ length (places self.now) }
        ensures bound { result ≤ 10 ^ 12 }
    {
        self.sectors
    }

    /// The place of a sector.
    pub fn place(&self, lbn: u64) -> Place
        requires { lbn < length (places self.now) }
        ensures at { IsAt self.now lbn result }
        ensures value { result ≡ place_at self.now lbn }
        ensures track { IsTrackOf self.now result.track }
        ensures slot { result.slot < slots_at self.now.zones result.track.cylinder }
    {
        let at = self.by_cylinder(lbn);
        self.geometry.sector_place(at.cylinder, at.sector)
    }

    /// The place of a sector, and how many sectors from it on are in neighbouring slots of its
    /// track.
    ///
    /// They come by directly one after another in one turn of the track. There may be more such
    /// sectors behind them.
    pub fn stretch(&self, lbn: u64) -> Stretch
        requires { lbn < length (places self.now) }
        ensures some { 0 < result.count }
        ensures on_disk { lbn + result.count ≤ length (places self.now) }
        ensures first { result.place ≡ place_at self.now lbn }
        ensures track { IsTrackOf self.now result.place.track }
        ensures slot { result.place.slot < slots_at self.now.zones result.place.track.cylinder }
        ensures next { (i : ℕ) → i < result.count → place_at self.now (lbn + i) ≡ neighbour self.now result.place i }
        ensures one_turn { turn_position self.now result.place + result.count ≤ slots_at self.now.zones result.place.track.cylinder }
    {
        let at = self.by_cylinder(lbn);
        self.geometry.stretch(at.cylinder, at.sector)
    }

    /// All sectors of the cylinder of a sector, for the places of many of them.
    pub fn run_of(&self, lbn: u64) -> CylinderRun
        requires { lbn < length (places self.now) }
        ensures run { IsRun self.now result }
        ensures cylinder { result.on.number ≡ (track_at self.now lbn).cylinder }
        ensures from { result.first ≤ lbn }
        ensures before { lbn < result.end }
    {
        let at = self.by_cylinder(lbn);
        let first = lbn - at.sector as u64;
        CylinderRun {
            on: self.geometry.cylinder(at.cylinder),
            first,
            end: first + self.geometry.cylinder_sectors(at.cylinder) as u64,
        }
    }

    /// The place of a sector of a run.
    pub fn place_in(&self, run: &CylinderRun, lbn: u64) -> Place
        requires run { IsRun self.now run.now }
        requires from { run.now.first ≤ lbn }
        requires before { lbn < run.now.end }
        ensures value { result ≡ place_at self.now lbn }
        ensures cylinder { result.track.cylinder ≡ run.now.on.number }
        ensures track { IsTrackOf self.now result.track }
        ensures slot { result.slot < slots_at self.now.zones result.track.cylinder }
        ensures on_disk { lbn < length (places self.now) }
    {
        self.geometry.place_on(&run.on, (lbn - run.first) as u32)
    }

    /// The LBN of the sector in a slot. None if the slot holds no data.
    pub fn lbn_at(&self, track: Track, slot: u32) -> Option<u64>
        requires cylinder { track.cylinder < cylinders_of self.now.zones }
        requires head { track.head < self.now.heads }
        requires slot { slot < slots_at self.now.zones track.cylinder }
        ensures found { MatchOption result
            ((lbn : ℕ) → IsAt self.now lbn (record { track = track; slot = slot }) → ⊥)
            (λ lbn. IsAt self.now lbn (record { track = track; slot = slot })) }
    {
        let sector = self.geometry.sector_of_slot(track, slot)?;
        Some(self.first_of(track.cylinder) + sector as u64)
    }

    /// The first sector of a cylinder.
    pub fn first_of(&self, cylinder: u32) -> u64
        requires { cylinder < cylinders_of self.now.zones }
        ensures { IsFirstOf self.now cylinder result }
    {
        self.start_by_cylinder(cylinder).first_of(cylinder)
    }

    /// The cylinders of sectors rise with their LBNs.
    pub fn cylinders_rise(&self)
        ensures { CylindersRise self.now }
    {
        let _geometry = &self.geometry;
    }

    // A disk has at most 10^12 sectors.
    pub(crate) fn few_sectors(&self)
        ensures { length (places self.now) ≤ 10 ^ 12 }
    {
        let _geometry = &self.geometry;
    }

    // The cylinder of a sector, and which of the cylinder's sectors it is.
    fn by_cylinder(&self, lbn: u64) -> CylinderSector
        requires { lbn < length (places self.now) }
        ensures { IsSectorOf self.now result.cylinder result.sector lbn }
    {
        self.start_by_lbn(lbn).sector(lbn)
    }

    // The start of the zone that holds a sector.
    fn start_by_lbn(&self, lbn: u64) -> ZoneStart
        requires { lbn < length (places self.now) }
        ensures { TellsSector self.now result lbn }
    {
        let starts = self.starts.as_slice();
        starts[starts.partition_point(|start| start.lbn <= lbn) - 1]
    }

    // The start of the zone of a cylinder.
    fn start_by_cylinder(&self, cylinder: u32) -> ZoneStart
        requires { cylinder < cylinders_of self.now.zones }
        ensures { TellsFirst self.now result cylinder }
    {
        let starts = self.starts.as_slice();
        starts[starts.partition_point(|start| start.cylinder <= cylinder) - 1]
    }
}
