// Small disks, and a large one.
ghost use Rattle.std.specs.Prelude.{◌≡◌, ◌==◌, not, false};
ghost use Rattle.std.specs.List.{list_any};

use fb_geometry::{Geometry, GeometryError, Layout, Zone};
use fb_sectormap::SectorMap;
use fb_units::{NoMemory, Ns, Place, Track};
use std::alloc::Global;
use std::test::Fail;

/// Four cylinders with twelve slots a track.
pub const ZONE: Zone = Zone {
    first: 0,
    last: 3,
    sectors: 12,
    track_skew: 0,
    cylinder_skew: 0,
    spares: 0,
    cylinder_spares: 0,
};

/// The fourth slot of the first track.
pub const BAD: &[Place] = &[Place {
    track: Track {
        cylinder: 0,
        head: 0,
    },
    slot: 3,
}];

/// The track of a cylinder and a head, both counted from 0.
pub fn track(cylinder: u32, head: u32) -> Track {
    Track { cylinder, head }
}

/// The place of a cylinder, a head and a slot, all counted from 0.
pub fn place(cylinder: u32, head: u32, slot: u32) -> Place {
    Place {
        track: track(cylinder, head),
        slot,
    }
}

/// A disk of two heads with spares at the end of each track.
pub fn per_track(
    alloc: Global,
    zone: Zone,
    defects: &[Place],
) -> Result<Result<Geometry, GeometryError>, NoMemory> {
    let mut zones = Vec::new(alloc);
    zones.push(Zone {
        cylinder_spares: 0,
        ..zone
    })?;
    let defects = defects.to_vec(alloc)?;
    Ok(Geometry::new(
        alloc,
        Layout::PerTrack,
        1200,
        2,
        zones,
        defects,
        Vec::new(alloc),
    ))
}

/// A disk of two heads with spares at the end of each cylinder.
pub fn per_cylinder(
    alloc: Global,
    zone: Zone,
    defects: &[Place],
    grown: &[Place],
) -> Result<Result<Geometry, GeometryError>, NoMemory> {
    let mut zones = Vec::new(alloc);
    zones.push(Zone { spares: 0, ..zone })?;
    let defects = defects.to_vec(alloc)?;
    let grown = grown.to_vec(alloc)?;
    Ok(Geometry::new(alloc, Layout::PerCylinder, 1200, 2, zones, defects, grown))
}

fn zone(first: u32, last: u32, sectors: u32, spares: u32) -> Zone
    ensures { result.cylinder_spares ≡ 0 }
{
    Zone {
        first,
        last,
        sectors,
        track_skew: 0,
        cylinder_skew: 0,
        spares,
        cylinder_spares: 0,
    }
}

fn map_of(alloc: Global, rotation: Ns, heads: u32, zones: Vec<Zone>) -> Result<SectorMap, Fail>
    requires { list_any (λ zone. not (zone.cylinder_spares == 0)) zones.items ≡ false }
{
    let geometry = Geometry::new(
        alloc,
        Layout::PerTrack,
        rotation,
        heads,
        zones,
        Vec::new(alloc),
        Vec::new(alloc),
    )?;
    Ok(SectorMap::new(alloc, geometry)?)
}

/// A disk of 96 sectors on tracks of twelve.
pub fn small_map(alloc: Global) -> Result<SectorMap, Fail> {
    let mut zones = Vec::new(alloc);
    zones.push(zone(0, 3, 12, 0))?;
    map_of(alloc, 1_200, 2, zones)
}

/// A disk of 16,739,688 sectors.
pub fn large_map(alloc: Global) -> Result<SectorMap, Fail> {
    let mut zones = Vec::new(alloc);
    zones.push(zone(0, 3_332, 334, 2))?;
    zones.push(zone(3_333, 6_665, 280, 2))?;
    zones.push(zone(6_666, 9_999, 229, 2))?;
    map_of(alloc, 6_000_000, 6, zones)
}

/// A disk of 2,048,000 sectors less the spares, on tracks of fifteen.
pub fn short_tracks(alloc: Global) -> Result<SectorMap, Fail> {
    let mut zones = Vec::new(alloc);
    zones.push(zone(0, 1_999, 16, 1))?;
    map_of(alloc, 6_000_000, 64, zones)
}
