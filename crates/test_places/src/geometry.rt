// Answers worked out by hand, for a disk of four cylinders with two heads and twelve slots a track.
use crate::disks::{BAD, ZONE, per_cylinder, per_track, place};
use fb_geometry::{Geometry, Zone};
use fb_units::{Place, Track};
use std::process::Abort;
use std::test::Fail;

const TWO_SPARES: Zone = Zone {
    cylinder_spares: 2,
    ..ZONE
};

// The place of a sector of the first cylinder.
fn place_of(geometry: &Geometry, j: u32) -> Option<Place> {
    if geometry.cylinders() == 0 || j >= geometry.cylinder_sectors(0) {
        return None;
    }
    Some(geometry.sector_place(0, j))
}

// The sector at a place of the first cylinder.
fn sector_at(geometry: &Geometry, head: u32, slot: u32) -> Option<u32> {
    let track = Track { cylinder: 0, head };
    if geometry.cylinders() == 0 || head >= geometry.heads() || slot >= geometry.slots(track) {
        return None;
    }
    geometry.sector_of_slot(track, slot)
}

// A sector of the first cylinder, and the head and the slot where it is.
struct Found {
    j: u32,
    head: u32,
    slot: u32,
}

const ON_SPARED: &[Found] = &[
    Found {
        j: 3,
        head: 0,
        slot: 4,
    },
    Found {
        j: 10,
        head: 1,
        slot: 0,
    },
];

const ON_SLIPPED: &[Found] = &[
    Found {
        j: 10,
        head: 0,
        slot: 11,
    },
    Found {
        j: 11,
        head: 1,
        slot: 0,
    },
];

const ON_MOVED: &[Found] = &[
    Found {
        j: 3,
        head: 1,
        slot: 10,
    },
    Found {
        j: 4,
        head: 0,
        slot: 4,
    },
];

// Checks how many sectors the first cylinder has, and where some of them are.
fn check_found(rt: &impl Abort, geometry: &Geometry, sectors: u32, found: &[Found]) {
    assert_eq!(rt; geometry.cylinders(), 4);
    assert_eq!(rt; geometry.cylinder_sectors(0), sectors);
    for at in found {
        assert_eq!(rt; place_of(geometry, at.j), Some(place(0, at.head, at.slot)));
        assert_eq!(rt; sector_at(geometry, at.head, at.slot), Some(at.j));
    }
}

// Checks that this slot of the first cylinder has no sector.
fn check_empty(rt: &impl Abort, geometry: &Geometry, head: u32, slot: u32) {
    assert_eq!(rt; sector_at(geometry, head, slot), None);
}

#[test]
fn a_spared_track_passes_over_a_bad_slot(rt: HostRuntime) -> Result<(), Fail> {
    let zone = Zone { spares: 2, ..ZONE };
    let geometry = per_track(rt.alloc(), zone, BAD)?.expect(&rt, "spared");
    check_found(&rt, &geometry, 20, ON_SPARED);
    check_empty(&rt, &geometry, 0, 3);
    check_empty(&rt, &geometry, 0, 11);
    Ok(())
}

#[test]
fn a_spared_cylinder_passes_over_a_bad_slot(rt: HostRuntime) -> Result<(), Fail> {
    let geometry = per_cylinder(rt.alloc(), TWO_SPARES, BAD, &[])?.expect(&rt, "slipped");
    check_found(&rt, &geometry, 22, ON_SLIPPED);
    check_empty(&rt, &geometry, 0, 3);
    Ok(())
}

#[test]
fn a_sector_moves_from_a_slot_that_went_bad(rt: HostRuntime) -> Result<(), Fail> {
    let geometry = per_cylinder(rt.alloc(), TWO_SPARES, &[], BAD)?.expect(&rt, "moved");
    check_found(&rt, &geometry, 22, ON_MOVED);
    check_empty(&rt, &geometry, 0, 3);
    check_empty(&rt, &geometry, 1, 11);
    Ok(())
}
