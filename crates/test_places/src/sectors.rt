// Sectors worked out by hand, for small disks of four cylinders with two heads and twelve slots a
// track.
use crate::disks::{BAD, ZONE, per_cylinder, place};
use fb_geometry::Zone;
use fb_sectormap::{Cut, SectorMap};
use fb_units::{NoMemory, Place, Track};
use std::alloc::Global;
use std::process::Abort;
use std::test::Fail;

const UPPER: Track = Track {
    cylinder: 0,
    head: 0,
};

const LOWER: Track = Track {
    cylinder: 0,
    head: 1,
};

// The disk with two spares at the end of each cylinder.
fn disk(alloc: Global, defects: &[Place], grown: &[Place]) -> Result<SectorMap, Fail> {
    let zone = Zone {
        cylinder_spares: 2,
        ..ZONE
    };
    let geometry = per_cylinder(alloc, zone, defects, grown)??;
    Ok(SectorMap::new(alloc, geometry)?)
}

// The place of a sector; `None` where the disk has no such sector.
fn place_of(map: &SectorMap, lbn: u64) -> Option<Place> {
    if lbn >= map.count() {
        return None;
    }
    Some(map.place(lbn))
}

// The same, from the run of the sector's cylinder.
fn place_in_run(map: &SectorMap, lbn: u64) -> Option<Place> {
    if lbn >= map.count() {
        return None;
    }
    Some(map.place_in(&map.run_of(lbn), lbn))
}

// How many sectors from this one on are in neighbouring slots; 0 where the disk has no such sector.
fn neighbours(map: &SectorMap, lbn: u64) -> u32 {
    if lbn >= map.count() {
        return 0;
    }
    map.stretch(lbn).count
}

const MOVED: &[Place] = &[Place {
    track: LOWER,
    slot: 4,
}];

// A sector, the head and the slot of the first cylinder where it is, and how many sectors from this
// one on are in neighbouring slots.
struct Found {
    lbn: u64,
    head: u32,
    slot: u32,
    count: u32,
}

const BEHIND_BAD: &[Found] = &[
    Found {
        lbn: 3,
        head: 0,
        slot: 4,
        count: 8,
    },
    Found {
        lbn: 10,
        head: 0,
        slot: 11,
        count: 1,
    },
    Found {
        lbn: 11,
        head: 1,
        slot: 0,
        count: 11,
    },
];

const ROUND_MOVED: &[Found] = &[
    Found {
        lbn: 15,
        head: 1,
        slot: 3,
        count: 1,
    },
    Found {
        lbn: 16,
        head: 1,
        slot: 10,
        count: 1,
    },
    Found {
        lbn: 17,
        head: 1,
        slot: 5,
        count: 5,
    },
];

const UNMOVED: &[Found] = &[Found {
    lbn: 15,
    head: 1,
    slot: 3,
    count: 7,
}];

// Checks where a sector is.
fn check_at(rt: &impl Abort, map: &SectorMap, lbn: u64, at: Place, count: u32) {
    assert_eq!(rt; place_of(map, lbn), Some(at));
    assert_eq!(rt; place_in_run(map, lbn), Some(at));
    assert_eq!(rt; neighbours(map, lbn), count);
}

// Checks where these sectors of a disk are.
fn check_found(
    rt: &impl Abort,
    alloc: Global,
    defects: &[Place],
    grown: &[Place],
    found: &[Found],
) -> Result<(), Fail> {
    let map = disk(alloc, defects, grown)?;
    assert_eq!(rt; map.count(), 88);
    for sector in found {
        let at = place(0, sector.head, sector.slot);
        check_at(rt, &map, sector.lbn, at, sector.count);
    }
    check_at(rt, &map, 22, place(1, 0, 0), 12);
    Ok(())
}

#[test]
fn finds_sectors_that_moved(rt: HostRuntime) -> Result<(), Fail> {
    check_found(&rt, rt.alloc(), BAD, &[], BEHIND_BAD)?;
    check_found(&rt, rt.alloc(), &[], MOVED, ROUND_MOVED)?;
    check_found(&rt, rt.alloc(), &[], &[], UNMOVED)
}

// A block of a cutting: its first sector, its count and its track.
fn told(cut: Cut) -> (u64, u32, Track) {
    (cut.lbn, cut.count, cut.track)
}

// The first block that a range is cut into; `None` where the range isn't on the disk.
fn first_cut(map: &SectorMap, first: u64, count: u64, block: u32) -> Option<(u64, u32, Track)> {
    let sectors = map.count();
    if count == 0 || block == 0 || first > sectors || count > sectors - first {
        return None;
    }
    Some(told(map.first_cut(first, count, block)))
}

fn check_first_cut(
    rt: &impl Abort,
    map: &SectorMap,
    left: u64,
    block: u32,
    expected: (u64, u32, Track),
) {
    assert_eq!(rt; first_cut(map, expected.0, left, block), Some(expected));
}

#[test]
fn cuts_behind_a_sector_that_moved(rt: HostRuntime) -> Result<(), Fail> {
    let map = disk(rt.alloc(), &[], MOVED)?;
    check_first_cut(&rt, &map, 4, 20, (15, 2, LOWER));
    check_first_cut(&rt, &map, 2, 20, (17, 2, LOWER));
    Ok(())
}

// The blocks that a range is cut into, one after another; `None` where the range isn't on the disk.
fn cuts(
    alloc: Global,
    map: &SectorMap,
    first: u64,
    count: u64,
    block: u32,
) -> Result<Option<Vec<(u64, u32, Track)>>, NoMemory> {
    let sectors = map.count();
    if count == 0 || block == 0 || first > sectors || count > sectors - first {
        return Ok(None);
    }
    let mut cuts = Vec::new(alloc);
    let mut span = map.span(first);
    let mut lbn = first;
    let mut left = count;
    while left > 0 {
        let cut = map.next_cut(&mut span, lbn, left, block);
        cuts.push(told(cut))?;
        lbn += cut.count as u64;
        left -= cut.count as u64;
    }
    Ok(Some(cuts))
}

// How many sectors are left before each block, and the block.
const CUTS: &[(u64, (u64, u32, Track))] = &[
    (20, (1, 5, UPPER)),
    (15, (6, 5, UPPER)),
    (10, (11, 1, LOWER)),
    (9, (12, 4, LOWER)),
    (5, (16, 2, LOWER)),
    (3, (18, 3, LOWER)),
];

fn check_cuts(rt: &impl Abort, map: &SectorMap, cuts: &[(u64, u32, Track)]) {
    assert_eq!(rt; cuts.len(), CUTS.len());
    for (cut, (left, expected)) in cuts.iter().zip(CUTS) {
        assert_eq!(rt; cut, expected);
        check_first_cut(rt, map, *left, 6, *expected);
    }
}

#[test]
fn cuts_through_a_bad_slot_and_a_tracks_end(rt: HostRuntime) -> Result<(), Fail> {
    let map = disk(rt.alloc(), BAD, MOVED)?;
    match cuts(rt.alloc(), &map, 1, 20, 6)? {
        Some(cuts) => check_cuts(&rt, &map, cuts.as_slice()),
        None => assert!(rt; false, "it is a range of the disk"),
    }
    Ok(())
}
