// Services worked out by hand, for small disks of four cylinders with two heads.
ghost use Rattle.std.specs.Prelude.{◌≡◌, true};
ghost use Rattle.fb_service.specs.Service.{IsAccess};

use crate::disks::{BAD, ZONE, per_cylinder, per_track};
use fb_geometry::{Geometry, Layout, Zone};
use fb_sectormap::SectorMap;
use fb_seek::{Mechanism, SeekPoint};
use fb_service::{
    Disk, Extent, Passage, approach_on, approach_to, departure_from, first_pass, nth_passage,
    serve, wait_on,
};
use fb_units::{NoMemory, Ns, Place, Track};
use std::alloc::Global;
use std::process::Abort;
use std::test::Fail;

const SKEWED: Zone = Zone {
    track_skew: 2,
    ..ZONE
};

const UNEVEN: Zone = Zone { sectors: 7, ..ZONE };

const SPARED: Zone = Zone { spares: 2, ..ZONE };

const TWO_SPARES: Zone = Zone {
    cylinder_spares: 2,
    ..ZONE
};

const FOUR_SPARES: Zone = Zone {
    track_skew: 2,
    cylinder_skew: 3,
    cylinder_spares: 4,
    ..ZONE
};

// Where the head stands at first.
const SOURCE: Track = Track {
    cylinder: 0,
    head: 0,
};

// No instant of a small service comes later.
const LATE: Ns = 1_000_000_000;

// The distances and times of the arm's moves.
const POINTS: &[SeekPoint] = &[
    SeekPoint {
        distance: 1,
        time: 300,
    },
    SeekPoint {
        distance: 3,
        time: 500,
    },
];

// The disk of a geometry.
fn disk_of(alloc: Global, geometry: Geometry) -> Result<Disk, Fail> {
    let points = POINTS.to_vec(alloc)?;
    let map = SectorMap::new(alloc, geometry)?;
    let geometry = map.geometry();
    let mechanism = Mechanism::new(points, geometry.cylinders(), 200, 50)?;
    let disk = Disk::new(map, mechanism, 16);
    Ok(disk)
}

// A small disk: where its spares are, its zone, and its bad slots.
struct Small {
    layout: Layout,
    zone: Zone,
    defects: &'static [Place],
    grown: &'static [Place],
}

const PLAIN: Small = Small {
    layout: Layout::PerTrack,
    zone: ZONE,
    defects: &[],
    grown: &[],
};

const THREE_BAD: &[Place] = &[
    Place {
        track: SOURCE,
        slot: 3,
    },
    Place {
        track: Track {
            cylinder: 1,
            head: 1,
        },
        slot: 0,
    },
    Place {
        track: Track {
            cylinder: 2,
            head: 0,
        },
        slot: 11,
    },
];

const THREE_GROWN: &[Place] = &[
    Place {
        track: Track {
            cylinder: 0,
            head: 1,
        },
        slot: 4,
    },
    Place {
        track: Track {
            cylinder: 1,
            head: 0,
        },
        slot: 5,
    },
    Place {
        track: Track {
            cylinder: 1,
            head: 0,
        },
        slot: 6,
    },
];

fn small_disk(alloc: Global, small: &Small) -> Result<Disk, Fail> {
    let geometry = match small.layout {
        Layout::PerTrack => per_track(alloc, small.zone, small.defects)?,
        Layout::PerCylinder => per_cylinder(alloc, small.zone, small.defects, small.grown)?,
    };
    disk_of(alloc, geometry?)
}

// The sectors that a request asks for, and whether it writes them.
#[derive(Clone, Copy)]
struct Access {
    lbn: u64,
    count: u32,
    write: bool,
}

// Whether these sectors lie on the disk and are some, but not too many.
fn is_access(disk: &Disk, access: Access) -> bool
    ensures { result ≡ true → IsAccess disk.now.map access.lbn access.count }
{
    let sectors = disk.map.count();
    0 < access.count
        && access.count <= 2048
        && access.lbn <= sectors
        && access.count as u64 <= sectors - access.lbn
}

// When the first of these sectors begins to pass, when the last one has passed, and in how many
// extents; `None` where the disk can't serve them.
fn times_of(
    alloc: Global,
    disk: &Disk,
    now: Ns,
    access: Access,
) -> Result<Option<(Ns, Ns, usize)>, Fail> {
    if !is_access(disk, access) || now > LATE {
        return Ok(None);
    }
    let service = serve(
        alloc,
        disk,
        SOURCE,
        now,
        access.lbn,
        access.count,
        access.write,
    )?;
    Ok(Some((service.media, service.finish, service.extents.len())))
}

// A read on a small disk, and when and in how many extents it is served.
struct Wait {
    small: Small,
    now: Ns,
    lbn: u64,
    count: u32,
    times: (Ns, Ns, usize),
}

const WAITS: &[Wait] = &[
    Wait {
        small: PLAIN,
        now: 0,
        lbn: 5,
        count: 1,
        times: (500, 600, 1),
    },
    Wait {
        small: PLAIN,
        now: 500,
        lbn: 5,
        count: 1,
        times: (500, 600, 1),
    },
    Wait {
        small: PLAIN,
        now: 501,
        lbn: 5,
        count: 1,
        times: (1700, 1800, 1),
    },
    Wait {
        small: PLAIN,
        now: 0,
        lbn: 11,
        count: 2,
        times: (1100, 2500, 2),
    },
    Wait {
        small: Small {
            zone: SKEWED,
            ..PLAIN
        },
        now: 0,
        lbn: 11,
        count: 2,
        times: (1100, 1500, 2),
    },
    Wait {
        small: PLAIN,
        now: 0,
        lbn: 0,
        count: 24,
        times: (0, 3600, 2),
    },
    Wait {
        small: Small {
            zone: SPARED,
            defects: BAD,
            ..PLAIN
        },
        now: 0,
        lbn: 2,
        count: 2,
        times: (200, 500, 2),
    },
    Wait {
        small: Small {
            zone: UNEVEN,
            ..PLAIN
        },
        now: 0,
        lbn: 3,
        count: 1,
        times: (514, 685, 1),
    },
    Wait {
        small: Small {
            layout: Layout::PerCylinder,
            zone: TWO_SPARES,
            grown: BAD,
            ..PLAIN
        },
        now: 0,
        lbn: 2,
        count: 3,
        times: (200, 1700, 3),
    },
];

fn check_times(rt: &impl Abort, alloc: Global, disk: &Disk, wait: &Wait) -> Result<(), Fail> {
    let access = Access {
        lbn: wait.lbn,
        count: wait.count,
        write: false,
    };
    let times = times_of(alloc, disk, wait.now, access)?;
    assert_eq!(rt; times, Some(wait.times));
    Ok(())
}

fn check_wait(rt: &impl Abort, alloc: Global, wait: &Wait) -> Result<(), Fail> {
    let disk = small_disk(alloc, &wait.small)?;
    check_times(rt, alloc, &disk, wait)
}

#[test]
fn waits_for_each_extent(rt: HostRuntime) -> Result<(), Fail> {
    for wait in WAITS {
        check_wait(&rt, rt.alloc(), wait)?;
    }
    Ok(())
}

// Appends the passages of an extent, unless it isn't on the disk.
fn push_passages(
    disk: &Disk,
    extent: &Extent,
    passages: &mut Vec<Passage>,
) -> Result<(), NoMemory> {
    let access = Access {
        lbn: extent.first,
        count: extent.count,
        write: false,
    };
    if is_access(disk, access) && extent.begin <= LATE {
        for i in 0..extent.count {
            passages.push(nth_passage(disk, extent, i))?;
        }
    }
    Ok(())
}

// Appends the passages of these extents.
fn push_all(disk: &Disk, extents: &[Extent], passages: &mut Vec<Passage>) -> Result<(), NoMemory> {
    for extent in extents {
        push_passages(disk, extent, passages)?;
    }
    Ok(())
}

// The passages of these sectors, by their extents.
fn by_extents(alloc: Global, disk: &Disk, access: Access) -> Result<Vec<Passage>, Fail>
    requires { IsAccess disk.now.map access.lbn access.count }
{
    let service = serve(
        alloc,
        disk,
        SOURCE,
        0,
        access.lbn,
        access.count,
        access.write,
    )?;
    let mut passages = Vec::new(alloc);
    push_all(disk, service.extents.as_slice(), &mut passages)?;
    Ok(passages)
}

// The passages of the same sectors, each served as a request of its own as soon as the one before
// has passed.
fn one_by_one(alloc: Global, disk: &Disk, access: Access) -> Result<Vec<Passage>, Fail>
    requires { IsAccess disk.now.map access.lbn access.count }
{
    let mut passages = Vec::new(alloc);
    let mut source = SOURCE;
    let mut now = 0;
    for lbn in access.lbn..access.lbn + access.count as u64 {
        if now > LATE {
            break;
        }
        let service = serve(alloc, disk, source, now, lbn, 1, access.write)?;
        passages.push(Passage {
            lbn,
            begin: service.media,
            end: service.finish,
        })?;
        source = service.last_track;
        now = service.finish;
    }
    Ok(passages)
}

// Whether the extents stand for the passages of the single sectors.
fn agrees(alloc: Global, disk: &Disk, access: Access) -> Result<bool, Fail> {
    if !is_access(disk, access) {
        return Ok(false);
    }
    let whole = by_extents(alloc, disk, access)?;
    let single = one_by_one(alloc, disk, access)?;
    Ok(whole.len() == access.count as usize && whole.as_slice() == single.as_slice())
}

// A request on a small disk.
struct Served {
    small: Small,
    lbn: u64,
    count: u32,
    write: bool,
}

// A disk with bad slots of both kinds.
const CROWDED: Small = Small {
    layout: Layout::PerCylinder,
    zone: FOUR_SPARES,
    defects: THREE_BAD,
    grown: THREE_GROWN,
};

const SERVED: &[Served] = &[
    Served {
        small: PLAIN,
        lbn: 0,
        count: 96,
        write: true,
    },
    Served {
        small: Small {
            zone: SKEWED,
            ..PLAIN
        },
        lbn: 11,
        count: 2,
        write: false,
    },
    Served {
        small: Small {
            zone: UNEVEN,
            ..PLAIN
        },
        lbn: 5,
        count: 30,
        write: true,
    },
    Served {
        small: Small {
            zone: SPARED,
            defects: THREE_BAD,
            ..PLAIN
        },
        lbn: 0,
        count: 80,
        write: true,
    },
    Served {
        small: CROWDED,
        lbn: 0,
        count: 80,
        write: false,
    },
    Served {
        small: CROWDED,
        lbn: 15,
        count: 16,
        write: true,
    },
];

fn check_served(rt: &impl Abort, alloc: Global, served: &Served) -> Result<(), Fail> {
    let disk = small_disk(alloc, &served.small)?;
    let access = Access {
        lbn: served.lbn,
        count: served.count,
        write: served.write,
    };
    check_agrees(rt, agrees(alloc, &disk, access))
}

fn check_agrees(rt: &impl Abort, agrees: Result<bool, Fail>) -> Result<(), Fail> {
    assert!(rt; agrees?);
    Ok(())
}

#[test]
fn extents_stand_for_single_sectors(rt: HostRuntime) -> Result<(), Fail> {
    for served in SERVED {
        check_served(&rt, rt.alloc(), served)?;
    }
    Ok(())
}

// Whether the waits that are found from the way to a cylinder end as the first sectors begin to
// pass.
fn agrees_on_cylinder(disk: &Disk, now: Ns, write: bool) -> bool {
    if now > LATE || disk.map.count() == 0 {
        return false;
    }
    let from = departure_from(disk, SOURCE, now);
    let first = approach_to(disk, from, 0);
    for lbn in 0..disk.map.count() {
        let near = approach_on(disk, from, first, lbn);
        if first_pass(disk, SOURCE, now, lbn, write) - now
            != wait_on(disk, from, &near, lbn, write)
        {
            return false;
        }
    }
    true
}

// A small disk, and when the head departs.
struct Departure {
    small: Small,
    now: Ns,
}

const DEPARTURES: &[Departure] = &[
    Departure {
        small: Small {
            zone: SKEWED,
            ..PLAIN
        },
        now: 0,
    },
    Departure {
        small: Small {
            zone: UNEVEN,
            ..PLAIN
        },
        now: 350,
    },
    Departure {
        small: Small {
            zone: SPARED,
            defects: THREE_BAD,
            ..PLAIN
        },
        now: 1234,
    },
    Departure {
        small: Small {
            layout: Layout::PerCylinder,
            zone: FOUR_SPARES,
            ..PLAIN
        },
        now: 5999,
    },
    Departure {
        small: Small {
            layout: Layout::PerCylinder,
            zone: FOUR_SPARES,
            defects: THREE_BAD,
            ..PLAIN
        },
        now: 100_000_007,
    },
];

fn check_departure(rt: &impl Abort, alloc: Global, departure: &Departure) -> Result<(), Fail> {
    let disk = small_disk(alloc, &departure.small)?;
    assert!(rt; agrees_on_cylinder(&disk, departure.now, false));
    assert!(rt; agrees_on_cylinder(&disk, departure.now, true));
    Ok(())
}

#[test]
fn waits_on_cylinders_end_at_passages(rt: HostRuntime) -> Result<(), Fail> {
    for departure in DEPARTURES {
        check_departure(&rt, rt.alloc(), departure)?;
    }
    Ok(())
}
