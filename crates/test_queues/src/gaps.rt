// Gaps on small disks, the blocks that are wanted there, and the plans that the planners choose.
ghost use Rattle.std.specs.Prelude.{◌≡◌, ◌<◌, ◌≤◌, ◌+◌, true, length, IfOk, IfSome};
ghost use Rattle.fb_geometry.specs.Shape.{IsTrackOf};
ghost use Rattle.fb_geometry.specs.Places.{places};
ghost use Rattle.fb_model.specs.Blocks.{IsBlockOn};
ghost use Rattle.fb_plan.specs.Ways.{IsGap, AreOnDisk};

use fb_detour::IndexedPlanner;
use fb_geometry::{Geometry, Layout, Zone};
use fb_plan::{Planner, SlowPlanner, caught, dwells};
use fb_rows::{Gap, Plan};
use fb_sectormap::SectorMap;
use fb_seek::{Mechanism, SeekPoint};
use fb_service::Disk;
use fb_units::{NoMemory, Ns, Track};
use fb_wanted::{Block, Wanted};
use std::alloc::Global;

/// A seek table whose times rise with the distance.
pub const LINEAR: &[SeekPoint] = &[
    SeekPoint {
        distance: 1,
        time: 300,
    },
    SeekPoint {
        distance: 3,
        time: 500,
    },
];

/// A seek table by which two short moves take less time than one long move.
pub const STEEP: &[SeekPoint] = &[
    SeekPoint {
        distance: 1,
        time: 100,
    },
    SeekPoint {
        distance: 2,
        time: 400,
    },
    SeekPoint {
        distance: 3,
        time: 400,
    },
];

/// A block that is wanted, or held back.
#[derive(Clone, Copy)]
pub struct Wish {
    /// The first sector.
    pub lbn: u64,
    /// How many sectors.
    pub count: u32,
    /// The weight of each sector, from 1 to 1,000.
    pub weight: u32,
    /// Whether the block is held back, so that it may not be delivered.
    pub suspended: bool,
}

/// A disk with two heads and twelve slots a track, and a gap on it.
#[derive(Clone, Copy)]
pub struct Setting<'a> {
    /// The disk's seek table.
    pub seek: &'a [SeekPoint],
    /// The last cylinder, from 0.
    pub last_cylinder: u32,
    /// The skew from track to track, in slots.
    pub track_skew: u32,
    /// The gap.
    pub gap: Gap,
}

/// What the planners choose for a gap.
#[derive(Drop)]
pub struct Chosen {
    /// The plan of the planner that tries every track.
    pub slow: Plan,
    /// The plan of the planner that passes over tracks.
    pub indexed: Plan,
    /// The blocks that the slow planner's plan catches: first sector, begin and end of the passage
    /// in ns.
    pub passages: Vec<(u64, Ns, Ns)>,
}

// The disk, unless it is refused.
fn disk_of(alloc: Global, setting: &Setting) -> Result<Option<Disk>, NoMemory> {
    let zone = Zone {
        first: 0,
        last: setting.last_cylinder,
        sectors: 12,
        track_skew: setting.track_skew,
        cylinder_skew: 0,
        spares: 0,
        cylinder_spares: 0,
    };
    let mut zones = Vec::new(alloc);
    zones.push(zone)?;
    let map = match Geometry::new(
        alloc,
        Layout::PerTrack,
        1200,
        2,
        zones,
        Vec::new(alloc),
        Vec::new(alloc),
    ) {
        Ok(geometry) => SectorMap::new(alloc, geometry)?,
        Err(_) => return Ok(None),
    };
    let points = setting.seek.to_vec(alloc)?;
    let Ok(mechanism) = Mechanism::new(points, map.geometry().cylinders(), 200, 50) else {
        return Ok(None);
    };
    let disk = Disk::new(map, mechanism, 16);
    Ok(Some(disk))
}

// The task's next block; `None` where the wish isn't exactly one block of the disk.
fn block_of(disk: &Disk, number: u32, wish: Wish) -> Option<Block>
    ensures fits { IfSome result (λ block. IsBlockOn disk.now.map block) }
    ensures numbered { IfSome result (λ block. (block.task ≡ 0) × (block.index ≡ number)) }
{
    if wish.count == 0 {
        return None;
    }
    if wish.weight > 1000 {
        return None;
    }
    if disk.map.count() < wish.count as u64 {
        return None;
    }
    if disk.map.count() - (wish.count as u64) < wish.lbn {
        return None;
    }
    let cut = disk.map.first_cut(wish.lbn, wish.count as u64, 2048);
    if cut.count < wish.count {
        return None;
    }
    Some(Block {
        task: 0,
        index: number,
        lbn: cut.lbn,
        count: cut.count,
        track: cut.track,
        weight: wish.weight,
        sweep: cut.sweep,
    })
}

// The blocks of one task; `None` where a wish isn't exactly one block of the disk.
fn registered(alloc: Global, disk: &Disk, wishes: &[Wish]) -> Result<Option<Wanted>, NoMemory>
    ensures { IfOk result (λ some. IfSome some (λ blocks. AreOnDisk disk.now blocks)) }
{
    let mut blocks = Wanted::new(alloc);
    if wishes.len() > 100 {
        return Ok(None);
    }
    for i in 0..wishes.len() {
        match block_of(disk, i as u32, wishes[i]) {
            Some(block) => blocks.register(block, wishes[i].suspended)?,
            None => return Ok(None),
        }
    }
    Ok(Some(blocks))
}

// Whether the disk can have this gap.
fn is_gap(disk: &Disk, gap: &Gap) -> bool
    ensures { result ≡ true → IsGap disk.now gap.entry.now }
{
    if !is_on_disk(disk, gap.source) {
        return false;
    }
    if !is_on_disk(disk, gap.target) {
        return false;
    }
    if gap.deadline > 9_000_000_000_000_000_000 {
        return false;
    }
    if gap.deadline < gap.now {
        return false;
    }
    disk.mechanism.pos(gap.source, gap.target, gap.write) <= gap.deadline - gap.now
}

fn is_on_disk(disk: &Disk, track: Track) -> bool
    ensures { result ≡ true → IsTrackOf disk.now.map track }
{
    if track.cylinder < disk.map.geometry().cylinders() {
        track.head < disk.map.geometry().heads()
    } else {
        false
    }
}

/// What the planners choose; `None` where the disk, a block or the gap is refused.
///
/// The only error is out of memory.
pub fn answers(
    alloc: Global,
    setting: &Setting,
    wishes: &[Wish],
) -> Result<Option<Chosen>, NoMemory> {
    let Some(disk) = disk_of(alloc, setting)? else {
        return Ok(None);
    };
    let Some(blocks) = registered(alloc, &disk, wishes)? else {
        return Ok(None);
    };
    answers_on(alloc, &disk, &blocks, &setting.gap)
}

// What they choose on this disk for these blocks; `None` where the gap is refused.
fn answers_on(
    alloc: Global,
    disk: &Disk,
    wanted: &Wanted,
    gap: &Gap,
) -> Result<Option<Chosen>, NoMemory>
    requires { AreOnDisk disk.now wanted.now }
{
    if !is_gap(disk, gap) {
        return Ok(None);
    }
    let slow = SlowPlanner.best(disk, wanted, gap);
    let indexed = IndexedPlanner::new().best(disk, wanted, gap);
    let pair = dwells(disk, slow, gap);
    let mut passages = Vec::new(alloc);
    for catch in &caught(alloc, disk, wanted, pair.early)? {
        passages.push((catch.block.lbn, catch.begin, catch.end))?;
    }
    for catch in &caught(alloc, disk, wanted, pair.late)? {
        passages.push((catch.block.lbn, catch.begin, catch.end))?;
    }
    Ok(Some(Chosen {
        slow,
        indexed,
        passages,
    }))
}
