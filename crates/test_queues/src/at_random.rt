// Requests on one cylinder, taken by the plain and the fast queue of each policy.
ghost use Rattle.std.specs.Prelude.{◌≡◌, ◌+◌, ◌<◌, ◌≤◌, ◌^◌, [], length, true, OnOk};
ghost use Rattle.std.specs.List.{AllByRecursion};
ghost use Rattle.fb_geometry.specs.Shape.{IsTrackOf, cylinders_of};
ghost use Rattle.fb_geometry.specs.Places.{places};
ghost use Rattle.fb_model.specs.Accepted.{IsRequestOf};

use fb_fastq::{ClookMap, FcfsRing, SptfBuckets, SstfMap};
use fb_geometry::{Geometry, Layout, Zone};
use fb_queue::{Clook, Fcfs, Queue, Sptf, Sstf};
use fb_sectormap::SectorMap;
use fb_seek::{Mechanism, SeekPoint};
use fb_service::Disk;
use fb_units::{Name, NoMemory, Request, Track};
use std::alloc::Global;
use std::process::Abort;
use std::test::Fail;

// Four cylinders of 24 sectors, of which slots on different tracks begin at the same angles.
const ZONE: Zone = Zone {
    first: 0,
    last: 3,
    sectors: 12,
    track_skew: 0,
    cylinder_skew: 0,
    spares: 0,
    cylinder_spares: 0,
};

// How often a request joins or is taken.
const STEPS: u64 = 2000;

// The disk, whose platter turns in 1,200 ns.
fn small_disk(alloc: Global) -> Result<Disk, Fail> {
    let mut zones = Vec::new(alloc);
    zones.push(ZONE)?;
    let geometry = Geometry::new(
        alloc,
        Layout::PerTrack,
        1200,
        2,
        zones,
        Vec::new(alloc),
        Vec::new(alloc),
    )?;
    let map = SectorMap::new(alloc, geometry)?;
    let mut points = Vec::new(alloc);
    for (distance, time) in [(1, 300), (3, 500)] {
        points.push(SeekPoint { distance, time })?;
    }
    let mechanism = Mechanism::new(points, map.geometry().cylinders(), 200, 50)?;
    let disk = Disk::new(map, mechanism, 16);
    Ok(disk)
}

// Whether the disk has all requests and tracks that are drawn.
fn has_room(disk: &Disk) -> bool
    ensures sectors { result ≡ true → 48 ≤ length (places disk.now.map) }
    ensures cylinders { result ≡ true → 4 ≤ cylinders_of disk.now.map.zones }
    ensures heads { result ≡ true → 2 ≤ disk.now.map.heads }
{
    let geometry = disk.map.geometry();
    48 <= disk.map.count() && 4 <= geometry.cylinders() && 2 <= geometry.heads()
}

// A linear congruential generator with Knuth's factor.
#[derive(Drop)]
struct Draw {
    state: u64,
}

impl Draw {
    // A number below this one.
    fn below(&mut self, end: u64) -> u64
        requires { 0 < end }
        ensures { result < end }
    {
        self.state = self
            .state
            .wrapping_mul(6_364_136_223_846_793_005)
            .wrapping_add(1);
        (self.state >> 33) % end
    }

    // A request for a sector of the second cylinder, or at times of the first or second one.
    fn request(&mut self, disk: &Disk, number: u32) -> Request
        requires { 48 ≤ length (places disk.now.map) }
        ensures { IsRequestOf disk.now.map result }
    {
        Request {
            name: Name::Traced(u64::from(number)),
            arrival: 0,
            lbn: if self.below(4) == 0 {
                self.below(48)
            } else {
                24 + self.below(24)
            },
            count: 1,
            write: self.below(2) == 0,
        }
    }

    // A track of the first four cylinders.
    fn track(&mut self, disk: &Disk) -> Track
        requires cylinders { 4 ≤ cylinders_of disk.now.map.zones }
        requires heads { 2 ≤ disk.now.map.heads }
        ensures { IsTrackOf disk.now.map result }
    {
        Track {
            cylinder: self.below(4) as u32,
            head: self.below(2) as u32,
        }
    }
}

// A request joins a queue or is taken from it, at random: for the first half of the steps three of four join, so that some
// five hundred wait then.
fn step<Q: Queue>(
    disk: &Disk,
    draw: &mut Draw,
    number: u64,
    queue: &mut Q,
) -> Result<Option<Request>, NoMemory>
    requires sectors { 48 ≤ length (places disk.now.map) }
    requires cylinders { 4 ≤ cylinders_of disk.now.map.zones }
    requires heads { 2 ≤ disk.now.map.heads }
    requires joined { Q.joined queue.old ≤ number }
    requires few { number < 2 ^ 32 }
    requires fits { Q.fits queue.old disk.now }
    requires on_disk { AllByRecursion (IsRequestOf disk.now.map) (Q.pending queue.old) }
    ensures joined { OnOk result (Q.joined queue.new ≤ number + 1) }
    ensures fits { OnOk result (Q.fits queue.new disk.now) }
    ensures on_disk { OnOk result (AllByRecursion (IsRequestOf disk.now.map) (Q.pending queue.new)) }
{
    let joins = if number < STEPS / 2 { 3 } else { 1 };
    if draw.below(4) < joins || queue.is_empty() {
        let request = draw.request(disk, number as u32);
        queue.add(request)?;
        return Ok(None);
    }
    let head = draw.track(disk);
    let now = draw.below(1_000_000);
    Ok(Some(queue.take(disk, head, now)))
}

// The requests that are taken from a queue, in order.
fn taken<Q: Queue>(alloc: Global, disk: &Disk, queue: Q) -> Result<Vec<Request>, NoMemory>
    requires sectors { 48 ≤ length (places disk.now.map) }
    requires cylinders { 4 ≤ cylinders_of disk.now.map.zones }
    requires heads { 2 ≤ disk.now.map.heads }
    requires empty { Q.pending queue ≡ [] }
    requires fresh { Q.joined queue ≡ 0 }
{
    let mut queue = queue;
    let mut draw = Draw { state: 1 };
    let mut taken = Vec::new(alloc);
    for number in 0..STEPS {
        if let Some(request) = step(disk, &mut draw, number, &mut queue)? {
            taken.push(request)?;
        }
    }
    Ok(taken)
}

// Checks that two queues give the same requests in the same order.
fn check_alike<P: Queue, I: Queue>(
    rt: &impl Abort,
    alloc: Global,
    disk: &Disk,
    plain: P,
    fast: I,
) -> Result<(), Fail>
    requires plain { P.pending plain ≡ [] }
    requires plain_fresh { P.joined plain ≡ 0 }
    requires fast { I.pending fast ≡ [] }
    requires fast_fresh { I.joined fast ≡ 0 }
{
    let roomy = has_room(disk);
    assert!(rt; roomy);
    let plain = taken(alloc, disk, plain)?;
    let fast = taken(alloc, disk, fast)?;
    assert!(rt; 800 < plain.len());
    assert_eq!(rt; plain.as_slice(), fast.as_slice());
    Ok(())
}

#[test]
fn fast_queues_take_as_plain_ones(rt: HostRuntime) -> Result<(), Fail> {
    let alloc = rt.alloc();
    let disk = small_disk(alloc)?;
    check_alike(&rt, alloc, &disk, Fcfs::new(alloc), FcfsRing::new(alloc))?;
    check_alike(&rt, alloc, &disk, Sstf::new(alloc), SstfMap::new(alloc))?;
    check_alike(&rt, alloc, &disk, Clook::new(alloc), ClookMap::new(alloc))?;
    check_alike(&rt, alloc, &disk, Sptf::new(alloc), SptfBuckets::new(alloc))
}
