// The service of a request, by extents.
ghost use Rattle.std.specs.Prelude.{◌≡◌, ◌+◌, ◌-◌, ◌*◌, ◌<◌, ◌≤◌, ◌^◌, [], ◌∷◌, ◌++◌, length, IfOk, OnOk};
ghost use Rattle.fb_geometry.specs.Shape.{IsTrackOf, cylinders_of, slots_at};
ghost use Rattle.fb_geometry.specs.Places.{places};
ghost use Rattle.fb_seek.specs.Positioning.{pos};
ghost use Rattle.fb_service.specs.Passing.{begin_angle, begin_from, turned, ArePassing};
ghost use Rattle.std.specs.List.{AllByRecursion};
ghost use Rattle.fb_sectormap.specs.LookUp.{place_at};
ghost use Rattle.fb_service.specs.Service.{passage_from, passages, IsAccess, media_of, finish_of};
ghost use Rattle.fb_service.specs.Extents.{passages_of, all_passages_of, IsUnbroken};

use crate::{Disk, Extent, Passage};
use fb_geometry::Geometry;
use fb_units::{NoMemory, Ns, Place, Track, wait_for};
use smallvec::SmallVec;
use std::alloc::Global;

/// How a request is served. Instants are in nanoseconds.
#[derive(Drop)]
pub struct Service {
    /// The sectors of the request in ascending order, grouped by passing without a wait.
    pub extents: SmallVec<Extent, 4>,
    /// The media instant, at which the first sector begins to pass.
    pub media: Ns,
    /// The instant at which the last sector has passed.
    pub finish: Ns,
    /// The track of the last sector, on which the head then is.
    pub last_track: Track,
}

// The first instant, from this one on, at which a slot begins to pass.
fn next_begin(geometry: &Geometry, place: Place, from: Ns) -> Ns
    requires track { place.track.cylinder < cylinders_of geometry.now.zones }
    requires slot { place.slot < slots_at geometry.now.zones place.track.cylinder }
    requires from { from ≤ 10 ^ 19 }
    ensures value { result ≡ begin_from geometry.now place from }
    ensures angle { begin_angle geometry.now place < geometry.now.rotation }
    ensures after { from ≤ result }
    ensures soon { result < from + 10 ^ 9 }
{
    let angle = geometry.slot_begin(place.track, place.slot);
    from + wait_for(geometry.rotation(), angle, from)
}

// How long this slot and its neighbours take to pass, `count` slots in all.
fn passing_time(geometry: &Geometry, place: Place, count: u32) -> Ns
    requires track { place.track.cylinder < cylinders_of geometry.now.zones }
    requires slot { place.slot < slots_at geometry.now.zones place.track.cylinder }
    requires some { 0 < count }
    requires few { count ≤ slots_at geometry.now.zones place.track.cylinder }
    ensures value { result ≡ turned geometry.now place count }
    ensures takes_time { 0 < result }
    ensures one_turn { result ≤ geometry.now.rotation }
    ensures room { slots_at geometry.now.zones place.track.cylinder ≤ geometry.now.rotation }
{
    let slots = geometry.slots(place.track);
    let begin = geometry.slot_begin(place.track, place.slot);
    let last = place.slot + count - 1;
    if last < slots {
        geometry.slot_end(place.track, last) - begin
    } else {
        geometry.rotation() - begin + geometry.slot_end(place.track, last - slots)
    }
}

/// The instant, in nanoseconds, at which the first sector of a request begins to pass, if the
/// request starts at `now` with the head on the source track.
pub fn first_pass(disk: &Disk, source: Track, now: Ns, lbn: u64, write: bool) -> Ns
    requires source { IsTrackOf disk.now.map source }
    requires block { lbn < length (places disk.now.map) }
    requires now { now ≤ 9 * 10 ^ 18 }
    ensures value { result ≡ begin_from disk.now.map (place_at disk.now.map lbn) (now
        + pos disk.now.mechanism source (place_at disk.now.map lbn).track write) }
    ensures after { now ≤ result }
    ensures soon { result < now + 3 * 10 ^ 9 }
{
    let place = disk.map.place(lbn);
    let from = now + disk.mechanism.pos(source, place.track, write);
    next_begin(disk.map.geometry(), place, from)
}

/// The passage of an extent's i-th sector, counted from 0.
pub fn nth_passage(disk: &Disk, extent: &Extent, i: u32) -> Passage
    requires sector { i < extent.now.count }
    requires blocks { extent.now.first + extent.now.count ≤ length (places disk.now.map) }
    requires begin { extent.now.begin ≤ 10 ^ 19 }
    ensures { result ≡ passage_from disk.now.map (extent.now.first + i) extent.now.begin }
{
    let geometry = disk.map.geometry();
    let lbn = extent.first + i as u64;
    let place = disk.map.place(lbn);
    let begin = next_begin(geometry, place, extent.begin);
    let end = begin + passing_time(geometry, place, 1);
    Passage { lbn, begin, end }
}

// The extent of a sector and of those that pass directly after it, at most `most` in all, once the
// head has got to their track.
fn stretch_extent(disk: &Disk, source: Track, now: Ns, lbn: u64, most: u32, write: bool) -> Extent
    requires source { IsTrackOf disk.now.map source }
    requires some { 0 < most }
    requires blocks { lbn + most ≤ length (places disk.now.map) }
    requires now { now ≤ 10 ^ 19 - 2 * 10 ^ 9 }
    ensures first { result.first ≡ lbn }
    ensures bound { result.count ≤ most }
    ensures on_disk { IsTrackOf disk.now.map result.track }
    ensures begin { result.begin ≡ begin_from disk.now.map (place_at disk.now.map lbn) (now
        + pos disk.now.mechanism source (place_at disk.now.map lbn).track write) }
    ensures unbroken { IsUnbroken disk.now.map result }
    ensures timed { ArePassing disk.now.map lbn result.count }
    ensures after { now ≤ result.begin }
    ensures takes_time { result.begin < result.end }
    ensures soon { result.end ≤ now + 4 * 10 ^ 9 }
{
    let geometry = disk.map.geometry();
    let stretch = disk.map.stretch(lbn);
    let place = stretch.place;
    let count = stretch.count.min(most);
    let from = now + disk.mechanism.pos(source, place.track, write);
    let begin = next_begin(geometry, place, from);
    let end = begin + passing_time(geometry, place, count);
    Extent {
        track: place.track,
        first: lbn,
        count,
        begin,
        end,
    }
}

// Adds an extent behind the last one. It becomes part of the last one if it goes on there without a
// wait and both together pass within a rotation.
fn add_extent(
    disk: &Disk,
    extents: &mut SmallVec<Extent, 4>,
    last: &mut Extent,
    next: Extent,
) -> Result<(), NoMemory>
    requires next { last.old.first + last.old.count ≡ next.first }
    requires room { last.old.count + next.count < 2 ^ 32 }
    requires forward { last.old.begin < last.old.end }
    requires after { last.old.end ≤ next.begin }
    requires takes_time { next.begin < next.end }
    requires unbroken { IsUnbroken disk.now.map last.old }
    requires next_unbroken { IsUnbroken disk.now.map next }
    requires timed { ArePassing disk.now.map next.first next.count }
    requires extents { AllByRecursion (IsUnbroken disk.now.map) extents.old.items }
    ensures passages { OnOk result (all_passages_of disk.now.map extents.new.items ++ passages_of disk.now.map last.new
        ≡ (all_passages_of disk.now.map extents.old.items ++ passages_of disk.now.map last.old) ++ passages_of disk.now.map next) }
    ensures unbroken { OnOk result (IsUnbroken disk.now.map last.new) }
    ensures extents { OnOk result (AllByRecursion (IsUnbroken disk.now.map) extents.new.items) }
    ensures track { OnOk result (last.new.track ≡ next.track) }
    ensures next { OnOk result (last.new.first + last.new.count ≡ next.first + next.count) }
    ensures few { OnOk result (last.new.count ≤ last.old.count + next.count) }
    ensures forward { OnOk result (last.new.begin < last.new.end) }
    ensures end { OnOk result (last.new.end ≡ next.end) }
{
    let rotation = disk.map.geometry().rotation();
    let without_wait = next.track == last.track && next.begin == last.end;
    if without_wait && next.end - last.begin <= rotation {
        last.end = next.end;
        last.count += next.count;
    } else {
        extents.push(*last)?;
        *last = next;
    }
    Ok(())
}

/// How a request for `count` sectors from `lbn` on, from 1 to 2,048, is served that starts at `now`, in
/// ns, with the head on the source track: sector after sector, in ascending order. For a write the head settles on each
/// track that it comes to, but not on the source track. Its only error is `NoMemory`, out of memory.
pub fn serve(
    alloc: Global,
    disk: &Disk,
    source: Track,
    now: Ns,
    lbn: u64,
    count: u32,
    write: bool,
) -> Result<Service, NoMemory>
    requires source { IsTrackOf disk.now.map source }
    requires access { IsAccess disk.now.map lbn count }
    requires now { now ≤ 9 * 10 ^ 18 }
    ensures passages { IfOk result (λ service. all_passages_of disk.now.map service.extents.items ≡ passages disk.now source now write lbn count) }
    ensures media { IfOk result (λ service. service.media ≡ media_of (passages disk.now source now write lbn count)) }
    ensures finish { IfOk result (λ service. service.finish ≡ finish_of now (passages disk.now source now write lbn count)) }
    ensures last_track { IfOk result (λ service. service.last_track ≡ (place_at disk.now.map (lbn + count - 1)).track) }
    ensures on_disk { IfOk result (λ service. IsTrackOf disk.now.map service.last_track) }
    ensures after { IfOk result (λ service. now ≤ service.media) }
    ensures later { IfOk result (λ service. service.media < service.finish) }
    ensures each { IfOk result (λ service. AllByRecursion (λ passage. passage.begin < passage.end) (passages disk.now source now write lbn count)) }
    ensures soon { IfOk result (λ service. service.finish ≤ now + count * (4 * 10 ^ 9)) }
    ensures unbroken { IfOk result (λ service. AllByRecursion (IsUnbroken disk.now.map) service.extents.items) }
{
    let mut extents = SmallVec::new(alloc);
    let mut last = stretch_extent(disk, source, now, lbn, count, write);
    let media = last.begin;
    let mut served = last.count;
    while served < count {
        let from = lbn + served as u64;
        let left = count - served;
        let next = stretch_extent(disk, last.track, last.end, from, left, write);
        served += next.count;
        add_extent(disk, &mut extents, &mut last, next)?;
    }
    extents.push(last)?;
    Ok(Service {
        extents,
        media,
        finish: last.end,
        last_track: last.track,
    })
}
