// A call script that is generated for a disk.
ghost use Rattle.std.specs.Prelude.{◌≡◌, ℕ, ◌++◌, ◌∷◌, [], Ok, OnOk, IfOk, codes, decimal};
ghost use Rattle.std.specs.List.{list_all};
ghost use Rattle.fb_maker.specs.Script.{script_text, most, first_zone, has_long_tracks, is_long, script_calls};
ghost use Rattle.fb_calls.specs.Reading.{calls_of};

use fb_geometry::{Geometry, Layout, Zone};
use fb_sectormap::SectorMap;
use fb_units::NoMemory;
use itoa::Buffer;
use std::alloc::Global;

const MOST_ON_LONG_TRACKS: u64 = 20_000_000;

const MOST_ON_SHORT_TRACKS: u64 = 1_000_000;

const LONG_TRACK: u32 = 16;

/// The text of the call script for a disk: a scrub of all its sectors and a backup of its first
/// zone, each wanted at instant 0, or as much of them as the limit on blocks is sure to allow. The
/// only error is `NoMemory`.
#[tactic(auto, unfolding(crate::specs::Script::script_lines))]
pub fn made_calls(alloc: Global, map: &SectorMap) -> Result<Vec<u8>, NoMemory>
    ensures { IfOk result (λ text. text.items ≡ script_text map.now) }
{
    let most = most(map.geometry());
    let mut text = Vec::new(alloc);
    text.extend_from_slice(b"0.000000 open scrub scrub 1 16\n")?;
    push_want(&mut text, b"0.000000 want scrub 0 ", map.count().min(most))?;
    text.extend_from_slice(b"0.000000 open backup backup 2 16\n")?;
    push_want(
        &mut text,
        b"0.000000 want backup 0 ",
        first_zone(map.geometry()).min(most),
    )?;
    Ok(text)
}

/// A generated script can be read: it is accepted for its disk, with any trace, as its four calls.
pub fn made_scripts_are_read(map: &SectorMap)
    ensures { (traced : ℕ) → calls_of map.now traced (script_text map.now)
        ≡ Ok (record { names = codes "scrub" ∷ codes "backup" ∷ []; calls = script_calls map.now }) }
{
    map.geometry().sound();
    // A disk has at most 10^12 sectors.
    let _sectors = map.count();
}

// Appends a line that ends in a number.
fn push_want(text: &mut Vec<u8>, front: &[u8], sectors: u64) -> Result<(), NoMemory>
    ensures { OnOk result (text.new.items ≡ text.old.items ++ (front.now ++ decimal sectors ++ 10 ∷ [])) }
{
    let mut buffer = Buffer::new();
    text.extend_from_slice(front)?;
    text.extend_from_slice(buffer.format(sectors).as_bytes())?;
    text.push(b'\n')?;
    Ok(())
}

// The most sectors that a range of the script has.
fn most(geometry: &Geometry) -> u64
    ensures { result ≡ most geometry.now }
{
    if has_long_tracks(geometry) {
        MOST_ON_LONG_TRACKS
    } else {
        MOST_ON_SHORT_TRACKS
    }
}

// Whether spares are at the end of each track, and no track is short.
fn has_long_tracks(geometry: &Geometry) -> bool
    ensures { result ≡ has_long_tracks geometry.now.layout geometry.now.zones }
{
    match geometry.layout() {
        Layout::PerTrack => are_long(geometry),
        Layout::PerCylinder => false,
    }
}

// Whether the tracks of all zones are long.
fn are_long(geometry: &Geometry) -> bool
    ensures { result ≡ list_all is_long geometry.now.zones }
{
    for i in 0..geometry.zones() {
        if !is_long(geometry.zone(i)) {
            return false;
        }
    }
    true
}

fn is_long(zone: Zone) -> bool
    ensures { result ≡ is_long zone }
{
    zone.sectors.saturating_sub(zone.spares) >= LONG_TRACK
}

// The number of sectors of the first zone.
fn first_zone(geometry: &Geometry) -> u64
    ensures { result ≡ first_zone geometry.now geometry.now.zones }
{
    geometry.sound();
    let zone = geometry.zone(0);
    let cylinders = u64::from(zone.last) + 1 - u64::from(zone.first);
    cylinders * u64::from(geometry.cylinder_sectors(zone.first))
}
