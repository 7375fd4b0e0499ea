// Sectors that follow one another in a turn of a track, with their LBNs.
ghost use Rattle.std.specs.Prelude.{◌≡◌, ◌↔◌, ◌+◌, ◌-◌, ◌*◌, ◌%◌, ◌<◌, ◌≤◌, length, true};
ghost use Rattle.fb_geometry.specs.Shape.{slots_at, IsTrackOf};
ghost use Rattle.fb_geometry.specs.Places.{places};
ghost use Rattle.fb_sectormap.specs.LookUp.{place_at};
ghost use Rattle.fb_sectormap.specs.Runs.{IsSpan};

use crate::SectorMap;
use fb_geometry::Stretch;
use fb_units::Place;

/// Sectors in neighbouring slots of one turn of a track, looked up once for the blocks that are cut
/// from them.
#[derive(Clone, Copy)]
pub struct Span {
    /// The LBN of the first sector.
    pub first: u64,
    /// The place of the first sector, and how many sectors there are.
    pub stretch: Stretch,
}

impl Span {
    /// Whether it has this sector.
    pub fn has(&self, lbn: u64) -> bool
        ensures { (result ≡ true) ↔ ((self.now.first ≤ lbn) × (lbn < self.now.first + self.now.stretch.count)) }
    {
        self.first <= lbn && lbn - self.first < self.stretch.count as u64
    }
}

// The number modulo n, for a number less than twice n.
fn wrapped(number: u32, n: u32) -> u32
    requires { number < 2 * n }
    ensures { result ≡ number % n }
{
    if number < n { number } else { number - n }
}

impl SectorMap {
    /// The sectors in neighbouring slots from this one on.
    pub fn span(&self, lbn: u64) -> Span
        requires { lbn < length (places self.now) }
        ensures span { IsSpan self.now result }
        ensures first { result.first ≡ lbn }
    {
        Span {
            first: lbn,
            stretch: self.stretch(lbn),
        }
    }

    // The place of a sector: by the span, if that has the sector.
    pub(crate) fn place_near(&self, span: &Span, lbn: u64) -> Place
        requires span { IsSpan self.now span.now }
        requires on_disk { lbn < length (places self.now) }
        ensures value { result ≡ place_at self.now lbn }
        ensures track { IsTrackOf self.now result.track }
        ensures slot { result.slot < slots_at self.now.zones result.track.cylinder }
    {
        if !span.has(lbn) {
            return self.place(lbn);
        }
        let place = span.stretch.place;
        let slots = self.geometry().slots(place.track);
        Place {
            track: place.track,
            slot: wrapped(place.slot + (lbn - span.first) as u32, slots),
        }
    }
}
